ghost use Rattle.std.specs.Prelude.{◌≡◌};
ghost use Rattle.journal_audit.specs.Verdicts.{verdict_of};

use audit_law::Failure;
use rounds_audit::{Verdict, Word};

/// The verdict, where this is the first test that fails.
pub fn verdict_of(failure: Option<Failure>) -> Verdict
    ensures { result ≡ verdict_of failure }
{
    match failure {
        None => Verdict::Lawful,
        Some(failure) => Verdict::Unlawful {
            line: failure.line,
            kept: Word::of(&failure.kept),
            lawful: Word::of(&failure.lawful),
        },
    }
}
