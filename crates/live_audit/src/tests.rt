ghost use Rattle.std.specs.Prelude.{◌≡◌, ◌∷◌, [], Bool};
ghost use Rattle.audit_law.specs.declared.failure.Value.TheVariants.{Key, Number, Signed};
ghost use Rattle.audit_law.specs.declared.failure.Value.{Value as Kept};
ghost use Rattle.audit_law.specs.Tests.{first_failing, test};
ghost use Rattle.audit_law.specs.LiveTests.{is_count_min, is_loglog};

use audit_law::{Failure, Value};
use hash_rows::Sketch;

/// The failure, where the test doesn't hold.
pub fn failure_of(line: u32, kept: Value, lawful: Value, holds: bool) -> Option<Failure>
    ensures { result ≡ first_failing (test line kept lawful holds ∷ []) }
{
    if holds {
        None
    } else {
        Some(Failure { line, kept, lawful })
    }
}

/// That of a test of two numbers.
pub fn number_failure(line: u32, kept: u64, lawful: u64, holds: bool) -> Option<Failure>
    ensures { result ≡ first_failing (test line (Number kept) (Number lawful) holds ∷ []) }
{
    failure_of(line, Value::Number(kept), Value::Number(lawful), holds)
}

pub fn is_loglog(sketch: Sketch) -> bool
    ensures { result ≡ is_loglog sketch }
{
    match sketch {
        Sketch::LogLog => true,
        Sketch::CountMin | Sketch::CountSketch => false,
    }
}

pub fn is_count_min(sketch: Sketch) -> bool
    ensures { result ≡ is_count_min sketch }
{
    match sketch {
        Sketch::CountMin => true,
        Sketch::CountSketch | Sketch::LogLog => false,
    }
}
