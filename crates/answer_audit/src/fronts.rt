ghost use Rattle.std.specs.Prelude.{◌≡◌, ◌≤◌, ◌==◌, ◌∷◌, ◌<◌, ◌*◌, [], length, map, sum};
ghost use Rattle.std.specs.List.{range_with_len};
ghost use Rattle.told_table.specs.Tables.{lists_of};
ghost use Rattle.audit_law.specs.declared.failure.Value.TheVariants.{Number};
ghost use Rattle.audit_law.specs.Tests.{first_failing, test};
ghost use Rattle.audit_law.specs.AnswerTests.{rising_test, within_test};
ghost use Rattle.octo_text.specs.Readable.{IsShortFront};

use audit_law::{Failure, Value};
use hash_rows::Push;

// The sum of the numbers of a front.
fn sum_of(front: &[u64]) -> u64
    requires workers { length front.now ≤ 16 }
    requires short { IsShortFront front.now }
    ensures { result ≡ sum front.now }
{
    let mut total = 0;
    for number in front {
        total += *number;
    }
    total
}

/// The front's sum isn't what was folded.
pub fn folded_failure(line: u32, folded: u64, front: &[u64]) -> Option<Failure>
    requires workers { length front.now ≤ 16 }
    requires short { IsShortFront front.now }
    ensures { result ≡ first_failing (test line (Number folded) (Number (sum front.now)) (folded == sum front.now) ∷ []) }
{
    let lawful = sum_of(front);
    if folded == lawful {
        None
    } else {
        Some(Failure {
            line,
            kept: Value::Number(folded),
            lawful: Value::Number(lawful),
        })
    }
}

/// The first worker that sent fewer messages than the front says.
pub fn within_failure(line: u32, front: &[u64], messages: &[Vec<Push>]) -> Option<Failure>
    requires { length front.now ≡ length messages.now }
    ensures { result ≡ first_failing (map (within_test line (lists_of messages.now) front.now) (range_with_len 0 (length messages.now))) }
{
    for worker in 0..messages.len() {
        let sent = messages[worker].len() as u64;
        if sent < front[worker] {
            return Some(Failure {
                line,
                kept: Value::Number(front[worker]),
                lawful: Value::Number(sent),
            });
        }
    }
    None
}

/// The first worker of which the front has fewer messages than the one before.
pub fn rising_failure(line: u32, before: &[u64], front: &[u64]) -> Option<Failure>
    requires { length before.now ≡ length front.now }
    ensures { result ≡ first_failing (map (rising_test line before.now front.now) (range_with_len 0 (length front.now))) }
{
    for worker in 0..front.len() {
        if front[worker] < before[worker] {
            return Some(Failure {
                line,
                kept: Value::Number(front[worker]),
                lawful: Value::Number(before[worker]),
            });
        }
    }
    None
}
