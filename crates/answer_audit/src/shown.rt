ghost use Rattle.std.specs.Prelude.{◌≡◌, length, map};
ghost use Rattle.std.specs.List.{range_with_len};
ghost use Rattle.audit_law.specs.Tests.{first_failing};
ghost use Rattle.answer_audit.specs.Answered.{shown_test};

use audit_law::{Failure, Value};
use hash_rows::{Kind, Table};
use packet_key::FlowKey;

/// The first asked key of which the table says another estimate than was shown.
pub fn shown_failure<K: Kind>(
    line: u32,
    table: &Table<K>,
    keys: &[FlowKey],
    shown: &[i64],
) -> Option<Failure>
    requires { length shown.now ≡ length keys.now }
    ensures { result ≡ first_failing (map (shown_test line K.rules table.now keys.now shown.now) (range_with_len 0 (length keys.now))) }
{
    for place in 0..keys.len() {
        let kept = shown[place];
        let lawful = table.estimate(&keys[place]);
        if kept != lawful {
            return Some(Failure {
                line,
                kept: Value::Signed(kept),
                lawful: Value::Signed(lawful),
            });
        }
    }
    None
}
