ghost use Rattle.std.specs.Prelude.{◌≡◌, ◌≤◌, ◌<◌, ◌+◌, ◌∷◌, ◌&&◌, ◌||◌, [], List, length, map, not, nat_lt, int_le};
ghost use Rattle.std.specs.List.{range_with_len};
ghost use Rattle.hash_rows.specs.Lawful.{IsLawful};
ghost use Rattle.hash_rows.specs.declared.shape.Push.{Push};
ghost use Rattle.std.specs.Global.{Vec};
ghost use Rattle.push_history.specs.LiveHeavy.{is_among, same_key};
ghost use Rattle.octo_text.specs.Content.{content_of};
ghost use Rattle.told_table.specs.Tables.{lists_of};
ghost use Rattle.audit_law.specs.declared.failure.Value.TheVariants.{Key, Number, Signed};
ghost use Rattle.audit_law.specs.LineNumbers.{live_line};
ghost use Rattle.audit_law.specs.Tests.{first_failing, test};
ghost use Rattle.audit_law.specs.LiveTests.{is_count_min, is_loglog, key_at, live_tests};
ghost use Rattle.live_audit.specs.Known.{IsKnown};

use crate::alone::key_failure;
use crate::key_set::KeySet;
use crate::known::Known;
use crate::tests::{failure_of, is_count_min, is_loglog, number_failure};
use audit_law::{Failure, Value, first_of};
use hash_rows::{Kind, Sketch};
use octo_text::Journal;
use packet_key::{FlowKey, same_key};

// The first earlier place with the same key.
fn twice_failure(line: u32, first: u32, live: &[FlowKey], place: u32) -> Option<Failure>
    requires place { place < length live.now }
    requires low { first ≤ 2147500000 }
    requires few { length live.now ≤ 65536 }
    ensures { result ≡ first_failing (map (λ e. test line (Key (key_at live.now place)) (Number (first + e))
        (not (same_key (key_at live.now e) (key_at live.now place)))) (range_with_len 0 place)) }
{
    let key = live[place as usize];
    for earlier in 0..place {
        if same_key(&live[earlier as usize], &key) {
            return Some(Failure {
                line,
                kept: Value::Key(key),
                lawful: Value::Number(u64::from(first + earlier)),
            });
        }
    }
    None
}

// The table says too little of the key.
fn reach_failure(line: u32, sketch: Sketch, estimate: i64, least: i64) -> Option<Failure>
    ensures { result ≡ first_failing (test line (Signed estimate) (Signed least)
        (not (is_count_min sketch) || int_le least estimate) ∷ []) }
{
    let holds = !is_count_min(sketch) || least <= estimate;
    failure_of(line, Value::Signed(estimate), Value::Signed(least), holds)
}

// Whether the key may be live: a message has it, and estimates depend on the key.
fn may_live(sketch: Sketch, sent: &KeySet, key: &FlowKey) -> bool
    ensures { result ≡ (not (is_loglog sketch) && is_among sent.now key.now) }
{
    !is_loglog(sketch) && sent.has(key)
}

/// The first test of a live key that fails. `first` is the line of the first one.
pub fn live_key_failure<K: Kind>(
    journal: &Journal,
    known: &Known<K>,
    place: u32,
    first: u32,
) -> Option<Failure>
    requires sketch { journal.now.options.sketch ≡ K.sketch }
    requires place { place < length journal.now.lists.live.items }
    requires few { length journal.now.lists.live.items ≤ 65536 }
    requires first { first ≡ live_line (content_of journal.now) 0 }
    requires low { first ≤ 2147500000 }
    ensures { (lists : List (Vec Push)) → IsKnown K.rules journal.now.options journal.now.lists.live.items lists known.now
        → result ≡ first_failing (live_tests journal.now.options (content_of journal.now) (lists_of lists) place) }
{
    let options = &journal.options;
    let line = first + place;
    let key = journal.lists.live.get(place);
    let sent = may_live(options.sketch, &known.sent, key);
    let absent = failure_of(line, Value::Key(*key), Value::Absent, sent);
    let twice = twice_failure(line, first, journal.lists.live.as_slice(), place);
    let number = u64::from(place) + 1;
    let room = number_failure(
        line,
        number,
        u64::from(options.heavy),
        place < options.heavy,
    );
    let estimate = known.table.estimate(key);
    let reach = reach_failure(line, options.sketch, estimate, options.least);
    let alone = key_failure(line, &known.alone, place, key);
    first_of(
        absent,
        first_of(twice, first_of(room, first_of(reach, alone))),
    )
}
