ghost use Rattle.std.specs.Prelude.{◌≡◌, ◌≤◌, ◌++◌, List, length, IfOk};
ghost use Rattle.std.specs.Global.{Vec};
ghost use Rattle.std.specs.List.{flat_map, range_with_len};
ghost use Rattle.hash_rows.specs.Lawful.{IsLawful};
ghost use Rattle.hash_rows.specs.declared.shape.Push.{Push};
ghost use Rattle.octo_text.specs.Content.{content_of};
ghost use Rattle.told_table.specs.Tables.{AreSent, lists_of};
ghost use Rattle.audit_law.specs.LineNumbers.{live_line};
ghost use Rattle.audit_law.specs.Tests.{first_failing};
ghost use Rattle.audit_law.specs.LiveTests.{live_tests, missed_tests};
ghost use Rattle.live_audit.specs.Counted.{AreFew};
ghost use Rattle.live_audit.specs.Known.{IsKnown};

use crate::key_tests::live_key_failure;
use crate::known::{Known, known_of};
use crate::missed_tests::missed_failure_of;
use audit_law::Failure;
use flow_base::NoMemory;
use hash_rows::{Kind, Push};
use octo_text::Journal;
use std::alloc::Global;

// The first test of the live keys that fails.
fn keys_failure<K: Kind>(journal: &Journal, known: &Known<K>, first: u32) -> Option<Failure>
    requires sketch { journal.now.options.sketch ≡ K.sketch }
    requires few { length journal.now.lists.live.items ≤ 65536 }
    requires first { first ≡ live_line (content_of journal.now) 0 }
    requires low { first ≤ 2147500000 }
    ensures { (lists : List (Vec Push)) → IsKnown K.rules journal.now.options journal.now.lists.live.items lists known.now
        → result ≡ first_failing (flat_map (live_tests journal.now.options (content_of journal.now) (lists_of lists))
        (range_with_len 0 (length journal.now.lists.live.items))) }
{
    for place in 0..journal.lists.live.len() {
        let failure = live_key_failure(journal, known, place, first);
        if failure.is_some() {
            return failure;
        }
    }
    None
}

/// The first test that fails of the live keys and of how many were missed, where the workers sent
/// these messages. `first` is the line of the first live key.
pub fn live_failure<K: Kind>(
    alloc: Global,
    journal: &Journal,
    lists: &[Vec<Push>],
    first: u32,
) -> Result<Option<Failure>, NoMemory>
    requires lawful { IsLawful journal.now.options }
    requires sketch { journal.now.options.sketch ≡ K.sketch }
    requires live { length journal.now.lists.live.items ≤ 65536 }
    requires workers { length lists.now ≡ journal.now.options.workers }
    requires few { AreFew lists.now }
    requires sent { AreSent K.rules journal.now.options.shape (lists_of lists.now) }
    requires first { first ≡ live_line (content_of journal.now) 0 }
    requires low { first ≤ 2147500000 }
    ensures { IfOk result (λ failure. failure ≡ first_failing
        (flat_map (live_tests journal.now.options (content_of journal.now) (lists_of lists.now))
        (range_with_len 0 (length journal.now.lists.live.items))
        ++ missed_tests journal.now.options (content_of journal.now) (lists_of lists.now))) }
{
    let known: Known<K> = known_of(
        alloc,
        &journal.options,
        journal.lists.live.as_slice(),
        lists,
    )?;
    let failure = keys_failure(journal, &known, first);
    if failure.is_some() {
        return Ok(failure);
    }
    let line = first + journal.lists.live.len();
    missed_failure_of(alloc, journal, &known, lists, line)
}
