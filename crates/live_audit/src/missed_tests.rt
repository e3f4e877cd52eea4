ghost use Rattle.std.specs.Prelude.{◌≡◌, ◌≤◌, ◌==◌, ◌&&◌, ◌||◌, ◌∷◌, [], length, not, nat_le, IfOk};
ghost use Rattle.hash_rows.specs.Lawful.{IsLawful};
ghost use Rattle.octo_text.specs.Content.{content_of};
ghost use Rattle.told_table.specs.Tables.{AreSent, lists_of};
ghost use Rattle.audit_law.specs.declared.failure.Value.TheVariants.{Number};
ghost use Rattle.audit_law.specs.LineNumbers.{missed_line};
ghost use Rattle.audit_law.specs.Tests.{first_failing, test};
ghost use Rattle.audit_law.specs.LiveTests.{is_loglog, missed_tests};
ghost use Rattle.live_audit.specs.Bounds.{bounds_tests};
ghost use Rattle.live_audit.specs.Counted.{AreFew};
ghost use Rattle.live_audit.specs.Known.{IsKnown};

use crate::alone::missed_failure;
use crate::counts::{count_others, count_possible, count_sure};
use crate::known::Known;
use crate::tests::{is_count_min, is_loglog, number_failure};
use audit_law::{Failure, first_of};
use flow_base::NoMemory;
use hash_rows::{Kind, Push, Sketch};
use octo_text::Journal;
use std::alloc::Global;

// Some were missed though there was room.
fn room_failure(line: u32, sketch: Sketch, heavy: u32, live: u32, missed: u64) -> Option<Failure>
    ensures { result ≡ first_failing (test line (Number missed) (Number 0)
        ((missed == 0) || (not (is_loglog sketch) && nat_le heavy live)) ∷ []) }
{
    let loglog = is_loglog(sketch);
    number_failure(line, missed, 0, missed == 0 || (!loglog && heavy <= live))
}

// With Count-Min fewer were missed than are sure, or more than are possible.
fn bounds_failure<K: Kind>(
    alloc: Global,
    journal: &Journal,
    known: &Known<K>,
    lists: &[Vec<Push>],
    line: u32,
) -> Result<Option<Failure>, NoMemory>
    requires lawful { IsLawful journal.now.options }
    requires sketch { journal.now.options.sketch ≡ K.sketch }
    requires few { AreFew lists.now }
    requires sent { AreSent K.rules journal.now.options.shape (lists_of lists.now) }
    requires known { IsKnown K.rules journal.now.options journal.now.lists.live.items lists.now known.now }
    ensures { IfOk result (λ failure. failure ≡ first_failing
        (bounds_tests line journal.now.options (content_of journal.now) (lists_of lists.now))) }
{
    let options = &journal.options;
    if !is_count_min(options.sketch) {
        return Ok(None);
    }
    let sure = count_sure::<K>(alloc, options.shape, options.least, &known.live, lists)?;
    let possible = count_possible(&known.table, options.least, &known.live, lists);
    let missed = journal.lists.missed;
    let few = number_failure(line, missed, sure, sure <= missed);
    Ok(first_of(
        few,
        number_failure(line, missed, possible, missed <= possible),
    ))
}

/// The first test that fails of how many were missed.
pub fn missed_failure_of<K: Kind>(
    alloc: Global,
    journal: &Journal,
    known: &Known<K>,
    lists: &[Vec<Push>],
    line: u32,
) -> Result<Option<Failure>, NoMemory>
    requires lawful { IsLawful journal.now.options }
    requires sketch { journal.now.options.sketch ≡ K.sketch }
    requires few { AreFew lists.now }
    requires sent { AreSent K.rules journal.now.options.shape (lists_of lists.now) }
    requires known { IsKnown K.rules journal.now.options journal.now.lists.live.items lists.now known.now }
    requires line { line ≡ missed_line (content_of journal.now) }
    ensures { IfOk result (λ failure. failure ≡ first_failing
        (missed_tests journal.now.options (content_of journal.now) (lists_of lists.now))) }
{
    let options = &journal.options;
    let missed = journal.lists.missed;
    let live = journal.lists.live.len();
    let room = room_failure(line, options.sketch, options.heavy, live, missed);
    let others = count_others(&known.live, lists);
    let most = number_failure(line, missed, others, missed <= others);
    let bounds = bounds_failure(alloc, journal, known, lists, line)?;
    let alone = missed_failure(line, &known.alone, live, missed);
    Ok(first_of(room, first_of(most, first_of(bounds, alone))))
}
