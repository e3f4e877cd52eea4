ghost use Rattle.std.specs.Prelude.{◌≡◌, ◌↔◌, ◌≤◌, length, IfOk};
ghost use Rattle.hash_rows.specs.Limits.{most_records};
ghost use Rattle.hash_rows.specs.declared.options.Mode.TheVariants.{Rounds};
ghost use Rattle.push_history.specs.LawfulJournal.{LawfulJournal};
ghost use Rattle.octo_text.specs.Content.{content_of};
ghost use Rattle.octo_text.specs.Readable.{IsReadable};
ghost use Rattle.rounds_audit.specs.Verdicts.{IsRoundsVerdict};
ghost use Rattle.rounds_audit.specs.declared.verdict.Verdict.TheVariants.{Lawful};

use crate::compare::compare_texts;
use crate::ranges::lists_fit;
use crate::text::journal_bytes;
use crate::verdict::Verdict;
use flow_base::NoMemory;
use hash_rows::{Kind, Packet};
use octo_engine::run_rounds_alone;
use octo_text::Journal;
use std::alloc::Global;

/// Judges the journal of a run in rounds: whether it is the journal of the round schedule, and else
/// which of its lines is the first that isn't.
pub fn audit_rounds<K: Kind>(
    alloc: Global,
    packets: &[Packet],
    journal: &Journal,
) -> Result<Verdict, NoMemory>
    requires readable { IsReadable journal.now }
    requires sketch { journal.now.options.sketch ≡ K.sketch }
    requires few { length packets.now ≤ most_records }
    requires rounds { journal.now.options.mode ≡ Rounds }
    ensures lawful { IfOk result (λ verdict. (verdict ≡ Lawful) ↔ LawfulJournal packets.now journal.now.options (content_of journal.now)) }
    ensures differs { IfOk result (λ verdict. IsRoundsVerdict packets.now journal.now.options (content_of journal.now) verdict) }
{
    let settled = run_rounds_alone::<K>(alloc, packets, &journal.options)?;
    lists_fit(&journal.lists);
    lists_fit(&settled.lists);
    let kept = journal_bytes(alloc, &journal.options, &journal.lists)?;
    let lawful = journal_bytes(alloc, &journal.options, &settled.lists)?;
    Ok(compare_texts(&kept, &lawful))
}
