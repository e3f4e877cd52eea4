ghost use Rattle.std.specs.Prelude.{◌≡◌, ◌↔◌, ◌≤◌, length, IfOk};
ghost use Rattle.hash_rows.specs.Limits.{most_records};
ghost use Rattle.push_history.specs.LawfulJournal.{LawfulJournal};
ghost use Rattle.octo_text.specs.Content.{content_of};
ghost use Rattle.octo_text.specs.Readable.{IsReadable};
ghost use Rattle.rounds_audit.specs.declared.verdict.Verdict.TheVariants.{Lawful};
ghost use Rattle.journal_audit.specs.Verdicts.{IsVerdict};

use crate::threads::audit_threads;
use flow_base::NoMemory;
use hash_rows::{Kind, Mode, Packet};
use octo_text::Journal;
use rounds_audit::{Verdict, audit_rounds};
use std::alloc::Global;

/// Judges a journal: whether it is lawful for the packets, and else which of its lines fails first.
pub fn audit_journal<K: Kind>(
    alloc: Global,
    packets: &[Packet],
    journal: &Journal,
) -> Result<Verdict, NoMemory>
    requires readable { IsReadable journal.now }
    requires sketch { journal.now.options.sketch ≡ K.sketch }
    requires few { length packets.now ≤ most_records }
    ensures lawful { IfOk result (λ verdict. (verdict ≡ Lawful) ↔ LawfulJournal packets.now journal.now.options (content_of journal.now)) }
    ensures differs { IfOk result (λ verdict. IsVerdict packets.now journal.now.options (content_of journal.now) verdict) }
{
    match journal.options.mode {
        Mode::Rounds => audit_rounds::<K>(alloc, packets, journal),
        Mode::Threads => audit_threads::<K>(alloc, packets, journal),
    }
}
