ghost use Rattle.std.specs.Prelude.{◌≡◌, ◌↔◌, ◌≤◌, length, IfOk};
ghost use Rattle.hash_rows.specs.Limits.{most_records};
ghost use Rattle.hash_rows.specs.declared.options.Mode.TheVariants.{Threads};
ghost use Rattle.push_history.specs.LawfulJournal.{LawfulJournal};
ghost use Rattle.octo_text.specs.Content.{content_of};
ghost use Rattle.audit_law.specs.Judged.{tests_of};
ghost use Rattle.audit_law.specs.Tests.{first_failing};
ghost use Rattle.octo_text.specs.Readable.{IsReadable};
ghost use Rattle.journal_audit.specs.Verdicts.{verdict_of};
ghost use Rattle.rounds_audit.specs.declared.verdict.Verdict.TheVariants.{Lawful};

use crate::given::{Given, given_of};
use crate::lines::line_of_worker;
use crate::verdict::verdict_of;
use answer_audit::answers_failure;
use audit_law::Failure;
use flow_base::NoMemory;
use hash_rows::{Kind, Packet};
use live_audit::live_failure;
use octo_engine::asked_keys;
use octo_text::Journal;
use rounds_audit::Verdict;
use shares::amounts_fit;
use std::alloc::Global;

// The first test that fails of the journal of a run in threads: of the workers, of the answers, of
// the live keys and of how many were missed.
fn threads_failure<K: Kind>(
    alloc: Global,
    packets: &[Packet],
    journal: &Journal,
) -> Result<Option<Failure>, NoMemory>
    requires readable { IsReadable journal.now }
    requires sketch { journal.now.options.sketch ≡ K.sketch }
    requires few { length packets.now ≤ most_records }
    ensures { IfOk result (λ failure. failure ≡ first_failing (tests_of packets.now journal.now.options (content_of journal.now))) }
{
    amounts_fit(packets);
    let given: Given = given_of::<K>(alloc, packets, journal)?;
    if given.failure.is_some() {
        return Ok(given.failure);
    }
    let keys = asked_keys(alloc, &journal.options)?;
    let line = line_of_worker(journal, journal.options.workers);
    let failure = answers_failure::<K>(alloc, journal, &given.messages, &keys, line)?;
    if failure.is_some() {
        return Ok(failure);
    }
    let first = line + journal.lists.answers.len();
    live_failure::<K>(alloc, journal, &given.messages, first)
}

/// Judges the journal of a run in threads: whether it is lawful for the packets, and else which of
/// its lines fails first.
pub fn audit_threads<K: Kind>(
    alloc: Global,
    packets: &[Packet],
    journal: &Journal,
) -> Result<Verdict, NoMemory>
    requires readable { IsReadable journal.now }
    requires sketch { journal.now.options.sketch ≡ K.sketch }
    requires few { length packets.now ≤ most_records }
    requires threads { journal.now.options.mode ≡ Threads }
    ensures lawful { IfOk result (λ verdict. (verdict ≡ Lawful) ↔ LawfulJournal packets.now journal.now.options (content_of journal.now)) }
    ensures differs { IfOk result (λ verdict. verdict ≡ verdict_of
        (first_failing (tests_of packets.now journal.now.options (content_of journal.now)))) }
{
    let failure = threads_failure::<K>(alloc, packets, journal)?;
    Ok(verdict_of(failure))
}
