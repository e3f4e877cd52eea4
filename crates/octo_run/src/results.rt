ghost use Rattle.std.specs.Prelude.{◌≡◌, ◌≤◌, length, IfOk};
ghost use Rattle.flow_base.specs.Causes.{HasCause};
ghost use Rattle.flow_base.specs.Writing.{Writes};
ghost use Rattle.hash_rows.specs.Lawful.{IsLawful};
ghost use Rattle.hash_rows.specs.Limits.{most_records};
ghost use Rattle.hash_rows.specs.declared.options.Mode.{Mode};
ghost use Rattle.hash_rows.specs.Sequential.{sequential_table};
ghost use Rattle.push_history.specs.Journal.{journal_of_lists};
ghost use Rattle.push_history.specs.LawfulJournal.{LawfulJournal};
ghost use Rattle.round_law.specs.Outcome.{IsWholeRun};
ghost use Rattle.octo_run.specs.Results.{HasResults, IsComplete, results_text};

use capture_load::Capture;
use count_min::CountMin;
use count_sketch::CountSketch;
use flow_base::{Failed, NoMemory, Sink};
use hash_rows::{Kind, Options, Sketch};
use loglog_regs::LogLog;
use octo_engine::{Settled, run_rounds};
use octo_text::{Report, write_journal_in, write_report};
use push_history::RunLists;
use reports::report_of;
use std::alloc::Global;
use std::thread::Threads;

/// What a run comes to: its report, and of what was settled the lists that its journal tells.
#[derive(Drop)]
pub struct Results {
    pub report: Report,
    pub lists: RunLists,
}

/// Counts the packets of a capture in rounds.
pub fn results_in_rounds<R: Threads + Sync>(
    rt: &R,
    alloc: Global,
    capture: &Capture,
    options: &Options,
) -> Result<Results, NoMemory>
    requires lawful { IsLawful options.now }
    requires rounds { options.now.mode ≡ Mode.Rounds }
    requires packets { length capture.now.packets.items ≤ most_records }
    ensures results { IfOk result (HasResults capture.now options.now) }
    ensures complete { IfOk result (IsComplete options.now) }
{
    match options.sketch {
        Sketch::CountMin => rounds_by::<CountMin, R>(rt, alloc, capture, options),
        Sketch::CountSketch => rounds_by::<CountSketch, R>(rt, alloc, capture, options),
        Sketch::LogLog => rounds_by::<LogLog, R>(rt, alloc, capture, options),
    }
}

fn rounds_by<K: Kind, R: Threads + Sync>(
    rt: &R,
    alloc: Global,
    capture: &Capture,
    options: &Options,
) -> Result<Results, NoMemory>
    requires lawful { IsLawful options.now }
    requires sketch { options.now.sketch ≡ K.sketch }
    requires rounds { options.now.mode ≡ Mode.Rounds }
    requires packets { length capture.now.packets.items ≤ most_records }
    ensures results { IfOk result (HasResults capture.now options.now) }
    ensures complete { IfOk result (IsComplete options.now) }
{
    let settled = run_rounds::<K, R>(rt, alloc, capture.packets.as_slice(), options)?;
    results_from(alloc, capture, options, settled)
}

/// The report of what was settled, and its lists.
pub fn results_from<K: Kind>(
    alloc: Global,
    capture: &Capture,
    options: &Options,
    settled: Settled<K>,
) -> Result<Results, NoMemory>
    requires lawful { IsLawful options.now }
    requires sketch { options.now.sketch ≡ K.sketch }
    requires packets { length capture.now.packets.items ≤ most_records }
    requires table { settled.table ≡ sequential_table K.rules options.now.shape capture.now.packets.items }
    requires journal { LawfulJournal capture.now.packets.items options.now (journal_of_lists options.now settled.lists) }
    requires whole { IsWholeRun options.now settled.lists }
    ensures results { IfOk result (HasResults capture.now options.now) }
    ensures complete { IfOk result (IsComplete options.now) }
{
    let report = report_of(
        alloc,
        capture.packets.as_slice(),
        capture.records,
        capture.skipped,
        capture.cut,
        options,
        &settled.table,
    )?;
    Ok(Results {
        report,
        lists: settled.lists,
    })
}

/// Writes the report and, where the options ask for it, the journal behind it.
#[tactic(auto, unfolding(crate::specs::Results::results_text))]
pub fn write_results<T: Sink>(
    out: &mut T,
    options: &Options,
    results: &Results,
) -> Result<(), Failed>
    requires { IsComplete options.now results.now }
    ensures writes { Writes (T.holds out.old) (T.holds out.new) (results_text options.now results.now) result }
    ensures cause { HasCause (T.faults out.old) (T.faults out.new) result }
{
    write_report(out, &results.report)?;
    if !options.journal {
        return Ok(());
    }
    write_journal_in(out, options, &results.lists)
}
