//! A run in threads.
ghost use Rattle.std.specs.Prelude.{◌≡◌, ◌≤◌, All, length, IfOk};
ghost use Rattle.hash_rows.specs.Lawful.{IsLawful};
ghost use Rattle.hash_rows.specs.Limits.{most_records};
ghost use Rattle.hash_rows.specs.Sequential.{sequential_table};
ghost use Rattle.hash_rows.specs.declared.options.Mode.TheVariants.{Threads as InThreads};
ghost use Rattle.hash_rows.specs.declared.options.Sketch.TheVariants.{CountMin};
ghost use Rattle.push_history.specs.Journal.{journal_of_lists};
ghost use Rattle.push_history.specs.LawfulJournal.{LawfulJournal};
ghost use Rattle.round_law.specs.Outcome.{IsWholeRun};
ghost use Rattle.thread_ends.specs.Ends.{both_sents};
ghost use Rattle.thread_law.specs.Ran.{HasRunTo, MatchesItsFront, ShowsNear};
ghost use Rattle.thread_engine.specs.Left.{AreDrained};

use crate::settling::settle;
use flow_base::NoMemory;
use hash_rows::{Kind, Options, Packet};
use live_view::ViewWriter;
use octo_engine::Settled;
use std::alloc::Global;
use std::sync::Wait;
use std::thread::Threads;
use thread_run::{FoldPart, RestPart, run_beside};
use thread_setup::{BothPasses, Lanes, Setup, set_up};
use thread_work::Gate;

/// What a run in threads leaves. Its holder closes the writer.
pub struct Ran<K: Kind> {
    pub settled: Settled<K>,
    /// The lane of each worker.
    pub lanes: Lanes,
    /// Both ends of each lane, which is drained.
    pub passes: BothPasses,
    pub writer: ViewWriter<K>,
}

/// Counts the packets in threads: workers, the aggregator and the readers go at their own pace,
/// and answers come while workers count. All memory but that of appended messages is taken before
/// the first worker starts. A run whose pushes wait needs a thread for the aggregator: where none can
/// be had it ends with want of memory.
pub fn run_threads<K: Kind, R: Threads + Wait + Sync, G: Gate>(
    rt: &R,
    alloc: Global,
    packets: &[Packet],
    options: &Options,
    gate: &G,
) -> Result<Ran<K>, NoMemory>
    requires lawful { IsLawful options.now }
    requires sketch { options.now.sketch ≡ K.sketch }
    requires mode { options.now.mode ≡ InThreads }
    requires packets { length packets.now ≤ most_records }
    ensures drained { IfOk result (λ r. AreDrained options.now r.lanes.items r.passes.items r.settled.lists.refused.items) }
    ensures ran { IfOk result (λ r. HasRunTo packets.now options.now (both_sents r.passes.items) r.writer.published r.settled.lists) }
    ensures journal { IfOk result (λ r. LawfulJournal packets.now options.now (journal_of_lists options.now r.settled.lists)) }
    ensures whole { IfOk result (λ r. IsWholeRun options.now r.settled.lists) }
    ensures upto { IfOk result (λ r. All (MatchesItsFront (both_sents r.passes.items)) r.settled.lists.answers.items) }
    ensures bracket { IfOk result (λ r. options.now.sketch ≡ CountMin
        → All (ShowsNear packets.now options.now (both_sents r.passes.items) r.settled.lists.refused.items)
        r.settled.lists.answers.items) }
    ensures table { IfOk result (λ r. r.settled.table ≡ sequential_table K.rules options.now.shape packets.now) }
{
    let Setup {
        keys,
        lanes,
        workers,
        mut rest,
        spare,
    } = set_up(rt, alloc, packets, options)?;
    let workers = match run_beside(
        rt,
        packets,
        options,
        keys.as_slice(),
        lanes.as_slice(),
        gate,
        workers,
        &mut rest,
    ) {
        Ok(workers) => workers,
        Err(_) => {
            close_rest(rt, rest);
            return Err(NoMemory);
        }
    };
    let ran = settle(rt, packets, options, &keys, lanes, workers, rest, spare)?;
    Ok(ran)
}

// Closes the pair of a run in which no worker started.
fn close_rest<K: Kind, R: Wait>(rt: &R, rest: RestPart<K>) {
    let RestPart { fold, readers: _ } = rest;
    let FoldPart {
        aggregator,
        failed: _,
    } = fold;
    let (writer, _outs) = aggregator.into_parts();
    writer.close(rt);
}
