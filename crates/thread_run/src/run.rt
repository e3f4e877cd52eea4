//! All parts of a run, beside each other.
ghost use Rattle.std.specs.Prelude.{◌≡◌, ◌≤◌, length, IfOk, OnErr};
ghost use Rattle.std.specs.Thread.{IsSync};
ghost use Rattle.hash_rows.specs.Limits.{most_records};
ghost use Rattle.hash_rows.specs.Shapes.{IsShape};
ghost use Rattle.hash_rows.specs.declared.options.Full.TheVariants.{Wait as PushesWait};
ghost use Rattle.aggregate.specs.Takens.{ArePassesOf};
ghost use Rattle.thread_run.specs.Readers.{HaveRoom};
ghost use Rattle.thread_run.specs.Rest.{IsRestDone};
ghost use Rattle.thread_run.specs.Workers.{AreReady, HaveWorked, IsCrewDone};

use crate::parts::{Crew, Marks, RestPart, WorkerPart};
use crate::rest::fold_beside;
use crate::working::run_crew;
use beside::beside;
use flow_base::NoMemory;
use hash_rows::{Kind, Options, Packet};
use packet_key::FlowKey;
use push_lane::Lane;
use std::sync::Wait;
use std::sync::atomic::AtomicU64;
use std::thread::Threads;
use thread_work::Gate;

// Runs the crew, the aggregator and the readers beside each other. Where no thread can be had they
// go one after another, in this order.
fn run_parts<K: Kind, R: Threads + Wait + Sync, G: Gate>(
    rt: &R,
    packets: &[Packet],
    options: &Options,
    keys: &[FlowKey],
    lanes: &[Lane],
    gate: &G,
    crew: &mut Crew<K>,
    rest: &mut RestPart<K>,
)
    requires shape { IsShape options.now.shape }
    requires few { length packets.now ≤ most_records }
    requires lanes { length lanes.now ≤ 65536 }
    requires len { length crew.old.workers.items ≡ length lanes.now }
    requires ready { AreReady K.stands K.rules options.now packets.now lanes.now crew.old.workers.items }
    requires ends { ArePassesOf lanes.now rest.old.fold.aggregator.outs }
    requires readers { length rest.old.readers.items ≤ 65536 }
    requires room { HaveRoom keys.now rest.old.readers.items }
    ensures crew { IsCrewDone K.stands K.rules options.now packets.now lanes.now crew.old crew.new }
    ensures rest { IsRestDone K.rules keys.now lanes.now rest.old rest.new }
{
    let all_marks = Marks {
        begun: AtomicU64::new(0),
        ended: AtomicU64::new(0),
    };
    let marks = &all_marks;
    beside(
        rt,
        &|_: usize, rest: &mut RestPart<K>|
            requires { IsSync R.row × (length rest.now.readers.items ≤ 65536) × HaveRoom keys.now rest.now.readers.items
                × ArePassesOf lanes.now rest.now.fold.aggregator.outs }
            ensures { IsRestDone K.rules keys.entry.now lanes.entry.now rest.entry.now rest.exit.now }
        { fold_beside(rt, keys, gate, lanes, marks, rest) },
        &|_: usize, crew: &mut Crew<K>|
            requires { IsSync R.row × IsShape options.now.shape × (length packets.now ≤ most_records) × (length lanes.now ≤ 65536)
                × (length crew.now.workers.items ≡ length lanes.now)
                × AreReady K.stands K.rules options.now packets.now lanes.now crew.now.workers.items }
            ensures { IsCrewDone K.stands K.rules options.entry.now packets.entry.now lanes.entry.now crew.entry.now crew.exit.now }
        { run_crew(rt, packets, options, lanes, gate, marks, crew) },
        rest,
        crew,
    );
}

/// Runs the workers, the aggregator and the readers beside each other, and gives the workers' parts
/// back. Where no thread can be had they go one after another, in this order. Where pushes wait for
/// room that would have no end, since no aggregator makes it: a run that gets no thread for the
/// aggregator then ends with want of memory, before the first worker starts.
pub fn run_beside<K: Kind, R: Threads + Wait + Sync, G: Gate>(
    rt: &R,
    packets: &[Packet],
    options: &Options,
    keys: &[FlowKey],
    lanes: &[Lane],
    gate: &G,
    workers: Vec<WorkerPart<K>>,
    rest: &mut RestPart<K>,
) -> Result<Vec<WorkerPart<K>>, NoMemory>
    requires shape { IsShape options.now.shape }
    requires few { length packets.now ≤ most_records }
    requires lanes { length lanes.now ≤ 65536 }
    requires len { length workers.items ≡ length lanes.now }
    requires ready { AreReady K.stands K.rules options.now packets.now lanes.now workers.items }
    requires ends { ArePassesOf lanes.now rest.old.fold.aggregator.outs }
    requires readers { length rest.old.readers.items ≤ 65536 }
    requires room { HaveRoom keys.now rest.old.readers.items }
    ensures worked { IfOk result (λ done. HaveWorked K.stands K.rules options.now packets.now lanes.now workers.items done.items) }
    ensures waits { OnErr result (options.now.full ≡ PushesWait) }
    ensures rest { IsRestDone K.rules keys.now lanes.now rest.old rest.new }
{
    let mut crew = Crew {
        workers,
        refused: false,
    };
    run_parts(rt, packets, options, keys, lanes, gate, &mut crew, rest);
    let Crew { workers, refused } = crew;
    if refused {
        return Err(NoMemory);
    }
    Ok(workers)
}
