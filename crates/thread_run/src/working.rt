//! What the workers do.
ghost use Rattle.std.specs.Prelude.{◌≡◌, ◌<◌, ◌≤◌, ℕ, length, slice_index_or};
ghost use Rattle.hash_rows.specs.Limits.{most_records};
ghost use Rattle.hash_rows.specs.Shapes.{IsShape};
ghost use Rattle.thread_run.specs.Workers.{AreReady, HasWorked, HaveWorked, IsCrewDone, IsReady};

use crate::parts::{Crew, Marks, WorkerPart};
use core::mem::replace_with;
use hash_rows::{Full, Kind, Options, Packet};
use push_lane::Lane;
use std::sync::Wait;
use std::sync::atomic::{AtomicU64, Ordering};
use std::thread::{Threads, for_each_mut};
use std::time::Duration;
use thread_work::{Gate, work};

// How often, and for how long at a time, the workers sleep while the aggregator hasn't begun. Ten
// seconds are far more than its thread takes on a busy machine. Turns that only give the processor
// away would take moments on an idle machine and hours on a busy one.
const NAPS: u32 = 100;

const NAP_MILLIS: u64 = 100;

// The work of one worker. Its part stands on the stack of its own thread while it works, so that no
// two workers write near each other.
fn worked<K: Kind, R: Wait, G: Gate>(
    rt: &R,
    worker: u32,
    packets: &[Packet],
    options: &Options,
    lane: &Lane,
    gate: &G,
    part: WorkerPart<K>,
) -> WorkerPart<K>
    requires shape { IsShape options.now.shape }
    requires few { length packets.now ≤ most_records }
    requires ready { IsReady K.stands K.rules options.now packets.now lane.now part }
    ensures { HasWorked K.stands K.rules options.now packets.now worker lane.now part result }
{
    let mut part = part;
    work(
        rt,
        worker,
        packets,
        &part.share,
        &options.shape,
        options.full,
        &mut part.sketch,
        lane,
        &mut part.pass,
        gate,
    );
    part
}

// The same, of a part that stands in a list.
fn run_one<K: Kind, R: Wait, G: Gate>(
    rt: &R,
    worker: u32,
    packets: &[Packet],
    options: &Options,
    lane: &Lane,
    gate: &G,
    part: &mut WorkerPart<K>,
)
    requires shape { IsShape options.now.shape }
    requires few { length packets.now ≤ most_records }
    requires ready { IsReady K.stands K.rules options.now packets.now lane.now part.old }
    ensures { HasWorked K.stands K.rules options.now packets.now worker lane.now part.old part.new }
{
    replace_with(
        part,
        worker,
        |part: WorkerPart<K>, worker: u32|
            requires { IsShape options.now.shape × (length packets.now ≤ most_records)
                × IsReady K.stands K.rules options.now packets.now lane.now part }
            ensures { HasWorked K.stands K.rules options.entry.now packets.entry.now worker lane.entry.now part result.0 }
        { (worked(rt, worker, packets, options, lane, gate, part), ()) },
    );
}

// Runs the workers beside each other.
fn run_workers<K: Kind, R: Threads + Wait + Sync, G: Gate>(
    rt: &R,
    packets: &[Packet],
    options: &Options,
    lanes: &[Lane],
    gate: &G,
    parts: &mut [WorkerPart<K>],
)
    requires shape { IsShape options.now.shape }
    requires few { length packets.now ≤ most_records }
    requires lanes { length lanes.now ≤ 65536 }
    requires len { length parts.old ≡ length lanes.now }
    requires ready { AreReady K.stands K.rules options.now packets.now lanes.now parts.old }
    ensures worked { HaveWorked K.stands K.rules options.now packets.now lanes.now parts.old parts.new }
{
    let threads = parts.len();
    if threads == 0 {
        return;
    }
    for_each_mut(
        rt,
        parts,
        threads,
        &|i: usize, part: &mut WorkerPart<K>|
            requires { IsShape options.now.shape × (length packets.now ≤ most_records) × (length lanes.now ≤ 65536) × (i < length lanes.now)
                × ((l : _) → IsReady K.stands K.rules options.now packets.now (slice_index_or lanes.now i l) part.now) }
            ensures { (l : _) → HasWorked K.stands K.rules options.entry.now packets.entry.now i
                (slice_index_or lanes.entry.now i l) part.entry.now part.exit.now }
        { run_one(rt, i as u32, packets, options, &lanes[i], gate, part) },
    );
}

// The same, of a list of workers.
fn run_all_workers<K: Kind, R: Threads + Wait + Sync, G: Gate>(
    rt: &R,
    packets: &[Packet],
    options: &Options,
    lanes: &[Lane],
    gate: &G,
    parts: &mut Vec<WorkerPart<K>>,
)
    requires shape { IsShape options.now.shape }
    requires few { length packets.now ≤ most_records }
    requires lanes { length lanes.now ≤ 65536 }
    requires len { length parts.old.items ≡ length lanes.now }
    requires ready { AreReady K.stands K.rules options.now packets.now lanes.now parts.old.items }
    ensures worked { HaveWorked K.stands K.rules options.now packets.now lanes.now parts.old.items parts.new.items }
{
    run_workers(rt, packets, options, lanes, gate, parts.as_mut_slice());
}

// Whether the aggregator begins before so many naps are over. It wakes the one that sleeps here.
fn has_begun<R: Wait>(rt: &R, begun: &AtomicU64) -> bool {
    for _ in 0..NAPS {
        if begun.load(Ordering::SeqCst) != 0 {
            return true;
        }
        begun.park_timeout(rt, 0, Duration::from_millis(NAP_MILLIS));
    }
    begun.load(Ordering::SeqCst) != 0
}

// Runs the workers, unless pushes wait for room and the aggregator, which makes it, doesn't begin.
fn run_begun<K: Kind, R: Threads + Wait + Sync, G: Gate>(
    rt: &R,
    packets: &[Packet],
    options: &Options,
    lanes: &[Lane],
    gate: &G,
    begun: &AtomicU64,
    crew: &mut Crew<K>,
)
    requires shape { IsShape options.now.shape }
    requires few { length packets.now ≤ most_records }
    requires lanes { length lanes.now ≤ 65536 }
    requires len { length crew.old.workers.items ≡ length lanes.now }
    requires ready { AreReady K.stands K.rules options.now packets.now lanes.now crew.old.workers.items }
    ensures { IsCrewDone K.stands K.rules options.now packets.now lanes.now crew.old crew.new }
{
    crew.refused = false;
    if options.full == Full::Wait && !has_begun(rt, begun) {
        crew.refused = true;
        return;
    }
    run_all_workers(rt, packets, options, lanes, gate, &mut crew.workers);
}

/// Runs the workers beside each other, and then marks the end of all of them, also where none
/// started: the aggregator may come after them on the same thread.
pub fn run_crew<K: Kind, R: Threads + Wait + Sync, G: Gate>(
    rt: &R,
    packets: &[Packet],
    options: &Options,
    lanes: &[Lane],
    gate: &G,
    marks: &Marks,
    crew: &mut Crew<K>,
)
    requires shape { IsShape options.now.shape }
    requires few { length packets.now ≤ most_records }
    requires lanes { length lanes.now ≤ 65536 }
    requires len { length crew.old.workers.items ≡ length lanes.now }
    requires ready { AreReady K.stands K.rules options.now packets.now lanes.now crew.old.workers.items }
    ensures { IsCrewDone K.stands K.rules options.now packets.now lanes.now crew.old crew.new }
{
    run_begun(rt, packets, options, lanes, gate, &marks.begun, crew);
    marks.ended.store(1, Ordering::SeqCst);
}
