//! The aggregator and the readers, beside each other.
ghost use Rattle.std.specs.Prelude.{◌≡◌, ◌<◌, ◌≤◌, ℕ, All, [], None, length, slice_index_or, OnOk};
ghost use Rattle.std.specs.Thread.{IsSync};
ghost use Rattle.aggregate.specs.Takens.{ArePassesOf};
ghost use Rattle.aggregate.specs.Sweeps.{HasTaken, KeepsPair};
ghost use Rattle.live_state.specs.Copies.{HasRoomFor};
ghost use Rattle.thread_run.specs.Readers.{HasAsked, HaveAsked, HaveRoom};
ghost use Rattle.thread_run.specs.Rest.{HasFolded, IsRestDone};

use crate::folding::fold_all;
use crate::parts::{FoldPart, Marks, ReaderPart, RestPart};
use crate::reading::read;
use beside::beside;
use hash_rows::Kind;
use packet_key::FlowKey;
use push_lane::Lane;
use std::sync::Wait;
use std::sync::atomic::Ordering;
use std::thread::{Threads, for_each_mut};
use thread_work::Gate;

// Runs the readers beside each other.
fn run_readers<K: Kind, R: Threads + Wait + Sync, G: Gate>(
    rt: &R,
    keys: &[FlowKey],
    gate: &G,
    parts: &mut [ReaderPart<K>],
)
    requires few { length parts.old ≤ 65536 }
    requires room { HaveRoom keys.now parts.old }
    ensures asked { HaveAsked K.rules keys.now parts.old parts.new }
{
    let threads = parts.len();
    if threads == 0 {
        return;
    }
    for_each_mut(
        rt,
        parts,
        threads,
        &|i: usize, part: &mut ReaderPart<K>|
            requires { (i < 65536) × All (HasRoomFor part.now.view.layout.workers keys.now) part.now.answers.items }
            ensures { HasAsked K.rules keys.entry.now part.entry.now part.exit.now }
        { read(rt, i as u32, keys, gate, part) },
    );
}

// The same, of a list of readers.
fn run_all_readers<K: Kind, R: Threads + Wait + Sync, G: Gate>(
    rt: &R,
    keys: &[FlowKey],
    gate: &G,
    parts: &mut Vec<ReaderPart<K>>,
)
    requires few { length parts.old.items ≤ 65536 }
    requires room { HaveRoom keys.now parts.old.items }
    ensures { HaveAsked K.rules keys.now parts.old.items parts.new.items }
{
    run_readers(rt, keys, gate, parts.as_mut_slice());
}

// Tells the workers, one of which may sleep, that the aggregator has begun, and folds.
fn run_fold<K: Kind, R: Wait, G: Gate>(
    rt: &R,
    gate: &G,
    lanes: &[Lane],
    marks: &Marks,
    part: &mut FoldPart<K>,
)
    requires { ArePassesOf lanes.now part.old.aggregator.outs }
    ensures { HasFolded K.rules lanes.now part.old part.new }
{
    marks.begun.store(1, Ordering::SeqCst);
    marks.begun.wake_one();
    part.failed = fold_all(rt, gate, lanes, &marks.ended, &mut part.aggregator).is_err();
}

/// Runs the aggregator and the readers beside each other. Where no thread can be had, the
/// aggregator goes first.
pub fn fold_beside<K: Kind, R: Threads + Wait + Sync, G: Gate>(
    rt: &R,
    keys: &[FlowKey],
    gate: &G,
    lanes: &[Lane],
    marks: &Marks,
    rest: &mut RestPart<K>,
)
    requires few { length rest.old.readers.items ≤ 65536 }
    requires room { HaveRoom keys.now rest.old.readers.items }
    requires ends { ArePassesOf lanes.now rest.old.fold.aggregator.outs }
    ensures { IsRestDone K.rules keys.now lanes.now rest.old rest.new }
{
    beside(
        rt,
        &|_: usize, parts: &mut Vec<ReaderPart<K>>|
            requires { IsSync R.row × (length parts.now.items ≤ 65536) × HaveRoom keys.now parts.now.items }
            ensures { HaveAsked K.rules keys.entry.now parts.entry.now.items parts.exit.now.items }
        { run_all_readers(rt, keys, gate, parts) },
        &|_: usize, part: &mut FoldPart<K>|
            requires { ArePassesOf lanes.now part.now.aggregator.outs }
            ensures { HasFolded K.rules lanes.entry.now part.entry.now part.exit.now }
        { run_fold(rt, gate, lanes, marks, part) },
        &mut rest.readers,
        &mut rest.fold,
    );
}
