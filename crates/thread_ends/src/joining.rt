//! The two ends of each lane become one.
ghost use Rattle.std.specs.Prelude.{◌≡◌, ◌<◌, ◌≤◌, ℕ, [], ◌∷◌, ◌++◌, length, map, slice_index_or};
ghost use Rattle.aggregate.specs.Takens.{ArePassesOf};
ghost use Rattle.push_lane.specs.Views.{BothView, LaneView};
ghost use Rattle.thread_ends.specs.Ends.{AreOne, IsOne};

use aggregate::OutPasses;
use hash_rows::Kind;
use listed::Listed;
use push_lane::{BothPass, Lane, OutPass};
use push_rule::Private;
use std::sync::Wait;
use thread_run::WorkerPart;

// Makes the two ends of a lane one, and keeps the worker's sketch.
fn take_in_one<K: Kind, R: Wait>(
    rt: &R,
    lane: &Lane,
    worker: WorkerPart<K>,
    out: OutPass,
    passes: &mut Listed<BothPass>,
    sketches: &mut Listed<Private<K>>,
)
    requires ids { (worker.pass.id ≡ lane.now.id) × (out.id ≡ lane.now.id) }
    requires room { (length passes.old.items < passes.old.room) × (length sketches.old.items < sketches.old.room) }
    ensures sketch { sketches.new.items ≡ sketches.old.items ++ worker.sketch ∷ [] }
    ensures pass { (one : BothView) × (passes.new.items ≡ passes.old.items ++ one ∷ []) × IsOne lane.now worker.pass out one }
    ensures room { (passes.new.room ≡ passes.old.room) × (sketches.new.room ≡ sketches.old.room) }
{
    let WorkerPart {
        share: _,
        sketch,
        pass,
    } = worker;
    passes.push(lane.take_in(rt, pass, out));
    sketches.push(sketch);
}

/// Makes the two ends of each lane one, and keeps the workers' sketches.
pub fn take_in_all<K: Kind, R: Wait>(
    rt: &R,
    lanes: &[Lane],
    workers: Vec<WorkerPart<K>>,
    outs: OutPasses,
    passes: &mut Listed<BothPass>,
    sketches: &mut Listed<Private<K>>,
)
    requires workers { length workers.items ≡ length lanes.now }
    requires ids { (i : ℕ) (l : LaneView) (p : _) → i < length lanes.now
        → (slice_index_or workers.items i p).pass.id ≡ (slice_index_or lanes.now i l).id }
    requires ends { ArePassesOf lanes.now outs.items }
    requires passes_room { (passes.old.items ≡ []) × (length lanes.now ≤ passes.old.room) }
    requires sketches_room { (sketches.old.items ≡ []) × (length lanes.now ≤ sketches.old.room) }
    ensures sketches { sketches.new.items ≡ map (λ p. p.sketch) workers.items }
    ensures passes { AreOne lanes.now workers.items outs.items passes.new.items }
{
    let mut workers = workers.into_iter();
    let mut outs = outs.into_items().into_iter();
    for lane in lanes {
        let Some(worker) = workers.next() else {
            unreachable!()
        };
        let Some(out) = outs.next() else {
            unreachable!()
        };
        take_in_one(rt, lane, worker, out, passes, sketches);
    }
}
