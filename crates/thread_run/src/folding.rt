//! What the aggregator does.
ghost use Rattle.std.specs.Prelude.{◌≡◌, [], None, IsSome, OnOk, OnErr};
ghost use Rattle.aggregate.specs.Takens.{ArePassesOf};
ghost use Rattle.aggregate.specs.Sweeps.{HasTaken, KeepsPair};

use aggregate::Aggregator;
use flow_base::NoMemory;
use hash_rows::Kind;
use push_lane::Lane;
use std::sync::Wait;
use std::sync::atomic::{AtomicU64, Ordering};
use std::thread;
use thread_work::Gate;

/// Sweeps until a sweep that began after the workers' end took nothing. After want of memory it
/// drops what it takes until then. The gate is told of each publish; where there was nothing to
/// take, others go first.
pub fn fold_all<K: Kind, R: Wait, G: Gate>(
    rt: &R,
    gate: &G,
    lanes: &[Lane],
    ended: &AtomicU64,
    aggregator: &mut Aggregator<K>,
) -> Result<(), NoMemory>
    requires ends { ArePassesOf lanes.now aggregator.old.outs }
    ensures ends { ArePassesOf lanes.now aggregator.new.outs }
    ensures same { KeepsPair aggregator.old aggregator.new }
    ensures none { OnOk result (aggregator.new.held ≡ None) }
    ensures published { OnOk result (aggregator.new.writer.pending ≡ []) }
    ensures taken { OnOk result (HasTaken K.rules aggregator.old → HasTaken K.rules aggregator.new) }
{
    for _ in rt.forever() {
        let over = ended.load(Ordering::SeqCst) != 0;
        let before = aggregator.folded();
        match aggregator.sweep(rt, lanes) {
            Ok(swept) => {
                let folded = aggregator.folded();
                if folded != before {
                    gate.swept(folded);
                }
                if swept.taken == 0 {
                    if over {
                        return Ok(());
                    }
                    thread::yield_now();
                }
            }
            Err(_) => {
                drop_all(rt, lanes, ended, aggregator);
                return Err(NoMemory);
            }
        }
    }
    unreachable!()
}

// Drops what the workers still send, until all of them have ended.
fn drop_all<K: Kind, R: Wait>(
    rt: &R,
    lanes: &[Lane],
    ended: &AtomicU64,
    aggregator: &mut Aggregator<K>,
)
    requires ends { ArePassesOf lanes.now aggregator.old.outs }
    requires held { IsSome aggregator.old.held }
    ensures ends { ArePassesOf lanes.now aggregator.new.outs }
    ensures same { KeepsPair aggregator.old aggregator.new }
{
    for _ in rt.forever() {
        let over = ended.load(Ordering::SeqCst) != 0;
        if aggregator.discard(rt, lanes) == 0 {
            if over {
                return;
            }
            thread::yield_now();
        }
    }
    unreachable!()
}
