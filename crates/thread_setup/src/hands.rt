//! The lanes, with what each worker has to itself and the ends to take.
ghost use Rattle.std.specs.Prelude.{◌≡◌, ◌<◌, ◌≤◌, ◌*◌, ◌++◌, [], ◌∷◌, length, IfOk, None};
ghost use Rattle.hash_rows.specs.Lawful.{IsLawful};
ghost use Rattle.hash_rows.specs.Limits.{most_records};
ghost use Rattle.hash_rows.specs.Shapes.{size_of};
ghost use Rattle.push_rule.specs.Stands.{StandsFor};
ghost use Rattle.shares.specs.Owners.{AreOwners};
ghost use Rattle.thread_setup.specs.Hands.{AreHands, IsHand};

use aggregate::OutPasses;
use flow_base::NoMemory;
use hash_rows::{Kind, Options, Packet};
use listed::Listed;
use push_lane::{Lane, OutPass};
use push_rule::Private;
use shares::{Owners, owners_of, positions_of};
use std::alloc::Global;
use std::sync::Wait;
use thread_run::WorkerPart;

/// The lanes of a run, by worker.
pub type Lanes = Listed<Lane>;

/// A lane, and what has its ends.
#[derive(Drop)]
pub struct Hand<K: Kind> {
    pub lane: Lane,
    pub worker: WorkerPart<K>,
    pub out: OutPass,
}

/// The lanes, and what has their ends, by worker.
#[derive(Drop)]
pub struct Hands<K: Kind> {
    pub lanes: Lanes,
    pub workers: Listed<WorkerPart<K>>,
    pub outs: OutPasses,
}

/// The lanes of all workers, and the parts of workers that have counted nothing.
pub fn hands_of<K: Kind, R: Wait>(
    rt: &R,
    alloc: Global,
    packets: &[Packet],
    options: &Options,
) -> Result<Hands<K>, NoMemory>
    requires lawful { IsLawful options.now }
    requires few { length packets.now ≤ most_records }
    ensures { IfOk result (AreHands K.stands K.rules options.now packets.now options.now.workers) }
{
    let owners = owners_of(alloc, packets, options)?;
    let mut hands = no_hands(alloc, options.workers)?;
    for worker in 0..options.workers {
        let hand = hand_of(rt, alloc, &owners, worker, packets, options)?;
        add_hand(&mut hands, hand);
    }
    Ok(hands)
}

// Room for the hands of so many workers.
fn no_hands<K: Kind>(alloc: Global, workers: u32) -> Result<Hands<K>, NoMemory>
    ensures lanes { IfOk result (λ hands. (hands.lanes.items ≡ []) × (hands.lanes.room ≡ workers)) }
    ensures workers { IfOk result (λ hands. (hands.workers.items ≡ []) × (hands.workers.room ≡ workers)) }
    ensures outs { IfOk result (λ hands. (hands.outs.items ≡ []) × (hands.outs.room ≡ workers)) }
{
    Ok(Hands {
        lanes: Listed::new(alloc, workers)?,
        workers: Listed::new(alloc, workers)?,
        outs: Listed::new(alloc, workers)?,
    })
}

fn add_hand<K: Kind>(hands: &mut Hands<K>, hand: Hand<K>)
    requires lanes { length hands.old.lanes.items < hands.old.lanes.room }
    requires workers { length hands.old.workers.items < hands.old.workers.room }
    requires outs { length hands.old.outs.items < hands.old.outs.room }
    ensures lanes { (hands.new.lanes.items ≡ hands.old.lanes.items ++ hand.lane ∷ []) × (hands.new.lanes.room ≡ hands.old.lanes.room) }
    ensures workers { (hands.new.workers.items ≡ hands.old.workers.items ++ hand.worker ∷ [])
        × (hands.new.workers.room ≡ hands.old.workers.room) }
    ensures outs { (hands.new.outs.items ≡ hands.old.outs.items ++ hand.out ∷ []) × (hands.new.outs.room ≡ hands.old.outs.room) }
{
    hands.lanes.push(hand.lane);
    hands.workers.push(hand.worker);
    hands.outs.push(hand.out);
}

// The lane of a worker that has counted nothing.
fn hand_of<K: Kind, R: Wait>(
    rt: &R,
    alloc: Global,
    owners: &Owners,
    worker: u32,
    packets: &[Packet],
    options: &Options,
) -> Result<Hand<K>, NoMemory>
    requires lawful { IsLawful options.now }
    requires worker { worker < options.now.workers }
    requires few { length packets.now ≤ most_records }
    requires owners { AreOwners options.now packets.now owners.now }
    ensures { IfOk result (IsHand K.stands K.rules options.now packets.now worker) }
{
    let (lane, pass, out) = Lane::new(rt, alloc, options.lane)?;
    let share = positions_of(alloc, owners, worker, packets, options)?;
    let sketch = sketch_of(alloc, share.len(), options)?;
    Ok(Hand {
        lane,
        worker: WorkerPart {
            share,
            sketch,
            pass,
        },
        out,
    })
}

// The sketch of a worker with so many packets.
fn sketch_of<K: Kind>(
    alloc: Global,
    packets: u32,
    options: &Options,
) -> Result<Private<K>, NoMemory>
    requires lawful { IsLawful options.now }
    requires few { packets ≤ most_records }
    ensures fresh { IfOk result (λ sketch. StandsFor K.stands K.rules sketch [] [] []) }
    ensures idle { IfOk result (λ sketch. sketch.due ≡ None) }
    ensures cells { IfOk result (λ sketch. length sketch.held ≡ size_of options.now.shape) }
    ensures threshold { IfOk result (λ sketch. sketch.threshold ≡ options.now.threshold) }
    ensures room { IfOk result (λ sketch. sketch.room ≡ options.now.shape.rows * packets) }
{
    let shape = options.shape;
    Private::new(
        alloc,
        shape.rows * shape.columns,
        options.threshold,
        shape.rows * packets,
    )
}
