//! What a run begins with.
ghost use Rattle.std.specs.Prelude.{◌≡◌, ◌<◌, ◌≤◌, ◌^◌, ◌+◌, ◌*◌, ℕ, [], All, length, IfOk, OnOk};
ghost use Rattle.hash_rows.specs.Lawful.{IsLawful};
ghost use Rattle.hash_rows.specs.Limits.{most_records};
ghost use Rattle.hash_rows.specs.Shapes.{size_of};
ghost use Rattle.push_history.specs.Journal.{terms_of};
ghost use Rattle.push_history.specs.LagRun.{Terms, fresh_worker};
ghost use Rattle.push_history.specs.Share.{share_of_worker};
ghost use Rattle.push_rule.specs.Keeps.{Keeps};
ghost use Rattle.live_state.specs.Fold.{fresh_state, layout_in};
ghost use Rattle.shares.specs.Owners.{AreOwners};
ghost use Rattle.octo_engine.specs.Parts.{IsReadyForBlock, block};
ghost use Rattle.octo_engine.specs.Rounds.{AreWorkersAfter, Suit};

use crate::worker::{BLOCK, Part};
use flow_base::NoMemory;
use hash_rows::{Kind, Options, Packet};
use listed::Listed;
use live_state::State;
use push_rule::{Counter, Private};
use shares::{Owners, amounts_fit, owners_of, positions_of};
use std::alloc::Global;

/// The parts of all workers, which have counted nothing.
pub fn parts_of<K: Kind>(
    alloc: Global,
    packets: &[Packet],
    options: &Options,
) -> Result<Vec<Part<K>>, NoMemory>
    requires lawful { IsLawful options.now }
    requires sketch { options.now.sketch ≡ K.sketch }
    requires few { length packets.now ≤ most_records }
    ensures parts { IfOk result (λ parts. AreWorkersAfter K.stands (terms_of packets.now options.now) options.now
        packets.now 0 parts.items) }
    ensures amounts { OnOk result (All (λ p. p.amount < 2 ^ 32) packets.now) }
{
    amounts_fit(packets);
    let owners = owners_of(alloc, packets, options)?;
    let Ok(mut parts) = Vec::with_capacity(alloc, options.workers as usize) else {
        return Err(NoMemory);
    };
    for worker in 0..options.workers {
        let part = part_of(alloc, &owners, worker, packets, options)?;
        parts.push_reserved(part);
    }
    Ok(parts)
}

/// The live state with no message.
pub fn state_of<K: Kind>(alloc: Global, options: &Options) -> Result<State<K>, NoMemory>
    requires { IsLawful options.now }
    ensures { IfOk result (λ state. state ≡ fresh_state (layout_in options.now)) }
{
    let _least = options.least;
    State::new(
        alloc,
        options.shape,
        options.workers,
        options.heavy,
        options.least,
    )
}

// The part of a worker that has counted nothing.
fn part_of<K: Kind>(
    alloc: Global,
    owners: &Owners,
    worker: u32,
    packets: &[Packet],
    options: &Options,
) -> Result<Part<K>, NoMemory>
    requires lawful { IsLawful options.now }
    requires worker { worker < options.now.workers }
    requires few { length packets.now ≤ most_records }
    requires owners { AreOwners options.now packets.now owners.now }
    ensures share { IfOk result (λ part. part.share ≡ share_of_worker options.now.share options.now.workers packets.now worker) }
    ensures sound { IfOk result (λ part. IsReadyForBlock options.now (length packets.now) part) }
    ensures fresh { IfOk result (λ part. (t : Terms) → Suit K.rules t options.now → Keeps K.stands t worker part.counter fresh_worker) }
{
    let share = positions_of(alloc, owners, worker, packets, options)?;
    let counter = counter_of(alloc, worker, share.len(), options)?;
    let ends = Listed::filled(alloc, BLOCK + 1, 0)?;
    Ok(Part {
        share,
        counter,
        ends,
    })
}

// The counter of a worker with so many packets.
fn counter_of<K: Kind>(
    alloc: Global,
    worker: u32,
    packets: u32,
    options: &Options,
) -> Result<Counter<K>, NoMemory>
    requires lawful { IsLawful options.now }
    requires few { packets ≤ most_records }
    ensures updates { IfOk result (λ counter. (counter.sketch.room ≡ options.now.shape.rows * packets) × (counter.sketch.counted ≡ 0)) }
    ensures cells { IfOk result (λ counter. length counter.sketch.held ≡ size_of options.now.shape) }
    ensures queue { IfOk result (λ counter. (counter.queue ≡ []) × (counter.taken ≡ 0) × (counter.lane ≡ options.now.lane)) }
    ensures room { IfOk result (λ counter. options.now.lane + block * options.now.batch < counter.room) }
    ensures fresh { IfOk result (λ counter. (t : Terms) → Suit K.rules t options.now → Keeps K.stands t worker counter fresh_worker) }
{
    let shape = options.shape;
    let cells = shape.rows * shape.columns;
    let sketch = Private::new(alloc, cells, options.threshold, shape.rows * packets)?;
    let room = options.lane + BLOCK * options.batch + 1;
    Counter::new(alloc, worker, options.lane, options.full, sketch, room)
}
