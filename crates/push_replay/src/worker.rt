ghost use Rattle.std.specs.Prelude.{◌≡◌, ◌<◌, ◌≤◌, ◌+◌, ◌*◌, ◌++◌, ℕ, List, All, length, map, IfOk, OnOk, None, slice_index_or, false};
ghost use Rattle.hash_rows.specs.Limits.{most_records};
ghost use Rattle.hash_rows.specs.Marks.{marked};
ghost use Rattle.hash_rows.specs.Shapes.{IsShape, size_of};
ghost use Rattle.hash_rows.specs.Sketches.{rows_of};
ghost use Rattle.hash_rows.specs.declared.shape.Update.{Update};
ghost use Rattle.push_history.specs.Updates.{update_in_row, updates_at, updates_of};
ghost use Rattle.push_replay.specs.Replays.{KeepsSize, Tells};

use crate::replay::Replay;
use flow_base::NoMemory;
use hash_rows::{Bits, Kind, Options, Packet, Shape, Update, cell_in_row, hash_in_row, key_hash};
use shares::Positions;
use std::alloc::Global;

/// Counts all updates of the worker again, those of the packets at the positions, where the bits
/// say which were refused.
pub fn replay_worker<K: Kind>(
    alloc: Global,
    worker: u32,
    packets: &[Packet],
    positions: &Positions,
    options: &Options,
    refused: &Bits,
) -> Result<Replay<K>, NoMemory>
    requires shape { IsShape options.now.shape }
    requires threshold { 1 ≤ options.now.threshold }
    requires few { length positions.now ≤ most_records }
    requires within { All (λ i. i < length packets.now) positions.now }
    ensures tells { IfOk result (λ replay. Tells K.stands K.rules worker options.now.threshold (marked refused.now)
        (updates_of K.rules options.now.shape packets.now positions.now) replay) }
    ensures lane { IfOk result (λ replay. replay.lane ≡ options.now.lane) }
{
    let shape = options.shape;
    let updates = shape.rows * positions.len();
    let cells = shape.rows * shape.columns;
    let mut replay = Replay::new(
        alloc,
        worker,
        cells,
        options.threshold,
        updates,
        options.lane,
    )?;
    for place in 0..positions.len() {
        let position = positions.at(place);
        count_packet(
            &mut replay,
            &packets[position as usize],
            position,
            &shape,
            refused,
        )?;
    }
    Ok(replay)
}

// Whether the update was refused.
fn is_set(refused: &Bits, update: u32) -> bool
    ensures { result ≡ slice_index_or refused.now update false }
{
    update < refused.len() && refused.get(update)
}

// Counts what the packet adds in each row. The key's bytes are hashed once.
fn count_packet<K: Kind>(
    replay: &mut Replay<K>,
    packet: &Packet,
    position: u32,
    shape: &Shape,
    refused: &Bits,
) -> Result<(), NoMemory>
    requires shape { IsShape shape.now }
    requires idle { replay.old.sketch.due ≡ None }
    requires room { replay.old.sketch.counted + shape.now.rows ≤ replay.old.sketch.room }
    requires cells { length replay.old.sketch.held ≡ size_of shape.now }
    ensures tells { (w T : ℕ) (updates : List Update) → Tells K.stands K.rules w T (marked refused.now) updates replay.old
        → OnOk result (Tells K.stands K.rules w T (marked refused.now)
        (updates ++ map (update_in_row K.rules shape.now position packet.now) (rows_of shape.now)) replay.new) }
    ensures counted { OnOk result (replay.new.sketch.counted ≡ replay.old.sketch.counted + shape.now.rows) }
    ensures same { KeepsSize replay.old replay.new }
{
    let _amount = packet.amount;
    let key_hash = key_hash(&packet.key);
    for row in 0..shape.rows {
        let hash = hash_in_row(key_hash, row);
        let update = Update {
            packet: position,
            key: packet.key,
            cell: cell_in_row(shape, hash, row),
            value: K::value_in_row(shape, packet, row, hash),
        };
        let refused = is_set(refused, replay.counted());
        replay.count(&update, refused)?;
    }
    Ok(())
}
