//! What a worker does.
ghost use Rattle.std.specs.Prelude.{◌≡◌, ◌<◌, ◌≤◌, ◌+◌, ◌*◌, ◌++◌, [], List, length, None};
ghost use Rattle.hash_rows.specs.Limits.{most_records};
ghost use Rattle.hash_rows.specs.Shapes.{IsShape, size_of};
ghost use Rattle.hash_rows.specs.declared.shape.Update.{Update};
ghost use Rattle.push_history.specs.Updates.{updates_of};
ghost use Rattle.push_rule.specs.Stands.{StandsFor};
ghost use Rattle.shares.specs.Positions.{AreRising};
ghost use Rattle.thread_work.specs.Worked.{HasTold, KeepsSketch, updates_of_packet};

use crate::gate::Gate;
use crate::telling::tell;
use hash_rows::{Full, Kind, Packet, Shape, cell_in_row, hash_in_row, key_hash};
use push_lane::{InPass, Lane};
use push_rule::Private;
use shares::Positions;
use std::sync::Wait;

// Takes up the updates of one packet.
fn tell_packet<K: Kind, R: Wait>(
    rt: &R,
    worker: u32,
    packet: &Packet,
    position: u32,
    shape: &Shape,
    full: Full,
    sketch: &mut Private<K>,
    lane: &Lane,
    pass: &mut InPass,
)
    requires shape { IsShape shape.now }
    requires idle { sketch.old.due ≡ None }
    requires room { sketch.old.counted + shape.now.rows ≤ sketch.old.room }
    requires cells { length sketch.old.held ≡ size_of shape.now }
    requires lane { pass.old.id ≡ lane.now.id }
    requires few { length pass.old.sent ≤ sketch.old.counted }
    ensures idle { sketch.new.due ≡ None }
    ensures counted { sketch.new.counted ≡ sketch.old.counted + shape.now.rows }
    ensures same { KeepsSketch sketch.old sketch.new }
    ensures lane { pass.new.id ≡ lane.now.id }
    ensures few { length pass.new.sent ≤ sketch.new.counted }
    ensures told { (updates : List Update) → HasTold K.stands K.rules worker lane.now.capacity full sketch.old pass.old updates
        → HasTold K.stands K.rules worker lane.now.capacity full sketch.new pass.new
        (updates ++ updates_of_packet K.rules shape.now position packet.now shape.now.rows) }
{
    let _amount = packet.amount;
    let key_hash = key_hash(&packet.key);
    for row in 0..shape.rows {
        let hash = hash_in_row(key_hash, row);
        let cell = cell_in_row(shape, hash, row);
        let value = K::value_in_row(shape, packet, row, hash);
        tell(
            rt,
            worker,
            full,
            position,
            &packet.key,
            cell,
            value,
            sketch,
            lane,
            pass,
        );
    }
}

/// Counts the packets at the positions, which rise, and tries each push that is due: once, or
/// where pushes wait until it is taken. The gate is told of each packet before it is counted.
pub fn work<K: Kind, R: Wait, G: Gate>(
    rt: &R,
    worker: u32,
    packets: &[Packet],
    share: &Positions,
    shape: &Shape,
    full: Full,
    sketch: &mut Private<K>,
    lane: &Lane,
    pass: &mut InPass,
    gate: &G,
)
    requires shape { IsShape shape.now }
    requires few { length packets.now ≤ most_records }
    requires share { AreRising (length packets.now) share.now }
    requires fresh { StandsFor K.stands K.rules sketch.old [] [] [] × (sketch.old.due ≡ None) }
    requires room { sketch.old.room ≡ shape.now.rows * length share.now }
    requires cells { length sketch.old.held ≡ size_of shape.now }
    requires lane { pass.old.id ≡ lane.now.id }
    requires empty { (pass.old.sent ≡ []) × (pass.old.fulls ≡ 0) }
    ensures idle { sketch.new.due ≡ None }
    ensures same { KeepsSketch sketch.old sketch.new }
    ensures lane { pass.new.id ≡ lane.now.id }
    ensures told { HasTold K.stands K.rules worker lane.now.capacity full sketch.new pass.new
        (updates_of K.rules shape.now packets.now share.now) }
{
    // A copy, of which the loops read nothing again.
    let shape = *shape;
    for place in 0..share.len() {
        gate.pass(worker, place);
        let position = share.at(place);
        let packet = &packets[position as usize];
        tell_packet(
            rt, worker, packet, position, &shape, full, sketch, lane, pass,
        );
    }
}
