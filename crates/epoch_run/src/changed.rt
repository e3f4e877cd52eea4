ghost use Rattle.std.specs.Prelude.{◌≡◌, ◌≤◌, ◌^◌, ◌+◌, ◌++◌, List, length, map, take, IfOk};
ghost use Rattle.hash_rows.specs.declared.shape.Packet.{Packet};
ghost use Rattle.epoch_run.specs.Changes.{AreChanges, AreGreatest, AreWithin, change_by, estimates_of, packet_keys};
ghost use Rattle.epoch_run.specs.Distances.{capped_distance};

use crate::change::{Change, Changes, GreatestChanges};
use count_sketch::CountSketch;
use flow_base::NoMemory;
use hash_rows::{Estimates, Flows, Packet, Packets, Table};
use heavy_keys::{HeaviestFlows, heaviest};
use listed::Listed;
use packet_key::FlowKey;
use std::alloc::Global;

const MOST: u64 = 9223372036854775807;

/// How far apart the estimates of two tables are.
#[derive(Drop)]
struct Distances<'a> {
    old: &'a Table<CountSketch>,
    new: &'a Table<CountSketch>,
}

impl<'a> Estimates for Distances<'a> {
    ghost estimate_of = { λ d. capped_distance d.old.now d.new.now };

    fn estimate_of(&self, key: &FlowKey) -> i64 {
        let distance = self.new.estimate(key).abs_diff(self.old.estimate(key));
        distance.min(MOST) as i64
    }
}

/// The distinct keys of both lists of packets whose estimates on the two tables are at least `least` apart:
/// by that distance downwards, those as far apart by key upwards.
pub fn changed_flows(
    alloc: Global,
    before: &[Packet],
    old: &Table<CountSketch>,
    after: &[Packet],
    new: &Table<CountSketch>,
    least: u64,
) -> Result<Changes, NoMemory>
    requires old { AreWithin (2 ^ 56) old.now }
    requires new { AreWithin (2 ^ 56) new.now }
    ensures { IfOk result (λ changes. AreChanges (estimates_of old.now) (estimates_of new.now) least
        (packet_keys (before.now ++ after.now)) changes.items) }
{
    let packets = joined(alloc, before, after)?;
    let greatest = greatest_changes(alloc, packets.as_slice(), old, new, least, u32::MAX)?;
    if greatest.count > u64::from(u32::MAX) {
        return Err(NoMemory);
    }
    Ok(greatest.changes)
}

/// How many distinct keys of the packets have estimates on the two tables that are at least `least` apart, and
/// the first of them, at most `most`.
pub fn greatest_changes(
    alloc: Global,
    packets: &[Packet],
    old: &Table<CountSketch>,
    new: &Table<CountSketch>,
    least: u64,
    most: u32,
) -> Result<GreatestChanges, NoMemory>
    requires old { AreWithin (2 ^ 60) old.now }
    requires new { AreWithin (2 ^ 60) new.now }
    ensures { IfOk result (λ g. AreGreatest (estimates_of old.now) (estimates_of new.now) least
        (packet_keys packets.now) most g.count g.changes.items) }
{
    let distances = Distances { old, new };
    let least = least.min(MOST) as i64;
    let HeaviestFlows { count, flows } = heaviest(alloc, packets, &distances, least, most)?;
    let changes = changes_of(alloc, &flows, old, new)?;
    Ok(GreatestChanges { count, changes })
}

// The flows with their estimates on both tables.
fn changes_of(
    alloc: Global,
    flows: &Flows,
    old: &Table<CountSketch>,
    new: &Table<CountSketch>,
) -> Result<Changes, NoMemory>
    ensures { IfOk result (λ changes. changes.items ≡ map (change_by (estimates_of old.now) (estimates_of new.now)) flows.now.items) }
{
    let mut changes = Listed::new(alloc, flows.len())?;
    for flow in flows.as_slice() {
        changes.push(Change {
            key: flow.key,
            before: old.estimate(&flow.key),
            after: new.estimate(&flow.key),
        });
    }
    Ok(changes)
}

// All packets of both lists.
fn joined(alloc: Global, before: &[Packet], after: &[Packet]) -> Result<Packets, NoMemory>
    ensures { IfOk result (λ both. both.items ≡ before.now ++ after.now) }
{
    let (Ok(front), Ok(back)) = (u32::try_from(before.len()), u32::try_from(after.len())) else {
        return Err(NoMemory);
    };
    let Some(room) = front.checked_add(back) else {
        return Err(NoMemory);
    };
    let mut both = Listed::new(alloc, room)?;
    add_all(&mut both, before);
    add_all(&mut both, after);
    Ok(both)
}

// Adds the packets at the end.
fn add_all(packets: &mut Packets, more: &[Packet])
    requires { length packets.old.items + length more.now ≤ packets.old.room }
    ensures items { packets.new.items ≡ packets.old.items ++ more.now }
    ensures room { packets.new.room ≡ packets.old.room }
{
    for packet in more {
        packets.push(*packet);
    }
}
