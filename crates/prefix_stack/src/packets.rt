ghost use Rattle.std.specs.Prelude.{◌≡◌, ◌<◌, ◌≤◌, ◌+◌, ◌++◌, length, IfOk};
ghost use Rattle.hash_rows.specs.Limits.{most_records};
ghost use Rattle.prefixes.specs.Networks.{IsLength};
ghost use Rattle.prefix_stack.specs.Levels.{level_packets, network_packets};

use flow_base::NoMemory;
use hash_rows::{Packet, Packets};
use listed::Listed;
use packet_key::FlowKey;
use prefixes::{network_of, prefix_key};
use std::alloc::Global;

// Adds an IPv4 packet, as one of its source's network.
#[tactic(auto, unfolding(crate::specs::Levels::network_packets))]
fn add_packet(level: &mut Packets, bits: u32, packet: &Packet)
    requires bits { IsLength bits }
    requires room { length level.old.items < level.old.room }
    ensures items { level.new.items ≡ level.old.items ++ network_packets bits packet.now }
    ensures few { length level.new.items ≤ length level.old.items + 1 }
    ensures room { level.new.room ≡ level.old.room }
{
    let amount = packet.amount;
    match packet.key {
        FlowKey::V4 { src, .. } => level.push(Packet {
            key: prefix_key(&network_of(bits, src)),
            amount,
        }),
        FlowKey::V6 { .. } => (),
    }
}

/// Each IPv4 packet in order, as one of its source's network of so many bits.
pub fn level_packets(alloc: Global, packets: &[Packet], bits: u32) -> Result<Packets, NoMemory>
    requires bits { IsLength bits }
    requires few { length packets.now ≤ most_records }
    ensures items { IfOk result (λ level. level.items ≡ level_packets bits packets.now) }
    ensures few { IfOk result (λ level. length level.items ≤ length packets.now) }
{
    let mut level = Listed::new(alloc, packets.len() as u32)?;
    for packet in packets {
        add_packet(&mut level, bits, packet);
    }
    Ok(level)
}
