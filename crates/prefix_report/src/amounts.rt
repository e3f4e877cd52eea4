ghost use Rattle.std.specs.Prelude.{◌≡◌, ◌≤◌, ◌<◌, ◌^◌, length};
ghost use Rattle.hash_rows.specs.Limits.{most_records};
ghost use Rattle.prefix_report.specs.Reports.{ipv4_amount, ipv4_total, other_count};

use hash_rows::Packet;
use packet_key::FlowKey;

// What an IPv4 packet adds to the total.
fn ipv4_amount(packet: &Packet) -> u64
    ensures amount { result ≡ ipv4_amount packet.now }
    ensures most { result < 2 ^ 32 }
{
    let _amount = packet.amount;
    match packet.key {
        FlowKey::V4 { .. } => u64::from(packet.amount),
        FlowKey::V6 { .. } => 0,
    }
}

/// The sum of the amounts of the IPv4 packets.
#[tactic(auto, unfolding(crate::specs::Reports::ipv4_total))]
pub(crate) fn ipv4_total(packets: &[Packet]) -> u64
    requires { length packets.now ≤ most_records }
    ensures { result ≡ ipv4_total packets.now }
{
    let mut total = 0;
    for packet in packets {
        total += ipv4_amount(packet);
    }
    total
}

/// How many packets have an IPv6 key.
#[tactic(auto, unfolding(crate::specs::Reports::other_count))]
pub(crate) fn other_count(packets: &[Packet]) -> u64
    requires { length packets.now ≤ most_records }
    ensures { result ≡ other_count packets.now }
{
    let mut count = 0;
    for packet in packets {
        if matches!(packet.key, FlowKey::V6 { .. }) {
            count += 1;
        }
    }
    count
}
