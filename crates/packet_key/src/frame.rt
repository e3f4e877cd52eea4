ghost use Rattle.std.specs.Prelude.{◌≡◌, ◌+◌, ◌≤◌, ◌<◌, ◌/◌, ◌%◌, ◌==◌, ◌||◌, not, nat_lt, length};
ghost use Rattle.packet_key.specs.Frame.{u16_of, u32_of, address_at, has_ports, payload_place, shows_ports, key_at, packet_at, shows_ports6, key6_at, packet6_at, announced, is_tag, key_behind, key_of};

use crate::{FlowKey, Skip};

// EtherTypes (IEEE 802 numbers) and protocols (IANA).
const IPV4: u16 = 0x0800;

const IPV6: u16 = 0x86DD;

const VLAN_TAG: u16 = 0x8100;

const SERVICE_TAG: u16 = 0x88A8;

const TCP: u8 = 6;

const UDP: u8 = 17;

fn u16_at(frame: &[u8], at: usize) -> u16
    requires { at + 2 ≤ length frame.now }
    ensures { result ≡ u16_of frame.now at }
{
    256 * u16::from(frame[at]) + u16::from(frame[at + 1])
}

fn u32_at(frame: &[u8], at: usize) -> u32
    requires { at + 4 ≤ length frame.now }
    ensures { result ≡ u32_of frame.now at }
{
    65536 * u32::from(u16_at(frame, at)) + u32::from(u16_at(frame, at + 2))
}

fn address(frame: &[u8], at: usize) -> [u8; 16]
    requires { at + 16 ≤ length frame.now }
    ensures { result ≡ address_at frame.now at }
{
    let mut address = [0; 16];
    address.copy_from_slice(&frame[at..at + 16]);
    address
}

fn carries_ports(protocol: u8) -> bool
    ensures { result ≡ has_ports protocol }
{
    protocol == TCP || protocol == UDP
}

// The place behind the IPv4 header at `p`.
#[tactic(auto, unfolding(crate::specs::Frame::payload_place))]
fn payload_at(frame: &[u8], p: usize) -> usize
    requires inside { p < length frame.now }
    requires small { p < 100 }
    ensures { result ≡ payload_place frame.now p }
{
    p + 4 * (frame[p] % 16) as usize
}

#[inline(always)]
#[tactic(auto, unfolding(crate::specs::Frame::shows_ports, crate::specs::Frame::payload_place))]
fn v4_shows_ports(frame: &[u8], p: usize) -> bool
    requires fixed { p + 20 ≤ length frame.now }
    requires small { p < 100 }
    ensures { result ≡ shows_ports frame.now p }
{
    carries_ports(frame[p + 9])
        && u16_at(frame, p + 6) % 8192 == 0
        && frame.len() >= payload_at(frame, p) + 4
}

#[inline(always)]
#[tactic(auto, unfolding(crate::specs::Frame::key_at, crate::specs::Frame::shows_ports, crate::specs::Frame::payload_place))]
fn v4_key(frame: &[u8], p: usize) -> FlowKey
    requires fixed { p + 20 ≤ length frame.now }
    requires small { p < 100 }
    ensures { result ≡ key_at frame.now p }
{
    let payload = payload_at(frame, p);
    let (sport, dport) = if v4_shows_ports(frame, p) {
        (u16_at(frame, payload), u16_at(frame, payload + 2))
    } else {
        (0, 0)
    };
    FlowKey::V4 {
        src: u32_at(frame, p + 12),
        dst: u32_at(frame, p + 16),
        sport,
        dport,
        proto: frame[p + 9],
    }
}

// Version 4, and a header of at least five words.
fn begins_v4(first: u8) -> bool
    ensures { result ≡ not (not (first / 16 == 4) || nat_lt (first % 16) 5) }
{
    first >= 0x45 && first <= 0x4f
}

#[inline(always)]
#[tactic(auto, unfolding(crate::specs::Frame::packet_at, crate::specs::Frame::payload_place))]
fn read_v4(frame: &[u8], p: usize) -> Result<FlowKey, Skip>
    requires small { p < 100 }
    ensures { result ≡ packet_at frame.now p }
{
    if frame.len() < p + 20 {
        return Err(Skip::ShortFrame);
    }
    let first = frame[p];
    if !begins_v4(first) {
        return Err(Skip::BadIp);
    }
    if frame.len() < payload_at(frame, p) {
        return Err(Skip::ShortFrame);
    }
    Ok(v4_key(frame, p))
}

#[inline(always)]
#[tactic(auto, unfolding(crate::specs::Frame::key6_at, crate::specs::Frame::shows_ports6))]
fn v6_key(frame: &[u8], p: usize) -> FlowKey
    requires fixed { p + 40 ≤ length frame.now }
    requires small { p < 100 }
    ensures { result ≡ key6_at frame.now p }
{
    let proto = frame[p + 6];
    let (sport, dport) = if carries_ports(proto) && frame.len() >= p + 44 {
        (u16_at(frame, p + 40), u16_at(frame, p + 42))
    } else {
        (0, 0)
    };
    FlowKey::V6 {
        src: address(frame, p + 8),
        dst: address(frame, p + 24),
        sport,
        dport,
        proto,
    }
}

#[inline(always)]
#[tactic(auto, unfolding(crate::specs::Frame::packet6_at))]
fn read_v6(frame: &[u8], p: usize) -> Result<FlowKey, Skip>
    requires small { p < 100 }
    ensures { result ≡ packet6_at frame.now p }
{
    if frame.len() < p + 40 {
        return Err(Skip::ShortFrame);
    }
    if frame[p] / 16 != 6 {
        return Err(Skip::BadIp);
    }
    Ok(v6_key(frame, p))
}

#[inline(always)]
#[tactic(auto, unfolding(crate::specs::Frame::announced))]
fn read_announced(ethertype: u16, frame: &[u8], p: usize) -> Result<FlowKey, Skip>
    requires small { p < 100 }
    ensures { result ≡ announced ethertype frame.now p }
{
    match ethertype {
        IPV4 => read_v4(frame, p),
        IPV6 => read_v6(frame, p),
        _ => Err(Skip::NotIp { ethertype }),
    }
}

fn is_tag(ethertype: u16) -> bool
    ensures { result ≡ is_tag ethertype }
{
    ethertype == VLAN_TAG || ethertype == SERVICE_TAG
}

/// The flow key of an Ethernet II frame, behind at most two VLAN tags, or why it has none.
///
/// Ports are those of TCP and UDP, and 0 in a later fragment, where the frame ends before them, and
/// for any other protocol. Extension headers of IPv6 are not read, nor are lengths and checksums.
#[inline(always)]
#[tactic(auto, unfolding(crate::specs::Frame::key_of))]
pub fn read_frame(frame: &[u8]) -> Result<FlowKey, Skip>
    ensures { result ≡ key_of frame.now }
{
    if frame.len() < 14 {
        return Err(Skip::ShortFrame);
    }
    let mut at = 12;
    let mut tags_left: u8 = 2;
    let mut ethertype = u16_at(frame, at);
    while is_tag(ethertype) {
        if tags_left == 0 {
            return Err(Skip::ManyTags);
        }
        if frame.len() < at + 6 {
            return Err(Skip::ShortFrame);
        }
        tags_left -= 1;
        at += 4;
        ethertype = u16_at(frame, at);
    }
    read_announced(ethertype, frame, at + 2)
}
