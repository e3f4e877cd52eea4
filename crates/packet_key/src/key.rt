ghost use Rattle.std.specs.Prelude.{◌≡◌, ◌+◌, ◌≤◌, ◌++◌, length, take};
ghost use Rattle.packet_key.specs.KeyBytes.{bytes_of, tail_of};

use crate::pieces::put;

/// The ends of a flow and its protocol.
///
/// An IPv4 address is a number whose most significant byte comes first on the wire, an IPv6 address
/// the 16 bytes as they stand there (RFC 791, RFC 8200). Ports are 0 where a packet shows none. The
/// protocol is IANA's number, for IPv6 that of the next header.
///
/// Every `V4` key is before every `V6` key; within a family the order is that of the key's bytes.
#[derive(Clone, Copy, Debug, PartialEq, Eq, PartialOrd, Ord, Hash)]
pub enum FlowKey {
    V4 {
        src: u32,
        dst: u32,
        sport: u16,
        dport: u16,
        proto: u8,
    },
    V6 {
        src: [u8; 16],
        dst: [u8; 16],
        sport: u16,
        dport: u16,
        proto: u8,
    },
}

/// Why a frame has no key.
#[derive(Clone, Copy, Debug, PartialEq, Eq)]
pub enum Skip {
    /// The frame ends within the Ethernet, the IPv4 or the fixed IPv6 header.
    ShortFrame,
    /// The EtherType behind the tags is not that of IPv4 or IPv6, or is a length.
    NotIp { ethertype: u16 },
    /// The version is not the one announced, or the length of an IPv4 header is below 20 bytes.
    BadIp,
    /// There are more than two VLAN tags.
    ManyTags,
}

/// Writes the key's 13 or 37 bytes at the front of `into`, and answers their number: source,
/// destination, source port, destination port, protocol, the most significant byte first.
///
/// What stands behind them is not specified.
pub fn key_bytes(key: &FlowKey, into: &mut [u8; 37]) -> usize
    ensures length { result ≡ length (bytes_of key.now) }
    ensures bytes { take result into.new ≡ bytes_of key.now }
{
    match key {
        FlowKey::V4 {
            src,
            dst,
            sport,
            dport,
            proto,
        } => {
            let at = put(into, 0, &src.to_be_bytes());
            let at = put(into, at, &dst.to_be_bytes());
            put_tail(into, at, *sport, *dport, *proto)
        }
        FlowKey::V6 {
            src,
            dst,
            sport,
            dport,
            proto,
        } => {
            let at = put(into, 0, src);
            let at = put(into, at, dst);
            put_tail(into, at, *sport, *dport, *proto)
        }
    }
}

fn put_tail(into: &mut [u8; 37], at: usize, sport: u16, dport: u16, proto: u8) -> usize
    requires { at ≤ 32 }
    ensures end { result ≡ at + 5 }
    ensures front { take result into.new ≡ take at into.old ++ tail_of sport dport proto }
{
    let at = put(into, at, &sport.to_be_bytes());
    let at = put(into, at, &dport.to_be_bytes());
    put(into, at, &[proto])
}
