ghost use Rattle.std.specs.Prelude.{◌≡◌, ◌+◌, ◌≤◌, ◌++◌, length, take};
ghost use Rattle.std.specs.Int.{to_be_bytes, w32};
ghost use Rattle.std.specs.Net.Addr.{segments_of};
ghost use Rattle.std.specs.Net.Text.{ipv4_text, groups_text};
ghost use Rattle.packet_key.specs.KeyText.{v4_end, v6_end, flow_text, text_of};

use crate::FlowKey;
use crate::pieces::{put, put_byte, put_group, put_port};
use std::net::Ipv6Addr;

fn put_dotted(into: &mut [u8; 100], at: usize, address: u32) -> usize
    requires { at ≤ 85 }
    ensures most { result ≤ at + 15 }
    ensures front { take result into.new ≡ take at into.old ++ ipv4_text (to_be_bytes w32 address) }
{
    let [a, b, c, d] = address.to_be_bytes();
    let at = put_byte(into, at, a);
    let at = put(into, at, b".");
    let at = put_byte(into, at, b);
    let at = put(into, at, b".");
    let at = put_byte(into, at, c);
    let at = put(into, at, b".");
    put_byte(into, at, d)
}

#[tactic(auto, unfolding(crate::specs::KeyText::v4_end))]
fn put_v4_end(into: &mut [u8; 100], at: usize, address: u32, port: u16) -> usize
    requires { at ≤ 79 }
    ensures most { result ≤ at + 21 }
    ensures front { take result into.new ≡ take at into.old ++ v4_end address port }
{
    let at = put_dotted(into, at, address);
    let at = put(into, at, b":");
    put_port(into, at, port)
}

fn put_groups(into: &mut [u8; 100], at: usize, address: &[u8; 16]) -> usize
    requires { at ≤ 61 }
    ensures most { result ≤ at + 39 }
    ensures front { take result into.new ≡ take at into.old ++ groups_text (segments_of address.now) }
{
    let groups = Ipv6Addr::from_octets(*address).segments();
    let mut end = put_group(into, at, groups[0]);
    for place in 1..8 {
        end = put(into, end, b":");
        end = put_group(into, end, groups[place]);
    }
    end
}

#[tactic(auto, unfolding(crate::specs::KeyText::v6_end))]
fn put_v6_end(into: &mut [u8; 100], at: usize, address: &[u8; 16], port: u16) -> usize
    requires { at ≤ 53 }
    ensures most { result ≤ at + 47 }
    ensures front { take result into.new ≡ take at into.old ++ v6_end address.now port }
{
    let at = put(into, at, b"[");
    let at = put_groups(into, at, address);
    let at = put(into, at, b"]:");
    put_port(into, at, port)
}

/// Writes the key's text at the front of `into`, and answers its length, at most 99: `A:P>B:Q/N` or
/// `[A]:P>[B]:Q/N`, source and destination with their ports, and the protocol.
///
/// An IPv6 address is written as eight groups in lower-case hexadecimal with no leading zeros, and
/// none is left out (RFC 4291, section 2.2, first form). What stands behind the text is not
/// specified.
#[tactic(auto, using(crate::proofs::Lengths::length_of_front), unfolding(crate::specs::KeyText::text_of, crate::specs::KeyText::flow_text))]
pub fn key_text(key: &FlowKey, into: &mut [u8; 100]) -> usize
    ensures length { result ≡ length (text_of key.now) }
    ensures most { result ≤ 99 }
    ensures text { take result into.new ≡ text_of key.now }
{
    match key {
        FlowKey::V4 {
            src,
            dst,
            sport,
            dport,
            proto,
        } => {
            let at = put_v4_end(into, 0, *src, *sport);
            let at = put(into, at, b">");
            let at = put_v4_end(into, at, *dst, *dport);
            let at = put(into, at, b"/");
            put_byte(into, at, *proto)
        }
        FlowKey::V6 {
            src,
            dst,
            sport,
            dport,
            proto,
        } => {
            let at = put_v6_end(into, 0, src, *sport);
            let at = put(into, at, b">");
            let at = put_v6_end(into, at, dst, *dport);
            let at = put(into, at, b"/");
            put_byte(into, at, *proto)
        }
    }
}
