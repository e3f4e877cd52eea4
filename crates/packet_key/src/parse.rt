ghost use Rattle.std.specs.Prelude.{◌≡◌, ◌≢◌, List, ℕ, ◌<◌, decimal, IfSome, MatchOption};
ghost use Rattle.std.specs.declared.net.socket_addr.SocketAddr.{SocketAddr};
ghost use Rattle.std.specs.Net.Grammar.{IsSocketText};
ghost use Rattle.packet_key.specs.declared.key.FlowKey.{FlowKey};
ghost use Rattle.packet_key.specs.Ends.{source_of, destination_of, protocol_of};
ghost use Rattle.packet_key.specs.KeyText.{IsKey, text_of};

use crate::{FlowKey, in_range, key_text};
use std::net::SocketAddr;

#[tactic(auto, using(crate::proofs::Sockets::parsed_socket))]
fn read_end(text: &str) -> Option<SocketAddr>
    ensures { (end : SocketAddr) → IsSocketText text.now end → result ≡ Some end }
{
    text.parse().ok()
}

#[tactic(auto, using(crate::proofs::Sockets::parsed_protocol))]
fn read_protocol(text: &str) -> Option<u8>
    ensures { (proto : ℕ) → proto < 256 → text.now ≡ decimal proto → result ≡ Some proto }
{
    text.parse().ok()
}

// The key of two ends of one family.
fn key_between(source: SocketAddr, destination: SocketAddr, proto: u8) -> Option<FlowKey>
    ensures { (k : FlowKey) → IsKey k
        → source ≡ source_of k → destination ≡ destination_of k → proto ≡ protocol_of k
        → result ≡ Some k }
{
    match (source, destination) {
        (SocketAddr::V4(source), SocketAddr::V4(destination)) => Some(FlowKey::V4 {
            src: source.ip().to_bits(),
            dst: destination.ip().to_bits(),
            sport: source.port(),
            dport: destination.port(),
            proto,
        }),
        (SocketAddr::V6(source), SocketAddr::V6(destination)) => Some(FlowKey::V6 {
            src: source.ip().octets(),
            dst: destination.ip().octets(),
            sport: source.port(),
            dport: destination.port(),
            proto,
        }),
        _ => None,
    }
}

// The key of a text that may be written in another way too: with leading zeros, with groups left out.
fn read_key(text: &str) -> Option<FlowKey>
    ensures { (k : FlowKey) → IsKey k → text.now ≡ text_of k → result ≡ Some k }
{
    let (source, rest) = text.split_once('>')?;
    let (destination, protocol) = rest.split_once('/')?;
    let source = read_end(source)?;
    let destination = read_end(destination)?;
    let proto = read_protocol(protocol)?;
    key_between(source, destination, proto)
}

/// The key whose text this is, exactly as `key_text` writes it; `None` where it is the text of no key.
pub fn parse_key(text: &str) -> Option<FlowKey>
    ensures key { IfSome result IsKey }
    ensures text { MatchOption result
        ((k : FlowKey) → IsKey k → text.now ≢ text_of k)
        (λ k. text.now ≡ text_of k) }
{
    let key = read_key(text)?;
    in_range(&key);
    let mut written = [0; 100];
    let length = key_text(&key, &mut written);
    if &written[..length] == text.as_bytes() {
        Some(key)
    } else {
        None
    }
}
