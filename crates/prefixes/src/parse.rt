ghost use Rattle.std.specs.Prelude.{◌≡◌, ◌≢◌, ◌<◌, ◌^◌, ℕ, Some, IfSome, MatchOption, decimal};
ghost use Rattle.std.specs.declared.net.ipv4_addr.Ipv4Addr.{Ipv4Addr};
ghost use Rattle.std.specs.Net.Grammar.{IsIpv4Text};
ghost use Rattle.prefixes.specs.declared.network.Prefix.{Prefix};
ghost use Rattle.prefixes.specs.Networks.{IsLength, IsNetwork};
ghost use Rattle.prefixes.specs.Texts.{prefix_text};

use crate::{Prefix, network_of, prefix_text};
use std::net::Ipv4Addr;

#[tactic(auto, using(crate::proofs::Texts::parsed_number))]
fn read_number(text: &str) -> Option<u32>
    ensures { (n : ℕ) → n < 2 ^ 32 → text.now ≡ decimal n → result ≡ Some n }
{
    text.parse().ok()
}

// The length that the text writes, where it is one of the four.
fn read_length(text: &str) -> Option<u32>
    ensures lawful { IfSome result IsLength }
    ensures read { (n : ℕ) → IsLength n → text.now ≡ decimal n → result ≡ Some n }
{
    let length = read_number(text)?;
    match length {
        8 | 16 | 24 | 32 => Some(length),
        _ => None,
    }
}

#[tactic(auto, using(crate::proofs::Texts::parsed_address))]
fn read_address(text: &str) -> Option<Ipv4Addr>
    ensures { (address : Ipv4Addr) → IsIpv4Text text.now address → result ≡ Some address }
{
    text.parse().ok()
}

// The network of a text that may also be that of an address in it.
fn read_prefix(text: &str) -> Option<Prefix>
    ensures lawful { IfSome result IsNetwork }
    ensures read { (p : Prefix) → IsNetwork p → text.now ≡ prefix_text p → result ≡ Some p }
{
    let (address, length) = text.split_once('/')?;
    let address = read_address(address)?;
    let length = read_length(length)?;
    Some(network_of(length, address.to_bits()))
}

/// The network whose text this is, exactly as `prefix_text` writes it; `None` where it is the text of
/// none.
pub fn parse_prefix(text: &str) -> Option<Prefix>
    ensures lawful { IfSome result IsNetwork }
    ensures text { MatchOption result
        ((p : Prefix) → IsNetwork p → text.now ≢ prefix_text p)
        (λ p. text.now ≡ prefix_text p) }
{
    let prefix = read_prefix(text)?;
    let mut written = [0; 20];
    let length = prefix_text(&prefix, &mut written);
    if &written[..length] == text.as_bytes() {
        Some(prefix)
    } else {
        None
    }
}
