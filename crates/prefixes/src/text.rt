ghost use Rattle.std.specs.Prelude.{◌≡◌, ◌+◌, ◌≤◌, ◌<◌, ◌++◌, length, take, decimal};
ghost use Rattle.std.specs.Int.{to_be_bytes, w32};
ghost use Rattle.std.specs.Net.Text.{ipv4_text};
ghost use Rattle.prefixes.specs.Networks.{IsLength, IsNetwork};
ghost use Rattle.prefixes.specs.Texts.{prefix_text};

use crate::Prefix;
use itoa::Buffer;
use packet_key::put;

// Writes the number in decimal at the place, and answers the place behind it.
#[tactic(auto, using(crate::proofs::Lengths::byte_is_short))]
fn put_byte(into: &mut [u8], at: usize, byte: u8) -> usize
    requires { at + 3 ≤ length into.old }
    ensures most { result ≤ at + 3 }
    ensures front { take result into.new ≡ take at into.old ++ decimal byte }
{
    let mut digits = Buffer::new();
    put(into, at, digits.format(byte).as_bytes())
}

// Writes one of the four lengths at the place.
#[tactic(auto, using(crate::proofs::Lengths::length_is_short))]
fn put_length(into: &mut [u8], at: usize, bits: u32) -> usize
    requires bits { IsLength bits }
    requires room { at + 2 ≤ length into.old }
    ensures most { result ≤ at + 2 }
    ensures front { take result into.new ≡ take at into.old ++ decimal bits }
{
    let mut digits = Buffer::new();
    put(into, at, digits.format(bits).as_bytes())
}

// Writes the address at the front.
fn put_address(into: &mut [u8; 20], address: u32) -> usize
    ensures most { result ≤ 15 }
    ensures front { take result into.new ≡ ipv4_text (to_be_bytes w32 address) }
{
    let [a, b, c, d] = address.to_be_bytes();
    let at = put_byte(into, 0, a);
    let at = put(into, at, b".");
    let at = put_byte(into, at, b);
    let at = put(into, at, b".");
    let at = put_byte(into, at, c);
    let at = put(into, at, b".");
    put_byte(into, at, d)
}

/// Writes the network's text at the front of `into`, and answers its length, at most 18: `A/L`, its
/// address and its length. What stands behind the text is not specified.
#[tactic(auto, using(crate::proofs::Lengths::length_of_front), unfolding(crate::specs::Texts::prefix_text))]
pub fn prefix_text(prefix: &Prefix, into: &mut [u8; 20]) -> usize
    requires { IsNetwork prefix.now }
    ensures length { result ≡ length (prefix_text prefix.now) }
    ensures most { result ≤ 18 }
    ensures text { take result into.new ≡ prefix_text prefix.now }
{
    let at = put_address(into, prefix.bits);
    let at = put(into, at, b"/");
    put_length(into, at, prefix.length)
}
