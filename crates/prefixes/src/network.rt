ghost use Rattle.std.specs.Prelude.{◌≡◌, ◌≤◌, ◌*◌};
ghost use Rattle.prefixes.specs.Networks.{IsLength, IsNetwork, addresses_in, network_of, prefix_key};

use listed::Listed;
use packet_key::FlowKey;

/// The IPv4 addresses whose first `length` bits are those of `bits`.
///
/// The length is 8, 16, 24 or 32, and the bits behind it are 0.
#[derive(Clone, Copy, Debug, PartialEq, Eq)]
pub struct Prefix {
    pub bits: u32,
    pub length: u32,
}

pub type Prefixes = Listed<Prefix>;

/// How many addresses a network of the length has.
#[tactic(auto, unfolding(crate::specs::Networks::addresses_in))]
pub fn addresses_in(length: u32) -> u32
    requires { IsLength length }
    ensures { result ≡ addresses_in length }
{
    match length {
        8 => 0x100_0000,
        16 => 0x1_0000,
        24 => 0x100,
        _ => 1,
    }
}

/// The network of the length that the address is in.
#[tactic(auto, unfolding(crate::specs::Networks::network_of, crate::specs::Networks::addresses_in))]
pub fn network_of(length: u32, address: u32) -> Prefix
    requires { IsLength length }
    ensures network { result ≡ network_of length address }
    ensures lawful { IsNetwork result }
{
    Prefix {
        bits: address - address % addresses_in(length),
        length,
    }
}

/// The key that stands for the network in a sketch: its address is the source, its length the protocol.
pub fn prefix_key(prefix: &Prefix) -> FlowKey
    requires { IsNetwork prefix.now }
    ensures { result ≡ prefix_key prefix.now }
{
    FlowKey::V4 {
        src: prefix.bits,
        dst: 0,
        sport: 0,
        dport: 0,
        proto: prefix.length as u8,
    }
}
