ghost use Rattle.std.specs.Prelude.{◌≡◌};
ghost use Rattle.heavy_keys.specs.Fingerprints.{address_fingerprint, ends_fingerprint, fingerprint_of};

use packet_key::FlowKey;

const HALF: u128 = 18446744073709551616;

const GOLDEN: u64 = 0x9E3779B97F4A7C15;

/// The fingerprint of a key: a number made of its addresses and ports.
#[inline(always)]
#[tactic(auto, unfolding(crate::specs::Fingerprints::fingerprint_of))]
pub fn fingerprint(key: &FlowKey) -> u64
    ensures { result ≡ fingerprint_of key.now }
{
    match key {
        FlowKey::V4 {
            src,
            dst,
            sport,
            dport,
            proto: _,
        } => fingerprint_of_ends(
            u64::from(*src) * 4294967296 + u64::from(*dst),
            u64::from(*sport) * 65536 + u64::from(*dport),
        ),
        FlowKey::V6 {
            src,
            dst,
            sport,
            dport,
            proto: _,
        } => fingerprint_of_ends(
            mixed(src).wrapping_mul(GOLDEN) ^ mixed(dst),
            u64::from(*sport) * 65536 + u64::from(*dport),
        ),
    }
}

#[tactic(auto, unfolding(crate::specs::Fingerprints::ends_fingerprint))]
fn fingerprint_of_ends(ends: u64, ports: u64) -> u64
    ensures { result ≡ ends_fingerprint ends ports }
{
    (ends ^ ports.wrapping_mul(GOLDEN)).wrapping_mul(GOLDEN)
}

// Both halves of an address in one number.
#[inline(never)]
#[tactic(auto, unfolding(crate::specs::Fingerprints::address_fingerprint))]
fn mixed(address: &[u8; 16]) -> u64
    ensures { result ≡ address_fingerprint address.now }
{
    let number = u128::from_be_bytes(*address);
    let high = (number / HALF) as u64;
    let low = (number % HALF) as u64;
    high.wrapping_mul(GOLDEN) ^ low
}
