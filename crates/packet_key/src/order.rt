ghost use Rattle.std.specs.Prelude.{◌≡◌, ◌↔◌, IsTrue};
ghost use Rattle.packet_key.specs.KeyOrder.{key_order};
ghost use Rattle.packet_key.specs.Keys.{same_key};

use crate::{FlowKey, in_range};
use std::cmp::Ordering;

/// The order of two keys, which `cmp` is: each `V4` key is before each `V6` key, and within a family
/// the order is that of the keys' bytes.
pub fn key_order(a: &FlowKey, b: &FlowKey) -> Ordering
    ensures { result ≡ key_order a.now b.now }
{
    in_range(a);
    in_range(b);
    a.cmp(b)
}

/// Whether both keys are one, which `==` answers. A derived `==` is a call, which this is not.
#[inline(always)]
#[tactic(auto, using(crate::proofs::EqualKeys::same_key_is))]
pub fn same_key(key: &FlowKey, other: &FlowKey) -> bool
    ensures equal { IsTrue result ↔ (key.now ≡ other.now) }
    ensures test { result ≡ same_key key.now other.now }
{
    match (key, other) {
        (
            FlowKey::V4 {
                src,
                dst,
                sport,
                dport,
                proto,
            },
            FlowKey::V4 {
                src: other_src,
                dst: other_dst,
                sport: other_sport,
                dport: other_dport,
                proto: other_proto,
            },
        ) => {
            *src == *other_src
                && *dst == *other_dst
                && *sport == *other_sport
                && *dport == *other_dport
                && *proto == *other_proto
        }
        (FlowKey::V6 { .. }, FlowKey::V6 { .. }) => *key == *other,
        _ => false,
    }
}
