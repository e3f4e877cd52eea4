ghost use Rattle.std.specs.Prelude.{map, IfOk};
ghost use Rattle.heavy_keys.specs.FinalHeavy.{AreHeaviest};

use crate::candidates::{Found, find};
use crate::distinct::distinct_in_buckets;
use crate::top_flows::flows_of;
use flow_base::NoMemory;
use hash_rows::{Estimates, Flows, Packet};
use std::alloc::Global;

/// How many flows are heavy, and the first of them.
#[derive(Drop)]
pub struct HeaviestFlows {
    pub count: u64,
    pub flows: Flows,
}

/// The number of distinct keys of the packets whose estimate is at least `least`, and the first of
/// them, at most `most`: by estimate downwards, equal ones by key upwards. The estimates are those of
/// a table, or of anything else that has one for each key.
pub fn heaviest<E: Estimates>(
    alloc: Global,
    packets: &[Packet],
    estimates: &E,
    least: i64,
    most: u32,
) -> Result<HeaviestFlows, NoMemory>
    ensures { IfOk result (λ h. AreHeaviest (E.estimate_of estimates.now) least (map (λ p. p.key) packets.now) most h.count h.flows.items) }
{
    let Found { buckets, top, .. } = find(alloc, packets, estimates, least, most)?;
    let count = distinct_in_buckets(alloc, packets, &buckets)?;
    let flows = flows_of(alloc, top)?;
    Ok(HeaviestFlows { count, flows })
}
