ghost use Rattle.std.specs.Prelude.{map, IfOk};
ghost use Rattle.heavy_keys.specs.FinalHeavy.{IsFinalHeavy};

use crate::heaviest_flows::{HeaviestFlows, heaviest};
use flow_base::NoMemory;
use hash_rows::{Flows, Kind, Packet, Table};
use packet_key::FlowKey;
use std::alloc::Global;
use std::cmp::Reverse;

/// An estimate and its key, whose order is that of heavy flows.
pub type Rank = (Reverse<i64>, FlowKey);

/// The distinct keys of the packets whose estimate is at least `least`, by estimate downwards,
/// equal ones by key upwards.
pub fn final_heavy<K: Kind>(
    alloc: Global,
    packets: &[Packet],
    table: &Table<K>,
    least: i64,
) -> Result<Flows, NoMemory>
    ensures { IfOk result (λ flows. IsFinalHeavy (K.rules.estimate table.now.shape table.now.cells) least
        (map (λ p. p.key) packets.now) flows.items) }
{
    let HeaviestFlows { count, flows } = heaviest(alloc, packets, table, least, u32::MAX)?;
    if count > u64::from(u32::MAX) {
        return Err(NoMemory);
    }
    Ok(flows)
}
