ghost use Rattle.std.specs.Prelude.{◌≡◌, map, IfOk};
ghost use Rattle.reports.specs.ReportOf.{flow_by, Distinct, FindsFlows, HeavyFlows};

use flow_base::NoMemory;
use hash_rows::{Flow, Flows, Keys, Kind, Options, Packet, Sketch, Table, ZERO_KEY};
use heavy_keys::heaviest;
use listed::Listed;
use std::alloc::Global;

/// What a table says of all keys.
#[derive(Drop)]
pub struct Findings {
    /// The estimate of the number of keys, with LogLog alone.
    pub distinct: Option<i64>,
    /// The number of all heavy flows.
    pub heavy: u64,
    /// The first of them.
    pub flows: Flows,
}

/// The keys and their estimates, in the order given.
pub fn estimates<K: Kind>(alloc: Global, keys: &Keys, table: &Table<K>) -> Result<Flows, NoMemory>
    ensures { IfOk result (λ flows. flows.items ≡ map (flow_by (K.rules.estimate table.now.shape table.now.cells)) keys.now.items) }
{
    let mut flows = Listed::new(alloc, keys.len())?;
    for key in keys.as_slice() {
        flows.push(Flow {
            key: *key,
            estimate: table.estimate(key),
        });
    }
    Ok(flows)
}

// What a LogLog says: how many keys there are.
fn distinct_keys<K: Kind>(alloc: Global, table: &Table<K>) -> Result<Findings, NoMemory>
    ensures { IfOk result (λ f. Distinct (K.rules.estimate table.now.shape table.now.cells) f.distinct f.heavy f.flows.items) }
{
    Ok(Findings {
        distinct: Some(table.estimate(&ZERO_KEY)),
        heavy: 0,
        flows: Listed::new(alloc, 0)?,
    })
}

// What the other sketches say: which flows are heavy.
fn heavy_flows<K: Kind>(
    alloc: Global,
    packets: &[Packet],
    options: &Options,
    table: &Table<K>,
) -> Result<Findings, NoMemory>
    ensures { IfOk result
        (λ f. HeavyFlows (K.rules.estimate table.now.shape table.now.cells) options.now packets.now f.distinct f.heavy f.flows.items) }
{
    let heaviest = heaviest(alloc, packets, table, options.least, options.heavy)?;
    Ok(Findings {
        distinct: None,
        heavy: heaviest.count,
        flows: heaviest.flows,
    })
}

/// What the table says of all keys of the packets.
pub fn findings_of<K: Kind>(
    alloc: Global,
    packets: &[Packet],
    options: &Options,
    table: &Table<K>,
) -> Result<Findings, NoMemory>
    ensures { IfOk result
        (λ f. FindsFlows K.sketch
        (K.rules.estimate table.now.shape table.now.cells) options.now packets.now f.distinct f.heavy f.flows.items) }
{
    match K::which_sketch() {
        Sketch::LogLog => distinct_keys(alloc, table),
        Sketch::CountMin | Sketch::CountSketch => heavy_flows(alloc, packets, options, table),
    }
}
