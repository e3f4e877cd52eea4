ghost use Rattle.std.specs.Prelude.{◌≡◌, ◌≤◌, All, map, length, ℕ, List, IfOk};
ghost use Rattle.hash_rows.specs.declared.shape.Packet.{Packet};
ghost use Rattle.hash_rows.specs.declared.shape.Shape.{Shape};
ghost use Rattle.prefixes.specs.Networks.{IsNetwork};
ghost use Rattle.prefix_stack.specs.Levels.{level_tables};
ghost use Rattle.prefix_report.specs.Reports.{AreNetworks, estimated};

use count_min::CountMin;
use flow_base::NoMemory;
use hash_rows::Table;
use listed::Listed;
use prefix_stack::{Hit, Hits};
use prefixes::{Prefix, prefix_key};
use std::alloc::Global;

// The network, and what the table of its length says of it.
fn estimated(tables: &[Table<CountMin>], prefix: &Prefix) -> Hit
    requires four { length tables.now ≡ 4 }
    requires network { IsNetwork prefix.now }
    ensures network { result.prefix ≡ prefix.now }
    ensures estimate { (shape : Shape) (packets : List Packet) → tables.now ≡ level_tables shape packets
        → result ≡ estimated shape packets prefix.now }
{
    let table = &tables[prefix.length as usize / 8 - 1];
    Hit {
        prefix: *prefix,
        estimate: table.estimate(&prefix_key(prefix)),
    }
}

/// The watched networks and their estimates, in the order given.
pub(crate) fn watched(
    alloc: Global,
    tables: &[Table<CountMin>],
    watch: &[Prefix],
) -> Result<Hits, NoMemory>
    requires four { length tables.now ≡ 4 }
    requires most { length watch.now ≤ 16 }
    requires watch { All IsNetwork watch.now }
    ensures networks { IfOk result (λ hits. AreNetworks hits.items) }
    ensures estimates { IfOk result (λ hits. (shape : Shape) (packets : List Packet) → tables.now ≡ level_tables shape packets
        → hits.items ≡ map (estimated shape packets) watch.now) }
{
    let mut hits = Listed::new(alloc, watch.len() as u32)?;
    for prefix in watch {
        hits.push(estimated(tables, prefix));
    }
    Ok(hits)
}
