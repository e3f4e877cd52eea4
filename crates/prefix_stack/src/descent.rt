ghost use Rattle.std.specs.Prelude.{◌≡◌, ◌≤◌, ◌<◌, ◌+◌, ◌*◌, ◌^◌, ◌++◌, ◌∷◌, ℕ, List, [], All, length, IfOk};
ghost use Rattle.hash_rows.specs.declared.shape.Packet.{Packet};
ghost use Rattle.hash_rows.specs.Amounts.{total_amount};
ghost use Rattle.hash_rows.specs.declared.shape.Shape.{Shape};
ghost use Rattle.hash_rows.specs.Shapes.{IsShape};
ghost use Rattle.prefixes.specs.Networks.{IsNetwork};
ghost use Rattle.prefix_stack.specs.Descent.{IsFound, MissesNone, everything, prefixes_of};
ghost use Rattle.prefix_stack.specs.Levels.{level_tables};

use crate::hit::{Found, Hit, Hits};
use crate::level::level;
use count_min::CountMin;
use flow_base::NoMemory;
use hash_rows::Table;
use listed::Listed;
use prefixes::Prefix;
use std::alloc::Global;

// All addresses, as the one hit that the descent begins with.
fn everything(alloc: Global) -> Result<Hits, NoMemory>
    ensures { IfOk result (λ hits. prefixes_of hits.items ≡ everything ∷ []) }
{
    let mut hits = Listed::new(alloc, 1)?;
    hits.push(Hit {
        prefix: Prefix { bits: 0, length: 0 },
        estimate: 0,
    });
    Ok(hits)
}

// Adds the hits.
fn add_hits(hits: &mut Hits, more: &[Hit])
    requires { length hits.old.items + length more.now ≤ hits.old.room }
    ensures items { hits.new.items ≡ hits.old.items ++ more.now }
    ensures room { hits.new.room ≡ hits.old.room }
{
    for hit in more {
        hits.push(*hit);
    }
}

/// The networks that reach the number by the tables of the four lengths. A length's candidates are the
/// 256 networks in each hit of the length before; of 8 bits they are all. Of each length the first
/// `limit` by address are hits.
pub fn descend(
    alloc: Global,
    tables: &[Table<CountMin>],
    limit: u32,
    least: i64,
) -> Result<Found, NoMemory>
    requires four { length tables.now ≡ 4 }
    requires limit { (1 ≤ limit) × (limit ≤ 1024) }
    ensures found { IfOk result (λ found. IsFound tables.now limit least found.hits.items found.more) }
    ensures networks { IfOk result (λ found. All (λ hit. IsNetwork hit.prefix) found.hits.items) }
    ensures complete { IfOk result (λ found. (shape : Shape) (packets : List Packet) → IsShape shape → total_amount packets < 2 ^ 63
        → tables.now ≡ level_tables shape packets → MissesNone packets least found.hits.items found.more) }
{
    let mut found = Found {
        hits: Listed::new(alloc, 4 * limit)?,
        more: [false; 4],
    };
    let mut parents = everything(alloc)?;
    for (place, table) in tables.iter().enumerate() {
        let length = 8 * (place as u32 + 1);
        let reached = level(alloc, table, limit, least, length, parents.as_slice())?;
        add_hits(&mut found.hits, reached.hits.as_slice());
        found.more[place] = reached.more;
        parents = reached.hits;
    }
    Ok(found)
}
