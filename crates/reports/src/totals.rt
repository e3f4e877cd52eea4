ghost use Rattle.std.specs.Prelude.{◌≡◌, ◌≤◌, length, map, IfOk};
ghost use Rattle.hash_rows.specs.Amounts.{total_amount};
ghost use Rattle.hash_rows.specs.Limits.{most_records};
ghost use Rattle.hash_rows.specs.Sketches.{rows_of};
ghost use Rattle.hash_rows.specs.Tables.{used_in};

use flow_base::NoMemory;
use hash_rows::{Counts, Kind, Packet, Table};
use listed::Listed;
use std::alloc::Global;

/// The sum of all amounts.
#[tactic(auto, unfolding(hash_rows::specs::Amounts::total_amount))]
pub fn total_of(packets: &[Packet]) -> u64
    requires { length packets.now ≤ most_records }
    ensures { result ≡ total_amount packets.now }
{
    let mut total = 0;
    for packet in packets {
        total += u64::from(packet.amount);
    }
    total
}

/// For each row how many of its cells aren't 0.
pub fn used_of<K: Kind>(alloc: Global, table: &Table<K>) -> Result<Counts, NoMemory>
    ensures { IfOk result (λ used. used.items ≡ map (used_in table.now) (rows_of table.now.shape)) }
{
    let rows = table.shape().rows;
    let mut used = Listed::new(alloc, rows)?;
    for row in 0..rows {
        used.push(u64::from(table.used(row)));
    }
    Ok(used)
}
