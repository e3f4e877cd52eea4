ghost use Rattle.std.specs.Prelude.{◌≡◌, ◌++◌, ◌∷◌, [], List, IfOk};
ghost use Rattle.hash_rows.specs.declared.shape.Packet.{Packet};
ghost use Rattle.hash_rows.specs.declared.shape.Shape.{Shape};
ghost use Rattle.hash_rows.specs.Sequential.{sequential_table};
ghost use Rattle.hash_rows.specs.Shapes.{IsShape};

use flow_base::NoMemory;
use hash_rows::{Kind, Packet, Shape, Table, cell_in_row, hash_in_row, key_hash};
use std::alloc::Global;

/// One table that takes every packet.
pub fn sequential<K: Kind>(
    alloc: Global,
    packets: &[Packet],
    shape: Shape,
) -> Result<Table<K>, NoMemory>
    requires { IsShape shape }
    ensures { IfOk result (λ table. table ≡ sequential_table K.rules shape packets.now) }
{
    let mut table = Table::<K>::new(alloc, shape)?;
    for packet in packets {
        add_packet(&mut table, packet);
    }
    Ok(table)
}

/// Joins into each row what the packet adds there. The key's bytes are hashed once.
pub fn add_packet<K: Kind>(table: &mut Table<K>, packet: &Packet)
    ensures { (shape : Shape) (packets : List Packet) → table.old ≡ sequential_table K.rules shape packets
        → table.new ≡ sequential_table K.rules shape (packets ++ packet.now ∷ []) }
{
    let shape = table.shape();
    let _amount = packet.amount;
    let key_hash = key_hash(&packet.key);
    for row in 0..shape.rows {
        let hash = hash_in_row(key_hash, row);
        let amount = K::value_in_row(&shape, packet, row, hash);
        table.put(cell_in_row(&shape, hash, row), amount);
    }
}
