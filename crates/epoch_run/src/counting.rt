ghost use Rattle.std.specs.Prelude.{◌≡◌, ◌≤◌, ◌<◌, ◌+◌, ◌*◌, ◌++◌, ◌∷◌, ℕ, pos, [], List, length, map, IfOk, OnOk};
ghost use Rattle.hash_rows.specs.Shapes.{IsShape, cell_of, size_of};
ghost use Rattle.hash_rows.specs.Sketches.{rows_of, sum_join};
ghost use Rattle.hash_rows.specs.Tables.{put_in, used_in, value_at};
ghost use Rattle.hash_rows.specs.declared.shape.Packet.{Packet};
ghost use Rattle.hash_rows.specs.declared.shape.Shape.{Shape};
ghost use Rattle.epoch_run.specs.Epochs.{sketch_table};
ghost use Rattle.epoch_run.specs.Places.{HaveUsed, mark_of};

use count_sketch::CountSketch;
use flow_base::NoMemory;
use hash_rows::{Counts, Kind, Packet, Table, cell_in_row, hash_in_row, key_hash};
use listed::Listed;
use std::alloc::Global;

/// Counts the packets into the table, which is empty, and says of each row how many of its cells aren't 0
/// then. What it costs hangs on the packets, and not on the size of the table.
pub fn fill(
    alloc: Global,
    packets: &[Packet],
    table: &mut Table<CountSketch>,
) -> Result<Counts, NoMemory>
    requires empty { table.old ≡ sketch_table table.old.shape [] }
    ensures table { OnOk result (table.new ≡ sketch_table table.old.shape packets.now) }
    ensures used { IfOk result (λ used. HaveUsed table.new used.items) }
{
    let rows = table.shape().rows;
    let mut used = Listed::filled(alloc, rows, 0)?;
    for packet in packets {
        count_packet(table, &mut used, packet);
    }
    Ok(used)
}

// Joins into each row what the packet adds there. The key's bytes are hashed once.
fn count_packet(table: &mut Table<CountSketch>, used: &mut Counts, packet: &Packet)
    requires used { HaveUsed table.old used.old.items }
    requires cells { length table.old.cells ≡ size_of table.old.shape }
    ensures table { (shape : Shape) (packets : List Packet) → table.old ≡ sketch_table shape packets
        → table.new ≡ sketch_table shape (packets ++ packet.now ∷ []) }
    ensures used { HaveUsed table.new used.new.items }
{
    let shape = table.shape();
    let _amount = packet.amount;
    let key_hash = key_hash(&packet.key);
    for row in 0..shape.rows {
        let hash = hash_in_row(key_hash, row);
        let amount = CountSketch::value_in_row(&shape, packet, row, hash);
        count_cell(table, used, row, cell_in_row(&shape, hash, row), amount);
    }
}

// Joins the amount into the cell of the row.
fn count_cell(table: &mut Table<CountSketch>, used: &mut Counts, row: u32, cell: u32, amount: i64)
    requires used { HaveUsed table.old used.old.items }
    requires shape { IsShape table.old.shape }
    requires cells { length table.old.cells ≡ size_of table.old.shape }
    requires row { row < table.old.shape.rows }
    requires from { row * table.old.shape.columns ≤ cell }
    requires to { cell < row * table.old.shape.columns + table.old.shape.columns }
    ensures table { table.new ≡ put_in sum_join table.old cell amount }
    ensures used { HaveUsed table.new used.new.items }
{
    let before = mark(table.cell(cell));
    table.put(cell, amount);
    let after = mark(table.cell(cell));
    used.set(row, *used.get(row) + after - before);
}

// 1 where the cell isn't 0.
fn mark(cell: i64) -> u64
    ensures { result ≡ mark_of cell }
{
    u64::from(cell != 0)
}

/// Empties the table, which holds these packets alone, by clearing the cells of their keys.
pub fn clear(table: &mut Table<CountSketch>, packets: &[Packet])
    requires { table.old ≡ sketch_table table.old.shape packets.now }
    ensures { table.new ≡ sketch_table table.old.shape [] }
{
    for packet in packets {
        clear_packet(table, packet);
    }
}

// Clears the cells of the packet's key.
fn clear_packet(table: &mut Table<CountSketch>, packet: &Packet)
    requires cells { length table.old.cells ≡ size_of table.old.shape }
    ensures shape { table.new.shape ≡ table.old.shape }
    ensures cells { length table.new.cells ≡ length table.old.cells }
    ensures cleared { (row : ℕ) → row < table.old.shape.rows
        → value_at table.new.cells (cell_of table.old.shape packet.now.key row) ≡ pos 0 }
    ensures kept { (cell : ℕ) → value_at table.old.cells cell ≡ pos 0 → value_at table.new.cells cell ≡ pos 0 }
{
    let shape = table.shape();
    let key_hash = key_hash(&packet.key);
    for row in 0..shape.rows {
        let hash = hash_in_row(key_hash, row);
        table.clear(cell_in_row(&shape, hash, row));
    }
}
