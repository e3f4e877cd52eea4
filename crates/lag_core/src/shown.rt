ghost use Rattle.std.specs.Prelude.{◌≡◌, ◌<◌, length, pos, replicate, IfOk};
ghost use Rattle.hash_rows.specs.Shapes.{IsShape, size_of};
ghost use Rattle.live_state.specs.Fold.{zero_cells};

use flow_base::NoMemory;
use hash_rows::{Counts, Kind, Shape, Table};
use listed::Listed;
use live_state::{State, copy_counts_into};
use std::alloc::Global;

/// What is shown of a state: its cells, of each worker how many messages and the last update, how
/// many keys are heavy, and how many were missed.
#[derive(Drop)]
pub struct ShownState<K: Kind> {
    pub table: Table<K>,
    pub front: Counts,
    pub upto: Counts,
    pub live: u32,
    pub missed: u64,
}

/// What is shown of a state with no message.
pub fn nothing_shown<K: Kind>(
    alloc: Global,
    shape: Shape,
    workers: u32,
) -> Result<ShownState<K>, NoMemory>
    requires { IsShape shape }
    ensures table { IfOk result (λ shown. shown.table ≡ record { shape = shape; cells = zero_cells shape }) }
    ensures front { IfOk result (λ shown. shown.front.items ≡ replicate workers 0) }
    ensures upto { IfOk result (λ shown. shown.upto.items ≡ replicate workers 0) }
    ensures live { IfOk result (λ shown. shown.live ≡ 0) }
    ensures missed { IfOk result (λ shown. shown.missed ≡ 0) }
{
    Ok(ShownState {
        table: Table::new(alloc, shape)?,
        front: Listed::filled(alloc, workers, 0)?,
        upto: Listed::filled(alloc, workers, 0)?,
        live: 0,
        missed: 0,
    })
}

/// Shows what the state is now. It takes no memory.
pub fn show<K: Kind>(state: &State<K>, shown: &mut ShownState<K>)
    requires shape { shown.old.table.shape ≡ state.now.table.shape }
    requires cells { length shown.old.table.cells ≡ length state.now.table.cells }
    requires size { length state.now.table.cells ≡ size_of state.now.table.shape }
    requires front { length shown.old.front.items ≡ length state.now.front }
    requires upto { length shown.old.upto.items ≡ length state.now.upto }
    ensures table { shown.new.table ≡ state.now.table }
    ensures front { shown.new.front.items ≡ state.now.front }
    ensures upto { shown.new.upto.items ≡ state.now.upto }
    ensures live { shown.new.live ≡ length state.now.heavy.keys }
    ensures missed { shown.new.missed ≡ state.now.heavy.missed }
{
    copy_table(state.table(), &mut shown.table);
    copy_counts_into(state.fronts(), &mut shown.front);
    copy_counts_into(state.uptos(), &mut shown.upto);
    shown.live = state.heavy().len();
    shown.missed = state.heavy().missed();
}

// Copies each cell of a table into one of the same shape.
fn copy_table<K: Kind>(from: &Table<K>, into: &mut Table<K>)
    requires shape { into.old.shape ≡ from.now.shape }
    requires cells { length into.old.cells ≡ length from.now.cells }
    requires size { length from.now.cells ≡ size_of from.now.shape }
    ensures { into.new ≡ from.now }
{
    let shape = from.shape();
    for cell in 0..shape.rows * shape.columns {
        into.clear(cell);
        into.put(cell, from.cell(cell));
    }
}
