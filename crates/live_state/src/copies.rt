ghost use Rattle.std.specs.Prelude.{◌≡◌, length};
ghost use Rattle.hash_rows.specs.Rules.{AreValues};
ghost use Rattle.hash_rows.specs.Shapes.{size_of};
ghost use Rattle.live_state.specs.Fold.{zero_cells};

use hash_rows::{Counts, Kind, Table};

/// Copies a list of counts.
pub fn copy_counts_into(from: &[u64], into: &mut Counts)
    requires { length into.old.items ≡ length from.now }
    ensures items { into.new.items ≡ from.now }
    ensures room { into.new.room ≡ into.old.room }
{
    for place in 0..into.len() {
        into.set(place, from[place as usize]);
    }
}

/// Puts the cells into a table of zeros.
pub fn fill_table<K: Kind>(cells: &[i64], into: &mut Table<K>)
    requires size { length cells.now ≡ size_of into.old.shape }
    requires values { AreValues K.rules cells.now }
    requires zeros { into.old.cells ≡ zero_cells into.old.shape }
    ensures shape { into.new.shape ≡ into.old.shape }
    ensures cells { into.new.cells ≡ cells.now }
{
    let shape = into.shape();
    for cell in 0..shape.rows * shape.columns {
        into.put(cell, cells[cell as usize]);
    }
}
