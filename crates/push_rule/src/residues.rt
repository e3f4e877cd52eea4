ghost use Rattle.std.specs.Prelude.{◌≡◌, ◌<◌, ℕ, List, length};
ghost use Rattle.hash_rows.specs.Shapes.{size_of};
ghost use Rattle.hash_rows.specs.Tables.{value_at};
ghost use Rattle.hash_rows.specs.declared.shape.Push.{Push};
ghost use Rattle.hash_rows.specs.declared.shape.Update.{Update};
ghost use Rattle.push_history.specs.Residue.{residue};
ghost use Rattle.push_rule.specs.Residues.{IsWorkerFor};
ghost use Rattle.push_rule.specs.Stands.{StandsFor};

use crate::Private;
use hash_rows::{Kind, Table};

/// Joins into each cell what the worker counted of it and did not tell.
pub fn join_residue<K: Kind>(table: &mut Table<K>, sketch: &Private<K>)
    requires size { length table.old.cells ≡ size_of table.old.shape }
    requires one { IsWorkerFor K.stands K.rules table.old.shape sketch.now }
    ensures shape { table.new.shape ≡ table.old.shape }
    ensures size { length table.new.cells ≡ size_of table.new.shape }
    ensures joined { (updates : List Update) (messages : List Push) (refused : List ℕ)
        → StandsFor K.stands K.rules sketch.now updates messages refused
        → (cell : ℕ) → cell < size_of table.old.shape
        → value_at table.new.cells cell ≡ K.rules.join (value_at table.old.cells cell)
        (residue K.rules updates messages (length updates) cell) }
{
    let shape = table.shape();
    for cell in 0..shape.rows * shape.columns {
        table.put(cell, sketch.residue(cell));
    }
}
