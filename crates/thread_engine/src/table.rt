//! The table with what the workers did not tell.
ghost use Rattle.std.specs.Prelude.{◌≡◌, ◌<◌, ℕ, length, slice_index_or};
ghost use Rattle.hash_rows.specs.Shapes.{size_of};
ghost use Rattle.push_rule.specs.Residues.{Counted, HasJoined, IsWorkerFor, residue_of};
ghost use Rattle.push_rule.specs.Stands.{StandsFor};

use hash_rows::{Kind, Table};
use push_rule::{Private, join_residue};

/// Joins into each cell what each worker counted of it and did not tell.
pub fn join_residues<K: Kind>(table: &mut Table<K>, sketches: &[Private<K>])
    requires size { length table.old.cells ≡ size_of table.old.shape }
    requires each { (w : ℕ) (s : _) → w < length sketches.now
        → IsWorkerFor K.stands K.rules table.old.shape (slice_index_or sketches.now w s) }
    ensures shape { table.new.shape ≡ table.old.shape }
    ensures size { length table.new.cells ≡ size_of table.new.shape }
    ensures joined { (by : ℕ → Counted)
        → ((w : ℕ) (s : _) → w < length sketches.now
        → StandsFor K.stands K.rules (slice_index_or sketches.now w s) (by w).updates (by w).messages (by w).refused)
        → HasJoined K.rules.join (λ w. residue_of K.rules (by w)) (length sketches.now) (size_of table.old.shape)
        table.old.cells table.new.cells }
{
    for sketch in sketches {
        join_residue(table, sketch);
    }
}
