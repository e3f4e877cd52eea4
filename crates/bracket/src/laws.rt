ghost use Rattle.std.specs.Prelude.{◌≡◌, ◌<◌, ◌≤◌, ◌≤ℤ◌, ◌+ℤ◌, ◌-◌, ◌*◌, ℕ, pos, List, length};
ghost use Rattle.packet_key.specs.declared.key.FlowKey.{FlowKey};
ghost use Rattle.hash_rows.specs.declared.options.Sketch.TheVariants.{CountMin};
ghost use Rattle.hash_rows.specs.declared.shape.Push.{Push};
ghost use Rattle.hash_rows.specs.declared.shape.Shape.{Shape};
ghost use Rattle.hash_rows.specs.declared.shape.Update.{Update};
ghost use Rattle.hash_rows.specs.Rules.{rules_of};
ghost use Rattle.hash_rows.specs.Shapes.{cell_of};
ghost use Rattle.hash_rows.specs.Sketches.{count_min_estimate};
ghost use Rattle.push_history.specs.Shown.{shown_cells};
ghost use Rattle.bracket.specs.Bracket.{AreCounted, NoneRefused, true_cells};

/// The bracket of Count-Min: an answer is at most the true estimate over the updates that match its
/// front, and where no worker's last such update of a cell of the key was refused, it falls short of
/// it by at most the number of workers times one less than the threshold.
pub fn answers_are_bracketed()
    ensures below { (threshold : ℕ) (updates : List (List Update)) (messages : List (List Push)) (refused : List (List ℕ))
        (front : List ℕ) →
        AreCounted threshold updates messages refused front → (shape : Shape) (key : FlowKey) →
        count_min_estimate shape (shown_cells (rules_of CountMin) shape messages front) key
        ≤ℤ count_min_estimate shape (true_cells (rules_of CountMin) shape updates messages front) key }
    ensures short { (threshold : ℕ) (updates : List (List Update)) (messages : List (List Push)) (refused : List (List ℕ))
        (front : List ℕ) →
        AreCounted threshold updates messages refused front → (shape : Shape) (key : FlowKey) → 1 ≤ threshold →
        ((row : ℕ) → row < shape.rows → NoneRefused updates messages refused front (cell_of shape key row)) →
        count_min_estimate shape (true_cells (rules_of CountMin) shape updates messages front) key
        ≤ℤ (count_min_estimate shape (shown_cells (rules_of CountMin) shape messages front) key +ℤ pos (length updates * (threshold - 1))) }
{}
