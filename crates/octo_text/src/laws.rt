ghost use Rattle.std.specs.Prelude.{List, Bool};
ghost use Rattle.hash_rows.specs.Marks.{marked};
ghost use Rattle.octo_text.specs.Runs.{runs_of, AreRunsOf};

/// The runs of set bits are maximal, and have all of them. A law: it does nothing when it runs.
pub fn maximal_runs()
    ensures { (bits : List Bool) → AreRunsOf (marked bits) (runs_of (marked bits)) }
{}
