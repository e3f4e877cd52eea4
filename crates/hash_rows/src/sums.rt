ghost use Rattle.std.specs.Prelude.{◌≡◌, ◌≤◌, ℤ, pos, true, unsigned_abs};
ghost use Rattle.hash_rows.specs.Sketches.{is_sum, sum_distance, sum_gap, sum_join, small_gap};
ghost use Rattle.hash_rows.specs.Sums.{StandsForSums};

/// What a private cell of a sum keeps: the gap between what was told of it and its whole value,
/// modulo 2^64.
#[derive(Clone, Copy, Debug, PartialEq, Eq)]
pub struct SumHeld {
    gap: i64,
}

impl SumHeld {
    /// Nothing was counted, and nothing told.
    pub fn fresh() -> SumHeld
        ensures gap { result.gap ≡ pos 0 }
        ensures stands { StandsForSums result (pos 0) (pos 0) }
    {
        SumHeld { gap: 0 }
    }

    pub fn counted(self, value: i64) -> SumHeld
        ensures { (told whole : ℤ) → is_sum value ≡ true → StandsForSums self told whole
            → StandsForSums result told (sum_join whole value) }
    {
        SumHeld {
            gap: self.gap.wrapping_add(value),
        }
    }

    /// How far the whole is from what was told, and the gap.
    pub fn unsent(self) -> (u64, i64)
        ensures { (told whole : ℤ) → StandsForSums self told whole → (result.0 ≡ sum_distance told whole)
            × (result.1 ≡ sum_gap told whole) }
    {
        (self.gap.unsigned_abs(), self.gap)
    }

    pub fn told_all(self) -> SumHeld
        ensures { (told whole : ℤ) → StandsForSums self told whole → StandsForSums result whole whole }
    {
        SumHeld::fresh()
    }

    /// The gap in one byte, where it is from -127 to 127.
    pub fn small(self) -> Option<i8>
        ensures { result ≡ small_gap self.gap }
    {
        if self.gap.unsigned_abs() <= 127 {
            Some(self.gap as i8)
        } else {
            None
        }
    }

    pub fn from_small(gap: i8) -> SumHeld
        ensures { result.gap ≡ gap }
    {
        SumHeld {
            gap: i64::from(gap),
        }
    }
}
