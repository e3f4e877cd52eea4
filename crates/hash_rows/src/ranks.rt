ghost use Rattle.std.specs.Prelude.{◌≡◌, ◌+◌, ◌/◌, ◌%◌, ℤ, pos, true, unsigned_abs};
ghost use Rattle.hash_rows.specs.Sketches.{is_rank, rank_distance, rank_gap, rank_join, rank_small};
ghost use Rattle.hash_rows.specs.Ranks.{StandsForRanks};

/// What a private register keeps: the rank that was told of it, and its whole rank.
#[derive(Clone, Copy, Debug, PartialEq, Eq)]
pub struct RankHeld {
    told: u8,
    whole: u8,
}

impl RankHeld {
    /// Nothing was counted, and nothing told.
    pub fn fresh() -> RankHeld
        ensures { result ≡ record { told = 0; whole = 0 } }
    {
        RankHeld { told: 0, whole: 0 }
    }

    pub fn counted(self, value: i64) -> RankHeld
        ensures { (told whole : ℤ) → is_rank value ≡ true → StandsForRanks self told whole
            → StandsForRanks result told (rank_join whole value) }
    {
        let whole = match u8::try_from(value) {
            Ok(rank) => self.whole.max(rank),
            Err(_) => self.whole,
        };
        RankHeld {
            told: self.told,
            whole,
        }
    }

    /// How far the whole is above what was told, and what joins that to the whole.
    pub fn unsent(self) -> (u64, i64)
        ensures { (told whole : ℤ) → StandsForRanks self told whole → (result.0 ≡ rank_distance told whole)
            × (result.1 ≡ rank_gap told whole) }
    {
        if self.told < self.whole {
            (u64::from(self.whole - self.told), i64::from(self.whole))
        } else {
            (0, 0)
        }
    }

    pub fn told_all(self) -> RankHeld
        ensures { (told whole : ℤ) → StandsForRanks self told whole → StandsForRanks result whole whole }
    {
        RankHeld {
            told: self.whole,
            whole: self.whole,
        }
    }

    /// Both ranks in one byte, where they are at most 2 apart.
    pub fn small(self) -> Option<i8>
        requires { (told : ℤ) × (whole : ℤ) × StandsForRanks self told whole }
        ensures { result ≡ rank_small (pos self.told) (pos self.whole) }
    {
        let apart = self.whole - self.told;
        if apart <= 2 {
            Some((self.told + 33 * apart) as i8)
        } else {
            None
        }
    }

    pub fn from_small(byte: i8) -> RankHeld
        ensures { result ≡ record { told = unsigned_abs byte % 33; whole = unsigned_abs byte % 33 + unsigned_abs byte / 33 } }
    {
        let byte = byte.unsigned_abs();
        let told = byte % 33;
        RankHeld {
            told,
            whole: told + byte / 33,
        }
    }
}
