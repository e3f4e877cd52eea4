ghost use Rattle.std.specs.Prelude.{◌+◌, ◌/◌, ◌%◌, pos, false, refl, unsigned_abs};
ghost use Rattle.hash_rows.proofs.RankLaws.{ranks_lawful};
ghost use Rattle.hash_rows.specs.Rules.{ranks};
ghost use Rattle.hash_rows.specs.Sketches.{rank_small};
ghost use Rattle.hash_rows.specs.declared.options.Sketch.TheVariants.{LogLog as LogLogSketch};
ghost use Rattle.hash_rows.proofs.HeldRanks.{fresh_ranks, ranks_for_values, small_ranks, small_ranks_back};
ghost use Rattle.hash_rows.specs.Ranks.{StandsForRanks};

use crate::registers::{estimate_distinct, rank};
use hash_rows::{Kind, Packet, RankHeld, Shape, Sketch, row_hash};
use packet_key::FlowKey;

/// LogLog: a packet raises its key's register to the rank of its hash, and the registers together
/// tell how many different keys were counted (Durand, Flajolet: LogLog counting of large
/// cardinalities, 2003).
#[derive(Clone, Copy, Debug)]
pub struct LogLog;

impl Kind for LogLog {
    type Held = RankHeld;

    const KEYED: bool = false;

    ghost KEYED = { false };

    ghost sketch = { LogLogSketch };

    ghost rules = { ranks };

    ghost stands = { StandsForRanks };

    ghost fresh_held = { record { told = 0; whole = 0 } };

    ghost small_of = { λ held. rank_small (pos held.told) (pos held.whole) };

    ghost held_of_small = { λ b. record { told = unsigned_abs b % 33; whole = unsigned_abs b % 33 + unsigned_abs b / 33 } };

    fn which_sketch() -> Sketch {
        Sketch::LogLog
    }

    fn join(a: i64, b: i64) -> i64 {
        a.max(b)
    }

    fn gap(told: i64, whole: i64) -> i64 {
        if told < whole { whole } else { 0 }
    }

    fn is_value(a: i64) -> bool {
        0 <= a && a <= 32
    }

    fn distance(told: i64, whole: i64) -> u64 {
        if told < whole {
            whole.abs_diff(told)
        } else {
            0
        }
    }

    fn value(shape: &Shape, packet: &Packet, _row: u32) -> i64 {
        rank(row_hash(&packet.key, 0), shape.columns)
    }

    // All rows have the rank by the hash of row 0.
    fn value_in_row(shape: &Shape, packet: &Packet, row: u32, hash: u64) -> i64 {
        if row == 0 {
            rank(hash, shape.columns)
        } else {
            rank(row_hash(&packet.key, 0), shape.columns)
        }
    }

    #[tactic(auto, unfolding(hash_rows::specs::Sketches::loglog_estimate))]
    fn estimate(shape: &Shape, cells: &[i64], _key: &FlowKey) -> i64 {
        estimate_distinct(shape.columns, cells)
    }

    fn fresh() -> RankHeld {
        RankHeld::fresh()
    }

    fn counted(h: RankHeld, value: i64) -> RankHeld {
        h.counted(value)
    }

    fn unsent(h: RankHeld) -> (u64, i64) {
        h.unsent()
    }

    fn told_all(h: RankHeld) -> RankHeld {
        h.told_all()
    }

    fn small(h: RankHeld) -> Option<i8> {
        h.small()
    }

    fn from_small(b: i8) -> RankHeld {
        RankHeld::from_small(b)
    }

    ghost is_sketch = { refl };

    ghost is_keyed = { refl };

    ghost laws = { ranks_lawful };

    ghost fresh_stands = { fresh_ranks };

    ghost stands_for_values = { ranks_for_values };

    ghost small_is = { small_ranks };

    ghost small_back = { small_ranks_back };
}
