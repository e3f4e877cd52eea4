ghost use Rattle.std.specs.Prelude.{◌≡◌, ℕ, pos, true, refl};
ghost use Rattle.hash_rows.proofs.HeldSums.{fresh_sums, sums_for_values, small_sums, small_sums_back};
ghost use Rattle.hash_rows.proofs.SumLaws.{count_sketch_lawful};
ghost use Rattle.hash_rows.specs.Hash.{row_hash_of};
ghost use Rattle.hash_rows.specs.Rules.{sums};
ghost use Rattle.hash_rows.specs.Sketches.{count_sketch_value, count_sketch_estimate, signed_in_row, small_gap};
ghost use Rattle.hash_rows.specs.Sums.{StandsForSums};
ghost use Rattle.hash_rows.specs.declared.options.Sketch.TheVariants.{CountSketch as CountSketchSketch};

use crate::lower_median;
use hash_rows::{
    Kind, Packet, Shape, Sketch, SumHeld, cell_in_row, hash_in_row, key_hash, row_hash,
};
use packet_key::FlowKey;

/// Count Sketch: a packet adds its amount to its key's cell in each row, with a sign by the row,
/// and the lower median of a key's cells, each with its row's sign, is its estimate (Charikar,
/// Chen, Farach-Colton: Finding frequent items in data streams, 2002).
#[derive(Clone, Copy, Debug)]
pub struct CountSketch;

impl Kind for CountSketch {
    type Held = SumHeld;

    const KEYED: bool = true;

    ghost KEYED = { true };

    ghost sketch = { CountSketchSketch };

    ghost rules = { sums count_sketch_value count_sketch_estimate };

    ghost stands = { StandsForSums };

    ghost fresh_held = { record { gap = pos 0 } };

    ghost small_of = { λ held. small_gap held.gap };

    ghost held_of_small = { λ b. record { gap = b } };

    fn which_sketch() -> Sketch {
        Sketch::CountSketch
    }

    fn join(a: i64, b: i64) -> i64 {
        a.wrapping_add(b)
    }

    fn gap(told: i64, whole: i64) -> i64 {
        whole.wrapping_sub(told)
    }

    #[tactic(auto, using(hash_rows::proofs::SumLaws::sum_fits))]
    fn is_value(_a: i64) -> bool {
        true
    }

    fn distance(told: i64, whole: i64) -> u64 {
        whole.wrapping_sub(told).unsigned_abs()
    }

    fn value(_shape: &Shape, packet: &Packet, row: u32) -> i64 {
        signed(row_hash(&packet.key, row), i64::from(packet.amount))
    }

    fn value_in_row(_shape: &Shape, packet: &Packet, _row: u32, hash: u64) -> i64 {
        signed(hash, i64::from(packet.amount))
    }

    fn estimate(shape: &Shape, cells: &[i64], key: &FlowKey) -> i64 {
        let base = key_hash(key);
        let mut values = [0; 8];
        for row in 0..shape.rows {
            let hash = hash_in_row(base, row);
            let cell = cell_in_row(shape, hash, row);
            values[row as usize] = signed(hash, cells[cell as usize]);
        }
        lower_median(&mut values[..shape.rows as usize])
    }

    fn fresh() -> SumHeld {
        SumHeld::fresh()
    }

    fn counted(h: SumHeld, value: i64) -> SumHeld {
        h.counted(value)
    }

    fn unsent(h: SumHeld) -> (u64, i64) {
        h.unsent()
    }

    fn told_all(h: SumHeld) -> SumHeld {
        h.told_all()
    }

    fn small(h: SumHeld) -> Option<i8> {
        h.small()
    }

    fn from_small(b: i8) -> SumHeld {
        SumHeld::from_small(b)
    }

    ghost is_sketch = { refl };

    ghost is_keyed = { refl };

    ghost laws = { count_sketch_lawful };

    ghost fresh_stands = { fresh_sums };

    ghost stands_for_values = { sums_for_values };

    ghost small_is = { small_sums };

    ghost small_back = { small_sums_back };
}

// The value with the sign of a key's row, by the row's hash: negative where the top bit is 1.
fn signed(hash: u64, value: i64) -> i64
    ensures { (key : FlowKey) (row : ℕ) → hash ≡ row_hash_of key row → result ≡ signed_in_row key row value }
{
    if hash < 1 << 63 {
        value
    } else {
        value.wrapping_neg()
    }
}
