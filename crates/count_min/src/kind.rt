ghost use Rattle.std.specs.Prelude.{◌≡◌, ◌<◌, ◌^◌, ◌≤ℤ◌, List, length, pos, true, refl};
ghost use Rattle.hash_rows.proofs.HeldSums.{fresh_sums, sums_for_values, small_sums, small_sums_back};
ghost use Rattle.hash_rows.proofs.SumLaws.{count_min_lawful};
ghost use Rattle.hash_rows.specs.Amounts.{key_amount, total_amount};
ghost use Rattle.hash_rows.specs.Rules.{AreValues, sums};
ghost use Rattle.hash_rows.specs.Sequential.{sequential_table};
ghost use Rattle.hash_rows.specs.Shapes.{IsShape, size_of};
ghost use Rattle.hash_rows.specs.Sketches.{count_min_value, count_min_estimate, small_gap};
ghost use Rattle.hash_rows.specs.Sums.{StandsForSums};
ghost use Rattle.hash_rows.specs.declared.options.Sketch.TheVariants.{CountMin as CountMinSketch};
ghost use Rattle.hash_rows.specs.declared.shape.Packet.{Packet as PacketView};

use hash_rows::{Kind, Packet, Shape, Sketch, SumHeld, cell_in_row, hash_in_row, key_hash};
use packet_key::FlowKey;

/// Count-Min: a packet adds its amount to its key's cell in each row, and the least of a key's
/// cells is its estimate (Cormode, Muthukrishnan: An improved data stream summary, 2005).
#[derive(Clone, Copy, Debug)]
pub struct CountMin;

impl Kind for CountMin {
    type Held = SumHeld;

    const KEYED: bool = true;

    ghost KEYED = { true };

    ghost sketch = { CountMinSketch };

    ghost rules = { sums count_min_value count_min_estimate };

    ghost stands = { StandsForSums };

    ghost fresh_held = { record { gap = pos 0 } };

    ghost small_of = { λ held. small_gap held.gap };

    ghost held_of_small = { λ b. record { gap = b } };

    fn which_sketch() -> Sketch {
        Sketch::CountMin
    }

    fn join(a: i64, b: i64) -> i64 {
        a.wrapping_add(b)
    }

    fn gap(told: i64, whole: i64) -> i64 {
        whole.wrapping_sub(told)
    }

    #[tactic(auto, using(hash_rows::proofs::SumLaws::sum_fits))]
    fn is_value(_a: i64) -> bool {
        true
    }

    fn distance(told: i64, whole: i64) -> u64 {
        whole.wrapping_sub(told).unsigned_abs()
    }

    fn value(_shape: &Shape, packet: &Packet, _row: u32) -> i64 {
        i64::from(packet.amount)
    }

    fn value_in_row(_shape: &Shape, packet: &Packet, _row: u32, _hash: u64) -> i64 {
        i64::from(packet.amount)
    }

    /// The least of the key's cells. On the table of some packets it is never below what the key's
    /// packets amount to (Cormode, Muthukrishnan, 2005, section 4.1).
    fn estimate(shape: &Shape, cells: &[i64], key: &FlowKey) -> i64
        requires shape { IsShape shape.now }
        requires cells { length cells.now ≡ size_of shape.now }
        requires values { AreValues (sums count_min_value count_min_estimate) cells.now }
        ensures exact { result ≡ count_min_estimate shape.now cells.now key.now }
        ensures never_below { (packets : List PacketView) → total_amount packets < 2 ^ 63 →
            cells.now ≡ (sequential_table (sums count_min_value count_min_estimate) shape.now packets).cells →
            pos (key_amount packets key.now) ≤ℤ result }
    {
        let base = key_hash(key);
        let mut least = i64::MAX;
        for row in 0..shape.rows {
            let cell = cell_in_row(shape, hash_in_row(base, row), row);
            least = least.min(cells[cell as usize]);
        }
        least
    }

    fn fresh() -> SumHeld {
        SumHeld::fresh()
    }

    fn counted(h: SumHeld, value: i64) -> SumHeld {
        h.counted(value)
    }

    fn unsent(h: SumHeld) -> (u64, i64) {
        h.unsent()
    }

    fn told_all(h: SumHeld) -> SumHeld {
        h.told_all()
    }

    fn small(h: SumHeld) -> Option<i8> {
        h.small()
    }

    fn from_small(b: i8) -> SumHeld {
        SumHeld::from_small(b)
    }

    ghost is_sketch = { refl };

    ghost is_keyed = { refl };

    ghost laws = { count_min_lawful };

    ghost fresh_stands = { fresh_sums };

    ghost stands_for_values = { sums_for_values };

    ghost small_is = { small_sums };

    ghost small_back = { small_sums_back };
}
