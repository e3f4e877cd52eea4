ghost use Rattle.std.specs.Prelude.{◌≡◌, ◌≤◌, length, IsPermutation};
ghost use Rattle.hash_rows.specs.Sketches.{lower_median_of, sorted_of};

/// The lower median of 1 to 8 values: of n values in rising order, counted from 0, number
/// (n - 1) / 2. It puts them in that order.
pub fn lower_median(values: &mut [i64]) -> i64
    requires some { 1 ≤ length values.old }
    requires few { length values.old ≤ 8 }
    ensures median { result ≡ lower_median_of values.old }
    ensures order { values.new ≡ sorted_of values.old }
    ensures same { IsPermutation values.old values.new }
{
    values.sort_unstable();
    values[(values.len() - 1) / 2]
}
