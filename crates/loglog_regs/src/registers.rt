ghost use Rattle.std.specs.Prelude.{◌≡◌, ◌≤◌, ◌*◌, ◌-◌, ◌^◌, pos, true, length, unsigned_abs};
ghost use Rattle.hash_rows.specs.Rules.{AreValues, ranks};
ghost use Rattle.hash_rows.specs.Sketches.{is_rank, distinct_of, linear_count, rank_of, raw_estimate, register_sum, zero_registers};

/// The rank of a hash among that many registers, from 1 to 32: one more than the number of
/// trailing zero bits of `hash / columns`.
#[tactic(auto, unfolding(hash_rows::specs::Sketches::rank_of))]
pub fn rank(hash: u64, columns: u32) -> i64
    requires { 1 ≤ columns }
    ensures { result ≡ pos (rank_of hash columns) }
{
    let rest = hash / u64::from(columns);
    if rest == 0 {
        32
    } else {
        i64::from((1 + rest.trailing_zeros()).min(32))
    }
}

// The sum of 2^(32 - M) over all registers M.
#[tactic(auto, unfolding(hash_rows::specs::Sketches::register_sum))]
fn sum_of_registers(cells: &[i64]) -> u64
    requires values { AreValues ranks cells.now }
    requires few { length cells.now ≤ 2 ^ 19 }
    ensures sum { result ≡ register_sum cells.now }
    ensures most { result ≤ 2 ^ 51 }
    ensures least { length cells.now ≤ result }
{
    let mut sum = 0;
    for rank in cells {
        sum += weight(*rank);
    }
    sum
}

// 2^(32 - M) of a register M.
fn weight(rank: i64) -> u64
    requires { is_rank rank ≡ true }
    ensures weight { result ≡ 2 ^ (32 - unsigned_abs rank) }
    ensures some { 1 ≤ result }
    ensures most { result ≤ 2 ^ 32 }
{
    1 << (32 - rank.unsigned_abs())
}

// How many registers are 0.
#[tactic(auto, unfolding(hash_rows::specs::Sketches::zero_registers))]
fn count_zeros(cells: &[i64]) -> u64
    ensures zeros { result ≡ zero_registers cells.now }
    ensures most { result ≤ length cells.now }
{
    let mut zeros = 0;
    for rank in cells {
        if *rank == 0 {
            zeros += 1;
        }
    }
    zeros
}

// The estimate from the sum over all registers: the harmonic mean, scaled by the constant
// 0.7213 / (1 + 1.079 / m) (Flajolet, Fusy, Gandouet, Meunier: HyperLogLog, 2007).
#[tactic(auto, unfolding(hash_rows::specs::Sketches::raw_estimate))]
fn estimate_raw(registers: u32, sum: u64) -> u64
    requires some { 1 ≤ registers }
    requires registers { registers ≤ 65536 }
    requires least { registers ≤ sum }
    requires most { sum ≤ 2 ^ 51 }
    ensures raw { result ≡ raw_estimate registers sum }
    ensures fits { result ≤ 2 ^ 60 }
{
    let m = u128::from(registers);
    let scaled = 7213 * (m * m * m) * 4294967296;
    (scaled / ((10000 * m + 10790) * u128::from(sum))) as u64
}

// The estimate from the number of registers that are 0, where many are: linear counting (Whang,
// Vander-Zanden, Taylor, 1990), with a sum of 1 / i for the logarithm.
#[tactic(auto, unfolding(hash_rows::specs::Sketches::linear_count))]
fn count_linear(registers: u32, zeros: u64) -> u64
    requires registers { registers ≤ 65536 }
    requires zeros { zeros ≤ 2 ^ 19 }
    ensures linear { result ≡ linear_count registers zeros }
    ensures fits { result ≤ 2 ^ 60 }
{
    let registers = u64::from(registers);
    let mut sum = 0;
    for step in 0..registers.saturating_sub(zeros) {
        sum += registers * 65536 / (zeros + 1 + step);
    }
    sum / 65536
}

// The estimate of how many different keys were counted.
#[tactic(auto, unfolding(hash_rows::specs::Sketches::distinct_of))]
pub fn estimate_distinct(registers: u32, cells: &[i64]) -> i64
    requires some { 1 ≤ registers }
    requires registers { registers ≤ 65536 }
    requires values { AreValues ranks cells.now }
    requires least { registers ≤ length cells.now }
    requires few { length cells.now ≤ 2 ^ 19 }
    ensures { result ≡ pos (distinct_of registers cells.now) }
{
    let raw = estimate_raw(registers, sum_of_registers(cells));
    let zeros = count_zeros(cells);
    if zeros > 0 && 2 * raw <= 5 * u64::from(registers) {
        count_linear(registers, zeros) as i64
    } else {
        raw as i64
    }
}
