ghost use Rattle.std.specs.Prelude.{◌≡◌, ◌≤◌, length, count_by, nat_le, cond};
ghost use Rattle.hash_rows.specs.Marks.{marked};
ghost use Rattle.octo_text.specs.Runs.{runs_of};

use hash_rows::Bits;
use octo_text::run_end;

/// How many maximal runs of set bits there are.
pub fn count_runs(bits: &Bits) -> u32
    ensures count { result ≡ length (runs_of (marked bits.now)) }
    ensures most { result ≤ length bits.now }
{
    let len = bits.len();
    let mut count = 0;
    let mut start = bits.next(0);
    while start < len {
        let end = run_end(bits, start);
        count += 1;
        start = bits.next(end);
    }
    count
}

// 1 for a run that begins at the place or before it, else 0.
fn one_until(start: u32, last: u32) -> u32
    ensures one { result ≡ cond (nat_le start last) 1 0 }
    ensures most { result ≤ 1 }
{
    if start <= last { 1 } else { 0 }
}

/// How many of them begin at the place or before it.
pub fn count_runs_until(bits: &Bits, last: u32) -> u32
    ensures count { result ≡ count_by (λ run. nat_le run.0 last) (runs_of (marked bits.now)) }
    ensures most { result ≤ length bits.now }
{
    let len = bits.len();
    let mut count = 0;
    let mut start = bits.next(0);
    while start < len {
        let end = run_end(bits, start);
        count += one_until(start, last);
        start = bits.next(end);
    }
    count
}
