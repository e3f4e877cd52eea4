ghost use Rattle.std.specs.Prelude.{◌≡◌, ◌+◌, ◌<◌, ◌≤◌, ℕ, false, true, length, codes, slice_index_or};
ghost use Rattle.std.specs.List.{flat_map};
ghost use Rattle.flow_base.specs.Causes.{HasCause};
ghost use Rattle.flow_base.specs.Writing.{Writes};
ghost use Rattle.hash_rows.specs.Marks.{marked};
ghost use Rattle.octo_text.specs.JournalText.{run_line};
ghost use Rattle.octo_text.specs.Runs.{runs_of};

use crate::line::Line;
use flow_base::{Failed, Sink};
use hash_rows::Bits;

/// The end of the set bits that begin at the place: the first place from there on whose bit is
/// clear, or else the number of bits.
pub fn run_end(bits: &Bits, start: u32) -> u32
    requires { start ≤ length bits.now }
    ensures low { start ≤ result }
    ensures high { result ≤ length bits.now }
    ensures before { (k : ℕ) → start ≤ k → k < result → slice_index_or bits.now k false ≡ true }
    ensures found { result < length bits.now → slice_index_or bits.now result false ≡ false }
{
    let len = bits.len();
    for place in start..len {
        if !bits.get(place) {
            return place;
        }
    }
    len
}

#[tactic(auto, unfolding(crate::specs::JournalText::run_line))]
fn write_run<T: Sink>(out: &mut T, worker: usize, first: u32, last: u32) -> Result<(), Failed>
    ensures writes { Writes (T.holds out.old) (T.holds out.new) (run_line worker (first, last)) result }
    ensures cause { HasCause (T.faults out.old) (T.faults out.new) result }
{
    let mut line = Line::new();
    line.named(b"refused ", worker as u64);
    line.named(b" ", u64::from(first));
    line.named(b"-", u64::from(last));
    line.send(out)
}

/// Writes a line for each maximal run of set bits.
pub(crate) fn write_runs<T: Sink>(out: &mut T, worker: usize, bits: &Bits) -> Result<(), Failed>
    ensures writes { Writes (T.holds out.old) (T.holds out.new)
        (flat_map (run_line worker) (runs_of (marked bits.now))) result }
    ensures cause { HasCause (T.faults out.old) (T.faults out.new) result }
{
    let len = bits.len();
    let mut start = bits.next(0);
    while start < len {
        let end = run_end(bits, start);
        write_run(out, worker, start, end - 1)?;
        start = bits.next(end);
    }
    Ok(())
}
