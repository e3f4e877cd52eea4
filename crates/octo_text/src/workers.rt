ghost use Rattle.std.specs.Prelude.{◌≡◌, ◌+◌, ◌<◌, ◌≤◌, length, map, codes};
ghost use Rattle.std.specs.List.{flat_map, enumerate_from, zip};
ghost use Rattle.flow_base.specs.Causes.{HasCause};
ghost use Rattle.flow_base.specs.Writing.{Writes};
ghost use Rattle.hash_rows.specs.Marks.{marked};
ghost use Rattle.octo_text.specs.JournalText.{worker_line, worker_lines};

use crate::line::Line;
use crate::runs::write_runs;
use flow_base::{Failed, Sink};
use hash_rows::Bits;

#[tactic(auto, unfolding(crate::specs::JournalText::worker_line))]
fn write_tally<T: Sink>(out: &mut T, worker: usize, pushes: u64, refused: u32) -> Result<(), Failed>
    ensures writes { Writes (T.holds out.old) (T.holds out.new) (worker_line worker pushes refused) result }
    ensures cause { HasCause (T.faults out.old) (T.faults out.new) result }
{
    let mut line = Line::new();
    line.named(b"worker ", worker as u64);
    line.named(b" pushes ", pushes);
    line.named(b" refused ", u64::from(refused));
    line.send(out)
}

// Writes a worker's line and, behind it, the runs of its refused updates.
fn write_worker<T: Sink>(
    out: &mut T,
    worker: usize,
    pushes: u64,
    refused: &Bits,
) -> Result<(), Failed>
    ensures writes { Writes (T.holds out.old) (T.holds out.new)
        (worker_lines (worker, (pushes, marked refused.now))) result }
    ensures cause { HasCause (T.faults out.old) (T.faults out.new) result }
{
    write_tally(out, worker, pushes, refused.count())?;
    write_runs(out, worker, refused)
}

/// Writes the lines of all workers.
pub(crate) fn write_workers<T: Sink>(
    out: &mut T,
    pushes: &[u64],
    refused: &[Bits],
) -> Result<(), Failed>
    requires { length pushes.now ≡ length refused.now }
    ensures writes { Writes (T.holds out.old) (T.holds out.new)
        (flat_map worker_lines (enumerate_from 0 (zip pushes.now (map marked refused.now)))) result }
    ensures cause { HasCause (T.faults out.old) (T.faults out.new) result }
{
    for (worker, count) in pushes.iter().enumerate() {
        write_worker(out, worker, *count, &refused[worker])?;
    }
    Ok(())
}
