ghost use Rattle.std.specs.Prelude.{◌≡◌, ◌≢◌, ℕ, List};
ghost use Rattle.std.specs.Thread.{IsSync};
ghost use Rattle.flow_base.specs.Flow.{Given, behind};
ghost use Rattle.hash_rows.specs.Lawful.{IsLawful};
ghost use Rattle.hash_rows.specs.declared.options.Mode.{Mode};
ghost use Rattle.octo_run.specs.Ends.{IsEnd, side};
ghost use Rattle.octo_run.specs.Refusals.{OfCapture};
ghost use Rattle.octo_run.specs.Results.{IsComplete, results_text};
ghost use Rattle.octo_run.specs.Runs.{IsRunText};

use crate::frame::perform;
use crate::results::{Results, results_in_rounds, write_results};
use crate::task::Task;
use capture_load::Capture;
use flow_base::{Failed, NoMemory, Sink, Source, Status};
use hash_rows::{Amount, Options};
use std::alloc::Global;
use std::thread::Threads;

/// A report and a journal of a capture whose packets are counted in rounds.
#[derive(Drop)]
struct InRounds<'a, R> {
    rt: &'a R,
    options: &'a Options,
}

impl<'a, R: Threads + Sync> Task for InRounds<'a, R> {
    type Results = Results;

    ghost ready = { λ task. IsSync R.row × IsLawful task.options.now × (task.options.now.mode ≡ Mode.Rounds) };

    ghost amount = { λ task. task.options.now.amount };

    ghost is_text = { λ task. IsRunText task.options.now };

    ghost fits = { λ task. IsComplete task.options.now };

    ghost text = { λ task. results_text task.options.now };

    fn amount(&self) -> Amount {
        self.options.amount
    }

    fn results(&self, alloc: Global, capture: &Capture) -> Result<Results, NoMemory> {
        results_in_rounds(self.rt, alloc, capture, self.options)
    }

    fn write<T: Sink>(&self, out: &mut T, results: &Results) -> Result<(), Failed> {
        write_results(out, self.options, results)
    }
}

/// Reads a capture, counts it in rounds, and writes its report and, where it is asked for, its
/// journal. Where there is none, one line on `err` says why.
pub fn octo_rounds<R: Threads + Sync, S: Source, T: Sink, E: Sink>(
    rt: &R,
    alloc: Global,
    options: &Options,
    source: &mut S,
    out: &mut T,
    err: &mut E,
) -> Status
    requires lawful { IsLawful options.now }
    requires rounds { options.now.mode ≡ Mode.Rounds }
    ensures ended { IsEnd OfCapture (Given (S.left source.old) (S.left source.new)) (IsRunText options.now)
        (side (S.left source.old) (S.faults source.old)) (side (S.left source.new) (S.faults source.new))
        (side (T.holds out.old) (T.faults out.old)) (side (T.holds out.new) (T.faults out.new))
        (side (E.holds err.old) (E.faults err.old)) (side (E.holds err.new) (E.faults err.new)) result }
    ensures front { (given : List ℕ) × (S.left source.old ≡ behind given (S.left source.new)) }
    ensures quiet { result ≡ Status.Done → err.new ≡ err.old }
    ensures untouched { result ≢ Status.Done → result ≢ Status.WriteFault → out.new ≡ out.old }
{
    perform(alloc, &InRounds { rt, options }, source, out, err)
}
