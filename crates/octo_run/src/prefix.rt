ghost use Rattle.std.specs.Prelude.{◌≡◌, ◌≢◌, ℕ, List};
ghost use Rattle.std.specs.Thread.{IsSync};
ghost use Rattle.flow_base.specs.Flow.{Given, behind};
ghost use Rattle.prefixes.specs.Networks.{AreWatched};
ghost use Rattle.prefix_stack.specs.Runs.{IsStackRun};
ghost use Rattle.prefix_report.specs.PrefixText.{report_text};
ghost use Rattle.prefix_report.specs.Reports.{HasEachLength};
ghost use Rattle.octo_run.specs.Ends.{IsEnd, side};
ghost use Rattle.octo_run.specs.Refusals.{OfCapture};
ghost use Rattle.octo_run.specs.Networks.{IsPrefixText};

use crate::frame::perform;
use crate::task::Task;
use capture_load::Capture;
use flow_base::{Failed, NoMemory, Sink, Source, Status};
use hash_rows::{Amount, Options};
use prefix_report::{PrefixReport, report_of, write_prefix};
use prefix_stack::run_levels;
use prefixes::Prefix;
use std::alloc::Global;
use std::thread::Threads;

/// A report of a capture's source networks, whose packets are counted in rounds for each length.
#[derive(Drop)]
struct OnNetworks<'a, R> {
    rt: &'a R,
    options: &'a Options,
    watch: &'a [Prefix],
}

impl<'a, R: Threads + Sync> Task for OnNetworks<'a, R> {
    type Results = PrefixReport;

    ghost ready = { λ task. IsSync R.row × IsStackRun task.options.now × AreWatched task.watch.now };

    ghost amount = { λ task. task.options.now.amount };

    ghost is_text = { λ task. IsPrefixText task.options.now task.watch.now };

    ghost fits = { λ task. HasEachLength };

    ghost text = { λ task. report_text };

    fn amount(&self) -> Amount {
        self.options.amount
    }

    fn results(&self, alloc: Global, capture: &Capture) -> Result<PrefixReport, NoMemory> {
        let packets = capture.packets.as_slice();
        let stack = run_levels(self.rt, alloc, packets, self.options, self.watch)?;
        report_of(
            alloc,
            packets,
            capture.records,
            capture.skipped,
            capture.cut,
            self.options,
            self.watch,
            stack,
        )
    }

    fn write<T: Sink>(&self, out: &mut T, results: &PrefixReport) -> Result<(), Failed> {
        write_prefix(out, results)
    }
}

/// Reads a capture, counts its IPv4 packets by their source networks, in rounds for each length, and
/// writes which networks reach the options' least number. Where there is no such text, one line on
/// `err` says why.
pub fn octo_prefix<R: Threads + Sync, S: Source, T: Sink, E: Sink>(
    rt: &R,
    alloc: Global,
    options: &Options,
    watch: &[Prefix],
    source: &mut S,
    out: &mut T,
    err: &mut E,
) -> Status
    requires options { IsStackRun options.now }
    requires watch { AreWatched watch.now }
    ensures ended { IsEnd OfCapture (Given (S.left source.old) (S.left source.new)) (IsPrefixText options.now watch.now)
        (side (S.left source.old) (S.faults source.old)) (side (S.left source.new) (S.faults source.new))
        (side (T.holds out.old) (T.faults out.old)) (side (T.holds out.new) (T.faults out.new))
        (side (E.holds err.old) (E.faults err.old)) (side (E.holds err.new) (E.faults err.new)) result }
    ensures front { (given : List ℕ) × (S.left source.old ≡ behind given (S.left source.new)) }
    ensures quiet { result ≡ Status.Done → err.new ≡ err.old }
    ensures untouched { result ≢ Status.Done → result ≢ Status.WriteFault → out.new ≡ out.old }
{
    let task = OnNetworks { rt, options, watch };
    perform(alloc, &task, source, out, err)
}
