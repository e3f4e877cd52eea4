ghost use Rattle.std.specs.Prelude.{◌≡◌, ◌≢◌, ◌≤◌, ℕ, List, length, IfOk};
ghost use Rattle.std.specs.Thread.{IsSync};
ghost use Rattle.flow_base.specs.Flow.{Given, behind};
ghost use Rattle.hash_rows.specs.Limits.{most_records};
ghost use Rattle.hash_rows.specs.declared.options.Mode.{Mode};
ghost use Rattle.epoch_run.specs.Epochs.{IsEpochs, IsEpochsRun};
ghost use Rattle.epoch_report.specs.EpochsText.{report_text};
ghost use Rattle.octo_run.specs.Ends.{IsEnd, side};
ghost use Rattle.octo_run.specs.Refusals.{OfCapture};
ghost use Rattle.octo_run.specs.Epochs.{IsEpochsText};

use crate::frame::perform;
use crate::task::Task;
use capture_load::Capture;
use epoch_report::{EpochReport, report_of, write_epochs};
use epoch_run::{Epochs, epochs_rounds};
use epoch_threads::epochs_threads;
use flow_base::{Failed, NoMemory, Sink, Source, Status};
use hash_rows::{Amount, Options};
use std::alloc::Global;
use std::sync::Wait;
use std::thread::Threads;
use thread_engine::Gate;

/// A report of a capture's epochs. The call that counts them is made where the mode and the gate are
/// known.
#[derive(Drop)]
struct InEpochs<'a, F> {
    size: u32,
    change: u64,
    options: &'a Options,
    count: &'a F,
}

impl<'a, F: Fn(&Capture) -> Result<Epochs, NoMemory>> Task for InEpochs<'a, F> {
    type Results = EpochReport;

    ghost ready = { λ task. ((capture : _) → length capture.now.packets.items ≤ most_records → F.pre task.count.now capture)
        × ((capture : _) (r : _) → F.post task.count.now capture r
        → IfOk r (λ e. IsEpochs task.size task.change task.options.now capture.now.packets.items e.epochs.items e.whole)) };

    ghost amount = { λ task. task.options.now.amount };

    ghost is_text = { λ task. IsEpochsText task.size task.change task.options.now };

    ghost fits = { λ task results. Unit {0} };

    ghost text = { λ task. report_text };

    fn amount(&self) -> Amount {
        self.options.amount
    }

    fn results(&self, alloc: Global, capture: &Capture) -> Result<EpochReport, NoMemory> {
        let epochs = (self.count)(capture)?;
        report_of(
            alloc,
            capture.packets.as_slice(),
            capture.records,
            capture.skipped,
            capture.cut,
            self.size,
            self.change,
            self.options,
            epochs,
        )
    }

    fn write<T: Sink>(&self, out: &mut T, results: &EpochReport) -> Result<(), Failed> {
        write_epochs(out, results)
    }
}

/// Reads a capture, counts it in epochs of `size` packets, and writes what the Count Sketch of each
/// says and which flows' estimates changed by at least `change` since the one before. Where there is
/// no such text, one line on `err` says why.
pub fn octo_epochs_rounds<R: Threads + Sync, S: Source, T: Sink, E: Sink>(
    rt: &R,
    alloc: Global,
    size: u32,
    change: u64,
    options: &Options,
    source: &mut S,
    out: &mut T,
    err: &mut E,
) -> Status
    requires run { IsEpochsRun size change options.now }
    requires rounds { options.now.mode ≡ Mode.Rounds }
    ensures ended { IsEnd OfCapture (Given (S.left source.old) (S.left source.new)) (IsEpochsText size change options.now)
        (side (S.left source.old) (S.faults source.old)) (side (S.left source.new) (S.faults source.new))
        (side (T.holds out.old) (T.faults out.old)) (side (T.holds out.new) (T.faults out.new))
        (side (E.holds err.old) (E.faults err.old)) (side (E.holds err.new) (E.faults err.new)) result }
    ensures front { (given : List ℕ) × (S.left source.old ≡ behind given (S.left source.new)) }
    ensures quiet { result ≡ Status.Done → err.new ≡ err.old }
    ensures untouched { result ≢ Status.Done → result ≢ Status.WriteFault → out.new ≡ out.old }
{
    let count = |capture: &Capture|
        requires { IsSync R.row × IsEpochsRun size change options.now × (length capture.now.packets.items ≤ most_records) }
        ensures { IfOk result (λ e. IsEpochs size change options.entry.now capture.now.packets.items e.epochs.items e.whole) }
    { epochs_rounds(rt, alloc, capture.packets.as_slice(), size, change, options) };
    let task = InEpochs {
        size,
        change,
        options,
        count: &count,
    };
    perform(alloc, &task, source, out, err)
}

/// The same text, with the packets of each epoch counted in threads. The places that the gate gets
/// count within an epoch's share.
pub fn octo_epochs_threads<R: Threads + Wait + Sync, S: Source, T: Sink, E: Sink, G: Gate>(
    rt: &R,
    alloc: Global,
    size: u32,
    change: u64,
    options: &Options,
    source: &mut S,
    out: &mut T,
    err: &mut E,
    gate: &G,
) -> Status
    requires run { IsEpochsRun size change options.now }
    requires threads { options.now.mode ≡ Mode.Threads }
    ensures ended { IsEnd OfCapture (Given (S.left source.old) (S.left source.new)) (IsEpochsText size change options.now)
        (side (S.left source.old) (S.faults source.old)) (side (S.left source.new) (S.faults source.new))
        (side (T.holds out.old) (T.faults out.old)) (side (T.holds out.new) (T.faults out.new))
        (side (E.holds err.old) (E.faults err.old)) (side (E.holds err.new) (E.faults err.new)) result }
    ensures front { (given : List ℕ) × (S.left source.old ≡ behind given (S.left source.new)) }
    ensures quiet { result ≡ Status.Done → err.new ≡ err.old }
    ensures untouched { result ≢ Status.Done → result ≢ Status.WriteFault → out.new ≡ out.old }
{
    let count = |capture: &Capture|
        requires { IsSync R.row × IsEpochsRun size change options.now
            × (options.now.mode ≡ Mode.Threads) × (length capture.now.packets.items ≤ most_records) }
        ensures { IfOk result (λ e. IsEpochs size change options.entry.now capture.now.packets.items e.epochs.items e.whole) }
    {
        epochs_threads(
            rt,
            alloc,
            capture.packets.as_slice(),
            size,
            change,
            options,
            gate,
        )
    };
    let task = InEpochs {
        size,
        change,
        options,
        count: &count,
    };
    perform(alloc, &task, source, out, err)
}
