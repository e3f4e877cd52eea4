ghost use Rattle.std.specs.Prelude.{◌≡◌, ◌≢◌, ◌≤◌, ℕ, List, length, IfOk};
ghost use Rattle.std.specs.Thread.{IsSync};
ghost use Rattle.flow_base.specs.Flow.{Given, behind};
ghost use Rattle.hash_rows.specs.Lawful.{IsLawful};
ghost use Rattle.hash_rows.specs.Limits.{most_records};
ghost use Rattle.hash_rows.specs.declared.options.Mode.{Mode};
ghost use Rattle.octo_run.specs.Ends.{IsEnd, side};
ghost use Rattle.octo_run.specs.Refusals.{OfCapture};
ghost use Rattle.octo_run.specs.Results.{HasResults, IsComplete, results_text};
ghost use Rattle.octo_run.specs.Runs.{IsRunText};

use crate::frame::perform;
use crate::results::{Results, results_from, write_results};
use crate::task::Task;
use capture_load::Capture;
use count_min::CountMin;
use count_sketch::CountSketch;
use flow_base::{Failed, NoMemory, Sink, Source, Status};
use hash_rows::{Amount, Kind, Options, Sketch};
use loglog_regs::LogLog;
use std::alloc::Global;
use std::sync::Wait;
use std::thread::Threads;
use thread_engine::{Gate, Ran, run_threads};

/// Counts the packets of a capture in threads.
pub fn results_in_threads<R: Threads + Wait + Sync, G: Gate>(
    rt: &R,
    alloc: Global,
    capture: &Capture,
    options: &Options,
    gate: &G,
) -> Result<Results, NoMemory>
    requires lawful { IsLawful options.now }
    requires threads { options.now.mode ≡ Mode.Threads }
    requires packets { length capture.now.packets.items ≤ most_records }
    ensures results { IfOk result (HasResults capture.now options.now) }
    ensures complete { IfOk result (IsComplete options.now) }
{
    match options.sketch {
        Sketch::CountMin => threads_by::<CountMin, R, G>(rt, alloc, capture, options, gate),
        Sketch::CountSketch => threads_by::<CountSketch, R, G>(rt, alloc, capture, options, gate),
        Sketch::LogLog => threads_by::<LogLog, R, G>(rt, alloc, capture, options, gate),
    }
}

fn threads_by<K: Kind, R: Threads + Wait + Sync, G: Gate>(
    rt: &R,
    alloc: Global,
    capture: &Capture,
    options: &Options,
    gate: &G,
) -> Result<Results, NoMemory>
    requires lawful { IsLawful options.now }
    requires sketch { options.now.sketch ≡ K.sketch }
    requires threads { options.now.mode ≡ Mode.Threads }
    requires packets { length capture.now.packets.items ≤ most_records }
    ensures results { IfOk result (HasResults capture.now options.now) }
    ensures complete { IfOk result (IsComplete options.now) }
{
    let packets = capture.packets.as_slice();
    let Ran {
        settled,
        lanes: _,
        passes: _,
        writer,
    } = run_threads::<K, R, G>(rt, alloc, packets, options, gate)?;
    writer.close(rt);
    results_from(alloc, capture, options, settled)
}

/// A report and a journal of a capture whose packets the call counts. The call is made where the
/// gate is known, since a method of a task can't share one with other threads.
#[derive(Drop)]
struct CountedBy<'a, F> {
    options: &'a Options,
    count: &'a F,
}

impl<'a, F: Fn(&Capture) -> Result<Results, NoMemory>> Task for CountedBy<'a, F> {
    type Results = Results;

    ghost ready = { λ task. ((capture : _) → length capture.now.packets.items ≤ most_records → F.pre task.count.now capture)
        × ((capture : _) (r : _) → F.post task.count.now capture r
        → IfOk r (HasResults capture.now task.options.now) × IfOk r (IsComplete task.options.now)) };

    ghost amount = { λ task. task.options.now.amount };

    ghost is_text = { λ task. IsRunText task.options.now };

    ghost fits = { λ task. IsComplete task.options.now };

    ghost text = { λ task. results_text task.options.now };

    fn amount(&self) -> Amount {
        self.options.amount
    }

    fn results(&self, _alloc: Global, capture: &Capture) -> Result<Results, NoMemory> {
        (self.count)(capture)
    }

    fn write<T: Sink>(&self, out: &mut T, results: &Results) -> Result<(), Failed> {
        write_results(out, self.options, results)
    }
}

/// Reads a capture, counts it in threads, and writes its report and, where it is asked for, its
/// journal. Where there is none, one line on `err` says why.
pub fn octo_threads<R: Threads + Wait + Sync, S: Source, T: Sink, E: Sink, G: Gate>(
    rt: &R,
    alloc: Global,
    options: &Options,
    source: &mut S,
    out: &mut T,
    err: &mut E,
    gate: &G,
) -> Status
    requires lawful { IsLawful options.now }
    requires threads { options.now.mode ≡ Mode.Threads }
    ensures ended { IsEnd OfCapture (Given (S.left source.old) (S.left source.new)) (IsRunText options.now)
        (side (S.left source.old) (S.faults source.old)) (side (S.left source.new) (S.faults source.new))
        (side (T.holds out.old) (T.faults out.old)) (side (T.holds out.new) (T.faults out.new))
        (side (E.holds err.old) (E.faults err.old)) (side (E.holds err.new) (E.faults err.new)) result }
    ensures front { (given : List ℕ) × (S.left source.old ≡ behind given (S.left source.new)) }
    ensures quiet { result ≡ Status.Done → err.new ≡ err.old }
    ensures untouched { result ≢ Status.Done → result ≢ Status.WriteFault → out.new ≡ out.old }
{
    let count = |capture: &Capture|
        requires { IsSync R.row × IsLawful options.now × (options.now.mode ≡ Mode.Threads)
            × (length capture.now.packets.items ≤ most_records) }
        ensures results { IfOk result (HasResults capture.now options.entry.now) }
        ensures complete { IfOk result (IsComplete options.entry.now) }
    { results_in_threads(rt, alloc, capture, options, gate) };
    let task = CountedBy {
        options,
        count: &count,
    };
    perform(alloc, &task, source, out, err)
}
