ghost use Rattle.std.specs.Prelude.{◌≡◌, ◌≢◌, ℕ, List, OnOk, IfErr, IsErr, IsErrOf};
ghost use Rattle.flow_base.specs.Flow.{Given, behind};
ghost use Rattle.octo_run.specs.Ends.{HasReason, IsEnd, Reported, side};
ghost use Rattle.octo_run.specs.Refusals.{IsAccepted, OfCapture};
ghost use Rattle.octo_run.specs.declared.faults.Fault.{Fault};

use crate::faults::{Fault, fault_of};
use crate::lines::tell;
use crate::task::Task;
use capture_load::load_capture;
use flow_base::{Sink, Source, Status};
use std::alloc::Global;

/// Reads a capture, lets the task make its results of it, and writes their text. Where there is
/// none, one line on `err` says why.
pub fn perform<W: Task, S: Source, T: Sink, E: Sink>(
    alloc: Global,
    task: &W,
    source: &mut S,
    out: &mut T,
    err: &mut E,
) -> Status
    requires { W.ready task.now }
    ensures ended { IsEnd OfCapture (Given (S.left source.old) (S.left source.new)) (W.is_text task.now)
        (side (S.left source.old) (S.faults source.old)) (side (S.left source.new) (S.faults source.new))
        (side (T.holds out.old) (T.faults out.old)) (side (T.holds out.new) (T.faults out.new))
        (side (E.holds err.old) (E.faults err.old)) (side (E.holds err.new) (E.faults err.new)) result }
    ensures front { (given : List ℕ) × (S.left source.old ≡ behind given (S.left source.new)) }
    ensures quiet { result ≡ Status.Done → err.new ≡ err.old }
    ensures untouched { result ≢ Status.Done → result ≢ Status.WriteFault → out.new ≡ out.old }
{
    match attempt(alloc, task, source, out) {
        Ok(()) => Status::Done,
        Err(fault) => tell(err, &fault),
    }
}

// The same without the line.
fn attempt<W: Task, S: Source, T: Sink>(
    alloc: Global,
    task: &W,
    source: &mut S,
    out: &mut T,
) -> Result<(), Fault>
    requires { W.ready task.now }
    ensures done { OnOk result (Given (S.left source.old) (S.left source.new)
        (Reported (W.is_text task.now) (T.holds out.old) (T.holds out.new))) }
    ensures accepted { OnOk result (Given (S.left source.old) (S.left source.new) (IsAccepted OfCapture)) }
    ensures reason { IfErr result (HasReason OfCapture (Given (S.left source.old) (S.left source.new)) (W.is_text task.now)
        (side (S.left source.old) (S.faults source.old)) (side (S.left source.new) (S.faults source.new))
        (side (T.holds out.old) (T.faults out.old)) (side (T.holds out.new) (T.faults out.new))) }
    ensures untouched { IsErr result → (IsErrOf result Fault.WriteFault → ⊥) → out.new ≡ out.old }
    ensures front { (given : List ℕ) × (S.left source.old ≡ behind given (S.left source.new)) }
{
    let capture = match load_capture(alloc, source, task.amount()) {
        Ok(capture) => capture,
        Err(stop) => return Err(fault_of(stop)),
    };
    match task.results(alloc, &capture) {
        Err(_) => Err(Fault::NoMemory),
        Ok(results) => match task.write(out, &results) {
            Err(_) => Err(Fault::WriteFault),
            Ok(()) => Ok(()),
        },
    }
}
