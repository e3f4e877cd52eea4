ghost use Rattle.std.specs.Prelude.{◌≡◌, ◌≢◌, ◌≤◌, ◌↔◌, ℕ, List, [], length, IfOk, OnOk, IfErr, IsErr, IsErrOf};
ghost use Rattle.flow_base.specs.Flow.{Given, behind};
ghost use Rattle.flow_base.specs.LinesRead.{left_of};
ghost use Rattle.hash_rows.specs.Limits.{most_records};
ghost use Rattle.push_history.specs.LawfulJournal.{LawfulJournal};
ghost use Rattle.octo_text.specs.Content.{content_of};
ghost use Rattle.octo_text.specs.Readable.{IsReadable};
ghost use Rattle.journal_whole.specs.Taken.{TakesJournal};
ghost use Rattle.journal_audit.specs.Verdicts.{IsVerdict};
ghost use Rattle.rounds_audit.specs.declared.verdict.Verdict.TheVariants.{Lawful};
ghost use Rattle.octo_run.specs.Audits.{IsAuditText, IsJudged};
ghost use Rattle.octo_run.specs.Ends.{HasReason, IsEnd, Reported, Side, side};
ghost use Rattle.octo_run.specs.Refusals.{IsAccepted, OfJournal};
ghost use Rattle.octo_run.specs.declared.faults.Fault.{Fault};

use crate::faults::{Fault, fault_of};
use crate::lines::tell;
use capture_load::load_behind;
use count_min::CountMin;
use count_sketch::CountSketch;
use flow_base::{Ahead, NoMemory, Sink, Source, Status, write_all};
use hash_rows::{Packet, Sketch};
use journal_audit::audit_journal;
use journal_whole::{JournalStop, read_journal};
use loglog_regs::LogLog;
use octo_text::Journal;
use rounds_audit::Verdict;
use std::alloc::Global;

// Judges the journal by the sketch that it tells of.
fn audit_by_sketch(
    alloc: Global,
    packets: &[Packet],
    journal: &Journal,
) -> Result<Verdict, NoMemory>
    requires readable { IsReadable journal.now }
    requires few { length packets.now ≤ most_records }
    ensures lawful { IfOk result (λ verdict. (verdict ≡ Lawful) ↔ LawfulJournal packets.now journal.now.options (content_of journal.now)) }
    ensures differs { IfOk result (λ verdict. IsVerdict packets.now journal.now.options (content_of journal.now) verdict) }
{
    match journal.options.sketch {
        Sketch::CountMin => audit_journal::<CountMin>(alloc, packets, journal),
        Sketch::CountSketch => audit_journal::<CountSketch>(alloc, packets, journal),
        Sketch::LogLog => audit_journal::<LogLog>(alloc, packets, journal),
    }
}

// Reads the journal, which was asked for as each that is read.
fn take_journal<S: Source>(alloc: Global, source: &mut Ahead<'_, S>) -> Result<Journal, Fault>
    requires { source.old.window ≡ [] }
    ensures same_reference { source.new.source.ghost_name ≡ source.old.source.ghost_name }
    ensures readable { IfOk result IsReadable }
    ensures asked { IfOk result (λ journal. (content_of journal).options ≡ journal.options) }
    ensures journal { IfOk result (λ journal. TakesJournal (S.left source.old.source.now) (left_of S.left source.new)
        (content_of journal)) }
    ensures reason { IfErr result (λ fault. (out out' : Side)
        → HasReason OfJournal (Given (S.left source.old.source.now) (S.left source.new.source.now)) IsAuditText
        (side (S.left source.old.source.now) (S.faults source.old.source.now))
        (side (S.left source.new.source.now) (S.faults source.new.source.now)) out out' fault) }
    ensures front { (given : List ℕ) × (S.left source.old.source.now ≡ behind given (left_of S.left source.new)) }
    ensures later { S.faults source.old.source.now ≤ S.faults source.new.source.now }
{
    match read_journal(alloc, source) {
        Err(JournalStop::ReadFault) => Err(Fault::ReadFault),
        Err(JournalStop::BadJournal { line }) => Err(Fault::BadLine { line }),
        Err(JournalStop::NoMemory) => Err(Fault::NoMemory),
        Ok(mut journal) => {
            journal.options.journal = true;
            Ok(journal)
        }
    }
}

// Reads a journal and the capture behind it, and judges the journal.
fn judge<S: Source>(alloc: Global, source: &mut Ahead<'_, S>) -> Result<Verdict, Fault>
    requires { source.old.window ≡ [] }
    ensures same_reference { source.new.source.ghost_name ≡ source.old.source.ghost_name }
    ensures judged { IfOk result (λ verdict. Given (S.left source.old.source.now) (S.left source.new.source.now)
        (λ given rest. (rest ≡ []) × IsJudged given verdict)) }
    ensures accepted { OnOk result (Given (S.left source.old.source.now) (S.left source.new.source.now) (IsAccepted OfJournal)) }
    ensures reason { IfErr result (λ fault. (out out' : Side)
        → HasReason OfJournal (Given (S.left source.old.source.now) (S.left source.new.source.now)) IsAuditText
        (side (S.left source.old.source.now) (S.faults source.old.source.now))
        (side (S.left source.new.source.now) (S.faults source.new.source.now)) out out' fault) }
    ensures front { (given : List ℕ) × (S.left source.old.source.now ≡ behind given (S.left source.new.source.now)) }
{
    let journal = match take_journal(alloc, source) {
        Ok(journal) => journal,
        Err(fault) => return Err(fault),
    };
    let capture = match load_behind(alloc, source, journal.options.amount) {
        Ok(capture) => capture,
        Err(stop) => return Err(fault_of(stop)),
    };
    match audit_by_sketch(alloc, capture.packets.as_slice(), &journal) {
        Ok(verdict) => Ok(verdict),
        Err(_) => Err(Fault::NoMemory),
    }
}

// The same of all that the source gives.
fn judge_all<S: Source>(alloc: Global, source: &mut S) -> Result<Verdict, Fault>
    ensures judged { IfOk result (λ verdict. Given (S.left source.old) (S.left source.new) (λ given rest. (rest ≡ [])
        × IsJudged given verdict)) }
    ensures accepted { OnOk result (Given (S.left source.old) (S.left source.new) (IsAccepted OfJournal)) }
    ensures reason { IfErr result (λ fault. (out out' : Side)
        → HasReason OfJournal (Given (S.left source.old) (S.left source.new)) IsAuditText
        (side (S.left source.old) (S.faults source.old)) (side (S.left source.new) (S.faults source.new)) out out' fault) }
    ensures front { (given : List ℕ) × (S.left source.old ≡ behind given (S.left source.new)) }
{
    let mut ahead = Ahead::new(source);
    judge(alloc, &mut ahead)
}

// Judges what the source gives, and says on `out` where it is lawful.
fn audit<S: Source, T: Sink>(alloc: Global, source: &mut S, out: &mut T) -> Result<(), Fault>
    ensures done { OnOk result (Given (S.left source.old) (S.left source.new)
        (Reported IsAuditText (T.holds out.old) (T.holds out.new))) }
    ensures accepted { OnOk result (Given (S.left source.old) (S.left source.new) (IsAccepted OfJournal)) }
    ensures reason { IfErr result (HasReason OfJournal (Given (S.left source.old) (S.left source.new)) IsAuditText
        (side (S.left source.old) (S.faults source.old)) (side (S.left source.new) (S.faults source.new))
        (side (T.holds out.old) (T.faults out.old)) (side (T.holds out.new) (T.faults out.new))) }
    ensures untouched { IsErr result → (IsErrOf result Fault.WriteFault → ⊥) → out.new ≡ out.old }
    ensures front { (given : List ℕ) × (S.left source.old ≡ behind given (S.left source.new)) }
{
    match judge_all(alloc, source) {
        Err(fault) => Err(fault),
        Ok(Verdict::Unlawful { line, kept, lawful }) => Err(Fault::Differs { line, kept, lawful }),
        Ok(Verdict::Lawful) => match write_all(out, b"octosketch audit lawful\n") {
            Err(_) => Err(Fault::WriteFault),
            Ok(()) => Ok(()),
        },
    }
}

/// Reads a journal's text and directly behind it a capture, and writes that the journal is lawful
/// for the capture, where it is. Where it isn't, or one of the two is refused, one line on `err`
/// says why.
pub fn octo_audit<S: Source, T: Sink, E: Sink>(
    alloc: Global,
    source: &mut S,
    out: &mut T,
    err: &mut E,
) -> Status
    ensures ended { IsEnd OfJournal (Given (S.left source.old) (S.left source.new)) IsAuditText
        (side (S.left source.old) (S.faults source.old)) (side (S.left source.new) (S.faults source.new))
        (side (T.holds out.old) (T.faults out.old)) (side (T.holds out.new) (T.faults out.new))
        (side (E.holds err.old) (E.faults err.old)) (side (E.holds err.new) (E.faults err.new)) result }
    ensures front { (given : List ℕ) × (S.left source.old ≡ behind given (S.left source.new)) }
    ensures quiet { result ≡ Status.Done → err.new ≡ err.old }
    ensures untouched { result ≢ Status.Done → result ≢ Status.WriteFault → out.new ≡ out.old }
{
    match audit(alloc, source, out) {
        Ok(()) => Status::Done,
        Err(fault) => tell(err, &fault),
    }
}
