ghost use Rattle.std.specs.Prelude.{◌≡◌, ◌≢◌, ◌⊎◌, ℕ, List, [], string_bytes, map};
ghost use Rattle.flow_base.specs.Causes.{Rose};
ghost use Rattle.flow_base.specs.Flow.{Given, behind};
ghost use Rattle.hash_rows.specs.Lawful.{IsLawful};
ghost use Rattle.epoch_run.specs.Epochs.{IsEpochsRun};
ghost use Rattle.octo_run.specs.Audits.{DiffersAt};
ghost use Rattle.octo_run.specs.Ends.{CutShort, IsEnd, IsTold, Reported, side};
ghost use Rattle.octo_run.specs.Epochs.{IsEpochsText};
ghost use Rattle.octo_run.specs.Faults.{TellsLine, fault_line, status_of};
ghost use Rattle.octo_run.specs.Refusals.{IsAccepted, IsRefusal, IsUnrefused, OfCapture, HoldsFault};
ghost use Rattle.octo_run.specs.Runs.{GivenFor, HasText, IsRunText, Leaves, Spares, input_of};
ghost use Rattle.octo_run.specs.declared.faults.Fault.{Fault};
ghost use Rattle.hash_rows.specs.declared.options.Options.{Options};
ghost use Rattle.words.specs.Options.{Gives, IsLawfulCommand};
ghost use Rattle.words.specs.declared.command.Command.{Command};

use crate::audit::octo_audit;
use crate::epochs::{octo_epochs_rounds, octo_epochs_threads};
use crate::faults::Fault;
use crate::lines::tell;
use crate::prefix::octo_prefix;
use crate::rounds::octo_rounds;
use crate::threads::octo_threads;
use capture_load::GenSource;
use flow_base::{Sink, Source, Status};
use hash_rows::{Mode, Options};
use std::alloc::Global;
use std::sync::Wait;
use std::thread::Threads;
use thread_engine::Gate;
use words::{Command, WordStop, read_words};

// Counts a capture in the options' mode.
fn run_in_mode<R: Threads + Wait + Sync, S: Source, T: Sink, E: Sink, G: Gate>(
    rt: &R,
    alloc: Global,
    options: &Options,
    source: &mut S,
    out: &mut T,
    err: &mut E,
    gate: &G,
) -> Status
    requires { IsLawful options.now }
    ensures ended { IsEnd OfCapture (Given (S.left source.old) (S.left source.new)) (IsRunText options.now)
        (side (S.left source.old) (S.faults source.old)) (side (S.left source.new) (S.faults source.new))
        (side (T.holds out.old) (T.faults out.old)) (side (T.holds out.new) (T.faults out.new))
        (side (E.holds err.old) (E.faults err.old)) (side (E.holds err.new) (E.faults err.new)) result }
    ensures front { (given : List ℕ) × (S.left source.old ≡ behind given (S.left source.new)) }
    ensures quiet { result ≡ Status.Done → err.new ≡ err.old }
    ensures untouched { result ≢ Status.Done → result ≢ Status.WriteFault → out.new ≡ out.old }
{
    match options.mode {
        Mode::Rounds => octo_rounds(rt, alloc, options, source, out, err),
        Mode::Threads => octo_threads(rt, alloc, options, source, out, err, gate),
    }
}

// Counts a capture's epochs in the options' mode.
fn epochs_in_mode<R: Threads + Wait + Sync, S: Source, T: Sink, E: Sink, G: Gate>(
    rt: &R,
    alloc: Global,
    size: u32,
    change: u64,
    options: &Options,
    source: &mut S,
    out: &mut T,
    err: &mut E,
    gate: &G,
) -> Status
    requires { IsEpochsRun size change options.now }
    ensures ended { IsEnd OfCapture (Given (S.left source.old) (S.left source.new)) (IsEpochsText size change options.now)
        (side (S.left source.old) (S.faults source.old)) (side (S.left source.new) (S.faults source.new))
        (side (T.holds out.old) (T.faults out.old)) (side (T.holds out.new) (T.faults out.new))
        (side (E.holds err.old) (E.faults err.old)) (side (E.holds err.new) (E.faults err.new)) result }
    ensures front { (given : List ℕ) × (S.left source.old ≡ behind given (S.left source.new)) }
    ensures quiet { result ≡ Status.Done → err.new ≡ err.old }
    ensures untouched { result ≢ Status.Done → result ≢ Status.WriteFault → out.new ≡ out.old }
{
    match options.mode {
        Mode::Rounds => octo_epochs_rounds(rt, alloc, size, change, options, source, out, err),
        Mode::Threads => {
            octo_epochs_threads(rt, alloc, size, change, options, source, out, err, gate)
        }
    }
}

// Does what the command says.
fn carry_out<R: Threads + Wait + Sync, S: Source, T: Sink, E: Sink, G: Gate>(
    rt: &R,
    alloc: Global,
    command: Command,
    source: &mut S,
    out: &mut T,
    err: &mut E,
    gate: &G,
) -> Status
    requires { IsLawfulCommand command }
    ensures ended { IsEnd (input_of command) (GivenFor command (S.left source.old) (S.left source.new)) (HasText command)
        (side (S.left source.old) (S.faults source.old)) (side (S.left source.new) (S.faults source.new))
        (side (T.holds out.old) (T.faults out.old)) (side (T.holds out.new) (T.faults out.new))
        (side (E.holds err.old) (E.faults err.old)) (side (E.holds err.new) (E.faults err.new)) result }
    ensures front { (given : List ℕ) × (S.left source.old ≡ behind given (S.left source.new)) }
    ensures quiet { result ≡ Status.Done → err.new ≡ err.old }
    ensures untouched { result ≢ Status.Done → result ≢ Status.WriteFault → out.new ≡ out.old }
    ensures left { Leaves command source.old source.new }
    ensures spared { Spares command result }
{
    match command {
        Command::Run(options) => run_in_mode(rt, alloc, &options, source, out, err, gate),
        Command::Load {
            records,
            start,
            options,
        } => {
            let mut generated = GenSource::new(records, start);
            run_in_mode(rt, alloc, &options, &mut generated, out, err, gate)
        }
        Command::Prefix { options, watch } => {
            octo_prefix(rt, alloc, &options, watch.as_slice(), source, out, err)
        }
        Command::Epochs {
            packets,
            change,
            options,
        } => epochs_in_mode(rt, alloc, packets, change, &options, source, out, err, gate),
        Command::Audit => octo_audit(alloc, source, out, err),
    }
}

/// Does all that the program does: `words` are those after the program's name. With `load` the
/// bytes are generated, and nothing of the source is read. The gate is told of the steps of a run in
/// threads.
pub fn octo<R: Threads + Wait + Sync, S: Source, T: Sink, E: Sink, G: Gate>(
    rt: &R,
    alloc: Global,
    words: &[String],
    source: &mut S,
    out: &mut T,
    err: &mut E,
    gate: &G,
) -> Status
    // Usage, exactly where the words give no command. Nothing is read.
    ensures usage { result ≡ Status.Usage → (command : Command) → Gives (map string_bytes words.now) command → ⊥ }
    ensures grammar { ((command : Command) → Gives (map string_bytes words.now) command → ⊥)
        → (result ≡ Status.Usage) ⊎ (result ≡ Status.NoMemory) }
    ensures unread { result ≡ Status.Usage → (source.new ≡ source.old) × (out.new ≡ out.old) }
    ensures front { (given : List ℕ) × (S.left source.old ≡ behind given (S.left source.new)) }
    ensures done { result ≡ Status.Done → (command : Command) → Gives (map string_bytes words.now) command
        → GivenFor command (S.left source.old) (S.left source.new) (Reported (HasText command) (T.holds out.old) (T.holds out.new)) }
    ensures read { result ≡ Status.ReadFault → Rose (S.faults source.old) (S.faults source.new) }
    ensures unrefused { result ≡ Status.ReadFault → (command : Command) → Gives (map string_bytes words.now) command
        → GivenFor command (S.left source.old) (S.left source.new) (IsUnrefused (input_of command)) }
    ensures write { result ≡ Status.WriteFault → Rose (T.faults out.old) (T.faults out.new) }
    ensures cut { result ≡ Status.WriteFault → (command : Command) → Gives (map string_bytes words.now) command
        → GivenFor command (S.left source.old) (S.left source.new) (CutShort (HasText command) (T.holds out.old) (T.holds out.new)) }
    // A capture, and with `audit` a journal before it, is refused exactly by what stands first in the
    // bytes.
    ensures bad { (result ≡ Status.BadCapture) ⊎ (result ≡ Status.TooMany)
        → (command : Command) → Gives (map string_bytes words.now) command
        → (fault : Fault) × IsRefusal (input_of command) fault × (result ≡ status_of fault)
        × GivenFor command (S.left source.old) (S.left source.new) (λ given rest. HoldsFault (input_of command) given rest fault)
        × TellsLine (E.holds err.old) (E.holds err.new) (E.faults err.old) (E.faults err.new) (fault_line fault) }
    // With `audit` alone: all bytes were read, and the line on `err` has the first line of the journal
    // that fails, and both its words.
    ensures differs { result ≡ Status.Differs → (command : Command) → Gives (map string_bytes words.now) command
        → (command ≡ Command.Audit) × (line : ℕ) × (kept : List ℕ) × (lawful : List ℕ)
        × Given (S.left source.old) (S.left source.new) (λ given rest. (rest ≡ []) × DiffersAt given line kept lawful)
        × TellsLine (E.holds err.old) (E.holds err.new) (E.faults err.old) (E.faults err.new) (fault_line
        (Fault.Differs line kept lawful)) }
    ensures accepted { (result ≡ Status.Done) ⊎ ((result ≡ Status.WriteFault) ⊎ (result ≡ Status.Differs))
        → (command : Command) → Gives (map string_bytes words.now) command
        → GivenFor command (S.left source.old) (S.left source.new) (IsAccepted (input_of command)) }
    ensures told { result ≢ Status.Done
        → IsTold (side (E.holds err.old) (E.faults err.old)) (side (E.holds err.new) (E.faults err.new)) result }
    ensures quiet { result ≡ Status.Done → err.new ≡ err.old }
    ensures untouched { result ≢ Status.Done → result ≢ Status.WriteFault → out.new ≡ out.old }
    ensures generated { (records start : ℕ) (o : Options) → Gives (map string_bytes words.now) (Command.Load records start o)
        → source.new ≡ source.old }
    ensures unfailed { (records start : ℕ) (o : Options) → Gives (map string_bytes words.now) (Command.Load records start o)
        → result ≢ Status.ReadFault }
{
    match read_words(alloc, words) {
        Err(WordStop::Usage) => tell(err, &Fault::Usage),
        Err(WordStop::NoMemory) => tell(err, &Fault::NoMemory),
        Ok(command) => carry_out(rt, alloc, command, source, out, err, gate),
    }
}
