ghost use Rattle.std.specs.Prelude.{◌≡◌, ◌≢◌, ◌≤◌, ◌++◌, ℕ, List, [], IfOk, IsErrOf, OnOk};
ghost use Rattle.flow_base.specs.Causes.{Rose};
ghost use Rattle.flow_base.specs.Flow.{behind};
ghost use Rattle.flow_base.specs.LinesRead.{left_of, BrokeOff};
ghost use Rattle.hash_rows.specs.Lawful.{IsLawful};
ghost use Rattle.journal_read.specs.Entries.{line_of, Head, Terms};
ghost use Rattle.journal_read.specs.Terms.{told_options};
ghost use Rattle.journal_whole.specs.Taken.{TakesBadLine, TakesBreak, TakesOther, IsNoTerms};

use crate::whole::JournalStop;
use flow_base::{Ahead, Source};
use hash_rows::Options;
use journal_read::{is_head, read_options};
use std::alloc::Global;

// Reads the first line.
fn read_head<S: Source>(source: &mut Ahead<'_, S>) -> Result<(), JournalStop>
    ensures same_reference { source.new.source.ghost_name ≡ source.old.source.ghost_name }
    ensures head { OnOk result (left_of S.left source.old ≡ behind (line_of Head) (left_of S.left source.new)) }
    ensures bad { (line : ℕ) → IsErrOf result (JournalStop.BadJournal line)
        → (line ≡ 1) × TakesOther (λ stands. stands ≢ line_of Head) (left_of S.left source.old) (left_of S.left source.new) }
    ensures broken { IsErrOf result JournalStop.ReadFault → BrokeOff (left_of S.left source.old) (left_of S.left source.new) }
    ensures drained { IsErrOf result JournalStop.ReadFault → source.new.window ≡ [] }
    ensures read { IsErrOf result JournalStop.ReadFault → Rose (S.faults source.old.source.now) (S.faults source.new.source.now) }
    ensures front { (given : List ℕ) × (left_of S.left source.old ≡ behind given (left_of S.left source.new)) }
    ensures later { S.faults source.old.source.now ≤ S.faults source.new.source.now }
{
    let mut line = [0; 1024];
    let Ok(read) = source.read_line(&mut line) else {
        return Err(JournalStop::ReadFault);
    };
    if is_head(&line[..read.len]) {
        Ok(())
    } else {
        Err(JournalStop::BadJournal { line: 1 })
    }
}

// Reads the line of the options.
fn read_terms<S: Source>(alloc: Global, source: &mut Ahead<'_, S>) -> Result<Options, JournalStop>
    ensures same_reference { source.new.source.ghost_name ≡ source.old.source.ghost_name }
    ensures lawful { IfOk result (λ said. IsLawful said × (told_options said ≡ said)) }
    ensures said { IfOk result (λ said. left_of S.left source.old ≡ behind (line_of (Terms said)) (left_of S.left source.new)) }
    ensures bad { (line : ℕ) → IsErrOf result (JournalStop.BadJournal line)
        → (line ≡ 2) × TakesOther IsNoTerms (left_of S.left source.old) (left_of S.left source.new) }
    ensures broken { IsErrOf result JournalStop.ReadFault → BrokeOff (left_of S.left source.old) (left_of S.left source.new) }
    ensures drained { IsErrOf result JournalStop.ReadFault → source.new.window ≡ [] }
    ensures read { IsErrOf result JournalStop.ReadFault → Rose (S.faults source.old.source.now) (S.faults source.new.source.now) }
    ensures front { (given : List ℕ) × (left_of S.left source.old ≡ behind given (left_of S.left source.new)) }
    ensures later { S.faults source.old.source.now ≤ S.faults source.new.source.now }
{
    let mut line = [0; 1024];
    let Ok(read) = source.read_line(&mut line) else {
        return Err(JournalStop::ReadFault);
    };
    match read_options(alloc, &line[..read.len]) {
        Err(_) => Err(JournalStop::NoMemory),
        Ok(None) => Err(JournalStop::BadJournal { line: 2 }),
        Ok(Some(said)) => Ok(said),
    }
}

/// Reads the first line, and the options behind it.
pub(crate) fn read_opening<S: Source>(
    alloc: Global,
    source: &mut Ahead<'_, S>,
) -> Result<Options, JournalStop>
    ensures same_reference { source.new.source.ghost_name ≡ source.old.source.ghost_name }
    ensures lawful { IfOk result (λ said. IsLawful said × (told_options said ≡ said)) }
    ensures said { IfOk result (λ said. left_of S.left source.old
        ≡ behind (line_of Head ++ line_of (Terms said)) (left_of S.left source.new)) }
    ensures bad { (line : ℕ) → IsErrOf result (JournalStop.BadJournal line)
        → TakesBadLine (left_of S.left source.old) (left_of S.left source.new) line }
    ensures broken { IsErrOf result JournalStop.ReadFault → TakesBreak (left_of S.left source.old) (left_of S.left source.new) }
    ensures drained { IsErrOf result JournalStop.ReadFault → source.new.window ≡ [] }
    ensures read { IsErrOf result JournalStop.ReadFault → Rose (S.faults source.old.source.now) (S.faults source.new.source.now) }
    ensures front { (given : List ℕ) × (left_of S.left source.old ≡ behind given (left_of S.left source.new)) }
    ensures later { S.faults source.old.source.now ≤ S.faults source.new.source.now }
{
    match read_head(source) {
        Err(stop) => Err(stop),
        Ok(()) => read_terms(alloc, source),
    }
}
