ghost use Rattle.std.specs.Prelude.{◌≡◌, ◌≤◌, ℕ, List, [], IfOk, IfErr, IsErrOf, OnOk, true, false};
ghost use Rattle.flow_base.specs.Causes.{Rose};
ghost use Rattle.flow_base.specs.Flow.{behind};
ghost use Rattle.flow_base.specs.LinesRead.{left_of, BrokeOff};
ghost use Rattle.journal_read.specs.Drafts.{MayFollow, read_on};
ghost use Rattle.journal_read.specs.Entries.{Entry, line_of};
ghost use Rattle.journal_whole.specs.Drafted.{draft_of, HasRooms, IsProper};
ghost use Rattle.journal_whole.specs.Steps.{IsNone};
ghost use Rattle.journal_whole.specs.Taken.{BreaksFrom, TakesEntries, TakesEntry, TakesOther, TakesUpTo};

use crate::reading::{Place, Reading, is_complete, take_line};
use crate::whole::JournalStop;
use flow_base::{Ahead, Source};
use std::alloc::Global;

// Reads one line, and says whether it may come next.
fn read_entry<S: Source>(
    alloc: Global,
    source: &mut Ahead<'_, S>,
    reading: &mut Reading,
) -> Result<bool, JournalStop>
    requires rooms { HasRooms reading.old }
    requires proper { IsProper (draft_of reading.old) }
    ensures same_reference { source.new.source.ghost_name ≡ source.old.source.ghost_name }
    ensures rooms { IfOk result (λ _. HasRooms reading.new) }
    ensures entry { IfOk result (λ taken. taken ≡ true
        → TakesEntry (draft_of reading.old) (draft_of reading.new) (left_of S.left source.old) (left_of S.left source.new)) }
    ensures none { IfOk result (λ taken. taken ≡ false
        → TakesOther (IsNone (draft_of reading.old)) (left_of S.left source.old) (left_of S.left source.new)) }
    ensures bad { (line : ℕ) → IsErrOf result (JournalStop.BadJournal line) → ⊥ }
    ensures broken { IsErrOf result JournalStop.ReadFault → BrokeOff (left_of S.left source.old) (left_of S.left source.new) }
    ensures drained { IsErrOf result JournalStop.ReadFault → source.new.window ≡ [] }
    ensures read { IsErrOf result JournalStop.ReadFault → Rose (S.faults source.old.source.now) (S.faults source.new.source.now) }
    ensures front { (given : List ℕ) × (left_of S.left source.old ≡ behind given (left_of S.left source.new)) }
    ensures later { S.faults source.old.source.now ≤ S.faults source.new.source.now }
{
    let mut line = [0; 1024];
    let Ok(read) = source.read_line(&mut line) else {
        return Err(JournalStop::ReadFault);
    };
    match take_line(alloc, &line[..read.len], reading) {
        Err(_) => Err(JournalStop::NoMemory),
        Ok(taken) => Ok(taken),
    }
}

/// Reads the lines behind the options, up to the last one.
pub(crate) fn read_lists<S: Source>(
    alloc: Global,
    source: &mut Ahead<'_, S>,
    reading: &mut Reading,
) -> Result<(), JournalStop>
    requires rooms { HasRooms reading.old }
    requires proper { IsProper (draft_of reading.old) }
    ensures same_reference { source.new.source.ghost_name ≡ source.old.source.ghost_name }
    ensures rooms { OnOk result (HasRooms reading.new) }
    ensures proper { OnOk result (IsProper (draft_of reading.new)) }
    ensures complete { OnOk result (reading.new.place ≡ Place.Complete) }
    ensures entries { OnOk result
        (TakesEntries (draft_of reading.old) (draft_of reading.new) (left_of S.left source.old) (left_of S.left source.new)) }
    ensures bad { (line : ℕ) → IsErrOf result (JournalStop.BadJournal line)
        → TakesUpTo (draft_of reading.old) 2 (left_of S.left source.old) (left_of S.left source.new) line }
    ensures broken { IsErrOf result JournalStop.ReadFault
        → BreaksFrom (draft_of reading.old) (left_of S.left source.old) (left_of S.left source.new) }
    ensures drained { IsErrOf result JournalStop.ReadFault → source.new.window ≡ [] }
    ensures read { IsErrOf result JournalStop.ReadFault → Rose (S.faults source.old.source.now) (S.faults source.new.source.now) }
    ensures front { (given : List ℕ) × (left_of S.left source.old ≡ behind given (left_of S.left source.new)) }
    ensures later { S.faults source.old.source.now ≤ S.faults source.new.source.now }
{
    let mut line = 3;
    'lines: while !is_complete(reading) {
        match read_entry(alloc, source, reading) {
            Err(stop) => return Err(stop),
            Ok(false) => return Err(JournalStop::BadJournal { line }),
            Ok(true) => {}
        }
        line += 1;
    }
    Ok(())
}
