ghost use Rattle.std.specs.Prelude.{◌≡◌, ◌≤◌, ◌^◌, ℕ, List, [], All, IfOk, IsErrOf, length, map, replicate};
ghost use Rattle.flow_base.specs.Causes.{Rose};
ghost use Rattle.flow_base.specs.Flow.{behind};
ghost use Rattle.flow_base.specs.LinesRead.{left_of};
ghost use Rattle.push_history.specs.Answers.{parts_of};
ghost use Rattle.push_history.specs.LawfulJournal.{places_by, places_of};
ghost use Rattle.octo_text.specs.Content.{content_of, IsComplete};
ghost use Rattle.octo_text.specs.Readable.{IsReadable};
ghost use Rattle.journal_whole.specs.Taken.{TakesJournal, TakesBadLine, TakesBreak};

use crate::begin::begin;
use crate::heading::read_opening;
use crate::lists::read_lists;
use flow_base::{Ahead, Source};
use octo_text::Journal;
use std::alloc::Global;

/// Why no journal was read.
#[derive(Clone, Copy, Debug, PartialEq, Eq)]
pub enum JournalStop {
    ReadFault,
    /// The line with this number, from 1, isn't one of a journal.
    BadJournal { line: u32 },
    NoMemory,
}

/// Takes the text of a journal up to its line `end`, and leaves what stands behind it. A line is
/// judged once its line feed came, or 1,024 bytes without one, or the end of input.
///
/// The bits of each worker have room for 2^27 updates, and the lists `upto` of the answers hold zeros.
pub fn read_journal<S: Source>(
    alloc: Global,
    source: &mut Ahead<'_, S>,
) -> Result<Journal, JournalStop>
    ensures same_reference { source.new.source.ghost_name ≡ source.old.source.ghost_name }
    ensures journal { IfOk result (λ journal. TakesJournal (left_of S.left source.old) (left_of S.left source.new) (content_of journal)) }
    ensures complete { IfOk result IsComplete }
    ensures readable { IfOk result IsReadable }
    ensures places { IfOk result (λ journal. places_of (map parts_of journal.lists.answers.items)
        ≡ places_by journal.options.readers journal.options.asks) }
    ensures bits { IfOk result (λ journal. All (λ bits. length bits ≡ 2 ^ 27) journal.lists.refused.items) }
    ensures upto { IfOk result (λ journal. All (λ a. a.upto.items ≡ replicate journal.options.workers 0) journal.lists.answers.items) }
    ensures bad { (line : ℕ) → IsErrOf result (JournalStop.BadJournal line)
        → TakesBadLine (left_of S.left source.old) (left_of S.left source.new) line }
    ensures broken { IsErrOf result JournalStop.ReadFault → TakesBreak (left_of S.left source.old) (left_of S.left source.new) }
    ensures drained { IsErrOf result JournalStop.ReadFault → source.new.window ≡ [] }
    ensures read { IsErrOf result JournalStop.ReadFault → Rose (S.faults source.old.source.now) (S.faults source.new.source.now) }
    ensures front { (given : List ℕ) × (left_of S.left source.old ≡ behind given (left_of S.left source.new)) }
    ensures later { S.faults source.old.source.now ≤ S.faults source.new.source.now }
{
    let options = match read_opening(alloc, source) {
        Err(stop) => return Err(stop),
        Ok(options) => options,
    };
    let Ok(mut reading) = begin(alloc, options) else {
        return Err(JournalStop::NoMemory);
    };
    match read_lists(alloc, source, &mut reading) {
        Err(stop) => Err(stop),
        Ok(()) => Ok(reading.journal),
    }
}
