ghost use Rattle.std.specs.Prelude.{◌≡◌, ◌≢◌, ◌<◌, true, false, length, IfOk};
ghost use Rattle.journal_whole.specs.Drafted.{draft_of, HasRooms, IsProper, IsAnswered};
ghost use Rattle.journal_whole.specs.Steps.{Judges};

use crate::answers::take_answer;
use crate::keys::{take_live, take_watched};
use crate::single::{take_end, take_missed};
use crate::workers::{take_run, take_worker};
use flow_base::NoMemory;
use octo_text::Journal;
use std::alloc::Global;

/// Which lines are read: some behind the options; that of the missed messages; the last one.
#[derive(Clone, Copy, Debug, PartialEq, Eq)]
pub(crate) enum Place {
    Lists,
    Tallied,
    Complete,
}

/// A journal whose options and some lines behind them are read.
#[derive(Drop)]
pub(crate) struct Reading {
    pub journal: Journal,
    pub place: Place,
    /// The sum of the refused numbers in the lines of workers.
    pub refused: u32,
    /// How many of the last worker's refused updates no run has told yet.
    pub due: u32,
    /// The least number at which the next run may begin.
    pub least: u32,
}

/// Whether the last line is read.
pub(crate) fn is_complete(reading: &Reading) -> bool
    ensures yes { result ≡ true → reading.now.place ≡ Place.Complete }
    ensures no { result ≡ false → reading.now.place ≢ Place.Complete }
{
    reading.place == Place::Complete
}

// Behind the workers and the answers: a live key, or the number of the missed.
fn take_last(line: &[u8], reading: &mut Reading) -> bool
    requires rooms { HasRooms reading.old }
    requires proper { IsProper (draft_of reading.old) }
    requires answered { IsAnswered (draft_of reading.old) }
    ensures rooms { HasRooms reading.new }
    ensures judges { Judges (draft_of reading.old) (draft_of reading.new) line.now result }
{
    take_live(line, reading) || take_missed(line, reading)
}

// A watched key, where none of the workers is told of, or else the next worker.
fn take_first(alloc: Global, line: &[u8], reading: &mut Reading) -> Result<bool, NoMemory>
    requires rooms { HasRooms reading.old }
    requires proper { IsProper (draft_of reading.old) }
    requires listing { reading.old.place ≡ Place.Lists }
    requires due { reading.old.due ≡ 0 }
    requires more { length reading.old.journal.lists.pushes.items < reading.old.journal.options.workers }
    ensures rooms { IfOk result (λ _. HasRooms reading.new) }
    ensures judges { IfOk result (λ taken. Judges (draft_of reading.old) (draft_of reading.new) line.now taken) }
{
    if take_watched(line, reading) {
        return Ok(true);
    }
    take_worker(alloc, line, reading)
}

// A line of the lists: which kind it has to be is known by what is still to come, but for a first
// worker, before which watched keys may stand, and for the missed, before which live keys may.
fn take_listed(alloc: Global, line: &[u8], reading: &mut Reading) -> Result<bool, NoMemory>
    requires rooms { HasRooms reading.old }
    requires proper { IsProper (draft_of reading.old) }
    requires listing { reading.old.place ≡ Place.Lists }
    ensures rooms { IfOk result (λ _. HasRooms reading.new) }
    ensures judges { IfOk result (λ taken. Judges (draft_of reading.old) (draft_of reading.new) line.now taken) }
{
    if reading.due > 0 {
        return Ok(take_run(line, reading));
    }
    let options = &reading.journal.options;
    if reading.journal.lists.pushes.len() < options.workers {
        return take_first(alloc, line, reading);
    }
    if reading.journal.lists.answers.len() < options.readers * options.asks {
        return take_answer(alloc, line, reading);
    }
    Ok(take_last(line, reading))
}

/// Reads the line, where it is one that may come next, and says whether it is.
pub(crate) fn take_line(alloc: Global, line: &[u8], reading: &mut Reading) -> Result<bool, NoMemory>
    requires rooms { HasRooms reading.old }
    requires proper { IsProper (draft_of reading.old) }
    ensures rooms { IfOk result (λ _. HasRooms reading.new) }
    ensures judges { IfOk result (λ taken. Judges (draft_of reading.old) (draft_of reading.new) line.now taken) }
{
    match reading.place {
        Place::Lists => take_listed(alloc, line, reading),
        Place::Tallied => Ok(take_end(line, reading)),
        Place::Complete => Ok(false),
    }
}
