ghost use Rattle.std.specs.Prelude.{◌≡◌, ◌≢◌, ◌<◌, ◌^◌, ℕ, true, false};
ghost use Rattle.journal_read.specs.Entries.{line_of, Missed};
ghost use Rattle.journal_whole.specs.Drafted.{draft_of, HasRooms, IsAnswered};
ghost use Rattle.journal_whole.specs.Steps.{Reads, Judges};

use crate::reading::{Place, Reading};
use journal_read::{is_end, read_missed};

/// Reads the line of the missed messages, where it is one.
pub(crate) fn take_missed(line: &[u8], reading: &mut Reading) -> bool
    requires rooms { HasRooms reading.old }
    requires answered { IsAnswered (draft_of reading.old) }
    ensures rooms { HasRooms reading.new }
    ensures yes { result ≡ true → Reads (draft_of reading.old) (draft_of reading.new) line.now }
    ensures no { result ≡ false → (missed : ℕ) → missed < 2 ^ 64 → line.now ≢ line_of (Missed missed) }
{
    match read_missed(line) {
        Some(missed) => {
            reading.journal.lists.missed = missed;
            reading.place = Place::Tallied;
            true
        }
        None => false,
    }
}

/// Reads the last line, where it is that.
pub(crate) fn take_end(line: &[u8], reading: &mut Reading) -> bool
    requires rooms { HasRooms reading.old }
    requires tallied { reading.old.place ≡ Place.Tallied }
    ensures rooms { HasRooms reading.new }
    ensures judges { Judges (draft_of reading.old) (draft_of reading.new) line.now result }
{
    let end = is_end(line);
    if end {
        reading.place = Place::Complete;
    }
    end
}
