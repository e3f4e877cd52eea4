ghost use Rattle.std.specs.Prelude.{◌≡◌, ◌≢◌, ◌<◌, ◌≤◌, ◌*◌, ◌^◌, ℕ, All, IfOk, MatchBool, length, true, false};
ghost use lib.Signed.{mag};
ghost use Rattle.push_history.specs.Answers.{AnswerParts, parts_of};
ghost use Rattle.push_history.specs.Journal.{keys_of};
ghost use Rattle.hash_rows.specs.declared.options.Options.{Options as OptionsView};
ghost use Rattle.octo_text.specs.Content.{FitsLine};
ghost use Rattle.journal_read.specs.Drafts.{IsAnswerInTurn};
ghost use Rattle.journal_read.specs.Entries.{line_of, Answered};
ghost use Rattle.journal_whole.specs.Drafted.{draft_of, HasRooms, IsNextAnswer, IsProper};
ghost use Rattle.journal_whole.specs.Steps.{Judges};

use crate::reading::{Place, Reading};
use flow_base::NoMemory;
use hash_rows::{Answer, Options, Sketch};
use journal_read::read_answer;
use std::alloc::Global;

const MOST_MESSAGES: u64 = 1 << 27;

// How many keys each ask asks for.
fn asked(options: &Options) -> u32
    ensures { result ≡ length (keys_of options.now) }
{
    match options.sketch {
        Sketch::LogLog => 1,
        _ => options.watch.len(),
    }
}

fn are_small(front: &[u64]) -> bool
    ensures { MatchBool result (All (λ n. n ≤ 2 ^ 27) front.now) (All (λ n. n ≤ 2 ^ 27) front.now → ⊥) }
{
    front.iter().all(|count| *count <= MOST_MESSAGES)
}

// An estimate is in the range of its type. A law: it does nothing when it runs.
fn estimate_fits(estimate: i64)
    ensures { mag estimate < 2 ^ 63 }
{}

// So is a number of messages.
fn count_fits(count: u64)
    ensures { count < 2 ^ 64 }
{}

// The same of all estimates of a list.
fn estimates_fit(shown: &[i64])
    ensures { All (λ x. mag x < 2 ^ 63) shown.now }
{
    for estimate in shown {
        estimate_fits(*estimate);
    }
}

// An answer of zeros, with the reader and the number of the one that is to come at this place.
fn next_answer(alloc: Global, options: &Options, place: u32) -> Result<Answer, NoMemory>
    requires { 0 < options.now.asks }
    ensures { IfOk result (IsNextAnswer options.now place) }
{
    let reader = place / options.asks;
    let number = place % options.asks;
    Answer::new(alloc, reader, number, options.workers, asked(options))
}

// Reads the answer of the line, where it has this reader and number, and fronts that may be.
fn read_next(line: &[u8], answer: &mut Answer) -> bool
    requires { FitsLine answer.old }
    ensures next { (o : OptionsView) (place : ℕ) → IsNextAnswer o place answer.old → IsNextAnswer o place answer.new }
    ensures yes { result ≡ true → (o : OptionsView) (place : ℕ) → IsNextAnswer o place answer.old
        → IsAnswerInTurn o place (parts_of answer.new) }
    ensures line { result ≡ true → line.now ≡ line_of (Answered (parts_of answer.new)) }
    ensures no { result ≡ false → (o : OptionsView) (place : ℕ) → IsNextAnswer o place answer.old
        → (a : AnswerParts) → IsAnswerInTurn o place a → line.now ≢ line_of (Answered a) }
{
    let read = read_answer(line, answer);
    count_fits(answer.folded);
    estimates_fit(answer.shown.as_slice());
    read && are_small(answer.front.as_slice())
}

/// Reads the line of the next answer, where it is one.
pub(crate) fn take_answer(
    alloc: Global,
    line: &[u8],
    reading: &mut Reading,
) -> Result<bool, NoMemory>
    requires rooms { HasRooms reading.old }
    requires proper { IsProper (draft_of reading.old) }
    requires listing { reading.old.place ≡ Place.Lists }
    requires due { reading.old.due ≡ 0 }
    requires all { length reading.old.journal.lists.pushes.items ≡ reading.old.journal.options.workers }
    requires more { length reading.old.journal.lists.answers.items
        < reading.old.journal.options.readers * reading.old.journal.options.asks }
    ensures rooms { IfOk result (λ _. HasRooms reading.new) }
    ensures judges { IfOk result (λ taken. Judges (draft_of reading.old) (draft_of reading.new) line.now taken) }
{
    let place = reading.journal.lists.answers.len();
    let mut answer = next_answer(alloc, &reading.journal.options, place)?;
    if read_next(line, &mut answer) {
        reading.journal.lists.answers.push(answer);
        Ok(true)
    } else {
        Ok(false)
    }
}
