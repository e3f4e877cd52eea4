ghost use Rattle.std.specs.Prelude.{◌≡◌, ◌≤◌, ◌<◌, ◌+◌, All, true, length, IfNone, IfOk, OnOk, List, replicate, if◌then◌else◌, ◌==◌};
ghost use Rattle.std.specs.List.{flat_map, range_with_len};
ghost use Rattle.hash_rows.specs.Lawful.{IsLawful};
ghost use Rattle.hash_rows.specs.Shapes.{IsShape};
ghost use Rattle.hash_rows.specs.declared.shape.Push.{Push};
ghost use Rattle.push_history.specs.Journal.{keys_of};
ghost use Rattle.octo_text.specs.Content.{content_of};
ghost use Rattle.told_table.specs.Tables.{lists_of};
ghost use Rattle.audit_law.specs.LineNumbers.{answer_line};
ghost use Rattle.audit_law.specs.Tests.{first_failing};
ghost use Rattle.audit_law.specs.AnswerTests.{answer_at, answer_tests, rising_tests};
ghost use Rattle.answer_audit.specs.Answered.{BeginsAt, front_tests};
ghost use Rattle.answer_audit.specs.Risen.{AreNumbered, HaveRisen};
ghost use Rattle.octo_text.specs.Readable.{CanBeJudged};
ghost use Rattle.answer_audit.specs.Reached.{AreSent, HasReached};

use crate::fronts::{folded_failure, rising_failure, within_failure};
use crate::orders::{are_numbered, order_failure};
use crate::reached::Reached;
use crate::shown::shown_failure;
use audit_law::{Failure, first_of};
use flow_base::NoMemory;
use hash_rows::{Keys, Kind, Options, Push};
use octo_text::Journal;
use std::alloc::Global;

// What fails of the front beside the one before of its reader.
fn rising_of(line: u32, journal: &Journal, place: u32) -> Option<Failure>
    requires place { place < length journal.now.lists.answers.items }
    requires answers { All (CanBeJudged journal.now.options) journal.now.lists.answers.items }
    ensures { result ≡ first_failing (rising_tests line (content_of journal.now) place) }
{
    let answer = journal.lists.answers.get(place);
    if answer.number == 0 {
        return None;
    }
    let before = journal.lists.answers.get(place.saturating_sub(1));
    rising_failure(line, before.front.as_slice(), answer.front.as_slice())
}

// The first test of the answer's front that fails.
fn front_failure(
    journal: &Journal,
    messages: &[Vec<Push>],
    place: u32,
    line: u32,
    numbered: bool,
) -> Option<Failure>
    requires lawful { IsLawful journal.now.options }
    requires place { place < length journal.now.lists.answers.items }
    requires answers { All (CanBeJudged journal.now.options) journal.now.lists.answers.items }
    requires workers { length messages.now ≡ journal.now.options.workers }
    requires numbered { numbered ≡ true → AreNumbered journal.now.options.asks (content_of journal.now) }
    requires risen { HaveRisen (content_of journal.now) place }
    ensures { result ≡ first_failing (front_tests line (content_of journal.now) (lists_of messages.now) place) }
{
    let answer = journal.lists.answers.get(place);
    let front = answer.front.as_slice();
    let folded = folded_failure(line, answer.folded, front);
    let within = within_failure(line, front, messages);
    let rising = rising_of(line, journal, place);
    let order = order_failure(line, front, journal, place, numbered);
    first_of(folded, first_of(within, first_of(rising, order)))
}

// Begins again where the answer is its reader's first.
fn begin<K: Kind>(
    alloc: Global,
    reached: &mut Reached<K>,
    options: &Options,
    number: u32,
) -> Result<(), NoMemory>
    requires shape { IsShape options.now.shape }
    ensures shape { OnOk result (reached.old.table.shape ≡ options.now.shape → reached.new.table.shape ≡ options.now.shape) }
    ensures front { OnOk result (reached.new.front.items ≡
        (if number == 0 then replicate options.now.workers 0 else reached.old.front.items)) }
    ensures reached { (messages : List (List Push)) → HasReached K.rules messages reached.old.front.items reached.old.table
        → OnOk result (HasReached K.rules messages reached.new.front.items reached.new.table) }
{
    if number == 0 {
        *reached = Reached::new(alloc, options.shape, options.workers)?;
    }
    Ok(())
}

// The first test of the answer that fails. Where those of its front hold, the table reaches it.
fn answer_failure<K: Kind>(
    reached: &mut Reached<K>,
    journal: &Journal,
    messages: &[Vec<Push>],
    keys: &Keys,
    place: u32,
    line: u32,
    numbered: bool,
) -> Option<Failure>
    requires lawful { IsLawful journal.now.options }
    requires sketch { journal.now.options.sketch ≡ K.sketch }
    requires place { place < length journal.now.lists.answers.items }
    requires answers { All (CanBeJudged journal.now.options) journal.now.lists.answers.items }
    requires workers { length messages.now ≡ journal.now.options.workers }
    requires sent { AreSent K.rules journal.now.options.shape (lists_of messages.now) }
    requires keys { keys.now.items ≡ keys_of journal.now.options }
    requires line { line ≡ answer_line (content_of journal.now) place }
    requires shape { reached.old.table.shape ≡ journal.now.options.shape }
    requires len { length reached.old.front.items ≡ journal.now.options.workers }
    requires begins { BeginsAt (content_of journal.now) place reached.old.front.items }
    requires reached { HasReached K.rules (lists_of messages.now) reached.old.front.items reached.old.table }
    requires numbered { numbered ≡ true → AreNumbered journal.now.options.asks (content_of journal.now) }
    requires risen { HaveRisen (content_of journal.now) place }
    ensures failure { result ≡ first_failing (answer_tests journal.now.options (content_of journal.now) (lists_of messages.now) place) }
    ensures reaches { IfNone result (HasReached K.rules (lists_of messages.now) reached.new.front.items reached.new.table) }
    ensures front { IfNone result (reached.new.front.items ≡ (answer_at (content_of journal.now) place).front) }
    ensures shape { IfNone result (reached.new.table.shape ≡ reached.old.table.shape) }
{
    let failure = front_failure(journal, messages, place, line, numbered);
    if failure.is_some() {
        return failure;
    }
    let answer = journal.lists.answers.get(place);
    reached.reach(messages, answer.front.as_slice());
    shown_failure(
        line,
        &reached.table,
        keys.as_slice(),
        answer.shown.as_slice(),
    )
}

/// The first test of the answers that fails, where the workers sent these messages. Each reader's
/// answers are judged in one pass over them, since its fronts rise.
pub fn answers_failure<K: Kind>(
    alloc: Global,
    journal: &Journal,
    messages: &[Vec<Push>],
    keys: &Keys,
    line: u32,
) -> Result<Option<Failure>, NoMemory>
    requires lawful { IsLawful journal.now.options }
    requires sketch { journal.now.options.sketch ≡ K.sketch }
    requires answers { All (CanBeJudged journal.now.options) journal.now.lists.answers.items }
    requires few { length journal.now.lists.answers.items ≤ 65536 }
    requires workers { length messages.now ≡ journal.now.options.workers }
    requires sent { AreSent K.rules journal.now.options.shape (lists_of messages.now) }
    requires keys { keys.now.items ≡ keys_of journal.now.options }
    requires line { line ≡ answer_line (content_of journal.now) 0 }
    requires low { line ≤ 2147483700 }
    ensures { IfOk result (λ failure. failure ≡ first_failing (flat_map
        (answer_tests journal.now.options (content_of journal.now) (lists_of messages.now))
        (range_with_len 0 (length journal.now.lists.answers.items)))) }
{
    let mut reached: Reached<K> = Reached::new(
        alloc,
        journal.options.shape,
        journal.options.workers,
    )?;
    let numbered = are_numbered(journal);
    for place in 0..journal.lists.answers.len() {
        let number = journal.lists.answers.get(place).number;
        begin(alloc, &mut reached, &journal.options, number)?;
        let failure = answer_failure(
            &mut reached,
            journal,
            messages,
            keys,
            place,
            line + place,
            numbered,
        );
        if failure.is_some() {
            return Ok(failure);
        }
    }
    Ok(None)
}
