ghost use Rattle.std.specs.Prelude.{◌≡◌, ◌≢◌, ◌≤◌, length, true, false};
ghost use Rattle.push_history.specs.Answers.{AnswerParts, parts_of};
ghost use Rattle.octo_text.specs.Content.{FitsLine};
ghost use Rattle.octo_text.specs.JournalText.{answer_line};
ghost use Rattle.journal_read.specs.Answers.{ReadsNumbers, ReadsEstimates, IsAnswerOf, IsSameAsked};

use crate::numbers::{number_behind, signed_behind, skip};
use hash_rows::{Answer, Cells, Counts};
use octo_text::answer_line;

// Reads as many numbers as the list has, each behind a space, and answers what stands behind them.
fn fill_numbers<'a>(text: &'a [u8], into: &mut Counts) -> &'a [u8]
    ensures len { length into.new.items ≡ length into.old.items }
    ensures numbers { ReadsNumbers text.now into.new.items result.now }
{
    let mut rest = text;
    for place in 0..into.len() {
        let (number, behind) = number_behind(rest, b" ");
        into.set(place, number);
        rest = behind;
    }
    rest
}

// The same of numbers with sign.
fn fill_estimates<'a>(text: &'a [u8], into: &mut Cells) -> &'a [u8]
    ensures len { length into.new.items ≡ length into.old.items }
    ensures numbers { ReadsEstimates text.now into.new.items result.now }
{
    let mut rest = text;
    for place in 0..into.len() {
        let (number, behind) = signed_behind(rest, b" ");
        into.set(place, number);
        rest = behind;
    }
    rest
}

// Reads the numbers behind the answer's reader and number.
fn fill_answer(line: &[u8], answer: &mut Answer)
    ensures asked { IsSameAsked answer.old answer.new }
    ensures parts { (a : AnswerParts) → IsAnswerOf answer.old.reader answer.old.number
        (length answer.old.front.items) (length answer.old.shown.items) a
        → line.now ≡ answer_line a → parts_of answer.new ≡ a }
{
    let (_reader, rest) = number_behind(line, b"answer ");
    let (_number, rest) = number_behind(rest, b" ");
    let (folded, rest) = number_behind(rest, b" folded ");
    answer.folded = folded;
    let rest = fill_numbers(skip(rest, 6), &mut answer.front);
    fill_estimates(skip(rest, 6), &mut answer.shown);
}

fn is_answer(line: &[u8], answer: &Answer) -> bool
    requires { FitsLine answer.now }
    ensures yes { result ≡ true → line.now ≡ answer_line (parts_of answer.now) }
    ensures no { result ≡ false → line.now ≢ answer_line (parts_of answer.now) }
{
    let mut text = answer_line(answer);
    text.text(b"\n");
    text.as_slice() == line
}

/// Reads what the line says into the answer, whose reader, number and numbers of fronts and of
/// estimates are given, and says whether it is such a line. After `false` the answer has any numbers.
pub fn read_answer(line: &[u8], answer: &mut Answer) -> bool
    requires { FitsLine answer.old }
    ensures asked { IsSameAsked answer.old answer.new }
    ensures yes { result ≡ true → line.now ≡ answer_line (parts_of answer.new) }
    ensures once { result ≡ true → (a : AnswerParts) → IsAnswerOf answer.old.reader answer.old.number
        (length answer.old.front.items) (length answer.old.shown.items) a
        → line.now ≡ answer_line a → parts_of answer.new ≡ a }
    ensures no { result ≡ false → (a : AnswerParts) → IsAnswerOf answer.old.reader answer.old.number
        (length answer.old.front.items) (length answer.old.shown.items) a
        → line.now ≢ answer_line a }
{
    fill_answer(line, answer);
    is_answer(line, answer)
}
