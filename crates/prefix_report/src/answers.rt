ghost use Rattle.std.specs.Prelude.{◌≡◌, ◌≤◌, ◌+◌, ◌++◌, All, codes, length, map};
ghost use Rattle.std.specs.List.{flat_map};
ghost use Rattle.flow_base.specs.Causes.{HasCause};
ghost use Rattle.flow_base.specs.Writing.{Writes};
ghost use Rattle.push_history.specs.Answers.{parts_of};
ghost use Rattle.prefix_report.specs.Reports.{HasFewShown};
ghost use Rattle.prefix_report.specs.PrefixText.{answer_line};

use flow_base::{Failed, Sink};
use hash_rows::Answer;
use octo_text::{Line, put_estimates};

// The line of an answer, without its line feed.
#[tactic(auto, unfolding(crate::specs::PrefixText::answer_line, push_history::specs::Answers::parts_of))]
fn answer_line(answer: &Answer) -> Line
    requires { HasFewShown answer.now }
    ensures text { result ++ codes "\n" ≡ answer_line (parts_of answer.now) }
    ensures room { length result + 1 ≤ 1024 }
{
    let mut line = Line::new();
    line.named(b"answer ", u64::from(answer.reader));
    line.named(b" ", u64::from(answer.number));
    line.named(b" folded ", answer.folded);
    line.text(b" shown");
    put_estimates(&mut line, answer.shown.as_slice());
    line
}

fn write_answer<T: Sink>(out: &mut T, answer: &Answer) -> Result<(), Failed>
    requires { HasFewShown answer.now }
    ensures writes { Writes (T.holds out.old) (T.holds out.new) (answer_line (parts_of answer.now)) result }
    ensures cause { HasCause (T.faults out.old) (T.faults out.new) result }
{
    answer_line(answer).send(out)
}

/// Writes a line for each answer.
pub(crate) fn write_answers<T: Sink>(out: &mut T, answers: &[Answer]) -> Result<(), Failed>
    requires { All HasFewShown answers.now }
    ensures writes { Writes (T.holds out.old) (T.holds out.new)
        (flat_map answer_line (map parts_of answers.now)) result }
    ensures cause { HasCause (T.faults out.old) (T.faults out.new) result }
{
    for answer in answers {
        write_answer(out, answer)?;
    }
    Ok(())
}
