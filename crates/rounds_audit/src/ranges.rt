//! The numbers of lists are in the ranges of their types, which contracts don't see.
ghost use Rattle.std.specs.Prelude.{◌<◌, ◌^◌, All, length};
ghost use lib.Signed.{mag};
ghost use Rattle.packet_key.specs.KeyText.{IsKey};
ghost use Rattle.rounds_audit.specs.Ranges.{AreInRange, IsAnswerInRange};

use hash_rows::{Answer, Bits};
use packet_key::{FlowKey, in_range};
use push_history::RunLists;

fn number_fits(number: u64)
    ensures { number < 2 ^ 64 }
{}

fn estimate_fits(estimate: i64)
    ensures { mag estimate < 2 ^ 63 }
{}

fn numbers_fit(numbers: &[u64])
    ensures { All (λ n. n < 2 ^ 64) numbers.now }
{
    for number in numbers {
        number_fits(*number);
    }
}

fn estimates_fit(shown: &[i64])
    ensures { All (λ x. mag x < 2 ^ 63) shown.now }
{
    for estimate in shown {
        estimate_fits(*estimate);
    }
}

fn bits_fit(bits: &Bits)
    ensures { length bits.now < 2 ^ 32 }
{
    let _len = bits.len();
}

fn rows_fit(rows: &[Bits])
    ensures { All (λ bits. length bits < 2 ^ 32) rows.now }
{
    for bits in rows {
        bits_fit(bits);
    }
}

fn keys_fit(keys: &[FlowKey])
    ensures { All IsKey keys.now }
{
    for key in keys {
        in_range(key);
    }
}

fn answer_fits(answer: &Answer)
    ensures { IsAnswerInRange answer.now }
{
    number_fits(u64::from(answer.reader));
    number_fits(u64::from(answer.number));
    number_fits(answer.folded);
    numbers_fit(answer.front.as_slice());
    estimates_fit(answer.shown.as_slice());
}

fn answers_fit(answers: &[Answer])
    ensures { All IsAnswerInRange answers.now }
{
    for answer in answers {
        answer_fits(answer);
    }
}

/// All numbers of the lists of a run.
pub(crate) fn lists_fit(lists: &RunLists)
    ensures { AreInRange lists.now }
{
    rows_fit(lists.refused.as_slice());
    numbers_fit(lists.pushes.as_slice());
    answers_fit(lists.answers.as_slice());
    keys_fit(lists.live.as_slice());
    number_fits(lists.missed);
}
