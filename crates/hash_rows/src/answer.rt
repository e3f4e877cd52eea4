ghost use Rattle.std.specs.Prelude.{◌≡◌, replicate, pos, IfOk};

use crate::{Cells, Counts};
use flow_base::NoMemory;
use listed::Listed;
use std::alloc::Global;

/// What a reader was shown at one ask.
#[derive(Drop)]
pub struct Answer {
    pub reader: u32,
    /// The number of the reader's asks before.
    pub number: u32,
    /// The messages that were folded.
    pub folded: u64,
    /// The messages folded of each worker.
    pub front: Counts,
    /// For each worker one more than the last folded update, 0 where there is none.
    pub upto: Counts,
    /// The estimates of the asked keys.
    pub shown: Cells,
}

pub type Answers = Listed<Answer>;

impl Answer {
    /// An answer whose lists hold zeros.
    pub fn new(
        alloc: Global,
        reader: u32,
        number: u32,
        workers: u32,
        keys: u32,
    ) -> Result<Answer, NoMemory>
        ensures reader { IfOk result (λ answer. answer.reader ≡ reader) }
        ensures number { IfOk result (λ answer. answer.number ≡ number) }
        ensures folded { IfOk result (λ answer. answer.folded ≡ 0) }
        ensures front { IfOk result (λ answer. answer.front.items ≡ replicate workers 0) }
        ensures upto { IfOk result (λ answer. answer.upto.items ≡ replicate workers 0) }
        ensures shown { IfOk result (λ answer. answer.shown.items ≡ replicate keys (pos 0)) }
    {
        Ok(Answer {
            reader,
            number,
            folded: 0,
            front: Listed::filled(alloc, workers, 0)?,
            upto: Listed::filled(alloc, workers, 0)?,
            shown: Listed::filled(alloc, keys, 0)?,
        })
    }
}
