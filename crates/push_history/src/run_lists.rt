use hash_rows::{Answers, BitRows, Counts, Keys};

/// The lists of a run: all that its journal tells beside the options.
#[derive(Drop)]
pub struct RunLists {
    /// For each worker which of its updates were refused.
    pub refused: BitRows,
    /// The number of messages of each worker.
    pub pushes: Counts,
    /// By reader, then by number.
    pub answers: Answers,
    /// The live heavy keys, in the order of their table.
    pub live: Keys,
    /// The messages that reached `least` while the live table was full.
    pub missed: u64,
}
