use crate::word::Word;

/// What an audit comes to.
#[derive(Drop)]
pub enum Verdict {
    /// The journal is lawful for the packets.
    Lawful,
    /// It isn't: the first line that fails, counted from 1, with the word that it keeps and the one
    /// that would be lawful.
    Unlawful { line: u32, kept: Word, lawful: Word },
}
