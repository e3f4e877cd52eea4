//! Whether the journal of a run in rounds is lawful, and else which of its lines is the first that isn't.
#![tactic(auto)]

mod audit;
mod compare;
mod ranges;
mod text;
mod verdict;
mod word;

pub use audit::audit_rounds;
pub use compare::compare_texts;
pub use verdict::Verdict;
pub use word::Word;
