//! Whether a journal is lawful for the packets of a capture, and else which of its lines fails.
#![tactic(auto)]

mod audit;
mod given;
mod lines;
mod runs;
mod threads;
mod verdict;
mod workers;

pub use audit::audit_journal;
pub use given::{Given, given_of};
pub use threads::audit_threads;
