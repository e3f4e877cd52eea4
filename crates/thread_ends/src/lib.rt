//! The first steps of settling a run in threads: lanes whose ends are one, nothing left in them,
//! and readers who know all that was published.
#![tactic(auto)]

mod answering;
mod draining;
mod joining;

pub use answering::gather_answers;
pub use draining::drain_all;
pub use joining::take_in_all;
