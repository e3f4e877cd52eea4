//! The updates of a worker counted again, with those that were refused given: its messages, and the first refused update
//! that may not be one.
#![tactic(auto)]

mod replay;
mod worker;

pub use replay::{Fault, Replay};
pub use worker::replay_worker;
