//! One bounded queue from a worker to the aggregator, whose passes know what was sent through it
//! and what was taken.
#![tactic(auto)]

mod lane;
mod passes;
mod rule;

pub use lane::Lane;
pub use passes::{BothPass, InPass, OutPass};
