//! Runs in rounds, by workers that count side by side or one after another.
#![tactic(auto)]

mod looks;
mod rounds;
mod run;
mod settle;
mod setup;
mod worker;

pub use looks::asked_keys;
pub use run::{Settled, run_rounds, run_rounds_alone};
