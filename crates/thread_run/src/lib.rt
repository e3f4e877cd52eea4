//! The parts of a run in threads, beside each other: workers, the aggregator, and readers.
#![tactic(auto)]

mod folding;
mod parts;
mod reading;
mod rest;
mod run;
mod working;

pub use parts::{FoldPart, ReaderPart, RestPart, WorkerPart};
pub use run::run_beside;
