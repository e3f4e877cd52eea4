//! Runs in threads: workers, the aggregator and the readers beside each other, and what they come
//! to.
#![tactic(auto)]

mod lists;
mod settling;
mod table;
mod threads;

pub use octo_engine::Settled;
pub use thread_setup::{BothPasses, Lanes};
pub use thread_work::{Gate, OpenGate};
pub use threads::{Ran, run_threads};
