//! The one that takes the messages of all lanes, and appends and publishes them.
#![tactic(auto)]

mod aggregator;
mod taking;

pub use aggregator::{Aggregator, Swept};
pub use taking::OutPasses;
