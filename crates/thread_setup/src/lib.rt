//! All that a run in threads begins with. Memory is taken here, but that of appended messages.
#![tactic(auto)]

mod hands;
mod readers;
mod setup;
mod spare;

pub use hands::Lanes;
pub use setup::{Setup, set_up};
pub use spare::{BothPasses, Spare};
