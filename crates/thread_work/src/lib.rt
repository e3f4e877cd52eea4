//! The body of a worker in a threads run.
#![tactic(auto)]

mod gate;
mod telling;
mod worker;

pub use gate::{Gate, OpenGate};
pub use worker::work;
