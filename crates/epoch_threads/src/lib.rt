//! A capture in epochs of so many packets, each counted in threads.
#![tactic(auto)]

mod run;

pub use epoch_run::{Change, Changes, Epoch, EpochRows, Epochs};
pub use run::epochs_threads;
pub use thread_engine::{Gate, OpenGate};
