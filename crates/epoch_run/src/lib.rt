//! A capture in epochs of so many packets: what the Count Sketch of each says, and which flows' estimates
//! changed from one epoch to the next.
#![tactic(auto)]

mod change;
mod changed;
mod counting;
mod epoch;
mod pieces;
mod run;
mod settling;

pub use change::{Change, Changes};
pub use changed::changed_flows;
pub use epoch::{Epoch, EpochRows, Epochs};
pub use pieces::packets_of;
pub use run::epochs_rounds;
pub use settling::settle;
