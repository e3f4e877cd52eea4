//! The state that messages are folded into: a table, the front of each worker, and the heavy keys.
#![tactic(auto)]

mod copies;
mod laws;
mod layout;
mod state;
mod tally;

pub use copies::{copy_counts_into, fill_table};
pub use laws::state_shows_its_messages;
pub use layout::Layout;
pub use state::State;
pub use tally::Tally;
