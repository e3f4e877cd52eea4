//! The messages that the refused updates of a worker determine.
#![tactic(auto)]

mod laws;

pub use laws::{given_is_lawful, lawful_is_given};
