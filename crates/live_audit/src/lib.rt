//! What the live keys of a journal are judged by, and how many were missed.
#![tactic(auto)]

mod alone;
mod counts;
mod key_set;
mod key_tests;
mod known;
mod live;
mod missed_tests;
mod sent_keys;
mod tests;

pub use live::live_failure;
