//! What the answers of a journal are judged by.
#![tactic(auto)]

mod answers;
mod fronts;
mod orders;
mod reached;
mod shown;

pub use answers::answers_failure;
