//! The bracket of Count-Min: how near an answer is to the true estimate over the updates that match its
//! front.
#![tactic(auto)]

mod laws;

pub use laws::answers_are_bracketed;
