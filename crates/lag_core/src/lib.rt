//! The pure core: workers that count updates and push messages into bounded lanes, a state that
//! they are folded into, and readers of what is shown of it. No threads.
#![tactic(auto)]

mod lag;
mod readings;
mod shown;
mod worker;

pub use lag::Lag;
pub use worker::{UpdateList, UpdateRows};
