//! Count-Min: sums in rows, of which the least is the estimate.
#![tactic(auto)]

mod kind;
mod laws;

pub use kind::CountMin;
pub use laws::no_estimate_is_below;
