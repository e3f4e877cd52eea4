//! Count Sketch: signed sums in rows, of which the lower median is the estimate.
#![tactic(auto)]

mod kind;
mod median;

pub use kind::CountSketch;
pub use median::lower_median;
