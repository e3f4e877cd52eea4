//! Where the packets of a run come from: a capture that a source gives, or a generated one.
#![tactic(auto)]

mod capture;
mod format;
mod generated;
mod laws;
mod load;
mod loading;
mod notes;
mod steps;

pub use capture::{Capture, LoadStop, Refusal};
pub use generated::GenSource;
pub use laws::{generated_whole, one_outcome, refusal_stays};
pub use load::{load_behind, load_capture};
