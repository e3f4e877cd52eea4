//! What the command `epochs` tells of a capture's epochs, and its text.
#![tactic(auto)]

mod changes;
mod epochs;
mod laws;
mod report;
mod write;

pub use laws::one_report;
pub use report::{EpochReport, report_of};
pub use write::write_epochs;
