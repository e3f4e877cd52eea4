//! What the command `prefix` tells of a capture's source networks, and its text.
#![tactic(auto)]

mod amounts;
mod answers;
mod levels;
mod networks;
mod report;
mod watched;
mod write;

pub use report::{PrefixReport, report_of};
pub use write::write_prefix;
