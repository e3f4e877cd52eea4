//! The table that takes all packets of a capture, and the report of it.
#![tactic(auto)]

mod build;
mod findings;
mod laws;
mod one_table;
mod totals;

pub use build::report_of;
pub use laws::one_report;
pub use one_table::{add_packet, sequential};
pub use totals::{total_of, used_of};
