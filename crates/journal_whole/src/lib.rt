//! How a whole journal is read: line by line, each judged by what the lines before it said.
#![tactic(auto)]

mod answers;
mod begin;
mod heading;
mod keys;
mod laws;
mod lists;
mod reading;
mod single;
mod whole;
mod workers;

pub use laws::{broken_off, no_bad_line, one_bad_line, one_journal};
pub use whole::{JournalStop, read_journal};
