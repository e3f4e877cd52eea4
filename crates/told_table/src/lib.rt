//! A table of what messages tell, one after another.
#![tactic(auto)]

mod told;

pub use told::{table_of, tell, tell_all};
