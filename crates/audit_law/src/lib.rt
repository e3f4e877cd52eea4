//! The tests that the lines of a journal of a run in threads are put to, in the order of its lines, and the law that
//! none of them fails exactly where the journal is lawful.
#![tactic(auto)]

mod failure;
mod laws;

pub use failure::{Failure, Value, first_of};
pub use laws::none_fails_where_lawful;
