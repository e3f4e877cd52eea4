//! LogLog: registers of ranks, from which the number of different keys is estimated.
#![tactic(auto)]

mod kind;
mod registers;
mod table;

pub use kind::LogLog;
pub use registers::rank;
pub use table::distinct;
