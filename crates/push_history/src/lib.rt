//! Updates of workers, their messages, events and answers: what is meant by lawful, and the laws.
#![tactic(auto)]

mod event;
mod laws;
mod run_lists;

pub use event::{Event, Reply};
pub use laws::{
    fold_is_shown, large_only_where_refused, nothing_is_lost, run_is_lawful,
    sequential_is_the_join_of_wholes, told_by_prefix, whole_is_front_flight_and_residue,
    whole_is_told_and_residue,
};
pub use run_lists::RunLists;
