//! Laws of a run in rounds: what the workers' own rounds come to is the journal of the round
//! schedule, and the table with their residues is the sequential one.
#![tactic(auto)]

mod laws;

pub use laws::{
    answers_are_near, answers_match_their_fronts, outcome_is_journal, outcome_is_whole,
    settled_is_sequential,
};
