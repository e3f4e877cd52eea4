//! Laws of a run in threads: what its parts leave is a lawful journal, each answer matches its
//! front and is near the true estimate, and the table with the residues is the sequential one.
#![tactic(auto)]

mod laws;

pub use laws::{
    answers_are_near, answers_match_their_fronts, lawful_messages_fit, ran_is_sequential,
    ran_is_whole, threads_journal_is_lawful,
};
