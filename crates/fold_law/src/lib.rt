//! Laws over a fold of all workers' messages: what it holds of heavy keys is what a lawful journal may
//! say of it, and its fronts only grow.
#![tactic(auto)]

mod laws;

pub use laws::fold_is_lawful;
