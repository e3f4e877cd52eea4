//! Lines that have, and that have not, the form of a journal's, each given to its reader, and whole
//! journals.
#![tactic(auto)]

#[cfg(test)]
mod journals;
#[cfg(test)]
mod tests;
