//! Journals, each judged for some packets: those that are lawful, and for each test of a line of a run
//! in threads one that fails just there.
#![tactic(auto)]

#[cfg(test)]
mod journals;
#[cfg(test)]
mod judging;
#[cfg(test)]
mod texts;
