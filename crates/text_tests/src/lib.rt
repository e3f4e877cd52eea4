//! Worked words, and reports built from tables.
#![tactic(auto)]

#[cfg(test)]
mod of_reports;
#[cfg(test)]
mod of_words;
