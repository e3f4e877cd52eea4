//! Worked epochs, in rounds and in threads.
#![tactic(auto)]

#[cfg(test)]
mod epochs;
