//! Worked runs below the program: lanes, sweeps, a published pair with readers in threads, the event
//! core, and runs in rounds.
#![tactic(auto)]

#[cfg(test)]
mod core_events;
#[cfg(test)]
mod lanes;
#[cfg(test)]
mod rounds;
#[cfg(test)]
mod sweeps;
#[cfg(test)]
mod views;
