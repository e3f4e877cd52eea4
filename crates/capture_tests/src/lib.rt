//! Worked sources and sinks, frames and keys, captures.
#![tactic(auto)]

#[cfg(test)]
mod adapters;
#[cfg(test)]
mod blocks;
#[cfg(test)]
mod captures;
#[cfg(test)]
mod flows;
#[cfg(test)]
mod keys;
