//! Known values of hashes, of the three sketches, of private sketches and of heavy keys.
#![tactic(auto)]

#[cfg(test)]
mod estimates;
#[cfg(test)]
mod hashes;
#[cfg(test)]
mod heavy_flows;
#[cfg(test)]
mod kinds;
#[cfg(test)]
mod live_table;
#[cfg(test)]
mod one_worker;
#[cfg(test)]
mod private_cells;
