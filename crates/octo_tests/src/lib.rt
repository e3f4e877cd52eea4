//! Worked runs of octo, from words and bytes to what stands on its outputs.
#![tactic(auto)]

mod headline;

pub use headline::whole_run;

#[cfg(test)]
mod audits;
#[cfg(test)]
mod bytes;
#[cfg(test)]
mod captures;
#[cfg(test)]
mod commands;
#[cfg(test)]
mod faults;
#[cfg(test)]
mod fronts;
#[cfg(test)]
mod gates;
#[cfg(test)]
mod hostile;
#[cfg(test)]
mod in_threads;
#[cfg(test)]
mod pcapng;
#[cfg(test)]
mod raised;
#[cfg(test)]
mod runs;
#[cfg(test)]
mod texts;
#[cfg(test)]
mod worked_epochs;
#[cfg(test)]
mod worked_journals;
#[cfg(test)]
mod worked_networks;
#[cfg(test)]
mod worked_reports;
#[cfg(test)]
mod workers;
