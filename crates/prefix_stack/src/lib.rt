//! IPv4 source networks of 8, 16, 24 and 32 bits, with one Count-Min for each length: which of them
//! reach a number.
#![tactic(auto)]

mod descent;
mod hit;
mod level;
mod packets;
mod run;

pub use descent::descend;
pub use hit::{AnswerRows, Found, Hit, Hits, Stack, Tables};
pub use packets::level_packets;
pub use run::run_levels;
