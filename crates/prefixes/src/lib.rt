//! IPv4 networks of 8, 16, 24 and 32 bits: their texts, their keys, and which network an address is in.
//! No call takes memory.
#![tactic(auto)]

mod laws;
mod network;
mod parse;
mod text;

pub use laws::{one_text, text_letters};
pub use network::{Prefix, Prefixes, addresses_in, network_of, prefix_key};
pub use parse::parse_prefix;
pub use text::prefix_text;
