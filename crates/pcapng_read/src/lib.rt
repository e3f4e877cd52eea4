//! Captures in the pcapng format (draft-ietf-opsawg-pcapng) with Ethernet frames, read in pieces.
//! Of a block no more is held than its first 28 bytes, the captured ones and the last four.
#![tactic(auto)]

mod bad;
mod block;
mod judge;
mod laws;
mod parts;
mod reader;

pub use bad::NgBad;
pub use block::{Body, Judged, Plan, Walk};
pub use laws::{capture_fine, one_outcome, one_reading, one_refusal, refusal_stays, standing};
pub use reader::{NgFrame, NgFront, NgReader, NgTaken};
