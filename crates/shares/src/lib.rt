//! Which worker counts which packet.
#![tactic(auto)]

mod owners;
mod positions;

pub use owners::{Owners, amounts_fit, owners_of, positions_of};
pub use positions::Positions;
