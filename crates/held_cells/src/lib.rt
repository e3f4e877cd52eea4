//! What a private sketch holds of its cells: one byte a cell, and a side table for the values that
//! don't fit.
#![tactic(auto)]

mod cells;
mod places;
mod side;

pub use cells::HeldCells;
