use crate::Changes;
use count_sketch::CountSketch;
use hash_rows::{Counts, Flows, Table};
use listed::Listed;

/// What an epoch comes to.
#[derive(Drop)]
pub struct Epoch {
    pub packets: u32,
    /// The sum of their amounts.
    pub total: u64,
    /// For each row of the epoch's table how many of its cells aren't 0.
    pub used: Counts,
    /// The number of all heavy flows.
    pub heavy: u64,
    /// The first of them.
    pub flows: Flows,
    /// The number of all flows whose estimate changed since the epoch before.
    pub changed: u64,
    /// The first of them.
    pub changes: Changes,
}

pub type EpochRows = Listed<Epoch>;

/// What all epochs come to.
#[derive(Drop)]
pub struct Epochs {
    pub epochs: EpochRows,
    /// The table of all packets.
    pub whole: Table<CountSketch>,
}
