use crate::{Keys, Shape};

/// Which sketch is kept.
#[derive(Clone, Copy, Debug, PartialEq, Eq)]
pub enum Sketch {
    CountMin,
    CountSketch,
    LogLog,
}

/// What a packet adds: 1, or the record's original length in bytes.
#[derive(Clone, Copy, Debug, PartialEq, Eq)]
pub enum Amount {
    Packets,
    Bytes,
}

/// How packets are shared out among the workers.
#[derive(Clone, Copy, Debug, PartialEq, Eq)]
pub enum Share {
    Turn,
    Key,
}

/// Whether workers count in rounds or in threads beside the aggregator.
#[derive(Clone, Copy, Debug, PartialEq, Eq)]
pub enum Mode {
    Rounds,
    Threads,
}

/// What becomes of a push that meets a full lane.
#[derive(Clone, Copy, Debug, PartialEq, Eq)]
pub enum Full {
    Leave,
    Wait,
}

/// The options of a run.
#[derive(Drop)]
pub struct Options {
    pub sketch: Sketch,
    pub shape: Shape,
    pub amount: Amount,
    pub share: Share,
    /// 1 to 16.
    pub workers: u32,
    /// 1 to 2^40.
    pub threshold: u64,
    /// The messages that a lane holds, 1 to 4,096.
    pub lane: u32,
    /// The messages that are folded of a lane at a time, 1 to 1,024.
    pub batch: u32,
    /// The packets that a worker counts in a round, 1 to 65,536.
    pub round: u32,
    pub full: Full,
    pub mode: Mode,
    /// 0 to 4.
    pub readers: u32,
    /// The asks of each reader, 0 to 1,024.
    pub asks: u32,
    /// At most 16 keys, which differ.
    pub watch: Keys,
    /// The entries of the live heavy table and the flow lines of the report, 1 to 1,024.
    pub heavy: u32,
    /// The least estimate of a heavy flow, 1 to 2^40.
    pub least: i64,
    pub journal: bool,
}
