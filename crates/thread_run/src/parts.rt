//! What each part of a run in threads has to itself.
use aggregate::Aggregator;
use hash_rows::{Answers, Kind};
use live_view::View;
use push_lane::InPass;
use push_rule::Private;
use shares::Positions;
use std::sync::atomic::AtomicU64;

/// What a worker has to itself.
#[derive(Drop)]
pub struct WorkerPart<K: Kind> {
    /// The positions of its packets.
    pub share: Positions,
    pub sketch: Private<K>,
    pub pass: InPass,
}

/// The parts of all workers, and whether none of them started.
#[derive(Drop)]
pub struct Crew<K: Kind> {
    pub workers: Vec<WorkerPart<K>>,
    pub refused: bool,
}

/// What workers and aggregator tell each other, each mark once: 0 before, and then 1.
#[derive(Drop)]
pub struct Marks {
    /// That the aggregator has a thread, so that it takes what is pushed.
    pub begun: AtomicU64,
    /// That no worker pushes any more.
    pub ended: AtomicU64,
}

/// What a reader has to itself. Its answers are as many as it asks.
#[derive(Drop)]
pub struct ReaderPart<K: Kind> {
    pub view: View<K>,
    pub answers: Answers,
}

/// What the aggregator has to itself, and whether it wanted memory.
pub struct FoldPart<K: Kind> {
    pub aggregator: Aggregator<K>,
    pub failed: bool,
}

/// What goes beside the workers.
pub struct RestPart<K: Kind> {
    pub fold: FoldPart<K>,
    pub readers: Vec<ReaderPart<K>>,
}
