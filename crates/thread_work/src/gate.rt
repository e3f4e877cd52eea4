//! Where a test may hold up a part of a run.

/// Is told of steps of the parts of a run. A call of it changes nothing, and may wait.
pub trait Gate: Sync {
    /// Before the worker counts the packet at the place of its share.
    fn pass(&self, worker: u32, place: u32);

    /// After a publish.
    fn swept(&self, folded: u64);

    /// After an ask.
    fn seen(&self, reader: u32, number: u32, folded: u64);
}

/// Never waits.
#[derive(Drop)]
pub struct OpenGate;

impl Gate for OpenGate {
    fn pass(&self, _worker: u32, _place: u32) {}

    fn swept(&self, _folded: u64) {}

    fn seen(&self, _reader: u32, _number: u32, _folded: u64) {}
}
