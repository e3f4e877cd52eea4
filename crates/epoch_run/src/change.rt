use listed::Listed;
use packet_key::FlowKey;

/// A flow and its estimates in an epoch and in the next.
#[derive(Clone, Copy, Debug, PartialEq, Eq)]
pub struct Change {
    pub key: FlowKey,
    pub before: i64,
    pub after: i64,
}

pub type Changes = Listed<Change>;

/// How many flows changed, and the first of them.
#[derive(Drop)]
pub struct GreatestChanges {
    pub count: u64,
    pub changes: Changes,
}
