use count_min::CountMin;
use hash_rows::{Answers, Table};
use listed::Listed;
use prefixes::Prefix;

/// A network, and what the table of its length says of it.
#[derive(Clone, Copy, Debug, PartialEq, Eq)]
pub struct Hit {
    pub prefix: Prefix,
    pub estimate: i64,
}

pub type Hits = Listed<Hit>;

pub type Tables = Listed<Table<CountMin>>;

pub type AnswerRows = Listed<Answers>;

/// What is found of one length: the first hits, as many as there is room for, and whether there are
/// others.
#[derive(Drop)]
pub struct Reached {
    pub hits: Hits,
    pub more: bool,
}

/// The networks that reach a number.
#[derive(Drop)]
pub struct Found {
    /// By length upwards, then by address.
    pub hits: Hits,
    /// For each length whether there are others.
    pub more: [bool; 4],
}

/// What a run of each length comes to.
#[derive(Drop)]
pub struct Stack {
    /// The table of all packets, by length upwards.
    pub tables: Tables,
    /// What readers were answered, by length upwards.
    pub answers: AnswerRows,
    pub found: Found,
}
