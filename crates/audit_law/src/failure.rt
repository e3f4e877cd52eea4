ghost use Rattle.std.specs.Prelude.{◌≡◌};
ghost use Rattle.audit_law.specs.Firsts.{first_of};

use packet_key::FlowKey;

/// What stands, or would stand, in a place of a journal.
#[derive(Clone, Copy, Debug, PartialEq, Eq)]
pub enum Value {
    Number(u64),
    Signed(i64),
    Key(FlowKey),
    /// There is nothing that would be lawful.
    Absent,
}

/// The line that fails, counted from 1, what it keeps, and what would be lawful.
#[derive(Clone, Copy, Debug, PartialEq, Eq)]
pub struct Failure {
    pub line: u32,
    pub kept: Value,
    pub lawful: Value,
}

/// The first of two failures that may be there.
pub fn first_of(failure: Option<Failure>, other: Option<Failure>) -> Option<Failure>
    ensures { result ≡ first_of failure other }
{
    match failure {
        Some(failure) => Some(failure),
        None => other,
    }
}
