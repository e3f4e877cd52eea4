ghost use Rattle.std.specs.Prelude.{◌≡◌, pos};
ghost use Rattle.hash_rows.specs.Sketches.{distinct_of};

use crate::LogLog;
use hash_rows::Table;
use packet_key::FlowKey;

// Estimates don't depend on the key.
const ANY_KEY: FlowKey = FlowKey::V4 {
    src: 0,
    dst: 0,
    sport: 0,
    dport: 0,
    proto: 0,
};

/// The estimate of how many different keys the table has counted.
#[tactic(auto, unfolding(hash_rows::specs::Sketches::loglog_estimate))]
pub fn distinct(table: &Table<LogLog>) -> i64
    ensures { result ≡ pos (distinct_of table.now.shape.columns table.now.cells) }
{
    table.estimate(&ANY_KEY)
}
