//! What a run says beside its table.
ghost use Rattle.std.specs.Prelude.{◌≡◌, ◌≤◌, [], length, map};

use hash_rows::{BitRows, Counts, Keys, Kind};
use heavy_keys::Heavy;
use listed::Listed;
use push_rule::Private;

/// For each worker which of its updates were refused.
pub fn fill_refused<K: Kind>(sketches: Listed<Private<K>>, rows: &mut BitRows)
    requires { (rows.old.items ≡ []) × (length sketches.items ≤ rows.old.room) }
    ensures bits { rows.new.items ≡ map (λ s. s.bits) sketches.items }
    ensures lengths { map (λ bits. length bits) rows.new.items ≡ map (λ s. s.room) sketches.items }
{
    let count = sketches.len();
    let mut rest = sketches.into_items().into_iter();
    for _ in 0..count {
        let Some(sketch) = rest.next() else {
            unreachable!()
        };
        rows.push(sketch.into_bits());
    }
}

/// Copies counts.
pub fn fill_counts(counts: &[u64], into: &mut Counts)
    requires { (into.old.items ≡ []) × (length counts.now ≤ into.old.room) }
    ensures { into.new.items ≡ counts.now }
{
    for count in counts {
        into.push(*count);
    }
}

/// The heavy keys in their order.
pub fn fill_heavy(heavy: &Heavy, into: &mut Keys)
    requires { (into.old.items ≡ []) × (length heavy.now.keys ≤ into.old.room) }
    ensures { into.new.items ≡ heavy.now.keys }
{
    for place in 0..heavy.len() {
        into.push(heavy.entry(place));
    }
}
