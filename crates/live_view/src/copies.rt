//! Copies of what readers take.
ghost use Rattle.std.specs.Prelude.{◌≡◌, length};
ghost use Rattle.live_state.specs.Copies.{HasRoomFor, IsCopyOf, KeepsRest, estimates_in};

use crate::published::Published;
use hash_rows::{Answer, Cells, Kind};
use live_state::copy_counts_into;
use packet_key::FlowKey;

/// Copies front, last updates and count, and the estimate of each key.
pub fn copy<K: Kind>(published: &Published<K>, keys: &[FlowKey], into: &mut Answer)
    requires room { HasRoomFor (length published.now.figures.front) keys.now into.old }
    ensures room { HasRoomFor (length published.now.figures.front) keys.now into.new }
    ensures rest { KeepsRest into.old into.new }
    ensures copy { IsCopyOf K.rules published.now.figures keys.now into.new }
{
    let tally = published.tally();
    into.folded = tally.folded();
    copy_counts_into(tally.front(), &mut into.front);
    copy_counts_into(tally.upto(), &mut into.upto);
    estimate_all(published, keys, &mut into.shown);
}

fn estimate_all<K: Kind>(published: &Published<K>, keys: &[FlowKey], into: &mut Cells)
    requires { length into.old.items ≡ length keys.now }
    ensures items { into.new.items ≡ estimates_in K.rules published.now.figures keys.now }
    ensures room { into.new.room ≡ into.old.room }
{
    for place in 0..into.len() {
        let estimate = published.estimate(&keys[place as usize]);
        into.set(place, estimate);
    }
}
