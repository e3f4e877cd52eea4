//! The ends to take, by the place of their lanes.
ghost use Rattle.std.specs.Prelude.{◌≡◌, ◌<◌, ◌++◌, [], ◌∷◌, length, map, slice_index_or, slice_set, MatchOption};
ghost use Rattle.aggregate.specs.Takens.{ArePassesOf, takens};

use hash_rows::Push;
use listed::Listed;
use push_lane::{Lane, OutPass};
use std::sync::Wait;

/// The ends to take, by the place of their lanes.
pub type OutPasses = Listed<OutPass>;

/// Takes the oldest message of the lane at the place.
pub fn take_at<R: Wait>(rt: &R, outs: &mut OutPasses, lanes: &[Lane], place: u32) -> Option<Push>
    requires ends { ArePassesOf lanes.now outs.old.items }
    requires place { place < length lanes.now }
    ensures ends { ArePassesOf lanes.now outs.new.items }
    ensures taken { MatchOption result
        (takens outs.new.items ≡ takens outs.old.items)
        (λ message. takens outs.new.items ≡ slice_set (takens outs.old.items) place
        (slice_index_or (takens outs.old.items) place [] ++ message ∷ [])) }
{
    lanes[place as usize].take(rt, outs.get_mut(place))
}
