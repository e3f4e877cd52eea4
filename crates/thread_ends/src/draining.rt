//! What is left in the lanes goes to the writer.
ghost use Rattle.std.specs.Prelude.{◌≡◌, ◌≢◌, ◌<◌, ℕ, length, MatchOption, OnErr, OnOk};
ghost use Rattle.aggregate.specs.Takens.{AreNamed, taken_at};
ghost use Rattle.thread_ends.specs.Ends.{AreOf, HasAll, HaveOrder, KeepLists, KeepsPublished, LacksLast, both_sents, both_takens, with_message};

use flow_base::NoMemory;
use hash_rows::{Kind, Push};
use listed::Listed;
use live_view::ViewWriter;
use push_lane::{BothPass, Lane};
use std::sync::Wait;

// Takes the next message that was sent through the lane at the place and not taken.
fn drain_at<R: Wait>(
    rt: &R,
    lanes: &[Lane],
    place: u32,
    passes: &mut Listed<BothPass>,
) -> Option<Push>
    requires ids { AreOf lanes.now passes.old.items }
    requires place { place < length passes.old.items }
    requires order { HaveOrder passes.old.items }
    ensures kept { KeepLists passes.old.items passes.new.items }
    ensures order { HaveOrder passes.new.items }
    ensures taken { MatchOption result
        ((both_takens passes.new.items ≡ both_takens passes.old.items)
        × (taken_at (both_takens passes.old.items) place ≡ taken_at (both_sents passes.old.items) place))
        (λ message. both_takens passes.new.items ≡ with_message (both_takens passes.old.items) place message) }
{
    lanes[place as usize].drain(rt, passes.get_mut(place))
}

// Takes what is left in the lane at the place, and appends it.
fn drain_lane<K: Kind, R: Wait>(
    rt: &R,
    lanes: &[Lane],
    place: u32,
    passes: &mut Listed<BothPass>,
    writer: &mut ViewWriter<K>,
) -> Result<(), NoMemory>
    requires ids { AreOf lanes.now passes.old.items }
    requires place { place < length passes.old.items }
    requires order { HaveOrder passes.old.items }
    requires named { AreNamed K.rules writer.old.layout (both_sents passes.old.items) }
    ensures same { KeepsPublished writer.old writer.new }
    ensures kept { KeepLists passes.old.items passes.new.items }
    ensures order { HaveOrder passes.new.items }
    ensures taken { OnOk result (HasAll K.rules passes.old.items writer.old → HasAll K.rules passes.new.items writer.new) }
    ensures lost { OnErr result (HasAll K.rules passes.old.items writer.old → LacksLast K.rules passes.new.items writer.new) }
    ensures drained { OnOk result (taken_at (both_takens passes.new.items) place ≡ taken_at (both_sents passes.new.items) place) }
    ensures others { (k : ℕ) → k ≢ place → taken_at (both_takens passes.new.items) k ≡ taken_at (both_takens passes.old.items) k }
{
    for _ in rt.forever() {
        let Some(message) = drain_at(rt, lanes, place, passes) else {
            return Ok(());
        };
        writer.append(message)?;
    }
    unreachable!()
}

/// Takes what is left in each lane, and appends it. Where memory is wanting the message that was
/// taken last is lost.
pub fn drain_all<K: Kind, R: Wait>(
    rt: &R,
    lanes: &[Lane],
    passes: &mut Listed<BothPass>,
    writer: &mut ViewWriter<K>,
) -> Result<(), NoMemory>
    requires ids { AreOf lanes.now passes.old.items }
    requires order { HaveOrder passes.old.items }
    requires named { AreNamed K.rules writer.old.layout (both_sents passes.old.items) }
    ensures same { KeepsPublished writer.old writer.new }
    ensures kept { KeepLists passes.old.items passes.new.items }
    ensures order { HaveOrder passes.new.items }
    ensures taken { OnOk result (HasAll K.rules passes.old.items writer.old → HasAll K.rules passes.new.items writer.new) }
    ensures lost { OnErr result (HasAll K.rules passes.old.items writer.old → LacksLast K.rules passes.new.items writer.new) }
    ensures drained { OnOk result (both_takens passes.new.items ≡ both_sents passes.new.items) }
{
    for place in 0..passes.len() {
        drain_lane(rt, lanes, place, passes, writer)?;
    }
    Ok(())
}
