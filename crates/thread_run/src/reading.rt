//! What a reader does.
ghost use Rattle.std.specs.Prelude.{◌≡◌, ◌≢◌, ◌<◌, ℕ, All, length, slice_index_or};
ghost use Rattle.hash_rows.specs.declared.answer.Answer.{Answer};
ghost use Rattle.live_state.specs.Copies.{HasRoomFor, IsCopyOf, KeepsRest};
ghost use Rattle.live_state.specs.Fold.{Fit, state_after};
ghost use mathlib.Core.List.{IsPrefix};
ghost use Rattle.thread_run.specs.Readers.{HasAsked};

use crate::parts::ReaderPart;
use hash_rows::{Answers, Kind};
use live_view::View;
use packet_key::FlowKey;
use std::sync::Wait;
use thread_work::Gate;

// Makes the ask of this number.
fn ask_once<K: Kind, R: Wait>(
    rt: &R,
    view: &mut View<K>,
    keys: &[FlowKey],
    answers: &mut Answers,
    number: u32,
)
    requires number { number < length answers.old.items }
    requires room { All (HasRoomFor view.old.layout.workers keys.now) answers.old.items }
    ensures room { All (HasRoomFor view.new.layout.workers keys.now) answers.new.items }
    ensures pair { (view.new.book ≡ view.old.book) × (view.new.layout ≡ view.old.layout) }
    ensures known { IsPrefix view.old.known view.new.known }
    ensures fit { Fit K.rules view.new.layout view.new.known }
    ensures len { length answers.new.items ≡ length answers.old.items }
    ensures others { (k : ℕ) (d : Answer) → k ≢ number → slice_index_or answers.new.items k d ≡ slice_index_or answers.old.items k d }
    ensures rest { (d : Answer) → KeepsRest (slice_index_or answers.old.items number d) (slice_index_or answers.new.items number d) }
    ensures one { (d : Answer)
        → IsCopyOf K.rules (state_after K.rules view.new.layout view.new.known) keys.now (slice_index_or answers.new.items number d) }
{
    view.ask(rt, keys, answers.get_mut(number));
}

/// Asks as often as there are answers.
pub fn read<K: Kind, R: Wait, G: Gate>(
    rt: &R,
    reader: u32,
    keys: &[FlowKey],
    gate: &G,
    part: &mut ReaderPart<K>,
)
    requires room { All (HasRoomFor part.old.view.layout.workers keys.now) part.old.answers.items }
    ensures asked { HasAsked K.rules keys.now part.old part.new }
{
    for number in 0..part.answers.len() {
        ask_once(rt, &mut part.view, keys, &mut part.answers, number);
        let folded = part.answers.get(number).folded;
        gate.seen(reader, number, folded);
    }
}
