//! What a run does at its end.
ghost use Rattle.std.specs.Prelude.{◌≡◌, []};
ghost use Rattle.live_state.specs.Copies.{HasRoomFor, IsCopyOf, KeepsRest};
ghost use Rattle.live_state.specs.Fold.{state_after};
ghost use mathlib.Core.List.{IsPrefix};

use crate::view::View;
use crate::writer::ViewWriter;
use hash_rows::{Answer, Kind};
use packet_key::FlowKey;
use std::sync::Wait;

/// The view learns what was published, and asks until it knows all of it.
pub fn settle<K: Kind, R: Wait>(
    rt: &R,
    writer: &mut ViewWriter<K>,
    view: &mut View<K>,
    keys: &[FlowKey],
    into: &mut Answer,
)
    requires pair { (view.old.book ≡ writer.old.book) × (view.old.layout ≡ writer.old.layout) }
    requires room { HasRoomFor view.old.layout.workers keys.now into.old }
    ensures writer { writer.new ≡ writer.old }
    ensures pair { (view.new.book ≡ view.old.book) × (view.new.layout ≡ view.old.layout) }
    ensures room { HasRoomFor view.old.layout.workers keys.now into.new }
    ensures rest { KeepsRest into.old into.new }
    ensures whole { (view.new.known ≡ writer.old.published) × (view.new.told ≡ []) }
    ensures before { IsPrefix view.old.known writer.old.published }
    ensures one { IsCopyOf K.rules (state_after K.rules writer.old.layout writer.old.published) keys.now into.new }
{
    view.learn(writer.tell());
    let all = writer.folded();
    view.ask(rt, keys, into);
    for _ in rt.forever() {
        if into.folded == all {
            return;
        }
        view.ask(rt, keys, into);
    }
    unreachable!()
}
