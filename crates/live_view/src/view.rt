//! The readers of a published pair.
ghost use Rattle.std.specs.Prelude.{◌≡◌, ◌≤◌, ◌⊎◌, [], length, Some, MatchBool};
ghost use Rattle.left_right.specs.Sides.{view};
ghost use Rattle.live_state.specs.Copies.{HasRoomFor, IsCopyOf, KeepsRest};
ghost use Rattle.live_state.specs.Fold.{Fit, IsStateAfter, state_after};
ghost use Rattle.live_view.specs.Rule.{notes, paired, pair_of};
ghost use mathlib.Core.List.{IsPrefix};

use crate::copies::copy;
use crate::published::Published;
use crate::rule::{Enters, Law, Notes};
use crate::told::Told;
use crossbeam_utils::rule::Protocol;
use hash_rows::{Answer, Kind};
use left_right::reader::Reader;
use live_state::Layout;
use packet_key::FlowKey;
use std::marker::Model;
use std::sync::Wait;

/// What a reader sees.
#[derive(Drop)]
pub struct View<K: Kind>
where
    Law: Protocol<Published<K>, Notes>,
{
    // An ask has it while it runs.
    reader: Option<Reader<Published<K>, Notes, Law>>,
    layout: Layout,
    // The longest list that was told since the last ask.
    told: Told,
    // The empty list.
    start: Told,
}

impl<K: Kind> Model for View<K>
where
    Law: Protocol<Published<K>, Notes>,
{
    ghost use Rattle.std.specs.Prelude.{◌≡◌, [], Some, IsSome, IfSome, option_map, unwrap_or};
    ghost use Rattle.left_right.specs.Sides as sides;
    ghost use Rattle.live_view.specs.Views.{ReaderView};
    ghost use Rattle.live_view.specs.Rule.{paired, no_notes};

    ghost Value = { ReaderView };

    ghost view = { λ v. record {
      book = v.told.book;
      layout = v.layout;
      known = (unwrap_or (option_map (λ r. sides.view r.place) v.reader) no_notes).known;
      told = v.told.log;
    } };

    ghost invariant = { λ v. IsSome v.reader × IfSome v.reader (λ r. (sides.view r.place).pair ≡ Some (paired v.told.book v.layout))
        × (v.start.book ≡ v.told.book) × (v.start.log ≡ []) };
}

// Whether the told list begins that of the published state, which is copied then.
fn taken<K: Kind>(
    published: &Published<K>,
    layout: Layout,
    told: &Told,
    keys: &[FlowKey],
    into: &mut Answer,
) -> bool
    requires pair { paired told.now.book layout ≡ pair_of published.now }
    requires sums { IsStateAfter K.rules published.now.figures published.now.history.log }
    requires room { HasRoomFor layout.workers keys.now into.old }
    ensures room { HasRoomFor layout.workers keys.now into.new }
    ensures rest { KeepsRest into.old into.new }
    ensures taken { MatchBool result
        (IsPrefix told.now.log published.now.history.log × Fit K.rules layout published.now.history.log
        × IsCopyOf K.rules (state_after K.rules layout published.now.history.log) keys.now into.new)
        (into.new ≡ into.old) }
{
    if published.tally().folded() < told.folded() {
        return false;
    }
    told.prefix().begins(published.prefix());
    copy(published, keys, into);
    true
}

// Enters until the pair lends a state that has all that was told, and copies from it.
fn asked<K: Kind, R: Wait>(
    reader: Reader<Published<K>, Notes, Law>,
    layout: Layout,
    told: &Told,
    rt: &R,
    keys: &[FlowKey],
    into: &mut Answer,
) -> Reader<Published<K>, Notes, Law>
    requires pair { (view reader.place).pair ≡ Some (paired told.now.book layout) }
    requires room { HasRoomFor layout.workers keys.now into.old }
    ensures room { HasRoomFor layout.workers keys.now into.new }
    ensures rest { KeepsRest into.old into.new }
    ensures pair { (view result.place).pair ≡ (view reader.place).pair }
    ensures known { IsPrefix (view reader.place).known (view result.place).known }
    ensures told { IsPrefix told.now.log (view result.place).known }
    ensures fit { Fit K.rules layout (view result.place).known }
    ensures one { IsCopyOf K.rules (state_after K.rules layout (view result.place).known) keys.now into.new }
{
    let mut reader = reader;
    for _ in rt.forever() {
        match reader.enter_as::<Enters>() {
            Ok(reading) => {
                let done = taken(reading.get(), layout, told, keys, into);
                reader = reading.leave();
                if done {
                    return reader;
                }
            }
            Err(back) => reader = back,
        }
    }
    unreachable!()
}

impl<K: Kind> View<K> {
    pub(crate) fn over(
        reader: Reader<Published<K>, Notes, Law>,
        layout: Layout,
        told: Told,
    ) -> View<K>
        requires { ((view reader.place).pair ≡ Some (paired told.book layout)) × (told.log ≡ []) }
        ensures pair { (result.book ≡ told.book) × (result.layout ≡ layout) }
        ensures lists { (result.known ≡ (view reader.place).known) × (result.told ≡ told.log) }
    {
        View {
            reader: Some(reader),
            layout,
            start: told.again(),
            told,
        }
    }

    /// What the writer told is told from then on.
    pub fn learn(&mut self, told: Told)
        requires { told.book ≡ self.old.book }
        ensures pair { (self.new.book ≡ self.old.book) × (self.new.layout ≡ self.old.layout) }
        ensures known { self.new.known ≡ self.old.known }
        ensures told { IsPrefix told.log self.new.told }
        ensures before { IsPrefix self.old.told self.new.told }
        ensures one { (self.new.told ≡ self.old.told) ⊎ (self.new.told ≡ told.log) }
    {
        self.told = self.told.longer(told);
    }

    /// Copies front, last updates and count, and the estimate of each key, from one state. It is
    /// the fold of a published list, which all that was known or told begins. That list is known
    /// from then on.
    pub fn ask<R: Wait>(&mut self, rt: &R, keys: &[FlowKey], into: &mut Answer)
        requires room { HasRoomFor self.old.layout.workers keys.now into.old }
        ensures room { HasRoomFor self.old.layout.workers keys.now into.new }
        ensures rest { KeepsRest into.old into.new }
        ensures pair { (self.new.book ≡ self.old.book) × (self.new.layout ≡ self.old.layout) }
        ensures none { self.new.told ≡ [] }
        ensures known { IsPrefix self.old.known self.new.known }
        ensures told { IsPrefix self.old.told self.new.known }
        ensures fit { Fit K.rules self.new.layout self.new.known }
        ensures one { IsCopyOf K.rules (state_after K.rules self.new.layout self.new.known) keys.now into.new }
    {
        let reader = self.reader.take().unwrap();
        self.reader = Some(asked(reader, self.layout, &self.told, rt, keys, into));
        self.told = self.start.again();
    }
}
