//! Sweeps over all lanes.
ghost use Rattle.std.specs.Prelude.{◌≡◌, ◌<◌, ◌≤◌, ◌+◌, ◌*◌, ◌++◌, [], ◌∷◌, List, length, true, false, Some, None, All, IfOk, IfSome, OnErr, OnOk, IsSome, MatchResult, slice_set, if◌then◌else◌};
ghost use Rattle.hash_rows.specs.declared.shape.Push.{Push};
ghost use Rattle.hash_rows.specs.Rules.{Rules};
ghost use Rattle.live_state.specs.Fold.{fits};
ghost use Rattle.aggregate.specs.Takens.{ArePassesOf, taken_at, takens};
ghost use Rattle.aggregate.specs.Sweeps.{HasSwept, HasSweptLane, HasTaken, HaveTaken, KeepsPair, in_order, kept_by};

use crate::taking::{OutPasses, take_at};
use flow_base::NoMemory;
use hash_rows::{Kind, Push};
use live_view::ViewWriter;
use push_lane::Lane;
use std::marker::Model;
use std::sync::Wait;

/// What a sweep did.
#[derive(Clone, Copy, Debug, PartialEq, Eq)]
pub struct Swept {
    /// The takes that gave a message.
    pub taken: u32,
}

/// Takes the workers' messages, and appends and publishes them. It is not `Drop`: end it by
/// `into_parts`.
pub struct Aggregator<K: Kind> {
    writer: ViewWriter<K>,
    outs: OutPasses,
    batch: u32,
    held: Option<Push>,
    // Whether something was appended since the last publish.
    fresh: bool,
}

impl<K: Kind> Model for Aggregator<K> {
    ghost use Rattle.std.specs.Prelude.{◌≡◌, ◌≤◌, [], length, true, false, IfSome};
    ghost use Rattle.live_state.specs.Fold.{fits};
    ghost use Rattle.aggregate.specs.Sweeps.{AggregatorView};

    ghost Value = { AggregatorView };

    ghost view = { λ a. record { writer = a.writer; outs = a.outs.items; batch = a.batch; held = a.held } };

    ghost invariant = { λ a. IfSome a.held (λ m. fits K.rules a.writer.layout m ≡ true) × (a.batch ≤ 1024)
        × (length a.outs.items ≤ 65536) × (a.fresh ≡ false → a.writer.pending ≡ []) };
}

impl<K: Kind> Aggregator<K> {
    /// At most `batch` messages are taken of a lane in a call.
    pub fn new(writer: ViewWriter<K>, outs: OutPasses, batch: u32) -> Aggregator<K>
        requires batch { batch ≤ 1024 }
        requires few { length outs.items ≤ 65536 }
        requires writer { (writer.published ≡ []) × (writer.pending ≡ []) }
        requires outs { All (λ o. o.taken ≡ []) outs.items }
        ensures writer { result.writer ≡ writer }
        ensures outs { result.outs ≡ outs.items }
        ensures batch { result.batch ≡ batch }
        ensures none { result.held ≡ None }
        ensures taken { HasTaken K.rules result }
    {
        Aggregator {
            writer,
            outs,
            batch,
            held: None,
            fresh: false,
        }
    }

    /// The writer, and the ends to take.
    pub fn into_parts(self) -> (ViewWriter<K>, OutPasses)
        ensures writer { result.0 ≡ self.writer }
        ensures outs { result.1.items ≡ self.outs }
    {
        let Aggregator {
            writer,
            outs,
            batch: _,
            held: _,
            fresh: _,
        } = self;
        (writer, outs)
    }

    /// How many messages were published.
    pub fn folded(&self) -> u64
        ensures { result ≡ length self.now.writer.published }
    {
        self.writer.folded()
    }

    /// The message that couldn't be appended.
    pub fn held(&self) -> Option<Push>
        ensures { result ≡ self.now.held }
    {
        self.held
    }

    // Appends the message, if it fits. One that can't be appended is held.
    fn keep(&mut self, message: Push) -> Result<(), NoMemory>
        requires none { self.old.held ≡ None }
        ensures same { KeepsPair self.old self.new }
        ensures outs { self.new.outs ≡ self.old.outs }
        ensures held { MatchResult result (λ _. self.new.held ≡ None) (λ _. self.new.held ≡ Some message) }
        ensures published { self.new.writer.published ≡ self.old.writer.published }
        ensures kept { kept_by self.new ≡ (if fits K.rules self.old.writer.layout message then kept_by self.old
            ++ message ∷ [] else kept_by self.old) }
    {
        if !fits_writer(&self.writer, &message) {
            return Ok(());
        }
        match self.writer.append(message) {
            Ok(()) => {
                self.fresh = true;
                Ok(())
            }
            Err(_) => {
                self.held = Some(message);
                Err(NoMemory)
            }
        }
    }

    // Appends the held message.
    fn keep_held(&mut self) -> Result<(), NoMemory>
        ensures same { KeepsPair self.old self.new }
        ensures outs { self.new.outs ≡ self.old.outs }
        ensures held { MatchResult result (λ _. self.new.held ≡ None) (λ _. IsSome self.new.held) }
        ensures published { self.new.writer.published ≡ self.old.writer.published }
        ensures kept { kept_by self.new ≡ kept_by self.old }
    {
        let Some(message) = self.held else {
            return Ok(());
        };
        match self.writer.append(message) {
            Ok(()) => {
                self.held = None;
                self.fresh = true;
                Ok(())
            }
            Err(_) => Err(NoMemory),
        }
    }

    // Publishes what was appended, if anything was.
    fn publish<R: Wait>(&mut self, rt: &R)
        ensures same { KeepsPair self.old self.new }
        ensures outs { self.new.outs ≡ self.old.outs }
        ensures held { self.new.held ≡ self.old.held }
        ensures pending { self.new.writer.pending ≡ [] }
        ensures kept { kept_by self.new ≡ kept_by self.old }
    {
        if self.fresh {
            self.writer.publish(rt);
            self.fresh = false;
        }
    }

    // Takes and keeps messages of one lane.
    fn sweep_lane<R: Wait>(&mut self, rt: &R, lanes: &[Lane], place: u32) -> Result<u32, NoMemory>
        requires ends { ArePassesOf lanes.now self.old.outs }
        requires place { place < length lanes.now }
        requires none { self.old.held ≡ None }
        ensures ends { ArePassesOf lanes.now self.new.outs }
        ensures same { KeepsPair self.old self.new }
        ensures count { IfOk result (λ n. n ≤ 1024) }
        ensures held { MatchResult result (λ _. self.new.held ≡ None) (λ _. IsSome self.new.held) }
        ensures published { self.new.writer.published ≡ self.old.writer.published }
        ensures swept { (more : List Push) × HasSweptLane K.rules place more self.old self.new × (length more ≤ self.old.batch)
            × IfOk result (λ n. n ≡ length more) }
        ensures taken { HasTaken K.rules self.old → HasTaken K.rules self.new }
    {
        let mut count = 0;
        while count < self.batch {
            let Some(message) = take_at(rt, &mut self.outs, lanes, place) else {
                return Ok(count);
            };
            count += 1;
            self.keep(message)?;
        }
        Ok(count)
    }

    /// Appends the held message, and then of each lane, in order, messages until `batch` were
    /// taken of it or it gave none. Publishes all of them at once. Where one can't be appended it
    /// is held, and nothing is published.
    pub fn sweep<R: Wait>(&mut self, rt: &R, lanes: &[Lane]) -> Result<Swept, NoMemory>
        requires ends { ArePassesOf lanes.now self.old.outs }
        ensures ends { ArePassesOf lanes.now self.new.outs }
        ensures same { KeepsPair self.old self.new }
        ensures held { MatchResult result (λ _. self.new.held ≡ None) (λ _. IsSome self.new.held) }
        ensures published { OnOk result (self.new.writer.pending ≡ []) }
        ensures unpublished { OnErr result (self.new.writer.published ≡ self.old.writer.published) }
        ensures swept { (mores : List (List Push)) × HasSwept K.rules mores self.old self.new
            × IfOk result (λ s. s.taken ≡ length (in_order mores)) }
        ensures taken { HasTaken K.rules self.old → HasTaken K.rules self.new }
    {
        self.keep_held()?;
        let mut taken = 0;
        for place in 0..self.outs.len() {
            taken += self.sweep_lane(rt, lanes, place)?;
        }
        self.publish(rt);
        Ok(Swept { taken })
    }

    /// Takes messages of each lane, in order, until `batch` were taken of it or it gave none, and
    /// drops them. Answers their number.
    pub fn discard<R: Wait>(&mut self, rt: &R, lanes: &[Lane]) -> u32
        requires ends { ArePassesOf lanes.now self.old.outs }
        requires held { IsSome self.old.held }
        ensures ends { ArePassesOf lanes.now self.new.outs }
        ensures writer { self.new.writer ≡ self.old.writer }
        ensures batch { self.new.batch ≡ self.old.batch }
        ensures held { self.new.held ≡ self.old.held }
        ensures took { (mores : List (List Push)) × HaveTaken self.old.batch mores self.old.outs self.new.outs
            × (result ≡ length (in_order mores)) }
    {
        drop_each(rt, &mut self.outs, lanes, self.batch)
    }
}

// Whether the message fits the writer.
fn fits_writer<K: Kind>(writer: &ViewWriter<K>, message: &Push) -> bool
    ensures { result ≡ fits K.rules writer.now.layout message.now }
{
    let shape = writer.shape();
    let cells = u64::from(shape.rows) * u64::from(shape.columns);
    message.worker < writer.workers()
        && u64::from(message.cell) < cells
        && K::is_value(message.amount)
}

// Takes messages of each lane, in order, and drops them.
fn drop_each<R: Wait>(rt: &R, outs: &mut OutPasses, lanes: &[Lane], batch: u32) -> u32
    requires ends { ArePassesOf lanes.now outs.old.items }
    requires batch { batch ≤ 1024 }
    requires few { length outs.old.items ≤ 65536 }
    ensures ends { ArePassesOf lanes.now outs.new.items }
    ensures took { (mores : List (List Push)) × HaveTaken batch mores outs.old.items outs.new.items × (result ≡ length (in_order mores)) }
{
    let mut taken = 0;
    for place in 0..outs.len() {
        taken += drop_lane(rt, outs, lanes, place, batch);
    }
    taken
}

// Takes messages of one lane and drops them.
fn drop_lane<R: Wait>(rt: &R, outs: &mut OutPasses, lanes: &[Lane], place: u32, batch: u32) -> u32
    requires ends { ArePassesOf lanes.now outs.old.items }
    requires place { place < length lanes.now }
    ensures ends { ArePassesOf lanes.now outs.new.items }
    ensures took { (more : List Push)
        × (takens outs.new.items ≡ slice_set (takens outs.old.items) place (taken_at (takens outs.old.items) place ++ more))
        × (length more ≤ batch) × (result ≡ length more) }
{
    for count in 0..batch {
        let Some(message) = take_at(rt, outs, lanes, place) else {
            return count;
        };
        let _dropped = message;
    }
    batch
}
