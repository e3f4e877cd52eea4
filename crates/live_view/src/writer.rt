//! The writer of a published pair.
ghost use Rattle.std.specs.Prelude.{◌≡◌, ◌+◌, ◌<◌, [], ◌∷◌, ◌++◌, length, drop, fold, true, Some, None, IfOk, IfSome, MatchResult, MatchBool};
ghost use Rattle.std.specs.Arc.{arc_value};
ghost use Rattle.left_right.specs.Sides.{view};
ghost use Rattle.live_state.specs.Fold.{fits, absorbed, fresh_state, layout_of, most, state_after, Fit, IsStateAfter};
ghost use Rattle.live_view.specs.Rule.{notes, pair_of, turned, messages, IsChain};

use crate::history::{Entry, HistoryWriter};
use crate::published::Published;
use crate::rule::{Law, Notes, Pairs, Publishes, Tells};
use crate::told::Told;
use crate::view::View;
use core::mem::replace_with;
use crossbeam_utils::rule::Protocol;
use flow_base::NoMemory;
use hash_rows::{Kind, Push, Shape};
use left_right::Absorb;
use left_right::reader::{Factory, Reader};
use left_right::writer::Writer;
use live_state::{Layout, State};
use std::marker::Model;
use std::sync::Wait;

/// It is not `Drop`: end it by `close`.
pub struct ViewWriter<K: Kind>
where
    Published<K>: Absorb<Entry, State = Published<K>>,
    Law: Protocol<Published<K>, Notes>,
{
    writer: Writer<Published<K>, Entry, Notes, Law>,
    layout: Layout,
    history_writer: HistoryWriter,
}

impl<K: Kind> Model for ViewWriter<K>
where
    Published<K>: Absorb<Entry, State = Published<K>>,
    Law: Protocol<Published<K>, Notes>,
{
    ghost use Rattle.std.specs.Prelude.{◌≡◌, drop};
    ghost use Rattle.left_right.specs.Sides as sides;
    ghost use Rattle.live_view.specs.Views.{WriterView};
    ghost use Rattle.live_state.specs.Fold.{layout_of};
    ghost use Rattle.live_view.specs.Rule.{messages};
    ghost use Rattle.live_view.specs.Writers.{IsWriter};

    ghost Value = { WriterView };

    ghost view = { λ w. record {
      book = w.writer.desk.shown.value.history.book;
      layout = layout_of w.writer.desk.shown.value.figures;
      published = (sides.view w.writer.desk.place).known;
      pending = messages (drop w.writer.behind w.writer.log.items);
    } };

    ghost invariant = { λ w. IsWriter K.rules w.writer.desk.shown.value (sides.view w.writer.desk.place)
        (drop w.writer.behind w.writer.log.items) w.history_writer × (w.layout ≡ layout_of w.writer.desk.shown.value.figures) };
}

fn reader_of<K: Kind, R: Wait>(
    rt: &R,
    factory: &Factory<Published<K>, Notes, Law>,
) -> Reader<Published<K>, Notes, Law>
    ensures table { result.place.table_id ≡ (arc_value factory.now.board).shared.table_id }
    ensures first { view result.place ≡ notes [] None }
{
    for _ in rt.forever() {
        if let Ok(reader) = factory.reader() {
            return reader;
        }
    }
    unreachable!()
}

// Publishes all that is pending.
fn publish_now<K: Kind, R: Wait>(
    writer: Writer<Published<K>, Entry, Notes, Law>,
    rt: &R,
) -> Writer<Published<K>, Entry, Notes, Law>
    requires fit { Fit K.rules (layout_of writer.desk.shown.value.figures) (messages (drop writer.behind writer.log.items)) }
    requires chain { IsChain writer.desk.shown.value.history (drop writer.behind writer.log.items) }
    ensures seat { view result.desk.place ≡ notes result.desk.shown.value.history.log (Some (pair_of result.desk.shown.value)) }
    ensures shown { result.desk.shown.value ≡ fold (turned K.rules) writer.desk.shown.value (drop writer.behind writer.log.items) }
    ensures pending { drop result.behind result.log.items ≡ [] }
{
    writer.publish_as::<Publishes, R>(rt).0
}

fn publish_in<K: Kind, R: Wait>(writer: &mut Writer<Published<K>, Entry, Notes, Law>, rt: &R)
    requires fit { Fit K.rules (layout_of writer.old.desk.shown.value.figures) (messages (drop writer.old.behind writer.old.log.items)) }
    requires chain { IsChain writer.old.desk.shown.value.history (drop writer.old.behind writer.old.log.items) }
    ensures seat { view writer.new.desk.place ≡ notes writer.new.desk.shown.value.history.log (Some (pair_of writer.new.desk.shown.value)) }
    ensures shown { writer.new.desk.shown.value ≡ fold (turned K.rules) writer.old.desk.shown.value
        (drop writer.old.behind writer.old.log.items) }
    ensures pending { drop writer.new.behind writer.new.log.items ≡ [] }
{
    replace_with(
        writer,
        rt,
        |writer: Writer<Published<K>, Entry, Notes, Law>, rt: &R|
            requires { Fit K.rules (layout_of writer.desk.shown.value.figures) (messages (drop writer.behind writer.log.items))
                × IsChain writer.desk.shown.value.history (drop writer.behind writer.log.items) }
            ensures { (view result.0.desk.place ≡ notes result.0.desk.shown.value.history.log (Some (pair_of result.0.desk.shown.value)))
                × (result.0.desk.shown.value ≡ fold (turned K.rules) writer.desk.shown.value (drop writer.behind writer.log.items))
                × (drop result.0.behind result.0.log.items ≡ []) }
        { (publish_now(writer, rt), ()) },
    )
}

impl<K: Kind> ViewWriter<K> {
    // A first publish, of nothing, tells the writer's seat the pair.
    pub(crate) fn over<R: Wait>(
        rt: &R,
        writer: Writer<Published<K>, Entry, Notes, Law>,
        layout: Layout,
        history_writer: HistoryWriter,
    ) -> ViewWriter<K>
        requires layout { layout ≡ layout_of writer.desk.shown.value.figures }
        requires none { drop writer.behind writer.log.items ≡ [] }
        requires zero { IsStateAfter K.rules writer.desk.shown.value.figures [] }
        requires history_writer { (history_writer.prefix ≡ writer.desk.shown.value.history) × (history_writer.prefix.log ≡ [])
            × (history_writer.count ≡ 0) × (history_writer.stuck ≡ None) }
        ensures book { result.book ≡ history_writer.prefix.book }
        ensures layout { result.layout ≡ layout }
        ensures empty { (result.published ≡ []) × (result.pending ≡ []) }
    {
        ViewWriter {
            writer: publish_now(writer, rt),
            layout,
            history_writer,
        }
    }

    /// The message comes next in what is pending. At `Err` nothing changes.
    pub fn append(&mut self, message: Push) -> Result<(), NoMemory>
        requires { fits K.rules self.old.layout message ≡ true }
        ensures same { (self.new.book ≡ self.old.book) × (self.new.layout ≡ self.old.layout) × (self.new.published ≡ self.old.published) }
        ensures pending { MatchResult result (λ _. self.new.pending ≡ self.old.pending ++ message ∷ [])
            (λ _. self.new.pending ≡ self.old.pending) }
    {
        if !self.history_writer.ready(message) {
            return Err(NoMemory);
        }
        let entry = Entry {
            message,
            prefix: self.history_writer.prefix.again(),
        };
        match self.writer.append(entry) {
            Ok(()) => (),
            Err(_) => return Err(NoMemory),
        }
        self.history_writer.stuck = None;
        Ok(())
    }

    // A view that knows nothing yet. It asks again for a place that the pair refuses.
    pub(crate) fn view<R: Wait>(&mut self, rt: &R) -> View<K>
        requires { self.old.published ≡ [] }
        ensures same { self.new ≡ self.old }
        ensures view { (result.book ≡ self.old.book) × (result.layout ≡ self.old.layout) × (result.known ≡ []) × (result.told ≡ []) }
    {
        let told = self.tell();
        let mut reader = reader_of(rt, self.writer.factory());
        reader.learn::<Pairs>(self.writer.tell::<Tells>());
        View::over(reader, self.layout, told)
    }

    pub fn shape(&self) -> Shape
        ensures { result ≡ self.now.layout.shape }
    {
        self.layout.shape
    }

    /// The number of workers.
    pub fn workers(&self) -> u32
        ensures { result ≡ self.now.layout.workers }
    {
        self.layout.workers
    }

    /// What is pending is published, in one step.
    pub fn publish<R: Wait>(&mut self, rt: &R)
        ensures pair { (self.new.book ≡ self.old.book) × (self.new.layout ≡ self.old.layout) }
        ensures published { self.new.published ≡ self.old.published ++ self.old.pending }
        ensures pending { self.new.pending ≡ [] }
    {
        publish_in(&mut self.writer, rt)
    }

    /// Knows what was published so far.
    pub fn tell(&mut self) -> Told
        ensures same { self.new ≡ self.old }
        ensures told { (result.book ≡ self.old.book) × (result.log ≡ self.old.published) }
    {
        Told::of(self.writer.published().prefix().again(), self.folded())
    }

    pub fn folded(&self) -> u64
        ensures length { result ≡ length self.now.published }
        ensures room { result < most }
    {
        self.writer.published().tally().folded()
    }

    /// Makes a state with no message the fold of the published list. It takes no memory.
    pub fn copy_state<R: Wait>(&mut self, _rt: &R, into: &mut State<K>)
        requires { into.old ≡ fresh_state self.old.layout }
        ensures same { self.new ≡ self.old }
        ensures fold { into.new ≡ state_after K.rules self.old.layout self.old.published }
        ensures fit { Fit K.rules self.old.layout self.old.published }
    {
        let published = self.writer.published();
        into.copy_parts(published.cells(), published.tally());
    }

    /// Waits for the readers that are inside.
    pub fn close<R: Wait>(self, rt: &R) {
        let ViewWriter {
            writer,
            layout: _,
            history_writer: _,
        } = self;
        writer.take(rt);
    }
}
