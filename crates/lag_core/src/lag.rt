ghost use Rattle.std.specs.Prelude.{◌≡◌, ◌<◌, ◌≤◌, ◌^◌, ◌++◌, ◌∷◌, ℕ, [], All, IfOk, List, OnOk, Some, length, map, replicate, slice_get};
ghost use Rattle.hash_rows.specs.Shapes.{IsShape, size_of};
ghost use Rattle.push_history.specs.Updates.{HoldValues};
ghost use Rattle.push_history.specs.declared.event.Event.{Event};
ghost use Rattle.lag_core.specs.Workers.{IsFreshWorker, terms_within};

use crate::shown::{ShownState, nothing_shown, show};
use crate::worker::{UpdateRows, take_oldest, take_up};
use flow_base::NoMemory;
use hash_rows::{Counts, Full, Kind, Shape};
use listed::Listed;
use live_state::{State, copy_counts_into};
use push_history::{Event, Reply};
use push_rule::{Counter, Private};
use std::alloc::Global;
use std::marker::Model;

/// A run of workers, lanes and readers, one event at a time. It keeps residues, bounded queues
/// and two tables, and no list of messages.
#[derive(Drop)]
pub struct Lag<K: Kind> {
    pub(crate) threshold: u64,
    pub(crate) capacity: u32,
    pub(crate) full: Full,
    pub(crate) updates: UpdateRows,
    pub(crate) workers: Vec<Counter<K>>,
    pub(crate) fold: State<K>,
    pub(crate) shown: ShownState<K>,
    pub(crate) seen: Vec<Counts>,
}

impl<K: Kind> Model for Lag<K> {
    ghost use Rattle.std.specs.Prelude.{map};
    ghost use Rattle.push_history.specs.LagRun.{State as RunState};
    ghost use Rattle.lag_core.specs.Lags.{Core, IsCoreAt};

    ghost Value = { Core K K.Held };

    ghost view = { λ l. record {
      shape = l.fold.table.shape;
      limits = record { threshold = l.threshold; capacity = l.capacity; full = l.full; updates = map (λ row. row.items) l.updates.items };
      workers = l.workers.items;
      fold = l.fold;
      shown = l.shown;
      seen = l.seen.items;
    } };

    ghost invariant = { λ l. (s : RunState) × IsCoreAt K.stands K.rules (view l) s };
}

impl<K: Kind> Lag<K> {
    ghost use Rattle.push_history.specs.declared.event.Event.TheVariants.{Update, Take, Publish, Ask};
    ghost use Rattle.push_history.specs.LagRun.{reply_to};
    ghost use Rattle.lag_core.specs.Lags.{IsCoreAfter, NamesOneThere, Steps, run_state, workers_of};
    ghost use Rattle.lag_core.specs.Laws.{Conserves, IsLawfulCore};

    /// A run in which nothing has happened: a worker for each list of updates, lanes of so many
    /// messages, a live table of `heavy` keys whose estimate is at least `least`, and so many readers.
    pub fn new(
        alloc: Global,
        shape: Shape,
        threshold: u64,
        capacity: u32,
        full: Full,
        heavy: u32,
        least: i64,
        updates: UpdateRows,
        readers: u32,
    ) -> Result<Lag<K>, NoMemory>
        requires shape { IsShape shape }
        requires threshold { 0 < threshold }
        requires heavy { (1 ≤ heavy) × (heavy ≤ 1024) }
        requires cells { All (λ row. All (λ u. u.cell < size_of shape) row.items) updates.items }
        requires values { All (λ row. HoldValues K.rules row.items) updates.items }
        ensures fresh { IfOk result (λ lag. IsCoreAfter K.stands K.rules lag []) }
        ensures shape { IfOk result (λ lag. lag.shape ≡ shape) }
        ensures limits { IfOk result (λ lag. lag.limits ≡ record {
          threshold = threshold;
          capacity = capacity;
          full = full;
          updates = map (λ row. row.items) updates.items;
        }) }
        ensures readers { IfOk result (λ lag. length lag.seen ≡ readers) }
        ensures heavy { IfOk result (λ lag. (lag.fold.heavy.limit ≡ heavy) × (lag.fold.heavy.least ≡ least)) }
        ensures lawful { IfOk result (λ lag. (events : List Event) → IsCoreAfter K.stands K.rules lag events →
            IsLawfulCore K.rules lag (run_state K.rules lag events)) }
        ensures conserves { IfOk result (λ lag. (events : List Event) → IsCoreAfter K.stands K.rules lag events →
            Conserves K.rules lag (run_state K.rules lag events)) }
    {
        let count = updates.len();
        let workers = new_workers::<K>(alloc, &shape, threshold, capacity, full, &updates)?;
        let fold = State::new(alloc, shape, count, heavy, least)?;
        let shown = nothing_shown(alloc, shape, count)?;
        let seen = new_fronts(alloc, count, readers)?;
        Ok(Lag {
            threshold,
            capacity,
            full,
            updates,
            workers,
            fold,
            shown,
            seen,
        })
    }

    /// Runs an event.
    pub fn step(&mut self, event: Event) -> Reply
        requires { NamesOneThere (workers_of self.old) (length self.old.seen) event }
        ensures limits { self.new.limits ≡ self.old.limits }
        ensures readers { length self.new.seen ≡ length self.old.seen }
        ensures shape { self.new.shape ≡ self.old.shape }
        ensures heavy { (self.new.fold.heavy.limit ≡ self.old.fold.heavy.limit) × (self.new.fold.heavy.least ≡ self.old.fold.heavy.least) }
        ensures stands { (events : List Event) → IsCoreAfter K.stands K.rules self.old events →
            IsCoreAfter K.stands K.rules self.new (events ++ event ∷ []) ×
            (result ≡ reply_to (terms_within K.rules self.old.limits) (length self.old.seen) events event) }
        ensures lawful { (events : List Event) → IsCoreAfter K.stands K.rules self.new events →
            IsLawfulCore K.rules self.new (run_state K.rules self.new events) }
        ensures conserves { (events : List Event) → IsCoreAfter K.stands K.rules self.new events →
            Conserves K.rules self.new (run_state K.rules self.new events) }
    {
        self.run(event)
    }

    fn run(&mut self, event: Event) -> Reply
        requires { NamesOneThere (workers_of self.old) (length self.old.seen) event }
        ensures { Steps K.stands K.rules self.old self.new event result }
    {
        match event {
            Event::Update(worker) => self.update(worker),
            Event::Take(worker) => self.take(worker),
            Event::Publish => self.publish(),
            Event::Ask(reader) => self.ask(reader),
        }
    }

    // The worker takes up its next update.
    fn update(&mut self, worker: u32) -> Reply
        requires { worker < workers_of self.old }
        ensures { Steps K.stands K.rules self.old self.new (Update worker) result }
    {
        let updates = self.updates.get(worker);
        take_up(&mut self.workers[worker as usize], updates)
    }

    // The oldest message of the worker's lane is folded.
    fn take(&mut self, worker: u32) -> Reply
        requires { worker < workers_of self.old }
        ensures { Steps K.stands K.rules self.old self.new (Take worker) result }
    {
        match take_oldest(&mut self.workers[worker as usize]) {
            None => Reply::Empty,
            Some(message) => {
                self.fold.absorb(&message);
                Reply::Took {
                    amount: message.amount,
                }
            }
        }
    }

    // What is folded is shown.
    fn publish(&mut self) -> Reply
        ensures { Steps K.stands K.rules self.old self.new Publish result }
    {
        show(&self.fold, &mut self.shown);
        Reply::Published
    }

    // The reader sees what is shown.
    fn ask(&mut self, reader: u32) -> Reply
        requires { reader < length self.old.seen }
        ensures { Steps K.stands K.rules self.old self.new (Ask reader) result }
    {
        copy_counts_into(self.shown.front.as_slice(), &mut self.seen[reader as usize]);
        Reply::Answered
    }
}

// The worker for each list of updates.
fn new_workers<K: Kind>(
    alloc: Global,
    shape: &Shape,
    threshold: u64,
    capacity: u32,
    full: Full,
    updates: &UpdateRows,
) -> Result<Vec<Counter<K>>, NoMemory>
    requires shape { IsShape shape.now }
    requires threshold { 0 < threshold }
    ensures count { IfOk result (λ workers. length workers.items ≡ length updates.now.items) }
    ensures fresh { IfOk result (λ workers. (w : ℕ) (d : _) → slice_get workers.items w ≡ Some d → IsFreshWorker K.stands
        (terms_within K.rules (record {
          threshold = threshold;
          capacity = capacity;
          full = full;
          updates = map (λ row. row.items) updates.now.items;
        })) (size_of shape.now) w d) }
    ensures few { IfOk result (λ _. All (λ row. length row.items < 2 ^ 32) updates.now.items) }
{
    let cells = shape.rows * shape.columns;
    let mut workers = Vec::new(alloc);
    for number in 0..updates.len() {
        let count = updates.get(number).len();
        let sketch = Private::new(alloc, cells, threshold, count)?;
        let room = capacity.saturating_add(1).min(count);
        let worker = Counter::new(alloc, number, capacity, full, sketch, room)?;
        push_item(&mut workers, worker)?;
    }
    Ok(workers)
}

// For each reader a front of zeros.
fn new_fronts(alloc: Global, workers: u32, readers: u32) -> Result<Vec<Counts>, NoMemory>
    ensures readers { IfOk result (λ fronts. length fronts.items ≡ readers) }
    ensures zeros { IfOk result (λ fronts. All (λ front. front.items ≡ replicate workers 0) fronts.items) }
{
    let mut fronts = Vec::new(alloc);
    for _ in 0..readers {
        let front = Listed::filled(alloc, workers, 0)?;
        push_item(&mut fronts, front)?;
    }
    Ok(fronts)
}

fn push_item<T: Drop>(items: &mut Vec<T>, item: T) -> Result<(), NoMemory>
    ensures { OnOk result (items.new.items ≡ items.old.items ++ item ∷ []) }
{
    items.push(item).or(Err(NoMemory))
}
