ghost use Rattle.std.specs.Prelude.{◌≡◌, ◌<◌, ◌≤◌, ◌-◌, List, length, min, take, slice_get, slice_index_or, Some};
ghost use Rattle.hash_rows.specs.Shapes.{size_of};
ghost use Rattle.push_history.specs.declared.event.Event.{Event};
ghost use Rattle.bracket.specs.Bracket.{AreAmounts, IsNear};
ghost use Rattle.hash_rows.specs.declared.options.Sketch.TheVariants.{CountMin};
ghost use Rattle.push_history.specs.Front.{front_of, uptos_of};
ghost use Rattle.push_history.specs.LagRun.{updates_by, worker_in};
ghost use Rattle.push_history.specs.LiveHeavy.{live_keys, missed_keys};
ghost use Rattle.push_history.specs.Pushes.{is_refused};
ghost use Rattle.push_history.specs.Residue.{residue};
ghost use Rattle.push_history.specs.Shown.{shown_of, shown_cells};
ghost use Rattle.lag_core.specs.Workers.{terms_within};
ghost use Rattle.lag_core.specs.Lags.{IsCoreAfter, refused_by_each, sent_by_each, shown_messages, run_state, workers_of};

use crate::lag::Lag;
use hash_rows::Kind;
use packet_key::FlowKey;

impl<K: Kind> Lag<K> {
    /// The shown value of a cell.
    pub fn shown(&self, cell: u32) -> i64
        requires { cell < size_of self.now.shape }
        ensures { (events : List Event) → IsCoreAfter K.stands K.rules self.now events → let s = run_state K.rules self.now events in
            result ≡ shown_of K.rules (sent_by_each s) (front_of (workers_of self.now) (shown_messages s)) cell }
    {
        self.shown.table.cell(cell)
    }

    /// What is shown of a key. For Count-Min it is near what would be, had all matching updates been told.
    pub fn estimate(&self, key: &FlowKey) -> i64
        ensures near { K.sketch ≡ CountMin → AreAmounts self.now.limits.updates →
            (events : List Event) → IsCoreAfter K.stands K.rules self.now events → let s = run_state K.rules self.now events in
            IsNear self.now.limits.threshold self.now.limits.updates (sent_by_each s) (refused_by_each s)
            (front_of (workers_of self.now) (shown_messages s)) self.now.shape key.now result }
        ensures shown { (events : List Event) → IsCoreAfter K.stands K.rules self.now events → let s = run_state K.rules self.now events in
            result ≡ K.rules.estimate self.now.shape
            (shown_cells K.rules self.now.shape (sent_by_each s) (front_of (workers_of self.now) (shown_messages s))) key.now }
    {
        self.shown.table.estimate(key)
    }

    /// How many messages of the worker are shown.
    pub fn front(&self, worker: u32) -> u64
        requires { worker < workers_of self.now }
        ensures { (events : List Event) → IsCoreAfter K.stands K.rules self.now events → let s = run_state K.rules self.now events in
            result ≡ slice_index_or (front_of (workers_of self.now) (shown_messages s)) worker 0 }
    {
        *self.shown.front.get(worker)
    }

    /// One more than the last shown update of the worker, 0 where there is none.
    pub fn upto(&self, worker: u32) -> u64
        requires { worker < workers_of self.now }
        ensures { (events : List Event) → IsCoreAfter K.stands K.rules self.now events → let s = run_state K.rules self.now events in
            result ≡ slice_index_or (uptos_of (workers_of self.now) (shown_messages s)) worker 0 }
    {
        *self.shown.upto.get(worker)
    }

    /// How many messages of the worker the reader has seen.
    pub fn seen(&self, reader: u32, worker: u32) -> u64
        requires reader { reader < length self.now.seen }
        requires worker { worker < workers_of self.now }
        ensures front { (events : List Event) → IsCoreAfter K.stands K.rules self.now events → let s = run_state K.rules self.now events in
            result ≡ slice_index_or (front_of (workers_of self.now) (take (slice_index_or s.seen reader 0) s.folded)) worker 0 }
        ensures shown { (events : List Event) → IsCoreAfter K.stands K.rules self.now events → let s = run_state K.rules self.now events in
            slice_index_or s.seen reader 0 ≤ s.shown }
    {
        *self.seen[reader as usize].get(worker)
    }

    /// How many messages the worker's lane holds.
    pub fn queued(&self, worker: u32) -> u32
        requires { worker < workers_of self.now }
        ensures { (events : List Event) → IsCoreAfter K.stands K.rules self.now events
            → let x = worker_in (run_state K.rules self.now events) worker in
            result ≡ length x.sent - x.taken }
    {
        self.workers[worker as usize].held()
    }

    /// What the worker counted of the cell and did not tell.
    pub fn residue(&self, worker: u32, cell: u32) -> i64
        requires worker { worker < workers_of self.now }
        requires cell { cell < size_of self.now.shape }
        ensures { (events : List Event) → IsCoreAfter K.stands K.rules self.now events
            → let x = worker_in (run_state K.rules self.now events) worker in
            result ≡ residue K.rules (updates_by (terms_within K.rules self.now.limits) worker) x.sent x.counted cell }
    {
        self.workers[worker as usize].residue(cell)
    }

    /// Whether the push of this update of the worker met a full lane and was left.
    pub fn refused_at(&self, worker: u32, update: u32) -> bool
        requires worker { worker < workers_of self.now }
        requires update { update < length (updates_by (terms_within K.rules self.now.limits) worker) }
        ensures { (events : List Event) → IsCoreAfter K.stands K.rules self.now events
            → let x = worker_in (run_state K.rules self.now events) worker in
            result ≡ is_refused update x.refused }
    {
        self.workers[worker as usize].refused_at(update)
    }

    /// How many heavy keys are shown.
    pub fn live_len(&self) -> u32
        ensures len { result ≡ self.now.shown.live }
        ensures stands { (events : List Event) → IsCoreAfter K.stands K.rules self.now events → let s = run_state K.rules self.now events in
            result ≡ length (live_keys K.rules self.now.shape self.now.fold.heavy.limit self.now.fold.heavy.least (shown_messages s)) }
    {
        self.shown.live
    }

    /// A shown heavy key.
    pub fn live(&self, place: u32) -> FlowKey
        requires { place < self.now.shown.live }
        ensures { (events : List Event) → IsCoreAfter K.stands K.rules self.now events → let s = run_state K.rules self.now events in
            slice_get (live_keys K.rules self.now.shape self.now.fold.heavy.limit self.now.fold.heavy.least
            (shown_messages s)) place ≡ Some result }
    {
        self.fold.heavy().entry(place)
    }

    /// How many shown messages had a heavy key that found no room.
    pub fn missed(&self) -> u64
        ensures { (events : List Event) → IsCoreAfter K.stands K.rules self.now events → let s = run_state K.rules self.now events in
            result ≡ min (missed_keys K.rules self.now.shape self.now.fold.heavy.limit self.now.fold.heavy.least
            (shown_messages s)) 18446744073709551615 }
    {
        self.shown.missed
    }
}
