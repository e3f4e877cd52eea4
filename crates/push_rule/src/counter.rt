ghost use Rattle.std.specs.Prelude.{◌≡◌, ◌<◌, ◌≤◌, ◌+◌, ◌-◌, ◌*◌, ◌^◌, ℕ, [], ◌∷◌, length, drop, true, IfOk};
ghost use Rattle.hash_rows.specs.Shapes.{IsShape, size_of};
ghost use Rattle.push_history.specs.LagRun.{Terms, Worker, count_step, fresh_worker, updates_by, is_wait};
ghost use Rattle.push_history.specs.OwnSteps.{with_taken};
ghost use Rattle.push_history.specs.Residue.{residue};
ghost use Rattle.push_history.specs.Updates.{update_at};

use crate::Private;
use flow_base::NoMemory;
use hash_rows::{Bits, Full, Kind, Push};
use packet_key::FlowKey;
use push_history::Reply;
use std::alloc::Global;
use std::marker::Model;

/// A worker's private sketch, and its messages that wait to be folded.
#[derive(Drop)]
pub struct Counter<K: Kind> {
    worker: u32,
    lane: u32,
    full: Full,
    sketch: Private<K>,
    queue: Vec<Push>,
    room: u32,
    taken: u32,
}

impl<K: Kind> Model for Counter<K> {
    ghost use Rattle.std.specs.Prelude.{◌≡◌, ◌≤◌, None, length, vec_capacity};
    ghost use Rattle.push_rule.specs.Counters.{CounterView};

    ghost Value = { CounterView K.Held };

    ghost view = { λ c. record {
      worker = c.worker;
      lane = c.lane;
      full = c.full;
      sketch = c.sketch;
      queue = c.queue.items;
      room = c.room;
      taken = c.taken;
    } };

    ghost invariant = { λ c. (c.taken ≤ length c.queue.items) × (length c.queue.items ≤ c.room) × (c.room ≤ vec_capacity c.queue)
        × (c.sketch.due ≡ None) };
}

impl<K: Kind> Counter<K> {
    ghost use Rattle.std.specs.Prelude.{None, ◌&&◌, ◌||◌, nat_le, nat_lt, false, if◌then◌else◌, max, slice_index_or};
    ghost use Rattle.push_history.specs.Pushes.{distance_at, is_refused};
    ghost use Rattle.push_rule.specs.Counters.{KeepsSettings, Extends, in_lane};
    ghost use Rattle.push_history.specs.Rounds.{is_waits};
    ghost use Rattle.push_rule.specs.Keeps.{Keeps};

    /// A worker that has counted nothing, with a sketch of so many cells, for so many updates, and
    /// a queue with the room.
    pub fn new(
        alloc: Global,
        worker: u32,
        lane: u32,
        full: Full,
        sketch: Private<K>,
        room: u32,
    ) -> Result<Counter<K>, NoMemory>
        requires { sketch.due ≡ None }
        ensures worker { IfOk result (λ counter. counter.worker ≡ worker) }
        ensures lane { IfOk result (λ counter. counter.lane ≡ lane) }
        ensures full { IfOk result (λ counter. counter.full ≡ full) }
        ensures sketch { IfOk result (λ counter. counter.sketch ≡ sketch) }
        ensures queue { IfOk result (λ counter. counter.queue ≡ []) }
        ensures taken { IfOk result (λ counter. counter.taken ≡ 0) }
        ensures room { IfOk result (λ counter. counter.room ≡ room) }
    {
        match Vec::with_capacity(alloc, room as usize) {
            Ok(queue) => Ok(Counter {
                worker,
                lane,
                full,
                sketch,
                queue,
                room,
                taken: 0,
            }),
            Err(_) => Err(NoMemory),
        }
    }

    /// How many messages are in the lane.
    pub fn held(&self) -> u32
        ensures { result ≡ in_lane self.now }
    {
        let _room = self.room;
        self.queue.len() as u32 - self.taken
    }

    /// How many updates were counted.
    pub fn counted(&self) -> u32
        ensures { result ≡ self.now.sketch.counted }
    {
        self.sketch.counted()
    }

    /// What it counted of each cell and told of it.
    pub fn sketch(&self) -> &Private<K>
        ensures { result.now ≡ self.now.sketch }
    {
        &self.sketch
    }

    /// Whether there are updates left to count, or messages in the lane.
    pub fn is_busy(&self) -> bool
        ensures { result ≡ (nat_lt self.now.sketch.counted self.now.sketch.room || nat_lt 0 (in_lane self.now)) }
    {
        self.sketch.has_left() || self.held() > 0
    }

    /// The messages since the queue was cleared, those that were folded in front.
    pub fn messages(&self) -> &[Push]
        ensures { result.now ≡ self.now.queue }
    {
        &self.queue
    }

    /// How many of these were folded.
    pub fn taken(&self) -> u32
        ensures { result ≡ self.now.taken }
    {
        self.taken
    }

    /// Gives the oldest messages of the lane away, to be folded.
    pub fn take(&mut self, count: u32)
        requires { self.old.taken + count ≤ length self.old.queue }
        ensures keeps { (t : Terms) (w : ℕ) (x : Worker) → Keeps K.stands t w self.old x
            → Keeps K.stands t w self.new (with_taken x count) }
        ensures now { self.new ≡ record self.old { taken = self.old.taken + count } }
    {
        let _room = self.room;
        self.taken += count;
    }

    /// Clears the queue of the messages that were folded.
    pub fn clear(&mut self)
        ensures keeps { (t : Terms) (w : ℕ) (x : Worker) → Keeps K.stands t w self.old x → Keeps K.stands t w self.new x }
        ensures now { self.new ≡ record self.old { queue = drop self.old.taken self.old.queue; taken = 0 } }
    {
        let left = self.queue.len() - self.taken as usize;
        self.queue.rotate_left(self.taken as usize);
        self.queue.truncate(left);
        self.taken = 0;
    }

    /// What was counted of the cell and not told.
    pub fn residue(&self, cell: u32) -> i64
        requires { cell < length self.now.sketch.held }
        ensures value { (t : Terms) (w : ℕ) (x : Worker) → t.rules ≡ K.rules → Keeps K.stands t w self.now x
            → K.rules.is_value result ≡ true }
        ensures residue { (t : Terms) (w : ℕ) (x : Worker) → t.rules ≡ K.rules → Keeps K.stands t w self.now x
            → result ≡ residue t.rules (updates_by t w) x.sent x.counted cell }
    {
        self.sketch.residue(cell)
    }

    /// Whether the push of this update was refused.
    pub fn refused_at(&self, update: u32) -> bool
        requires { update < self.now.sketch.room }
        ensures { (t : Terms) (w : ℕ) (x : Worker) → t.rules ≡ K.rules → Keeps K.stands t w self.now x
            → result ≡ is_refused update x.refused }
    {
        self.sketch.refused_at(update)
    }

    /// For each update whether its push was refused.
    pub fn into_bits(self) -> Bits
        ensures refused { (t : Terms) (w : ℕ) (x : Worker) → t.rules ≡ K.rules → Keeps K.stands t w self x
            → (k : ℕ) → slice_index_or result k false ≡ is_refused k x.refused }
        ensures length { length result ≡ self.sketch.room }
    {
        self.sketch.into_bits()
    }

    /// Takes up an update: counts it, and sends a push that is due, or refuses it at a full lane.
    /// Where pushes wait, one that meets a full lane changes nothing.
    #[inline(always)]
    pub fn count(&mut self, packet: u32, key: &FlowKey, cell: u32, value: i64) -> Reply
        requires sketch { self.old.sketch.counted < self.old.sketch.room }
        requires cell { cell < length self.old.sketch.held }
        requires value { K.rules.is_value value ≡ true }
        requires room { length self.old.queue < self.old.room }
        ensures keeps { (t : Terms) (w : ℕ) (x : Worker) → t.rules ≡ K.rules → Keeps K.stands t w self.old x
            → x.counted < length (updates_by t w)
            → update_at (updates_by t w) x.counted ≡ record { packet = packet; key = key.now; cell = cell; value = value }
            → Keeps K.stands t w self.new (count_step t w x).0 × (result ≡ (count_step t w x).1) }
        ensures same { KeepsSettings self.old self.new }
        ensures queue { length self.new.queue ≤ length self.old.queue + 1 }
        ensures lane { length self.new.queue ≤ max (length self.old.queue) (self.old.taken + self.old.lane) }
        ensures grows { Extends self.old.queue self.new.queue }
        ensures counted { self.new.sketch.counted ≡ (if is_waits result then self.old.sketch.counted else self.old.sketch.counted + 1) }
    {
        if self.waits_with(packet, key, cell, value) {
            return Reply::Waits;
        }
        self.count_and_tell(packet, key, cell, value)
    }

    // Whether the update makes a push due that has to wait.
    #[inline(always)]
    fn waits_with(&self, packet: u32, key: &FlowKey, cell: u32, value: i64) -> bool
        requires sketch { self.now.sketch.counted < self.now.sketch.room }
        requires cell { cell < length self.now.sketch.held }
        requires value { K.rules.is_value value ≡ true }
        ensures { (t : Terms) (w : ℕ) (x : Worker) → t.rules ≡ K.rules → Keeps K.stands t w self.now x
            → x.counted < length (updates_by t w)
            → update_at (updates_by t w) x.counted ≡ record { packet = packet; key = key.now; cell = cell; value = value }
            → result ≡ (is_wait self.now.full && (nat_le self.now.lane (in_lane self.now)
            && nat_le t.threshold (distance_at t.rules (updates_by t w) x.sent x.counted))) }
    {
        let (_packet, _key) = (packet, key);
        match self.full {
            Full::Leave => false,
            Full::Wait => self.lane <= self.held() && self.sketch.due_with(cell, value),
        }
    }

    // Counts the update, which makes no push due that has to wait, and sends one that is due, or
    // refuses it at a full lane.
    #[inline(always)]
    fn count_and_tell(&mut self, packet: u32, key: &FlowKey, cell: u32, value: i64) -> Reply
        requires sketch { self.old.sketch.counted < self.old.sketch.room }
        requires cell { cell < length self.old.sketch.held }
        requires value { K.rules.is_value value ≡ true }
        requires room { length self.old.queue < self.old.room }
        ensures keeps { (t : Terms) (w : ℕ) (x : Worker) → t.rules ≡ K.rules → Keeps K.stands t w self.old x
            → x.counted < length (updates_by t w)
            → update_at (updates_by t w) x.counted ≡ record { packet = packet; key = key.now; cell = cell; value = value }
            → (is_wait self.old.full && (nat_le self.old.lane (in_lane self.old)
            && nat_le t.threshold (distance_at t.rules (updates_by t w) x.sent x.counted))) ≡ false
            → Keeps K.stands t w self.new (count_step t w x).0 × (result ≡ (count_step t w x).1) }
        ensures same { KeepsSettings self.old self.new }
        ensures queue { length self.new.queue ≤ length self.old.queue + 1 }
        ensures lane { length self.new.queue ≤ max (length self.old.queue) (self.old.taken + self.old.lane) }
        ensures grows { Extends self.old.queue self.new.queue }
        ensures counted { self.new.sketch.counted ≡ (if is_waits result then self.old.sketch.counted else self.old.sketch.counted + 1) }
    {
        match self.sketch.count(cell, value) {
            None => Reply::Counted,
            Some(amount) => {
                if self.queue.len() as u32 - self.taken >= self.lane {
                    self.sketch.refused();
                    return Reply::Refused;
                }
                let number = self.sketch.counted() - 1;
                self.sketch.sent();
                self.queue.push_reserved(Push {
                    worker: self.worker,
                    packet,
                    update: number,
                    key: *key,
                    cell,
                    amount,
                });
                Reply::Pushed { amount }
            }
        }
    }
}
