ghost use Rattle.std.specs.Prelude.{◌≡◌, ◌<◌, ◌≤◌, length, IfOk, slice_index_or};
ghost use Rattle.hash_rows.specs.Rules.{AreValues};
ghost use Rattle.hash_rows.specs.Shapes.{IsShape, size_of};
ghost use Rattle.live_state.specs.Fold.{absorbed, fits, fresh_state, layout_of, zero_cells};
ghost use Rattle.live_state.specs.Tallies.{table_noted};

use crate::copies::fill_table;
use crate::tally::Tally;
use flow_base::NoMemory;
use hash_rows::{Kind, Push, Shape, Table};
use heavy_keys::Heavy;
use packet_key::FlowKey;
use std::alloc::Global;
use std::marker::Model;

/// The fold of some messages.
#[derive(Drop)]
pub struct State<K: Kind> {
    table: Table<K>,
    tally: Tally,
}

impl<K: Kind> Model for State<K> {
    ghost use Rattle.live_state.specs.Fold.{StateView};

    ghost Value = { StateView };

    ghost view = { λ s. record {
      table = s.table;
      front = s.tally.front;
      upto = s.tally.upto;
      folded = s.tally.folded;
      heavy = s.tally.heavy;
    } };
}

impl<K: Kind> State<K> {
    /// The state with no message: zeros, and no heavy key.
    pub fn new(
        alloc: Global,
        shape: Shape,
        workers: u32,
        heavy: u32,
        least: i64,
    ) -> Result<State<K>, NoMemory>
        requires shape { IsShape shape }
        requires heavy { (1 ≤ heavy) × (heavy ≤ 1024) }
        ensures { IfOk result (λ state. state ≡ fresh_state (record { shape = shape; workers = workers; heavy = heavy; least = least })) }
    {
        let table = Table::new(alloc, shape)?;
        State::over(alloc, table, workers, heavy, least)
    }

    /// The state with no message, over a table of zeros.
    pub fn over(
        alloc: Global,
        table: Table<K>,
        workers: u32,
        heavy: u32,
        least: i64,
    ) -> Result<State<K>, NoMemory>
        requires zeros { table.cells ≡ zero_cells table.shape }
        requires heavy { (1 ≤ heavy) × (heavy ≤ 1024) }
        ensures { IfOk result (λ state. state ≡ fresh_state (record {
          shape = table.shape;
          workers = workers;
          heavy = heavy;
          least = least;
        })) }
    {
        let tally = Tally::new(alloc, workers, heavy, least)?;
        Ok(State { table, tally })
    }

    /// Folds the message. One whose worker or cell is out of range, or whose amount isn't a value
    /// of the kind, changes nothing.
    pub fn absorb(&mut self, message: &Push)
        ensures { self.new ≡ absorbed K.rules self.old message.now }
    {
        if self.takes(message) {
            self.table.put(message.cell, message.amount);
            self.tally.count(message.worker, message.update);
            note_key(&self.table, &mut self.tally, &message.key);
        }
    }

    // Whether the message fits.
    fn takes(&self, message: &Push) -> bool
        ensures { result ≡ fits K.rules (layout_of self.now) message.now }
    {
        let shape = self.table.shape();
        message.worker < self.tally.workers()
            && message.cell < shape.rows * shape.columns
            && K::is_value(message.amount)
    }

    /// Makes a state with no message the one of these cells and this tally. It takes no memory.
    pub fn copy_parts(&mut self, cells: &[i64], tally: &Tally)
        requires fresh { self.old ≡ fresh_state (record {
          shape = self.old.table.shape;
          workers = length tally.now.front;
          heavy = tally.now.heavy.limit;
          least = tally.now.heavy.least;
        }) }
        requires size { length cells.now ≡ size_of self.old.table.shape }
        requires values { AreValues K.rules cells.now }
        ensures table { self.new.table ≡ record { shape = self.old.table.shape; cells = cells.now } }
        ensures front { self.new.front ≡ tally.now.front }
        ensures upto { self.new.upto ≡ tally.now.upto }
        ensures folded { self.new.folded ≡ tally.now.folded }
        ensures heavy { self.new.heavy ≡ tally.now.heavy }
    {
        fill_table(cells, &mut self.table);
        self.tally.copy_from(tally);
    }

    pub fn table(&self) -> &Table<K>
        ensures { result.now ≡ self.now.table }
    {
        &self.table
    }

    /// The table alone.
    pub fn into_table(self) -> Table<K>
        ensures { result ≡ self.table }
    {
        let State { table, tally: _ } = self;
        table
    }

    /// The number of workers.
    pub fn workers(&self) -> u32
        ensures { result ≡ length self.now.front }
    {
        self.tally.workers()
    }

    /// How many messages of the worker were folded.
    pub fn front(&self, worker: u32) -> u64
        requires { worker < length self.now.front }
        ensures { result ≡ slice_index_or self.now.front worker 0 }
    {
        self.tally.front()[worker as usize]
    }

    /// One more than the last folded update of the worker, 0 where there is none.
    pub fn upto(&self, worker: u32) -> u64
        requires { worker < length self.now.front }
        ensures { result ≡ slice_index_or self.now.upto worker 0 }
    {
        self.tally.upto()[worker as usize]
    }

    /// How many messages of each worker were folded.
    pub fn fronts(&self) -> &[u64]
        ensures { result.now ≡ self.now.front }
    {
        self.tally.front()
    }

    /// For each worker one more than its last folded update, 0 where there is none.
    pub fn uptos(&self) -> &[u64]
        ensures counts { result.now ≡ self.now.upto }
        ensures workers { length self.now.upto ≡ length self.now.front }
    {
        self.tally.upto()
    }

    /// How many messages were folded.
    pub fn folded(&self) -> u64
        ensures { result ≡ self.now.folded }
    {
        self.tally.folded()
    }

    /// The heavy keys.
    pub fn heavy(&self) -> &Heavy
        ensures { result.now ≡ self.now.heavy }
    {
        self.tally.heavy()
    }
}

// Notes the key with what the table says of it, where estimates depend on the key.
fn note_key<K: Kind>(table: &Table<K>, tally: &mut Tally, key: &FlowKey)
    ensures { tally.new ≡ table_noted K.rules table.now tally.old key.now }
{
    if K::KEYED {
        tally.note(key, table.estimate(key));
    }
}
