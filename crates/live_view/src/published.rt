//! What readers take: a state, and the history that it stands for.
ghost use Rattle.std.specs.Prelude.{◌≡◌, ◌≤◌, length, IfOk};
ghost use Rattle.hash_rows.specs.Rules.{AreValues};
ghost use Rattle.hash_rows.specs.Shapes.{IsShape, size_of};
ghost use Rattle.live_state.specs.Fold.{fresh_state};
ghost use Rattle.live_view.specs.Rule.{turned};

use crate::history::{Entry, HistoryPrefix};
use flow_base::NoMemory;
use hash_rows::{Cells, Kind, Shape};
use left_right::Absorb;
use listed::Listed;
use live_state::{Layout, Tally};
use packet_key::FlowKey;
use std::alloc::{AllocError, Global};
use std::marker::{Model, PhantomData};

/// A state whose cells stand bare, and the history that it stands for.
#[derive(Drop)]
pub struct Published<K: Kind> {
    shape: Shape,
    cells: Cells,
    tally: Tally,
    prefix: HistoryPrefix,
    kind: PhantomData<K>,
}

impl<K: Kind> Model for Published<K> {
    ghost use Rattle.std.specs.Prelude.{◌≡◌, length};
    ghost use Rattle.hash_rows.specs.Rules.{AreValues};
    ghost use Rattle.hash_rows.specs.Shapes.{IsShape, size_of};
    ghost use Rattle.live_view.specs.Views.{PublishedView};

    ghost Value = { PublishedView };

    ghost view = { λ p. record {
      figures = record {
        table = record { shape = p.shape; cells = p.cells.items };
        front = p.tally.front;
        upto = p.tally.upto;
        folded = p.tally.folded;
        heavy = p.tally.heavy;
      };
      history = p.prefix;
    } };

    ghost invariant = { λ p. IsShape p.shape × (length p.cells.items ≡ size_of p.shape) × AreValues K.rules p.cells.items };
}

impl<K: Kind> Published<K> {
    /// The state with no message.
    pub fn new(
        alloc: Global,
        layout: &Layout,
        prefix: HistoryPrefix,
    ) -> Result<Published<K>, NoMemory>
        requires shape { IsShape layout.now.shape }
        requires heavy { (1 ≤ layout.now.heavy) × (layout.now.heavy ≤ 1024) }
        ensures figures { IfOk result (λ published. published.figures ≡ fresh_state layout.now) }
        ensures history { IfOk result (λ published. published.history ≡ prefix) }
    {
        let cells = Listed::filled(alloc, layout.shape.rows * layout.shape.columns, 0)?;
        let tally = Tally::new(alloc, layout.workers, layout.heavy, layout.least)?;
        Ok(Published {
            shape: layout.shape,
            cells,
            tally,
            prefix,
            kind: PhantomData,
        })
    }

    pub fn cells(&self) -> &[i64]
        ensures cells { result.now ≡ self.now.figures.table.cells }
        ensures size { length self.now.figures.table.cells ≡ size_of self.now.figures.table.shape }
        ensures values { AreValues K.rules self.now.figures.table.cells }
    {
        self.cells.as_slice()
    }

    pub fn tally(&self) -> &Tally
        ensures front { result.now.front ≡ self.now.figures.front }
        ensures upto { result.now.upto ≡ self.now.figures.upto }
        ensures folded { result.now.folded ≡ self.now.figures.folded }
        ensures heavy { result.now.heavy ≡ self.now.figures.heavy }
    {
        &self.tally
    }

    /// What the cells say of the key.
    pub fn estimate(&self, key: &FlowKey) -> i64
        ensures { result ≡ K.rules.estimate self.now.figures.table.shape self.now.figures.table.cells key.now }
    {
        K::estimate(&self.shape, self.cells.as_slice(), key)
    }

    pub fn prefix(&self) -> &HistoryPrefix
        ensures { result.now ≡ self.now.history }
    {
        &self.prefix
    }
}

impl<K: Kind> Absorb<Entry> for Published<K> {
    type State = Published<K>;

    ghost state = { λ p. p };

    ghost applied = { turned K.rules };

    ghost never_fails = { Unit {0} };

    // The methods of a table can't be called here, since they ask for a kind that any thread has.
    fn absorb_first(&mut self, operation: &Entry, _other: &Published<K>) -> Result<(), AllocError> {
        let message = &operation.message;
        self.prefix = operation.prefix.again();
        if message.worker < self.tally.workers()
            && message.cell < self.cells.len()
            && K::is_value(message.amount)
        {
            let joined = K::join(*self.cells.get(message.cell), message.amount);
            self.cells.set(message.cell, joined);
            self.tally.count(message.worker, message.update);
            if K::KEYED {
                let estimate = K::estimate(&self.shape, self.cells.as_slice(), &message.key);
                self.tally.note(&message.key, estimate);
            }
        }
        Ok(())
    }
}
