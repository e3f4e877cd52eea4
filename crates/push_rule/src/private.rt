ghost use Rattle.std.specs.Prelude.{◌≡◌, ◌<◌, ◌≤◌, ◌+◌, ◌-◌, ℕ, ℤ, [], ◌∷◌, ◌++◌, List, length, true, false, nat_le, nat_lt, Some, None, IsSome, IfOk, MatchOption, option_map, is_none, count_by, map, slice_index_or};
ghost use Rattle.packet_key.specs.declared.key.FlowKey.{FlowKey};
ghost use Rattle.hash_rows.specs.declared.shape.Push.{Push};
ghost use Rattle.hash_rows.specs.declared.shape.Update.{Update};
ghost use Rattle.held_cells.specs.Held.{byte_of};
ghost use Rattle.push_history.specs.Pushes.{is_refused};
ghost use Rattle.push_history.specs.Residue.{residue};
ghost use Rattle.push_history.specs.Told.{told_of};
ghost use Rattle.push_history.specs.Whole.{whole_of};

use flow_base::NoMemory;
use hash_rows::{Bits, Kind};
use held_cells::HeldCells;
use std::alloc::Global;
use std::marker::Model;

/// What a worker counted of each cell and told of it.
#[derive(Drop)]
pub struct Private<K: Kind> {
    cells: HeldCells<K>,
    threshold: u64,
    room: u32,
    bits: Bits,
}

impl<K: Kind> Model for Private<K> {
    ghost use Rattle.std.specs.Prelude.{◌≡◌, ◌<◌, ◌≤◌, ⊤, length, MatchOption};
    ghost use Rattle.push_rule.specs.Stands.{PrivateView, counted_of, private_code};

    ghost Value = { PrivateView K.Held };

    ghost coded = { private_code K.Held.code };

    ghost view = { λ p. record {
      held = p.cells.held;
      threshold = p.threshold;
      room = p.room;
      counted = counted_of p.room p.cells.left p.cells.due;
      due = p.cells.due;
      bits = p.bits;
    } };

    ghost invariant = { λ p. (length p.bits ≡ p.room) × (p.cells.left ≤ p.room)
        × MatchOption p.cells.due ⊤ (λ cell. (cell < length p.cells.held) × (0 < p.cells.left)) };
}

impl<K: Kind> Private<K> {
    ghost use Rattle.push_rule.specs.Stands.{StandsFor, StandsAt, Owes};

    /// A sketch that has counted nothing.
    pub fn new(
        alloc: Global,
        cells: u32,
        threshold: u64,
        updates: u32,
    ) -> Result<Private<K>, NoMemory>
        requires { 0 < threshold }
        ensures fresh { IfOk result (λ sketch. StandsFor K.stands K.rules sketch [] [] []) }
        ensures idle { IfOk result (λ sketch. sketch.due ≡ None) }
        ensures cells { IfOk result (λ sketch. length sketch.held ≡ cells) }
        ensures threshold { IfOk result (λ sketch. sketch.threshold ≡ threshold) }
        ensures room { IfOk result (λ sketch. sketch.room ≡ updates) }
    {
        let cells = HeldCells::new(alloc, cells, updates)?;
        let bits = Bits::new(alloc, updates)?;
        Ok(Private {
            cells,
            threshold,
            room: updates,
            bits,
        })
    }

    /// Counts an update. Answers the amount of the push that it makes due.
    #[inline(always)]
    pub fn count(&mut self, cell: u32, value: i64) -> Option<i64>
        requires idle { self.old.due ≡ None }
        requires room { self.old.counted < self.old.room }
        requires cell { cell < length self.old.held }
        requires value { K.rules.is_value value ≡ true }
        ensures due { (told whole : ℤ) → StandsAt K.stands self.old.held cell told whole
            → Owes K.rules self.old.threshold told (K.rules.join whole value) result }
        ensures marked { self.new.due ≡ option_map (λ _. cell) result }
        ensures counted { self.new.counted ≡ self.old.counted + 1 }
        ensures stands { (packet : ℕ) (key : FlowKey) (updates : List Update) (messages : List Push) (refused : List ℕ)
            → StandsFor K.stands K.rules self.old updates messages refused
            → StandsFor K.stands K.rules self.new
            (updates ++ record { packet = packet; key = key; cell = cell; value = value } ∷ []) messages refused }
        ensures threshold { self.new.threshold ≡ self.old.threshold }
        ensures room_stays { self.new.room ≡ self.old.room }
        ensures cells { length self.new.held ≡ length self.old.held }
    {
        let held = K::counted(self.cells.look_up(cell), value);
        let (distance, gap) = K::unsent(held);
        if distance >= self.threshold {
            self.cells.put_due(cell, held);
            Some(gap)
        } else {
            self.cells.set(cell, held);
            None
        }
    }

    /// Whether counting this update would make a push due.
    #[cold]
    #[inline(never)]
    pub fn due_with(&self, cell: u32, value: i64) -> bool
        requires idle { self.now.due ≡ None }
        requires room { self.now.counted < self.now.room }
        requires cell { cell < length self.now.held }
        requires value { K.rules.is_value value ≡ true }
        ensures due { (told whole : ℤ) → StandsAt K.stands self.now.held cell told whole
            → result ≡ nat_le self.now.threshold (K.rules.distance told (K.rules.join whole value)) }
        ensures stands { (updates : List Update) (messages : List Push) (refused : List ℕ)
            → StandsFor K.stands K.rules self.now updates messages refused
            → result ≡ nat_le self.now.threshold (K.rules.distance (told_of K.rules cell messages)
            (K.rules.join (whole_of K.rules cell updates) value)) }
    {
        let (distance, _) = K::unsent(K::counted(self.cells.value(cell), value));
        self.threshold <= distance
    }

    /// The due push was sent.
    #[inline(always)]
    pub fn sent(&mut self)
        requires { IsSome self.old.due }
        ensures stands { (worker packet : ℕ) (key : FlowKey) (updates : List Update) (messages : List Push) (refused : List ℕ)
            → StandsFor K.stands K.rules self.old updates messages refused
            → MatchOption self.old.due (StandsFor K.stands K.rules self.new updates messages refused)
            (λ cell. StandsFor K.stands K.rules self.new updates (messages ++ record {
              worker = worker;
              packet = packet;
              update = self.old.counted - 1;
              key = key;
              cell = cell;
              amount = K.rules.gap (told_of K.rules cell messages) (whole_of K.rules cell updates);
            } ∷ []) refused) }
        ensures idle { self.new.due ≡ None }
        ensures counted { self.new.counted ≡ self.old.counted }
        ensures threshold { self.new.threshold ≡ self.old.threshold }
        ensures room { self.new.room ≡ self.old.room }
        ensures cells { length self.new.held ≡ length self.old.held }
    {
        let told = K::told_all(self.cells.due());
        self.cells.settle(told);
    }

    /// The due push was refused.
    #[inline(always)]
    pub fn refused(&mut self)
        requires { IsSome self.old.due }
        ensures stands { (updates : List Update) (messages : List Push) (refused : List ℕ)
            → StandsFor K.stands K.rules self.old updates messages refused
            → StandsFor K.stands K.rules self.new updates messages (refused ++ (self.old.counted - 1) ∷ []) }
        ensures held { self.new.held ≡ self.old.held }
        ensures idle { self.new.due ≡ None }
        ensures counted { self.new.counted ≡ self.old.counted }
        ensures threshold { self.new.threshold ≡ self.old.threshold }
        ensures room { self.new.room ≡ self.old.room }
    {
        let update = self.room - self.cells.left();
        self.cells.keep_due();
        self.bits.set(update);
    }

    /// What was counted of the cell and not told.
    pub fn residue(&self, cell: u32) -> i64
        requires { cell < length self.now.held }
        ensures gap { (told whole : ℤ) → StandsAt K.stands self.now.held cell told whole → result ≡ K.rules.gap told whole }
        ensures stands { (updates : List Update) (messages : List Push) (refused : List ℕ)
            → StandsFor K.stands K.rules self.now updates messages refused
            → result ≡ residue K.rules updates messages (length updates) cell }
    {
        K::unsent(self.cells.get(cell)).1
    }

    /// How far what was told of the cell is from the whole.
    pub fn distance(&self, cell: u32) -> u64
        requires { cell < length self.now.held }
        ensures { (told whole : ℤ) → StandsAt K.stands self.now.held cell told whole → result ≡ K.rules.distance told whole }
    {
        K::unsent(self.cells.get(cell)).0
    }

    /// One byte a cell: what is held of it, where that fits, or -128.
    pub fn small_bytes(&self) -> &[i8]
        ensures { result.now ≡ map (λ held. byte_of (K.small_of held)) self.now.held }
    {
        self.cells.small_bytes()
    }

    /// How many cells hold what doesn't fit in one byte.
    pub fn wide(&self) -> u32
        ensures { result ≡ count_by (λ held. is_none (K.small_of held)) self.now.held }
    {
        self.cells.wide()
    }

    /// How many updates were counted.
    pub fn counted(&self) -> u32
        ensures { result ≡ self.now.counted }
    {
        let changed = self.room - self.cells.left();
        if self.cells.is_due() {
            changed + 1
        } else {
            changed
        }
    }

    /// Whether there are updates left to count.
    pub fn has_left(&self) -> bool
        ensures { result ≡ nat_lt self.now.counted self.now.room }
    {
        self.counted() < self.room
    }

    /// Whether the push of this update was refused.
    pub fn refused_at(&self, update: u32) -> bool
        requires { update < self.now.room }
        ensures bit { result ≡ slice_index_or self.now.bits update false }
        ensures stands { (updates : List Update) (messages : List Push) (refused : List ℕ)
            → StandsFor K.stands K.rules self.now updates messages refused
            → result ≡ is_refused update refused }
    {
        self.bits.get(update)
    }

    /// For each update whether its push was refused.
    pub fn into_bits(self) -> Bits
        ensures bits { result ≡ self.bits }
        ensures length { length result ≡ self.room }
        ensures stands { (updates : List Update) (messages : List Push) (refused : List ℕ)
            → StandsFor K.stands K.rules self updates messages refused
            → (k : ℕ) → slice_index_or result k false ≡ is_refused k refused }
    {
        self.bits
    }
}
