ghost use Rattle.std.specs.Prelude.{◌≡◌, ◌<◌, ◌≤◌, ◌+◌, ℕ, ℤ, true, None, Some, IsSome, IfOk, count_by, length, get_or, map, is_none, is_some, slice_get, slice_set, replicate, nat_eq};
ghost use Rattle.indexmap.specs.IndexMap.{IsUnique, get, spare};
ghost use Rattle.held_cells.specs.Held.{Forms, IsByteOf, IsHeldBeside, byte_of, kept_at, mark};

use crate::places::Places;
use crate::side::{beside, beside_near, put};
use flow_base::NoMemory;
use hash_rows::Kind;
use indexmap::IndexMap;
use listed::Listed;
use std::alloc::Global;
use std::marker::Model;

/// The byte of a cell whose held value stands in the side table.
const MARK: i8 = -128;

/// A held value for each cell. One value may be open: it is shown, and settled later, so that the
/// side table isn't touched for one that is told at once.
#[derive(Drop)]
pub struct HeldCells<K: Kind> {
    bytes: Listed<i8>,
    side: IndexMap<u32, K::Held>,
    /// The cell whose value is open.
    due: Option<u32>,
    /// That value. It stays when the cell is settled, which takes one store.
    open: K::Held,
    left: u32,
    /// Where entries of the side table were seen.
    places: Places,
}

impl<K: Kind> Model for HeldCells<K> {
    ghost use Rattle.std.specs.Prelude.{length, option_map};
    ghost use Rattle.indexmap.specs.IndexMap.{spare};
    ghost use Rattle.held_cells.specs.Held.{AreHeldParts, HeldView, held_code, held_of};

    ghost Value = { HeldView K.Held };

    ghost coded = { held_code K.Held.code };

    ghost view = { λ c. record {
      held = held_of (record { small = K.small_of; from_small = K.held_of_small; fresh = K.fresh_held })
          (record {
            bytes = c.bytes.items;
            side = c.side.entries;
            spare = spare c.side;
            due = option_map (λ cell. (cell, c.open)) c.due;
            left = c.left;
          });
      due = c.due;
      left = c.left;
    } };

    ghost invariant = { λ c. AreHeldParts K.stands (record { small = K.small_of; from_small = K.held_of_small; fresh = K.fresh_held })
        (record {
          bytes = c.bytes.items;
          side = c.side.entries;
          spare = spare c.side;
          due = option_map (λ cell. (cell, c.open)) c.due;
          left = c.left;
        }) };
}

impl<K: Kind> HeldCells<K> {
    /// So many cells of which nothing was counted, with room for so many changes.
    pub fn new(alloc: Global, cells: u32, changes: u32) -> Result<HeldCells<K>, NoMemory>
        ensures held { IfOk result (λ held. held.held ≡ replicate cells K.fresh_held) }
        ensures idle { IfOk result (λ held. held.due ≡ None) }
        ensures left { IfOk result (λ held. held.left ≡ changes) }
    {
        let bytes = Listed::filled(alloc, cells, 0)?;
        let places = Places::new(alloc)?;
        match IndexMap::with_capacity(alloc, cells.min(changes) as usize) {
            Ok(side) => Ok(HeldCells {
                bytes,
                side,
                due: None,
                open: K::fresh(),
                left: changes,
                places,
            }),
            Err(_) => Err(NoMemory),
        }
    }

    /// What is held of the cell.
    pub fn get(&self, cell: u32) -> K::Held
        requires { cell < length self.now.held }
        ensures value { slice_get self.now.held cell ≡ Some result }
        ensures stands { (told : ℤ) × (whole : ℤ) × K.stands result told whole }
    {
        match self.due {
            Some(due) if due == cell => self.open,
            _ => kept::<K>(&self.bytes, &self.side, cell),
        }
    }

    /// The same, where no value is open.
    pub fn value(&self, cell: u32) -> K::Held
        requires idle { self.now.due ≡ None }
        requires cell { cell < length self.now.held }
        ensures value { slice_get self.now.held cell ≡ Some result }
        ensures stands { (told : ℤ) × (whole : ℤ) × K.stands result told whole }
    {
        kept::<K>(&self.bytes, &self.side, cell)
    }

    /// The same, of the cell that is changed next: its change looks nothing up.
    #[inline(always)]
    pub fn look_up(&mut self, cell: u32) -> K::Held
        requires idle { self.old.due ≡ None }
        requires cell { cell < length self.old.held }
        ensures value { slice_get self.old.held cell ≡ Some result }
        ensures stands { (told : ℤ) × (whole : ℤ) × K.stands result told whole }
        ensures same { self.new ≡ self.old }
    {
        kept_near::<K>(&self.bytes, &self.side, cell, &mut self.places)
    }

    /// The open value.
    #[inline(always)]
    pub fn due(&self) -> K::Held
        requires { IsSome self.now.due }
        ensures value { (cell : ℕ) → self.now.due ≡ Some cell → (cell < length self.now.held)
            × (slice_get self.now.held cell ≡ Some result) }
        ensures stands { (told : ℤ) × (whole : ℤ) × K.stands result told whole }
    {
        match self.due {
            Some(_) => self.open,
            None => unreachable!(),
        }
    }

    /// Holds a value of the cell, and leaves it open.
    #[inline(always)]
    pub fn put_due(&mut self, cell: u32, held: K::Held)
        requires idle { self.old.due ≡ None }
        requires left { 0 < self.old.left }
        requires cell { cell < length self.old.held }
        requires stands { (told : ℤ) × (whole : ℤ) × K.stands held told whole }
        ensures held { self.new.held ≡ slice_set self.old.held cell held }
        ensures due { self.new.due ≡ Some cell }
        ensures left { self.new.left ≡ self.old.left }
    {
        self.bytes.set(cell, byte_for::<K>(held));
        self.due = Some(cell);
        self.open = held;
    }

    /// Holds a value of the cell. This is one change.
    #[inline(always)]
    pub fn set(&mut self, cell: u32, held: K::Held)
        requires idle { self.old.due ≡ None }
        requires left { 0 < self.old.left }
        requires cell { cell < length self.old.held }
        requires stands { (told : ℤ) × (whole : ℤ) × K.stands held told whole }
        ensures held { self.new.held ≡ slice_set self.old.held cell held }
        ensures idle { self.new.due ≡ None }
        ensures left { self.new.left + 1 ≡ self.old.left }
    {
        hold::<K>(&mut self.bytes, &mut self.side, &self.places, cell, held);
        self.left -= 1;
    }

    /// Holds this value of the cell that is due. This is one change.
    #[inline(always)]
    pub fn settle(&mut self, held: K::Held)
        requires due { IsSome self.old.due }
        requires stands { (told : ℤ) × (whole : ℤ) × K.stands held told whole }
        ensures held { (cell : ℕ) → self.old.due ≡ Some cell → self.new.held ≡ slice_set self.old.held cell held }
        ensures idle { self.new.due ≡ None }
        ensures left { self.new.left + 1 ≡ self.old.left }
    {
        match self.due {
            Some(cell) => {
                hold::<K>(&mut self.bytes, &mut self.side, &self.places, cell, held);
                self.due = None;
                self.left -= 1;
            }
            None => unreachable!(),
        }
    }

    /// Holds the open value, whose byte is told already. This is one change.
    #[inline(always)]
    pub fn keep_due(&mut self)
        requires due { IsSome self.old.due }
        ensures held { self.new.held ≡ self.old.held }
        ensures idle { self.new.due ≡ None }
        ensures left { self.new.left + 1 ≡ self.old.left }
    {
        match self.due {
            Some(cell) => {
                keep::<K>(&mut self.side, &self.places, cell, self.open);
                self.due = None;
                self.left -= 1;
            }
            None => unreachable!(),
        }
    }

    /// Whether a value is open.
    pub fn is_due(&self) -> bool
        ensures { result ≡ is_some self.now.due }
    {
        self.due.is_some()
    }

    /// How many changes are left.
    pub fn left(&self) -> u32
        ensures { result ≡ self.now.left }
    {
        self.left
    }

    /// One byte a cell: the small form of what is held, or -128 where there is none.
    pub fn small_bytes(&self) -> &[i8]
        ensures { result.now ≡ map (λ held. byte_of (K.small_of held)) self.now.held }
    {
        self.bytes.as_slice()
    }

    /// How many held values have no small form.
    pub fn wide(&self) -> u32
        ensures { result ≡ count_by (λ held. is_none (K.small_of held)) self.now.held }
    {
        let mut wide = 0;
        for cell in 0..self.bytes.len() {
            if *self.bytes.get(cell) == MARK {
                wide += 1;
            }
        }
        wide
    }
}

// What byte and side table tell of the cell.
fn kept<K: Kind>(bytes: &Listed<i8>, side: &IndexMap<u32, K::Held>, cell: u32) -> K::Held
    requires cell { cell < length bytes.now.items }
    requires tells { (held : K.Held)
        × IsByteOf K.stands (record { small = K.small_of; from_small = K.held_of_small; fresh = K.fresh_held }) held
        (get_or bytes.now.items cell mark) }
    ensures { result ≡ kept_at (record {
      small = K.small_of;
      from_small = K.held_of_small;
      fresh = K.fresh_held;
    }) bytes.now.items side.now.entries cell }
{
    let byte = *bytes.get(cell);
    if byte != MARK {
        return K::from_small(byte);
    }
    match beside(side, cell) {
        Some(held) => held,
        None => K::fresh(),
    }
}

// The same. Where the side table was asked, the place of its entry is noted.
#[inline(always)]
fn kept_near<K: Kind>(
    bytes: &Listed<i8>,
    side: &IndexMap<u32, K::Held>,
    cell: u32,
    places: &mut Places,
) -> K::Held
    requires cell { cell < length bytes.now.items }
    requires tells { (held : K.Held)
        × IsByteOf K.stands (record { small = K.small_of; from_small = K.held_of_small; fresh = K.fresh_held }) held
        (get_or bytes.now.items cell mark) }
    ensures { result ≡ kept_at (record {
      small = K.small_of;
      from_small = K.held_of_small;
      fresh = K.fresh_held;
    }) bytes.now.items side.now.entries cell }
{
    let byte = *bytes.get(cell);
    if byte != MARK {
        return K::from_small(byte);
    }
    match beside_near(side, cell, places) {
        Some(held) => held,
        None => K::fresh(),
    }
}

// Holds this value of the cell: its byte, and the value beside it where there is no small form. The
// places tell where the cell's entry may stand.
#[inline(always)]
fn hold<K: Kind>(
    bytes: &mut Listed<i8>,
    side: &mut IndexMap<u32, K::Held>,
    places: &Places,
    cell: u32,
    held: K::Held,
)
    requires cell { cell < length bytes.old.items }
    requires stands { (told : ℤ) × (whole : ℤ) × K.stands held told whole }
    requires room { get nat_eq side.old cell ≡ None → 0 < spare side.old }
    requires unique { IsUnique nat_eq side.old }
    ensures bytes { bytes.new.items ≡ slice_set bytes.old.items cell (byte_of (K.small_of held)) }
    ensures side { IsHeldBeside (K.small_of held) side.old.entries (spare side.old) cell held side.new.entries (spare side.new) }
{
    match K::small(held) {
        Some(byte) => bytes.set(cell, byte),
        None => {
            bytes.set(cell, MARK);
            put(side, places.of(cell), cell, held);
        }
    }
}

// The same, where the byte is told already.
#[inline(always)]
fn keep<K: Kind>(side: &mut IndexMap<u32, K::Held>, places: &Places, cell: u32, held: K::Held)
    requires stands { (told : ℤ) × (whole : ℤ) × K.stands held told whole }
    requires room { get nat_eq side.old cell ≡ None → 0 < spare side.old }
    requires unique { IsUnique nat_eq side.old }
    ensures { IsHeldBeside (K.small_of held) side.old.entries (spare side.old) cell held side.new.entries (spare side.new) }
{
    if K::small(held).is_none() {
        put(side, places.of(cell), cell, held);
    }
}

// The byte that tells the small form of a held value.
fn byte_for<K: Kind>(held: K::Held) -> i8
    requires { (told : ℤ) × (whole : ℤ) × K.stands held told whole }
    ensures { result ≡ byte_of (K.small_of held) }
{
    match K::small(held) {
        Some(byte) => byte,
        None => MARK,
    }
}
