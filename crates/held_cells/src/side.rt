ghost use Rattle.std.specs.Prelude.{◌≡◌, ◌<◌, ◌≤◌, ◌+◌, None, Some, IfSome, is_some, length, nat_eq, if◌then◌else◌, slice_get};
ghost use Rattle.indexmap.specs.IndexMap.{IsUnique, Updates, get, spare};

use crate::places::Places;
use indexmap::IndexMap;

/// The value at the cell.
pub fn beside<H: Copy>(side: &IndexMap<u32, H>, cell: u32) -> Option<H>
    ensures { result ≡ get nat_eq side.now cell }
{
    side.get(&cell).copied()
}

/// The same. Where the cell's entry stands at its place, nothing is looked up; otherwise the place is
/// noted.
#[inline(always)]
pub fn beside_near<H: Copy>(side: &IndexMap<u32, H>, cell: u32, places: &mut Places) -> Option<H>
    ensures { result ≡ get nat_eq side.now cell }
{
    match held_at(side, places.of(cell), cell) {
        Some(held) => Some(held),
        None => beside_by_key(side, cell, places),
    }
}

// The same, of a cell whose entry has to be looked up.
#[inline(never)]
fn beside_by_key<H: Copy>(side: &IndexMap<u32, H>, cell: u32, places: &mut Places) -> Option<H>
    ensures { result ≡ get nat_eq side.now cell }
{
    match side.get_full(&cell) {
        Some((place, _, held)) => {
            places.note(cell, place);
            Some(*held)
        }
        None => None,
    }
}

/// Puts a value at the cell, in the place of the one that was there. Where the cell's entry stands
/// at the place, nothing is looked up. It takes no memory: an entry is overwritten, since the map
/// promises no room back after a removal.
#[inline(always)]
pub fn put<H: Copy + Drop>(side: &mut IndexMap<u32, H>, place: usize, cell: u32, held: H)
    requires room { get nat_eq side.old cell ≡ None → 0 < spare side.old }
    ensures updates { Updates nat_eq side.old side.new cell (Some held) }
    ensures unique { IsUnique nat_eq side.new }
    ensures len { length side.new.entries ≡ length side.old.entries + (if is_some (get nat_eq side.old cell) then 0 else 1) }
    ensures room { spare side.old + length side.old.entries ≤ spare side.new + length side.new.entries }
{
    match held_at(side, place, cell) {
        Some(_) => put_at(side, place, cell, held),
        None => put_by_key(side, cell, held),
    }
}

// The value at the cell, if its entry stands at the place.
#[inline(always)]
fn held_at<H: Copy>(side: &IndexMap<u32, H>, place: usize, cell: u32) -> Option<H>
    ensures { IfSome result (λ held. (slice_get side.now.entries place ≡ Some (cell, held)) × (get nat_eq side.now cell ≡ Some held)) }
{
    match side.get_index(place) {
        Some((key, held)) if *key == cell => Some(*held),
        _ => None,
    }
}

// Puts a value at the cell, whose entry stands at the place.
#[inline(always)]
fn put_at<H: Copy + Drop>(side: &mut IndexMap<u32, H>, place: usize, cell: u32, held: H)
    requires { (was : H) × (slice_get side.old.entries place ≡ Some (cell, was)) × (get nat_eq side.old cell ≡ Some was) }
    ensures updates { Updates nat_eq side.old side.new cell (Some held) }
    ensures unique { IsUnique nat_eq side.new }
    ensures len { length side.new.entries ≡ length side.old.entries + (if is_some (get nat_eq side.old cell) then 0 else 1) }
    ensures room { spare side.old + length side.old.entries ≤ spare side.new + length side.new.entries }
{
    let (_, value) = side.pair_mut(place);
    *value = held;
}

// The same, of a cell whose entry has to be looked up.
#[inline(never)]
fn put_by_key<H: Copy + Drop>(side: &mut IndexMap<u32, H>, cell: u32, held: H)
    requires room { get nat_eq side.old cell ≡ None → 0 < spare side.old }
    ensures updates { Updates nat_eq side.old side.new cell (Some held) }
    ensures unique { IsUnique nat_eq side.new }
    ensures len { length side.new.entries ≡ length side.old.entries + (if is_some (get nat_eq side.old cell) then 0 else 1) }
    ensures room { spare side.old + length side.old.entries ≤ spare side.new + length side.new.entries }
{
    match side.get_mut(&cell) {
        Some(value) => *value = held,
        None => {
            let _ = side.insert(cell, held);
        }
    }
}
