//! Where entries of a side table were seen.
ghost use Rattle.std.specs.Prelude.{◌≡◌, IfOk, length};

use flow_base::NoMemory;
use listed::Listed;
use std::alloc::Global;

/// How many places are noted: one for 32 cells of the largest shape.
const PLACES: u32 = 16384;

/// For each cell, where the entry stood that was seen last of the cells that share its note. A note
/// is a guess: who reads it looks whether the cell's entry stands there.
#[derive(Drop)]
pub struct Places {
    places: Listed<u32>,
    ghost sized: { length places.items ≡ 16384 },
}

impl Places {
    /// No entry was seen yet.
    pub fn new(alloc: Global) -> Result<Places, NoMemory> {
        let places = Listed::filled(alloc, PLACES, 0)?;
        Ok(Places { places })
    }

    /// Where the cell's entry may stand.
    #[inline(always)]
    pub fn of(&self, cell: u32) -> usize {
        *self.places.get(cell % PLACES) as usize
    }

    /// Notes where the cell's entry stands.
    #[inline(always)]
    pub fn note(&mut self, cell: u32, place: usize) {
        if let Ok(place) = u32::try_from(place) {
            self.places.set(cell % PLACES, place);
        }
    }
}
