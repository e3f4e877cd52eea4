ghost use Rattle.std.specs.Prelude.{◌≡◌, ◌<◌, ◌≤◌, ◌+◌, ◌++◌, ◌∷◌, [], true, false, List, length, slice_get, Some, IfOk, IsTrue};
ghost use Rattle.indexmap.specs.IndexMap.{keys as keys_of_map, spare};
ghost use Rattle.heavy_keys.specs.Noted.{fresh_table, is_due, noted};
ghost use Rattle.heavy_keys.specs.Live.{HoldsLive};
ghost use Rattle.heavy_keys.specs.Slots.{AreSlotted};
ghost use Rattle.hash_rows.specs.declared.shape.Flow.{Flow};
ghost use Rattle.push_history.specs.LiveHeavy.{is_among};

use crate::cache::{SLOTS, slot_of};
use flow_base::NoMemory;
use indexmap::IndexMap;
use listed::Listed;
use packet_key::{FlowKey, same_key};
use std::alloc::Global;
use std::marker::Model;

/// The first keys whose estimate reached `least`, in the order in which they came, and how often
/// a further key found no room.
#[derive(Drop)]
pub struct Heavy {
    keys: IndexMap<FlowKey, ()>,
    // In the slot of each key one more than the place of the one that came last, by which most keys
    // are found at once, and one whose slot is empty isn't looked up.
    slots: Listed<u32>,
    missed: u64,
    limit: u32,
    least: i64,
}

impl Model for Heavy {
    ghost use Rattle.std.specs.Prelude.{ℕ, ◌≡◌, ◌≤◌, ◌+◌, length};
    ghost use Rattle.indexmap.specs.IndexMap.{keys as keys_of_map, spare};
    ghost use Rattle.heavy_keys.specs.Noted.{HeavyTable};
    ghost use Rattle.heavy_keys.specs.Slots.{AreSlotted};

    ghost Value = { HeavyTable };

    ghost view = { λ h. record { keys = keys_of_map h.keys; missed = h.missed; limit = h.limit; least = h.least } };

    ghost invariant = { λ h. (length (keys_of_map h.keys) ≤ h.limit) × (h.limit ≤ length (keys_of_map h.keys) + spare h.keys)
        × (length h.slots.items ≡ 16384) × AreSlotted h.slots.items (keys_of_map h.keys) };
}

impl Heavy {
    /// A table with room for `limit` keys, 1 to 1,024, whose estimates are at least `least`.
    pub fn new(alloc: Global, limit: u32, least: i64) -> Result<Heavy, NoMemory>
        requires { (1 ≤ limit) × (limit ≤ 1024) }
        ensures fresh { IfOk result (λ table. table ≡ fresh_table limit least) }
        ensures live { IfOk result (λ table. HoldsLive table []) }
    {
        let slots = Listed::filled(alloc, SLOTS, 0)?;
        match IndexMap::with_capacity(alloc, limit as usize) {
            Ok(keys) => Ok(Heavy {
                keys,
                slots,
                missed: 0,
                limit,
                least,
            }),
            Err(_) => Err(NoMemory),
        }
    }

    /// Notes a key with its estimate. It takes no memory.
    pub fn note(&mut self, key: FlowKey, estimate: i64)
        ensures noted { self.new ≡ noted self.old key estimate }
        ensures live { (notes : List Flow) → HoldsLive self.old notes
            → HoldsLive self.new (notes ++ record { key = key; estimate = estimate } ∷ []) }
    {
        if self.is_due(&key, estimate) {
            if self.keys.len() < self.limit as usize {
                add_last(&mut self.keys, &mut self.slots, key);
            } else {
                self.missed = self.missed.saturating_add(1);
            }
        }
    }

    // Whether a key with this estimate is heavy and isn't there yet.
    fn is_due(&self, key: &FlowKey, estimate: i64) -> bool
        ensures { result ≡ is_due self.now key.now estimate }
    {
        self.least <= estimate && !self.has_key(key)
    }

    fn has_key(&self, key: &FlowKey) -> bool
        ensures { result ≡ is_among self.now.keys key.now }
    {
        let behind = *self.slots.get(slot_of(key));
        behind > 0 && self.is_held(key, behind - 1)
    }

    // Whether the key is there. It may stand at the place. It stands apart, so that a key whose slot is
    // empty takes little.
    #[inline(never)]
    fn is_held(&self, key: &FlowKey, place: u32) -> bool
        ensures { result ≡ is_among self.now.keys key.now }
    {
        self.is_at(place, key) || self.keys.contains_key(key)
    }

    // Whether the key stands at the place. One that doesn't may stand elsewhere.
    fn is_at(&self, place: u32, key: &FlowKey) -> bool
        ensures { IsTrue result → is_among self.now.keys key.now ≡ true }
    {
        match self.keys.get_index(place as usize) {
            Some((known, _)) => same_key(known, key),
            None => false,
        }
    }

    pub fn len(&self) -> u32
        ensures { result ≡ length self.now.keys }
    {
        let _limit = self.limit;
        self.keys.len() as u32
    }

    pub fn entry(&self, place: u32) -> FlowKey
        requires { place < length self.now.keys }
        ensures { slice_get self.now.keys place ≡ Some result }
    {
        match self.keys.get_index(place as usize) {
            Some((key, _)) => *key,
            None => unreachable!(),
        }
    }

    /// How often a key whose estimate reached `least` found no room.
    pub fn missed(&self) -> u64
        ensures { result ≡ self.now.missed }
    {
        self.missed
    }

    /// Makes a fresh table the same as the other. It takes no memory.
    pub fn copy_from(&mut self, other: &Heavy)
        requires { self.old ≡ fresh_table other.now.limit other.now.least }
        ensures { self.new ≡ other.now }
    {
        copy_keys(&mut self.keys, &mut self.slots, &other.keys);
        self.missed = other.missed;
    }
}

// Adds a key that isn't there, and fills its slot. There is room, so this takes no memory.
fn add_last(keys: &mut IndexMap<FlowKey, ()>, slots: &mut Listed<u32>, key: FlowKey)
    requires room { 0 < spare keys.old }
    requires absent { is_among (keys_of_map keys.old) key ≡ false }
    requires slots { length slots.old.items ≡ 16384 }
    requires slotted { AreSlotted slots.old.items (keys_of_map keys.old) }
    ensures keys { keys_of_map keys.new ≡ keys_of_map keys.old ++ key ∷ [] }
    ensures spare { spare keys.old ≤ spare keys.new + 1 }
    ensures slots { length slots.new.items ≡ 16384 }
    ensures slotted { AreSlotted slots.new.items (keys_of_map keys.new) }
{
    let behind = u32::try_from(keys.len()).unwrap_or(0).saturating_add(1);
    slots.set(slot_of(&key), behind);
    let _ = keys.insert(key, ());
}

// Adds the keys of the other map, in order. There is room, so this takes no memory.
fn copy_keys(
    keys: &mut IndexMap<FlowKey, ()>,
    slots: &mut Listed<u32>,
    other: &IndexMap<FlowKey, ()>,
)
    requires none { keys_of_map keys.old ≡ [] }
    requires room { length (keys_of_map other.now) ≤ spare keys.old }
    requires slots { length slots.old.items ≡ 16384 }
    requires slotted { AreSlotted slots.old.items (keys_of_map keys.old) }
    ensures keys { keys_of_map keys.new ≡ keys_of_map other.now }
    ensures spare { spare keys.old ≤ spare keys.new + length (keys_of_map other.now) }
    ensures slots { length slots.new.items ≡ 16384 }
    ensures slotted { AreSlotted slots.new.items (keys_of_map keys.new) }
{
    for place in 0..other.len() {
        match other.get_index(place) {
            Some((key, _)) => add_last(keys, slots, *key),
            None => unreachable!(),
        }
    }
}
