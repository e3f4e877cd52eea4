ghost use Rattle.std.specs.Prelude.{◌≡◌, ◌<◌, ◌/◌, ◌^◌, length, map, Contains, IsTrue};
ghost use Rattle.heavy_keys.specs.Slots.{slot_number};

use crate::flow_keys::fingerprint;
use hash_rows::Packet;
use listed::Listed;
use packet_key::{FlowKey, same_key};

/// How many slots a cache has.
pub const SLOTS: u32 = 16384;

/// A cache of places by their keys: in each slot a place, and in front of it a mark of its key.
pub type Cache = Listed<u64>;

// So many places, and so many marks, can be told apart.
const ROOM: u64 = 4294967296;

/// Whether the cache has a packet before that has the key, by the key's fingerprint. Where it has
/// none, the place behind those packets is kept, which is that of the key's own packet.
#[inline(always)]
pub fn is_cached(cache: &mut Cache, before: &[Packet], key: &FlowKey, hash: u64) -> bool
    requires { length cache.old.items ≡ 16384 }
    ensures len { length cache.new.items ≡ 16384 }
    ensures known { IsTrue result → Contains (map (λ p. p.key) before.now) key.now }
{
    let mark = (hash >> 18) % ROOM;
    let kept = *cache.get(slot_in(hash));
    if kept / ROOM == mark && has_key_at(before, (kept % ROOM) as u32, key) {
        return true;
    }
    cache.set(slot_in(hash), mark * ROOM + before.len() as u64 % ROOM);
    false
}

// Whether a packet stands at the place and has the key.
fn has_key_at(packets: &[Packet], place: u32, key: &FlowKey) -> bool
    ensures { IsTrue result → Contains (map (λ p. p.key) packets.now) key.now }
{
    let place = place as usize;
    place < packets.len() && same_key(&packets[place].key, key)
}

/// The slot of a key.
pub fn slot_of(key: &FlowKey) -> u32
    ensures slot { result ≡ slot_number key.now }
    ensures within { result < 16384 }
{
    slot_in(fingerprint(key))
}

fn slot_in(hash: u64) -> u32
    ensures slot { result ≡ hash / 2 ^ 50 }
    ensures within { result < 16384 }
{
    (hash >> 50) as u32
}
