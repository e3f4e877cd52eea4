ghost use Rattle.std.specs.Prelude.{◌≡◌, ◌≤◌, ◌<◌, ◌+◌, ◌/◌, ◌++◌, ◌∷◌, [], List, length, map, IfOk, OnOk};
ghost use Rattle.packet_key.specs.declared.key.FlowKey.{FlowKey};
ghost use Rattle.heavy_keys.specs.Candidates.{AreFound, AreFoundUpTo, key_of_place};
ghost use Rattle.heavy_keys.specs.Buckets.{AreBuckets};
ghost use Rattle.heavy_keys.specs.declared.candidates.Candidate.{Candidate};
ghost use Rattle.heavy_keys.specs.Fingerprints.{fingerprint_of};

use crate::buckets::Buckets;
use crate::cache::{Cache, SLOTS, is_cached};
use crate::flow_keys::fingerprint;
use crate::top_flows::{TopFlows, offer};
use flow_base::NoMemory;
use hash_rows::{Estimates, Packet};
use packet_key::FlowKey;
use std::alloc::Global;

// One packet in so many is weighed before all of them.
const SAMPLED: usize = 256;

/// A packet whose key is heavy: the high half of its key's fingerprint, and where the packet stands.
#[derive(Clone, Copy)]
pub struct Candidate {
    pub fingerprint: u32,
    pub place: u32,
}

/// Candidates for heavy keys, among them at least one of each key, and the first of their ranks.
#[derive(Drop)]
pub struct Found {
    pub buckets: Buckets,
    pub top: TopFlows,
    cache: Cache,
}

/// The packets whose keys are heavy, without most of those whose key a packet before has.
pub fn find<E: Estimates>(
    alloc: Global,
    packets: &[Packet],
    estimates: &E,
    least: i64,
    most: u32,
) -> Result<Found, NoMemory>
    ensures { IfOk result (λ found. AreFound (E.estimate_of estimates.now) least most packets.now
        (map (λ p. p.key) packets.now) found.buckets.lists.items found.top.keys) }
{
    let mut found = Found {
        buckets: Buckets::new(alloc)?,
        top: TopFlows::new(alloc),
        cache: Cache::filled(alloc, SLOTS, 0)?,
    };
    found.sample(packets, estimates, least, most)?;
    for at in 0..packets.len() {
        found.note(packets, at, estimates, least, most)?;
    }
    Ok(found)
}

impl Found {
    // Weighs one packet in so many before all of them. So few ranks are put among the top later,
    // also where each key is before the one that came before it.
    fn sample<E: Estimates>(
        &mut self,
        packets: &[Packet],
        estimates: &E,
        least: i64,
        most: u32,
    ) -> Result<(), NoMemory>
        requires { length self.old.top.keys ≤ most }
        ensures cache { self.new.cache ≡ self.old.cache }
        ensures few { OnOk result (length self.new.top.keys ≤ most) }
        ensures found { OnOk result (AreFoundUpTo
            (E.estimate_of estimates.now) least most packets.now 0 self.old.buckets.lists.items self.old.top.keys
            → AreFoundUpTo (E.estimate_of estimates.now) least most packets.now 0 self.new.buckets.lists.items self.new.top.keys) }
    {
        for step in 0..packets.len() / SAMPLED {
            let at = step * SAMPLED;
            self.weigh(
                packets,
                at,
                fingerprint(&packets[at].key),
                estimates,
                least,
                most,
            )?;
        }
        Ok(())
    }

    // Adds the packet at the place, unless its key isn't heavy, or a packet before is known to have it.
    #[inline(always)]
    fn note<E: Estimates>(
        &mut self,
        packets: &[Packet],
        at: usize,
        estimates: &E,
        least: i64,
        most: u32,
    ) -> Result<(), NoMemory>
        requires place { at < length packets.now }
        requires len { length self.old.cache.items ≡ 16384 }
        requires top { length self.old.top.keys ≤ most }
        ensures len { length self.new.cache.items ≡ 16384 }
        ensures few { OnOk result (length self.new.top.keys ≤ most) }
        ensures found { OnOk result (AreFoundUpTo
            (E.estimate_of estimates.now) least most packets.now at self.old.buckets.lists.items self.old.top.keys
            → AreFoundUpTo (E.estimate_of estimates.now) least most packets.now (at + 1) self.new.buckets.lists.items self.new.top.keys) }
    {
        let key = &packets[at].key;
        let hash = fingerprint(key);
        if is_cached(&mut self.cache, &packets[..at], key, hash) {
            return Ok(());
        }
        self.weigh(packets, at, hash, estimates, least, most)
    }

    // Adds the packet at the place, whose key has this fingerprint, unless its key isn't heavy.
    #[inline(always)]
    fn weigh<E: Estimates>(
        &mut self,
        packets: &[Packet],
        at: usize,
        hash: u64,
        estimates: &E,
        least: i64,
        most: u32,
    ) -> Result<(), NoMemory>
        requires place { at < length packets.now }
        requires hash { hash ≡ fingerprint_of (key_of_place packets.now at) }
        requires top { length self.old.top.keys ≤ most }
        ensures cache { self.new.cache ≡ self.old.cache }
        ensures few { OnOk result (length self.new.top.keys ≤ most) }
        ensures found { OnOk result ((keys : List FlowKey)
            → AreFound (E.estimate_of estimates.now) least most packets.now keys self.old.buckets.lists.items self.old.top.keys
            → AreFound (E.estimate_of estimates.now) least most packets.now
            (keys ++ key_of_place packets.now at ∷ []) self.new.buckets.lists.items self.new.top.keys) }
    {
        let key = &packets[at].key;
        let estimate = estimates.estimate_of(key);
        if estimate < least {
            return Ok(());
        }
        add(&mut self.buckets, at, hash)?;
        offer(&mut self.top, most, estimate, key)
    }
}

// Adds the packet with this place and this fingerprint of its key.
#[inline(always)]
fn add(buckets: &mut Buckets, at: usize, hash: u64) -> Result<(), NoMemory>
    ensures { OnOk result ((candidates : List Candidate) → AreBuckets candidates buckets.old.lists.items
        → AreBuckets (candidates ++ record { fingerprint = hash / 4294967296; place = at } ∷ []) buckets.new.lists.items) }
{
    let Ok(place) = u32::try_from(at) else {
        return Err(NoMemory);
    };
    let fingerprint = (hash >> 32) as u32;
    buckets.add(Candidate { fingerprint, place })
}
