ghost use Rattle.std.specs.Prelude.{◌≡◌, ◌<◌, ◌≤◌, ◌++◌, ◌∷◌, [], ℕ, OnOk, not, true, length, map, sum_by, filter, count_by, All, IfOk, slice_set};
ghost use Rattle.std.specs.Global.{Vec};
ghost use Rattle.std.specs.Set.{distinct_count};
ghost use Rattle.heavy_keys.specs.Candidates.{IsCandidate, candidate_key};
ghost use Rattle.heavy_keys.specs.SharedBits.{AreShared, bit_of, is_set, is_shared};
ghost use Rattle.heavy_keys.specs.declared.candidates.Candidate.{Candidate};
ghost use Rattle.push_history.specs.LiveHeavy.{same_key};

use crate::buckets::{Buckets, push};
use crate::candidates::Candidate;
use flow_base::NoMemory;
use hash_rows::{Bits, Packet};
use packet_key::FlowKey;
use std::alloc::Global;

// How many candidates have a bit that no other has, and the others.
#[derive(Drop)]
struct Parted {
    lone: usize,
    rest: Vec<Candidate>,
}

/// The numbers of different keys of the lists, added up. A sum that is too large is of more
/// candidates than memory has room for.
pub fn distinct_in_buckets(
    alloc: Global,
    packets: &[Packet],
    buckets: &Buckets,
) -> Result<u64, NoMemory>
    requires { All (λ (list : Vec Candidate). All (IsCandidate packets.now) list.items) buckets.now.lists.items }
    ensures { IfOk result (λ count. count ≡ sum_by
        (λ (list : Vec Candidate). distinct_count same_key (map (candidate_key packets.now) list.items)) buckets.now.lists.items) }
{
    let mut total = 0_u64;
    for list in &buckets.lists {
        let count = distinct_keys(alloc, packets, list)?;
        let Some(sum) = total.checked_add(count) else {
            return Err(NoMemory);
        };
        total = sum;
    }
    Ok(total)
}

// How many different keys the candidates have. Only the keys of those whose bits are shared are
// sorted, since the same key has the same bit.
fn distinct_keys(
    alloc: Global,
    packets: &[Packet],
    candidates: &[Candidate],
) -> Result<u64, NoMemory>
    requires { All (IsCandidate packets.now) candidates.now }
    ensures { IfOk result (λ count. count ≡ distinct_count same_key (map (candidate_key packets.now) candidates.now)) }
{
    if candidates.is_empty() {
        return Ok(0);
    }
    let shared = shared_bits(alloc, candidates)?;
    let Parted { lone, rest } = part(alloc, candidates, &shared)?;
    let mut keys = keys_of(alloc, packets, &rest)?;
    Ok(lone as u64 + distinct(&mut keys) as u64)
}

// How many bits there are for so many candidates: enough of them for few to be shared by chance.
fn bits_for(count: usize) -> u32
    ensures { 1024 ≤ result }
{
    (count.min(4194304) as u32 * 32).max(1024)
}

// The bit of a candidate. The top five bits of its fingerprint are those of the others in its list, so
// that the bits below them tell candidates apart.
#[inline(always)]
#[tactic(auto, unfolding(crate::specs::SharedBits::bit_of))]
fn bit_in(fingerprint: u32, len: u32) -> u32
    requires { 0 < len }
    ensures bit { result ≡ bit_of fingerprint len }
    ensures within { result < len }
{
    (u64::from(fingerprint) * 32 % 4294967296 * u64::from(len) / 4294967296) as u32
}

// Bits of which those are set whose fingerprint two of the candidates have. Few are, so that fewer bits
// serve for them than for all that were touched, and those are found sooner.
fn shared_bits(alloc: Global, candidates: &[Candidate]) -> Result<Bits, NoMemory>
    ensures some { IfOk result (λ bits. 0 < length bits) }
    ensures shared { IfOk result (λ bits. AreShared (length bits) candidates.now bits) }
{
    let len = bits_for(candidates.len());
    let mut touched = Bits::new(alloc, len)?;
    let mut shared = Bits::new(alloc, len / 8)?;
    for candidate in candidates {
        touch(&mut touched, &mut shared, candidate.fingerprint);
    }
    Ok(shared)
}

// Sets the bit of the fingerprint in the first, and where it is set there already, that in the second.
#[inline(always)]
fn touch(touched: &mut Bits, shared: &mut Bits, fingerprint: u32)
    requires touched { 0 < length touched.old }
    requires shared { 0 < length shared.old }
    ensures inside { bit_of fingerprint (length touched.old) < length touched.old }
    ensures touched { touched.new ≡ slice_set touched.old (bit_of fingerprint (length touched.old)) true }
    ensures again { is_set touched.old (bit_of fingerprint (length touched.old)) ≡ true
        → is_set shared.new (bit_of fingerprint (length shared.old)) ≡ true }
    ensures kept { (place : ℕ) → is_set shared.old place ≡ true → is_set shared.new place ≡ true }
    ensures length { length shared.new ≡ length shared.old }
{
    let bit = bit_in(fingerprint, touched.len());
    if touched.get(bit) {
        shared.set(bit_in(fingerprint, shared.len()));
    }
    touched.set(bit);
}

// The candidates parted by whether their bits are shared.
fn part(alloc: Global, candidates: &[Candidate], shared: &Bits) -> Result<Parted, NoMemory>
    requires { 0 < length shared.now }
    ensures lone { IfOk result (λ parted. parted.lone ≡ count_by (λ c. not (is_shared shared.now c)) candidates.now) }
    ensures rest { IfOk result (λ parted. parted.rest.items ≡ filter (is_shared shared.now) candidates.now) }
{
    let mut lone = 0;
    let mut rest = Vec::new(alloc);
    for candidate in candidates {
        if shared.get(bit_in(candidate.fingerprint, shared.len())) {
            push(&mut rest, *candidate)?;
        } else {
            lone += 1;
        }
    }
    Ok(Parted { lone, rest })
}

// The keys of the candidates. No branch hangs on what is read here, so that many packets are
// fetched at once.
fn keys_of(
    alloc: Global,
    packets: &[Packet],
    candidates: &[Candidate],
) -> Result<Vec<FlowKey>, NoMemory>
    requires { All (IsCandidate packets.now) candidates.now }
    ensures { IfOk result (λ keys. keys.items ≡ map (candidate_key packets.now) candidates.now) }
{
    let mut keys = Vec::new(alloc);
    for candidate in candidates {
        push(&mut keys, packets[candidate.place as usize].key)?;
    }
    Ok(keys)
}

// How many different keys there are.
fn distinct(keys: &mut Vec<FlowKey>) -> usize
    ensures { result ≡ distinct_count same_key keys.old.items }
{
    keys.sort_unstable();
    keys.dedup();
    keys.len()
}
