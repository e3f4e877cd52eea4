ghost use Rattle.std.specs.Prelude.{◌≡◌, ◌++◌, ◌∷◌, [], List, vec_len, IfOk, OnOk};
ghost use Rattle.heavy_keys.specs.declared.candidates.Candidate.{Candidate};
ghost use Rattle.heavy_keys.specs.Buckets.{AreBuckets};

use crate::candidates::Candidate;
use flow_base::NoMemory;
use std::alloc::Global;

// How many lists there are: one for each value of the top five bits.
const BUCKETS: usize = 32;

/// Candidates in lists by the top bits of their fingerprints. The same key has the same fingerprint, so that
/// each list can be counted by itself, with bits that fit the cache.
#[derive(Drop)]
pub struct Buckets {
    pub lists: Vec<Vec<Candidate>>,
    ghost count: { vec_len lists ≡ 32 },
}

impl Buckets {
    /// Lists without candidates.
    pub fn new(alloc: Global) -> Result<Buckets, NoMemory>
        ensures { IfOk result (λ buckets. AreBuckets [] buckets.lists.items) }
    {
        let mut lists = Vec::new(alloc);
        for _ in 0..BUCKETS {
            push(&mut lists, Vec::new(alloc))?;
        }
        Ok(Buckets { lists })
    }

    /// Adds the candidate to the list of its fingerprint.
    #[inline(always)]
    pub fn add(&mut self, candidate: Candidate) -> Result<(), NoMemory>
        ensures { OnOk result ((candidates : List Candidate) → AreBuckets candidates self.old.lists.items
            → AreBuckets (candidates ++ candidate ∷ []) self.new.lists.items) }
    {
        push(
            &mut self.lists[(candidate.fingerprint >> 27) as usize],
            candidate,
        )
    }
}

/// Adds the item at the end.
#[inline(always)]
pub fn push<T: Drop>(list: &mut Vec<T>, item: T) -> Result<(), NoMemory>
    ensures { OnOk result (list.new.items ≡ list.old.items ++ item ∷ []) }
{
    match list.push(item) {
        Ok(()) => Ok(()),
        Err(_) => Err(NoMemory),
    }
}
