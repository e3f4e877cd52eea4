ghost use Rattle.std.specs.Prelude.{◌≡◌, ◌<◌, ◌≤◌, ◌+◌, length, IfOk, slice_set, slice_index_or};
ghost use Rattle.heavy_keys.specs.Noted.{noted};
ghost use Rattle.live_state.specs.Tallies.{fresh_tally, counted, key_noted_in};
ghost use Rattle.live_state.specs.Fold.{front_raised};

use crate::copies::copy_counts_into;
use flow_base::NoMemory;
use hash_rows::Counts;
use heavy_keys::Heavy;
use listed::Listed;
use packet_key::FlowKey;
use std::alloc::Global;
use std::marker::Model;

/// What a state holds beside its cells.
#[derive(Drop)]
pub struct Tally {
    front: Counts,
    upto: Counts,
    folded: u64,
    heavy: Heavy,
}

impl Model for Tally {
    ghost use Rattle.std.specs.Prelude.{◌≡◌, length};
    ghost use Rattle.live_state.specs.Tallies.{Tallied};

    ghost Value = { Tallied };

    ghost view = { λ t. record { front = t.front.items; upto = t.upto.items; folded = t.folded; heavy = t.heavy } };

    ghost invariant = { λ t. length t.upto.items ≡ length t.front.items };
}

impl Tally {
    /// No message.
    pub fn new(alloc: Global, workers: u32, heavy: u32, least: i64) -> Result<Tally, NoMemory>
        requires { (1 ≤ heavy) × (heavy ≤ 1024) }
        ensures { IfOk result (λ tally. tally ≡ fresh_tally workers heavy least) }
    {
        Ok(Tally {
            front: Listed::filled(alloc, workers, 0)?,
            upto: Listed::filled(alloc, workers, 0)?,
            folded: 0,
            heavy: Heavy::new(alloc, heavy, least)?,
        })
    }

    /// Counts a message of the worker.
    pub fn count(&mut self, worker: u32, update: u32)
        requires { worker < length self.old.front }
        ensures { self.new ≡ counted self.old worker update }
    {
        raise(&mut self.front, worker);
        self.upto.set(worker, u64::from(update) + 1);
        self.folded = self.folded.saturating_add(1);
    }

    /// Notes a key with its estimate.
    pub fn note(&mut self, key: &FlowKey, estimate: i64)
        ensures { self.new ≡ key_noted_in self.old key.now estimate }
    {
        self.heavy.note(*key, estimate);
    }

    /// Makes a tally of no message the same as the other. It takes no memory.
    pub fn copy_from(&mut self, other: &Tally)
        requires { self.old ≡ fresh_tally (length other.now.front) other.now.heavy.limit other.now.heavy.least }
        ensures { self.new ≡ other.now }
    {
        copy_counts_into(other.front.as_slice(), &mut self.front);
        copy_counts_into(other.upto.as_slice(), &mut self.upto);
        self.folded = other.folded;
        self.heavy.copy_from(&other.heavy);
    }

    /// The number of workers.
    pub fn workers(&self) -> u32
        ensures { result ≡ length self.now.front }
    {
        self.front.len()
    }

    pub fn front(&self) -> &[u64]
        ensures { result.now ≡ self.now.front }
    {
        self.front.as_slice()
    }

    pub fn upto(&self) -> &[u64]
        ensures counts { result.now ≡ self.now.upto }
        ensures workers { length self.now.upto ≡ length self.now.front }
    {
        self.upto.as_slice()
    }

    pub fn folded(&self) -> u64
        ensures { result ≡ self.now.folded }
    {
        self.folded
    }

    pub fn heavy(&self) -> &Heavy
        ensures { result.now ≡ self.now.heavy }
    {
        &self.heavy
    }
}

// Counts one message more of the worker.
fn raise(front: &mut Counts, worker: u32)
    requires { worker < length front.old.items }
    ensures items { front.new.items ≡ front_raised front.old.items worker }
    ensures room { front.new.room ≡ front.old.room }
{
    let more = front.get(worker).saturating_add(1);
    front.set(worker, more);
}
