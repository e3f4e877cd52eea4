ghost use Rattle.std.specs.Prelude.{◌≡◌, ◌≤◌, ◌<◌, ℕ, List, All, length, replicate, slice_set, IfOk, slice_index_or};
ghost use Rattle.hash_rows.specs.Shapes.{IsShape};
ghost use Rattle.hash_rows.specs.declared.shape.Push.{Push};
ghost use Rattle.told_table.specs.Tables.{lists_of};
ghost use Rattle.push_history.specs.LawfulJournal.{sent_by};
ghost use Rattle.answer_audit.specs.Reached.{AreSent, HasReached, IsMessageFor, IsWithinSent};

use flow_base::NoMemory;
use hash_rows::{Counts, Kind, Push, Shape, Table};
use listed::Listed;
use std::alloc::Global;
use told_table::tell_all;

/// A table of the first messages of each worker, and of how many.
#[derive(Drop)]
pub struct Reached<K: Kind> {
    pub table: Table<K>,
    pub front: Counts,
}

impl<K: Kind> Reached<K> {
    /// The table of no messages.
    pub fn new(alloc: Global, shape: Shape, workers: u32) -> Result<Reached<K>, NoMemory>
        requires { IsShape shape }
        ensures shape { IfOk result (λ reached. reached.table.shape ≡ shape) }
        ensures front { IfOk result (λ reached. reached.front.items ≡ replicate workers 0) }
        ensures none { (messages : List (List Push))
            → IfOk result (λ reached. HasReached K.rules messages reached.front.items reached.table) }
    {
        let table = Table::new(alloc, shape)?;
        let front = Listed::filled(alloc, workers, 0)?;
        Ok(Reached { table, front })
    }

    /// Tells the messages behind the front reached before, up to this one.
    pub fn reach(&mut self, messages: &[Vec<Push>], front: &[u64])
        requires workers { length self.old.front.items ≡ length messages.now }
        requires len { length front.now ≡ length messages.now }
        requires few { length messages.now ≤ 16 }
        requires sent { AreSent K.rules self.old.table.shape (lists_of messages.now) }
        requires within { IsWithinSent (lists_of messages.now) front.now }
        requires rising { (w : ℕ) → slice_index_or self.old.front.items w 0 ≤ slice_index_or front.now w 0 }
        ensures shape { self.new.table.shape ≡ self.old.table.shape }
        ensures front { self.new.front.items ≡ front.now }
        ensures reached { HasReached K.rules (lists_of messages.now) self.old.front.items self.old.table
            → HasReached K.rules (lists_of messages.now) self.new.front.items self.new.table }
    {
        for worker in 0..self.front.len() {
            self.reach_of(&messages[worker as usize], worker, front[worker as usize]);
        }
    }

    // Tells those of one worker, up to so many.
    fn reach_of(&mut self, sent: &[Push], worker: u32, number: u64)
        requires worker { worker < length self.old.front.items }
        requires within { number ≤ length sent.now }
        requires rising { slice_index_or self.old.front.items worker 0 ≤ number }
        requires fit { All (IsMessageFor K.rules self.old.table.shape worker) sent.now }
        ensures shape { self.new.table.shape ≡ self.old.table.shape }
        ensures front { self.new.front.items ≡ slice_set self.old.front.items worker number }
        ensures reached { (messages : List (List Push)) → length messages ≡ length self.old.front.items → sent_by messages worker ≡ sent.now
            → HasReached K.rules messages self.old.front.items self.old.table
            → HasReached K.rules messages self.new.front.items self.new.table }
    {
        let start = *self.front.get(worker) as usize;
        tell_all(&mut self.table, &sent[start..number as usize]);
        self.front.set(worker, number);
    }
}
