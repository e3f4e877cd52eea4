//! A lane: one bounded queue of messages.
ghost use Rattle.std.specs.Prelude.{◌≡◌, ◌<◌, ◌≤◌, ◌^◌, ◌⊎◌, [], ◌∷◌, ◌++◌, List, length, IfOk, MatchBool, MatchResult, MatchOption};
ghost use Rattle.hash_rows.specs.declared.shape.Push.{Push};
ghost use Rattle.push_lane.specs.LaneHistory.{LaneHistory};
ghost use Rattle.push_lane.specs.Rule.{StartsWith};
ghost use Rattle.push_lane.specs.Views.{one_more_or_last};

use crate::passes::{BothPass, InPass, OutPass};
use crate::rule::{Drains, Ends, InOrder, Log, Sends, Takes};
use crossbeam_queue::RuledArrayQueue;
use flow_base::NoMemory;
use hash_rows::Push;
use std::alloc::Global;
use std::marker::Model;
use std::sync::Wait;
use std::thread;

type Line = RuledArrayQueue<Push, Log, InOrder>;

/// A bounded queue of messages with one end to push and one to take.
#[derive(Drop)]
pub struct Lane {
    queue: Line,
}

impl Model for Lane {
    ghost use Rattle.push_lane.specs.Views.{LaneView};
    ghost use Rattle.crossbeam_queue.specs.Passes.{ruled_capacity};

    ghost Value = { LaneView };

    ghost view = { λ l. record { id = l.queue.table.shared.table_id; capacity = ruled_capacity l.queue } };
}

impl Lane {
    /// An empty lane for so many messages, and its two ends.
    pub fn new<R: Wait>(
        _rt: &R,
        alloc: Global,
        capacity: u32,
    ) -> Result<(Lane, InPass, OutPass), NoMemory>
        requires { (1 ≤ capacity) × (capacity ≤ 4096) }
        ensures lane { IfOk result (λ r. r.0.capacity ≡ capacity) }
        ensures sent { IfOk result (λ r. (r.1.id ≡ r.0.id) × (r.1.sent ≡ []) × (r.1.fulls ≡ 0)) }
        ensures taken { IfOk result (λ r. (r.2.id ≡ r.0.id) × (r.2.taken ≡ [])) }
    {
        match Line::ruled(alloc, capacity as usize) {
            Ok((queue, mut writer)) => {
                let reader = queue.another::<Ends>(&mut writer);
                let sent = InPass {
                    pass: writer,
                    fulls: 0,
                };
                Ok((Lane { queue }, sent, OutPass { pass: reader }))
            }
            Err(_) => Err(NoMemory),
        }
    }

    /// Whether the lane is full. Where it is, one try more is counted that the lane refused. Who asks
    /// first makes no message that comes back.
    #[inline(always)]
    pub fn refuses(&self, pass: &mut InPass) -> bool
        requires { pass.old.id ≡ self.now.id }
        ensures lane { pass.new.id ≡ pass.old.id }
        ensures sent { pass.new.sent ≡ pass.old.sent }
        ensures fulls { MatchBool result
            ((pass.new.fulls ≡ one_more_or_last pass.old.fulls) × (self.now.capacity ≤ length pass.old.sent))
            (pass.new.fulls ≡ pass.old.fulls) }
    {
        if self.queue.is_full_as::<Sends>(&mut pass.pass) {
            pass.fulls = pass.fulls.saturating_add(1);
            return true;
        }
        false
    }

    /// Sends the message. Where it comes back, as many messages as the lane has room for were sent
    /// before, and one try more is counted that the lane refused.
    #[inline(always)]
    pub fn push<R: Wait>(&self, rt: &R, pass: &mut InPass, message: Push) -> Result<(), Push>
        requires lane { pass.old.id ≡ self.now.id }
        requires room { length pass.old.sent < 2 ^ 32 }
        ensures lane { pass.new.id ≡ pass.old.id }
        ensures sent { MatchResult result
            (λ _. (pass.new.sent ≡ pass.old.sent ++ message ∷ []) × (pass.new.fulls ≡ pass.old.fulls))
            (λ back. (back ≡ message) × (pass.new.sent ≡ pass.old.sent) × (pass.new.fulls ≡ one_more_or_last pass.old.fulls)
            × (self.now.capacity ≤ length pass.old.sent)) }
    {
        // A full lane costs two loads.
        if self.refuses(pass) {
            return Err(message);
        }
        let back = self.queue.push_as::<Sends, R>(rt, &mut pass.pass, message);
        if back.is_err() {
            pass.fulls = pass.fulls.saturating_add(1);
        }
        back
    }

    /// Tries until the message is sent. Each try that the lane refuses is counted.
    pub fn push_wait<R: Wait>(&self, rt: &R, pass: &mut InPass, message: Push)
        requires lane { pass.old.id ≡ self.now.id }
        requires room { length pass.old.sent < 2 ^ 32 }
        ensures lane { pass.new.id ≡ pass.old.id }
        ensures sent { pass.new.sent ≡ pass.old.sent ++ message ∷ [] }
        ensures fulls { pass.old.fulls ≤ pass.new.fulls }
        ensures full { (pass.new.fulls ≡ pass.old.fulls) ⊎ (self.now.capacity ≤ length pass.old.sent) }
    {
        for _ in rt.forever() {
            match self.push(rt, pass, message) {
                Ok(()) => return,
                Err(_) => thread::yield_now(),
            }
        }
        unreachable!()
    }

    /// Takes the oldest message of those that were sent and not taken, or none.
    pub fn take<R: Wait>(&self, rt: &R, pass: &mut OutPass) -> Option<Push>
        requires { pass.old.id ≡ self.now.id }
        ensures lane { pass.new.id ≡ pass.old.id }
        ensures taken { MatchOption result (pass.new.taken ≡ pass.old.taken) (λ message. pass.new.taken ≡ pass.old.taken ++ message ∷ []) }
    {
        self.queue.pop_as::<Takes, R>(rt, &mut pass.pass)
    }

    /// Makes the two ends one, which knows what was sent and what was taken.
    pub fn take_in<R: Wait>(&self, rt: &R, sent: InPass, taken: OutPass) -> BothPass
        requires { (sent.id ≡ self.now.id) × (taken.id ≡ self.now.id) }
        ensures lane { result.id ≡ self.now.id }
        ensures lists { (result.sent ≡ sent.sent) × (result.taken ≡ taken.taken) × (result.fulls ≡ sent.fulls) }
        ensures order { StartsWith result.sent result.taken }
        ensures held { (held : List Push) × LaneHistory self.now.capacity result.sent result.taken held }
    {
        let InPass { mut pass, fulls } = sent;
        let OutPass { pass: other } = taken;
        self.queue.absorb::<Ends>(&mut pass, other);
        self.queue.len_as::<Drains, R>(rt, &mut pass);
        BothPass { pass, fulls }
    }

    /// Takes the next message that was sent and not taken.
    pub fn drain<R: Wait>(&self, rt: &R, pass: &mut BothPass) -> Option<Push>
        requires { pass.old.id ≡ self.now.id }
        ensures lane { pass.new.id ≡ pass.old.id }
        ensures kept { (pass.new.sent ≡ pass.old.sent) × (pass.new.fulls ≡ pass.old.fulls) }
        ensures taken { MatchOption result
            ((pass.old.taken ≡ pass.old.sent) × (pass.new.taken ≡ pass.old.taken))
            (λ message. (pass.new.taken ≡ pass.old.taken ++ message ∷ []) × StartsWith pass.new.sent pass.new.taken) }
    {
        self.queue.pop_as::<Drains, R>(rt, &mut pass.pass)
    }
}
