//! One update of a worker.
ghost use Rattle.std.specs.Prelude.{◌≡◌, ◌<◌, ◌≤◌, ◌+◌, ◌^◌, [], ◌∷◌, ◌++◌, List, length, true, None, MatchBool};
ghost use Rattle.hash_rows.specs.declared.options.Full.TheVariants.{Leave};
ghost use Rattle.hash_rows.specs.declared.shape.Update.{Update};
ghost use Rattle.push_lane.specs.Views.{one_more_or_last};
ghost use Rattle.thread_work.specs.Worked.{HasTold, KeepsSketch};

use hash_rows::{Full, Kind, Push};
use packet_key::FlowKey;
use push_lane::{InPass, Lane};
use push_rule::Private;
use std::sync::Wait;

// Whether an update is left, since the lane is full and pushes don't wait.
#[inline(always)]
fn leaves(full: Full, lane: &Lane, pass: &mut InPass) -> bool
    requires { pass.old.id ≡ lane.now.id }
    ensures lane { pass.new.id ≡ pass.old.id }
    ensures sent { pass.new.sent ≡ pass.old.sent }
    ensures left { MatchBool result
        ((full ≡ Leave) × (pass.new.fulls ≡ one_more_or_last pass.old.fulls) × (lane.now.capacity ≤ length pass.old.sent))
        (pass.new.fulls ≡ pass.old.fulls) }
{
    match full {
        Full::Leave => lane.refuses(pass),
        Full::Wait => false,
    }
}

// Sends the message, or leaves it where the lane is full and pushes don't wait.
#[inline(always)]
fn send<R: Wait>(rt: &R, full: Full, lane: &Lane, pass: &mut InPass, message: Push) -> bool
    requires lane { pass.old.id ≡ lane.now.id }
    requires room { length pass.old.sent < 2 ^ 32 }
    ensures lane { pass.new.id ≡ pass.old.id }
    ensures sent { MatchBool result
        ((pass.new.sent ≡ pass.old.sent ++ message ∷ []) × (full ≡ Leave → pass.new.fulls ≡ pass.old.fulls))
        ((full ≡ Leave) × (pass.new.sent ≡ pass.old.sent) × (pass.new.fulls ≡ one_more_or_last pass.old.fulls)
        × (lane.now.capacity ≤ length pass.old.sent)) }
{
    match full {
        Full::Leave => lane.push(rt, pass, message).is_ok(),
        Full::Wait => {
            lane.push_wait(rt, pass, message);
            true
        }
    }
}

/// Counts the update, and sends a push that is due, or refuses it at a full lane.
#[inline(always)]
pub fn tell<K: Kind, R: Wait>(
    rt: &R,
    worker: u32,
    full: Full,
    packet: u32,
    key: &FlowKey,
    cell: u32,
    value: i64,
    sketch: &mut Private<K>,
    lane: &Lane,
    pass: &mut InPass,
)
    requires idle { sketch.old.due ≡ None }
    requires room { sketch.old.counted < sketch.old.room }
    requires cell { cell < length sketch.old.held }
    requires value { K.rules.is_value value ≡ true }
    requires lane { pass.old.id ≡ lane.now.id }
    requires few { length pass.old.sent ≤ sketch.old.counted }
    ensures idle { sketch.new.due ≡ None }
    ensures counted { sketch.new.counted ≡ sketch.old.counted + 1 }
    ensures same { KeepsSketch sketch.old sketch.new }
    ensures lane { pass.new.id ≡ lane.now.id }
    ensures few { length pass.new.sent ≤ sketch.new.counted }
    ensures told { (updates : List Update) → HasTold K.stands K.rules worker lane.now.capacity full sketch.old pass.old updates
        → HasTold K.stands K.rules worker lane.now.capacity full sketch.new pass.new
        (updates ++ record { packet = packet; key = key.now; cell = cell; value = value } ∷ []) }
{
    match sketch.count(cell, value) {
        None => (),
        Some(amount) => {
            let number = sketch.counted() - 1;
            // No message is made that the lane would give back.
            if leaves(full, lane, pass) {
                sketch.refused();
                return;
            }
            let message = Push {
                worker,
                packet,
                update: number,
                key: *key,
                cell,
                amount,
            };
            if send(rt, full, lane, pass, message) {
                sketch.sent();
            } else {
                sketch.refused();
            }
        }
    }
}
