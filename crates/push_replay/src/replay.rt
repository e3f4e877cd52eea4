ghost use Rattle.std.specs.Prelude.{◌≡◌, ◌<◌, ◌+◌, ◌++◌, ◌∷◌, [], ℕ, List, length, true, None, Some, nat_lt, if◌then◌else◌, IfOk, OnOk};
ghost use Rattle.hash_rows.specs.declared.shape.Update.{Update};
ghost use Rattle.push_history.specs.Pushes.{is_refused};
ghost use Rattle.push_replay.specs.Replays.{Replays, IsFirstFault, KeepsSize, first_fault};
ghost use Rattle.push_replay.specs.declared.replay.Fault.{Fault};

use flow_base::NoMemory;
use hash_rows::{Kind, Push, Update};
use push_rule::Private;
use std::alloc::Global;

/// What is wrong with a refused update.
#[derive(Clone, Copy, Debug, PartialEq, Eq)]
pub enum Fault {
    /// It isn't due: this is how far its cell is.
    TooNear { update: u32, distance: u64 },
    /// So few messages are before it, fewer than a lane holds.
    TooFew { update: u32, messages: u64 },
}

// The first of two that may be there.
fn first_of(fault: Option<Fault>, found: Option<Fault>) -> Option<Fault>
    ensures { result ≡ first_fault fault found }
{
    match fault {
        Some(fault) => Some(fault),
        None => found,
    }
}

// An update that was refused and isn't due.
fn near_of(refused: bool, update: u32, distance: u64) -> Option<Fault>
    ensures { result ≡ (if refused then Some (Fault.TooNear update distance) else None) }
{
    if refused {
        Some(Fault::TooNear { update, distance })
    } else {
        None
    }
}

// A refused update with so many messages before it.
fn few_of(update: u32, messages: u64, lane: u32) -> Option<Fault>
    ensures { result ≡ (if nat_lt messages lane then Some (Fault.TooFew update messages) else None) }
{
    if messages < u64::from(lane) {
        Some(Fault::TooFew { update, messages })
    } else {
        None
    }
}

/// A worker's updates counted again, with the refused ones given.
#[derive(Drop)]
pub struct Replay<K: Kind> {
    pub worker: u32,
    pub sketch: Private<K>,
    /// The messages that the refused updates determine.
    pub messages: Vec<Push>,
    /// How many messages a lane holds.
    pub lane: u32,
    /// What is wrong with the first refused update that may not be refused.
    pub fault: Option<Fault>,
}

impl<K: Kind> Replay<K> {
    /// A worker that has counted nothing.
    pub fn new(
        alloc: Global,
        worker: u32,
        cells: u32,
        threshold: u64,
        updates: u32,
        lane: u32,
    ) -> Result<Replay<K>, NoMemory>
        requires { 0 < threshold }
        ensures replays { (refused : List ℕ) → IfOk result (Replays K.stands K.rules worker threshold refused []) }
        ensures idle { IfOk result (λ replay. replay.sketch.due ≡ None) }
        ensures none { IfOk result (λ replay. (replay.sketch.counted ≡ 0) × (replay.fault ≡ None)) }
        ensures size { IfOk result (λ replay. (length replay.sketch.held ≡ cells) × (replay.sketch.room ≡ updates)) }
        ensures lane { IfOk result (λ replay. replay.lane ≡ lane) }
    {
        Ok(Replay {
            worker,
            sketch: Private::new(alloc, cells, threshold, updates)?,
            messages: Vec::new(alloc),
            lane,
            fault: None,
        })
    }

    /// The messages alone.
    pub fn into_messages(self) -> Vec<Push>
        ensures { result ≡ self.messages }
    {
        self.messages
    }

    /// How many updates were counted.
    pub fn counted(&self) -> u32
        ensures { result ≡ self.now.sketch.counted }
    {
        self.sketch.counted()
    }

    /// Counts an update. Where it is due and isn't refused, it is a message.
    pub fn count(&mut self, update: &Update, refused: bool) -> Result<(), NoMemory>
        requires idle { self.old.sketch.due ≡ None }
        requires room { self.old.sketch.counted < self.old.sketch.room }
        requires cell { update.now.cell < length self.old.sketch.held }
        requires value { K.rules.is_value update.now.value ≡ true }
        ensures replays { (w T : ℕ) (F : List ℕ) (updates : List Update) → Replays K.stands K.rules w T F updates self.old
            → refused ≡ is_refused (length updates) F
            → OnOk result (Replays K.stands K.rules w T F (updates ++ update.now ∷ []) self.new) }
        ensures watches { (w T : ℕ) (F : List ℕ) (updates : List Update) → Replays K.stands K.rules w T F updates self.old
            → refused ≡ is_refused (length updates) F → IsFirstFault K.rules w T self.old.lane updates F self.old.fault
            → OnOk result (IsFirstFault K.rules w T self.new.lane (updates ++ update.now ∷ []) F self.new.fault) }
        ensures counted { self.new.sketch.counted ≡ self.old.sketch.counted + 1 }
        ensures same { KeepsSize self.old self.new }
    {
        let number = self.sketch.counted();
        match self.sketch.count(update.cell, update.value) {
            None => {
                let distance = self.sketch.distance(update.cell);
                self.fault = first_of(self.fault, near_of(refused, number, distance));
                Ok(())
            }
            Some(amount) => {
                if refused {
                    self.sketch.refused();
                    let messages = self.messages.len() as u64;
                    self.fault = first_of(self.fault, few_of(number, messages, self.lane));
                    return Ok(());
                }
                self.sketch.sent();
                let message = Push {
                    worker: self.worker,
                    packet: update.packet,
                    update: number,
                    key: update.key,
                    cell: update.cell,
                    amount,
                };
                match self.messages.push(message) {
                    Ok(()) => Ok(()),
                    Err(_) => Err(NoMemory),
                }
            }
        }
    }
}
