ghost use Rattle.std.specs.Prelude.{◌≡◌, ◌≢◌, ◌↔◌, ◌⊎◌, ◌+◌, ◌-◌, ◌^◌, ◌<◌, ◌≤◌, ℕ, [], ◌++◌, List, Option, Some, None, Ok, length, take, min, IfOk, OnErr, IsOk, IsErr, vec_len, vec_capacity};
ghost use Rattle.flow_base.specs.Calls.{IsFailing, Called};
ghost use Rattle.flow_base.specs.Causes.{HasCause};
ghost use Rattle.flow_base.specs.Flow.{grown};

use crate::calls::Plan;
use crate::{Failed, NoMemory, Sink};
use std::alloc::Global;
use std::marker::Model;

/// A sink in memory with a fixed room, whose calls with the listed numbers fail.
#[derive(Drop)]
pub struct MemSink {
    bytes: Vec<u8>,
    room: usize,
    piece: usize,
    plan: Plan,
}

impl Model for MemSink {
    ghost use Rattle.std.specs.Prelude.{◌<◌, ◌≤◌, vec_len, vec_capacity};
    ghost use Rattle.flow_base.specs.Memory.{MemoryHeld};

    ghost Value = { MemoryHeld };

    ghost view = { λ s. record { held = s.bytes.items; room = s.room; piece = s.piece; calls = s.plan } };

    ghost invariant = { λ s. (vec_len s.bytes ≤ s.room) × (s.room ≤ vec_capacity s.bytes) × (0 < s.piece) };
}

impl MemSink {
    /// A sink that holds at most `room` bytes. Exactly those writes fail that find it full, or whose
    /// number, from 0, stands in `failing`.
    pub fn new(alloc: Global, room: u32, failing: &[u32]) -> Result<MemSink, NoMemory>
        ensures { IfOk result (λ sink. sink ≡
            record { held = []; room = room; piece = 2 ^ 32 - 1; calls = record { failing = failing.now; made = 0; faults = 0 } }) }
    {
        MemSink::in_pieces(alloc, room, u32::MAX, failing)
    }

    /// The same, and takes at most `piece` bytes per write.
    pub fn in_pieces(
        alloc: Global,
        room: u32,
        piece: u32,
        failing: &[u32],
    ) -> Result<MemSink, NoMemory>
        requires { 0 < piece }
        ensures { IfOk result (λ sink. sink ≡
            record { held = []; room = room; piece = piece; calls = record { failing = failing.now; made = 0; faults = 0 } }) }
    {
        let plan = Plan::new(alloc, failing)?;
        let room = room as usize;
        let bytes = Vec::with_capacity(alloc, room)?;
        Ok(MemSink {
            bytes,
            room,
            piece: piece as usize,
            plan,
        })
    }

    pub fn held(&self) -> &[u8]
        ensures { result.now ≡ self.now.held }
    {
        &self.bytes
    }
}

impl Sink for MemSink {
    ghost holds = { λ sink. Some sink.held };

    ghost faults = { λ sink. sink.calls.faults };

    fn write(&mut self, piece: &[u8]) -> Result<usize, Failed>
        requires { 0 < length piece.now }
        ensures some { IfOk result (λ count. 0 < count) }
        ensures bound { IfOk result (λ count. count ≤ length piece.now) }
        ensures taken { IfOk result (λ count. Some self.new.held ≡ grown (Some self.old.held) (take count piece.now)) }
        ensures err { OnErr result (Some self.new.held ≡ Some self.old.held) }
        ensures cause { HasCause self.old.calls.faults self.new.calls.faults result }
        ensures fails { IsErr result ↔ ((self.old.room ≤ length self.old.held) ⊎ IsFailing self.old.calls) }
        ensures count { IfOk result (λ count. count ≡ min (min self.old.piece (length piece.now)) (self.old.room - length self.old.held)) }
        ensures calls { Called self.old.calls self.new.calls result }
        ensures room { (self.new.room ≡ self.old.room) × (self.new.piece ≡ self.old.piece) }
    {
        let rest = self.room - self.bytes.len();
        if self.plan.fails() || rest == 0 {
            self.plan.fault();
            return Err(Failed);
        }
        let count = rest.min(self.piece).min(piece.len());
        append_reserved(&mut self.bytes, &piece[..count]);
        Ok(count)
    }
}

// Appends the piece, for which there is room.
fn append_reserved(bytes: &mut Vec<u8>, piece: &[u8])
    requires { vec_len bytes.old + length piece.now ≤ vec_capacity bytes.old }
    ensures items { bytes.new.items ≡ bytes.old.items ++ piece.now }
    ensures capacity { vec_capacity bytes.old ≤ vec_capacity bytes.new }
{
    match bytes.extend_from_slice(piece) {
        Ok(()) => {}
        Err(_) => unreachable!(),
    }
}

/// A sink that counts its bytes, keeps none and never fails.
#[derive(Drop)]
pub struct CountSink {
    bytes: u64,
}

impl Model for CountSink {
    ghost use Rattle.std.specs.Prelude.{ℕ};

    ghost Value = { ℕ };

    ghost view = { λ s. s.bytes };
}

impl CountSink {
    pub fn new() -> CountSink
        ensures { result ≡ 0 }
    {
        CountSink { bytes: 0 }
    }

    /// How many bytes it has taken, up to the last value of the type.
    pub fn bytes(&self) -> u64
        ensures { result ≡ self.now }
    {
        self.bytes
    }
}

impl Sink for CountSink {
    ghost holds = { λ _. None };

    ghost faults = { λ _. 0 };

    fn write(&mut self, piece: &[u8]) -> Result<usize, Failed>
        requires { 0 < length piece.now }
        ensures some { IfOk result (λ count. 0 < count) }
        ensures bound { IfOk result (λ count. count ≤ length piece.now) }
        ensures cause { HasCause 0 0 result }
        ensures all { result ≡ Ok (length piece.now) }
        ensures bytes { self.new ≡ min (self.old + length piece.now) (2 ^ 64 - 1) }
    {
        self.bytes = self.bytes.saturating_add(piece.len() as u64);
        Ok(piece.len())
    }
}
