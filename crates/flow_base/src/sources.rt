ghost use Rattle.std.specs.Prelude.{◌≡◌, ◌↔◌, ◌<◌, ◌≤◌, ℕ, [], ◌++◌, List, Some, length, take, min, IfOk, IfSome, OnOk, OnErr, IsOk, IsErr};
ghost use Rattle.flow_base.specs.Calls.{IsFailing, Called};
ghost use Rattle.flow_base.specs.Causes.{HasCause};
ghost use Rattle.flow_base.specs.Flow.{behind};

use crate::calls::Plan;
use crate::{Failed, NoMemory, Source};
use std::alloc::Global;
use std::marker::Model;

/// A source over bytes in memory that never fails.
#[derive(Drop)]
pub struct SureSource {
    bytes: Vec<u8>,
    at: usize,
}

impl Model for SureSource {
    ghost use Rattle.std.specs.Prelude.{List, ℕ, ◌≤◌, drop, vec_len};

    ghost Value = { List ℕ };

    ghost view = { λ s. drop s.at s.bytes.items };

    ghost invariant = { λ s. s.at ≤ vec_len s.bytes };
}

impl SureSource {
    pub fn new(alloc: Global, bytes: &[u8]) -> Result<SureSource, NoMemory>
        ensures { IfOk result (λ source. source ≡ bytes.now) }
    {
        Ok(SureSource {
            bytes: bytes.to_vec(alloc)?,
            at: 0,
        })
    }

    // Moves bytes to the front of the buffer, and says how many.
    fn give(&mut self, buf: &mut [u8]) -> usize
        ensures count { result ≡ min (length buf.old) (length self.old) }
        ensures given { self.old ≡ take result buf.new ++ self.new }
    {
        let rest = self.bytes.len() - self.at;
        let count = rest.min(buf.len());
        let end = self.at + count;
        place(buf, &self.bytes[self.at..end]);
        self.at = end;
        count
    }
}

// Writes the bytes at the front of the buffer.
fn place(buf: &mut [u8], bytes: &[u8])
    requires { length bytes.now ≤ length buf.old }
    ensures { take (length bytes.now) buf.new ≡ bytes.now }
{
    let count = bytes.len();
    buf[..count].copy_from_slice(bytes);
}

impl Source for SureSource {
    ghost left = { λ source. Some source };

    ghost faults = { λ _. 0 };

    fn read(&mut self, buf: &mut [u8]) -> Result<usize, Failed>
        requires { 0 < length buf.old }
        ensures sure { IsOk result }
        ensures bound { IfOk result (λ count. count ≤ length buf.new) }
        ensures given { IfOk result (λ count. Some self.old ≡ behind (take count buf.new) (Some self.new)) }
        ensures end { IfOk result (λ count. count ≡ 0 → self.old ≡ []) }
        ensures more { IfOk result (λ count. Some self.old ≡ Some [] → count ≡ 0) }
        ensures err { OnErr result (Some self.new ≡ Some self.old) }
        ensures cause { HasCause 0 0 result }
        ensures count { IfOk result (λ count. count ≡ min (length buf.old) (length self.old)) }
    {
        Ok(self.give(buf))
    }
}

/// A source over bytes in memory that gives pieces, and whose calls with the listed numbers fail.
#[derive(Drop)]
pub struct MemSource {
    bytes: SureSource,
    piece: usize,
    plan: Plan,
}

impl Model for MemSource {
    ghost use Rattle.std.specs.Prelude.{◌<◌};
    ghost use Rattle.flow_base.specs.Memory.{MemoryRest};

    ghost Value = { MemoryRest };

    ghost view = { λ s. record { left = s.bytes; piece = s.piece; calls = s.plan } };

    ghost invariant = { λ s. 0 < s.piece };
}

impl MemSource {
    /// A source whose reads give at most `piece` bytes each, and of which exactly those fail whose
    /// number, from 0, stands in `failing`.
    pub fn new(
        alloc: Global,
        bytes: &[u8],
        piece: u32,
        failing: &[u32],
    ) -> Result<MemSource, NoMemory>
        requires { 0 < piece }
        ensures { IfOk result (λ source. source ≡
            record { left = bytes.now; piece = piece; calls = record { failing = failing.now; made = 0; faults = 0 } }) }
    {
        Ok(MemSource {
            bytes: SureSource::new(alloc, bytes)?,
            piece: piece as usize,
            plan: Plan::new(alloc, failing)?,
        })
    }

    /// How many reads were made, failed ones too.
    pub fn calls(&self) -> u64
        ensures { result ≡ self.now.calls.made }
    {
        self.plan.made()
    }
}

impl Source for MemSource {
    ghost left = { λ source. Some source.left };

    ghost faults = { λ source. source.calls.faults };

    fn read(&mut self, buf: &mut [u8]) -> Result<usize, Failed>
        requires { 0 < length buf.old }
        ensures bound { IfOk result (λ count. count ≤ length buf.new) }
        ensures given { IfOk result (λ count. Some self.old.left ≡ behind (take count buf.new) (Some self.new.left)) }
        ensures end { IfOk result (λ count. count ≡ 0 → self.old.left ≡ []) }
        ensures more { IfOk result (λ count. Some self.old.left ≡ Some [] → count ≡ 0) }
        ensures err { OnErr result (Some self.new.left ≡ Some self.old.left) }
        ensures cause { HasCause self.old.calls.faults self.new.calls.faults result }
        ensures fails { IsErr result ↔ IsFailing self.old.calls }
        ensures count { IfOk result (λ count. count ≡ min (min self.old.piece (length buf.old)) (length self.old.left)) }
        ensures calls { Called self.old.calls self.new.calls result }
        ensures piece { self.new.piece ≡ self.old.piece }
    {
        if self.plan.fails() {
            self.plan.fault();
            return Err(Failed);
        }
        let most = self.piece.min(buf.len());
        Ok(self.bytes.give(&mut buf[..most]))
    }
}
