ghost use Rattle.std.specs.Prelude.{◌≡◌, ◌<◌, ◌≤◌, ◌++◌, ◌==◌, [], length, take, drop, min, IfOk, OnOk, IsErr, IfSome};
ghost use Rattle.flow_base.specs.Causes.{HasCause};
ghost use Rattle.flow_base.specs.Flow.{behind};

use crate::{Failed, Source};
use std::marker::Model;

const ROOM: usize = 4096;

/// Bytes that were looked at and aren't taken yet.
#[derive(Drop)]
pub struct Window {
    bytes: [u8; 4096],
    at: usize,
    end: usize,
}

impl Model for Window {
    ghost use Rattle.std.specs.Prelude.{List, ℕ, ◌≤◌, take, drop};

    ghost Value = { List ℕ };

    ghost view = { λ w. drop w.at (take w.end w.bytes) };

    ghost invariant = { λ w. (w.at ≤ w.end) × (w.end ≤ 4096) };
}

impl Window {
    fn new() -> Window
        ensures { result ≡ [] }
    {
        Window {
            bytes: [0; ROOM],
            at: 0,
            end: 0,
        }
    }

    fn is_empty(&self) -> bool
        ensures { result ≡ (length self.now == 0) }
    {
        self.at == self.end
    }

    fn as_slice(&self) -> &[u8]
        ensures { result.now ≡ self.now }
    {
        &self.bytes[self.at..self.end]
    }

    fn pass(&mut self, count: usize)
        requires { count ≤ length self.old }
        ensures { self.new ≡ drop count self.old }
    {
        self.at += count;
    }

    // Reads what the source has next.
    fn fill<S: Source>(&mut self, source: &mut S) -> Result<usize, Failed>
        requires { length self.old ≡ 0 }
        ensures given { behind self.old (S.left source.old) ≡ behind self.new (S.left source.new) }
        ensures count { IfOk result (λ count. count ≡ length self.new) }
        ensures end { IfOk result (λ count. count ≡ 0 → IfSome (S.left source.old) (λ rest. rest ≡ [])) }
        ensures drained { IsErr result → self.new ≡ [] }
        ensures cause { HasCause (S.faults source.old) (S.faults source.new) result }
        ensures through { S.through source.new ≡ S.through source.old }
    {
        let count = source.read(&mut self.bytes)?;
        self.at = 0;
        self.end = count;
        Ok(count)
    }
}

/// A source whose next bytes can be looked at before they are taken.
#[derive(Drop)]
pub struct Ahead<'a, S: Source> {
    source: &'a mut S,
    window: Window,
}

impl<'a, S: Source> Ahead<'a, S> {
    /// It has looked at nothing. It takes no memory.
    pub fn new(source: &'a mut S) -> Ahead<'a, S>
        ensures same_reference { result.source.ghost_name ≡ source.entry.ghost_name }
        ensures source { result.source.now ≡ source.old }
        ensures window { result.window ≡ [] }
    {
        Ahead {
            source,
            window: Window::new(),
        }
    }

    /// Reads bytes ahead, where there are none. Where there are none even so, the input has ended, or
    /// the source has failed.
    pub fn fill(&mut self) -> Result<(), Failed>
        ensures same_reference { self.new.source.ghost_name ≡ self.old.source.ghost_name }
        ensures left { behind self.new.window (S.left self.new.source.now) ≡ behind self.old.window (S.left self.old.source.now) }
        ensures kept { 0 < length self.old.window → self.new.window ≡ self.old.window }
        ensures end { OnOk result (self.new.window ≡ [] → IfSome (S.left self.old.source.now) (λ rest. rest ≡ [])) }
        ensures drained { IsErr result → self.new.window ≡ [] }
        ensures cause { HasCause (S.faults self.old.source.now) (S.faults self.new.source.now) result }
    {
        if self.window.is_empty() {
            self.window.fill(self.source)?;
        }
        Ok(())
    }

    /// The bytes ahead.
    pub fn window(&self) -> &[u8]
        ensures { result.now ≡ self.now.window }
    {
        self.window.as_slice()
    }

    /// Takes so many of the bytes ahead.
    pub fn pass(&mut self, count: usize)
        requires { count ≤ length self.old.window }
        ensures same_reference { self.new.source.ghost_name ≡ self.old.source.ghost_name }
        ensures source { self.new.source.now ≡ self.old.source.now }
        ensures window { self.new.window ≡ drop count self.old.window }
    {
        self.window.pass(count);
    }
}

impl<S: Source> Source for Ahead<'_, S> {
    ghost left = { λ a. behind a.window (S.left a.source.now) };

    ghost faults = { λ a. S.faults a.source.now };

    ghost through = { λ a. a.source.ghost_name };

    fn read(&mut self, buf: &mut [u8]) -> Result<usize, Failed> {
        self.fill()?;
        let count = copy_front(self.window(), buf);
        self.pass(count);
        Ok(count)
    }
}

// Copies as many bytes as both have, and says how many.
fn copy_front(bytes: &[u8], buf: &mut [u8]) -> usize
    ensures count { result ≡ min (length bytes.now) (length buf.old) }
    ensures len { length buf.new ≡ length buf.old }
    ensures front { take result buf.new ≡ take result bytes.now }
{
    let count = bytes.len().min(buf.len());
    buf[..count].copy_from_slice(&bytes[..count]);
    count
}
