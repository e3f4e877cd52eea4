ghost use Rattle.std.specs.Prelude.{◌≡◌, ◌+◌, ◌≤◌, ◌++◌, [], length, codes, decimal};
ghost use Rattle.std.specs.Fmt.{signed_decimal};
ghost use Rattle.flow_base.specs.Causes.{HasCause};
ghost use Rattle.flow_base.specs.Writing.{Writes};
ghost use Rattle.packet_key.specs.KeyText.{text_of};

use flow_base::{Failed, Sink, write_all};
use itoa::Buffer;
use packet_key::{FlowKey, key_text, put};
use std::marker::Model;

/// A line that is being written. It has at most 1,024 bytes.
#[derive(Drop)]
pub struct Line {
    bytes: [u8; 1024],
    len: usize,
}

impl Model for Line {
    ghost use Rattle.std.specs.Prelude.{List, ℕ, ◌≤◌, take};

    ghost Value = { List ℕ };

    ghost view = { λ l. take l.len l.bytes };

    ghost invariant = { λ l. l.len ≤ 1024 };
}

impl Line {
    pub fn new() -> Line
        ensures { result ≡ [] }
    {
        Line {
            bytes: [0; 1024],
            len: 0,
        }
    }

    pub fn text(&mut self, bytes: &[u8])
        requires { length self.old + length bytes.now ≤ 1024 }
        ensures text { self.new ≡ self.old ++ bytes.now }
        ensures room { length self.new ≤ length self.old + length bytes.now }
    {
        self.len = put(&mut self.bytes, self.len, bytes);
    }

    pub fn number(&mut self, number: u64)
        requires { length self.old + 20 ≤ 1024 }
        ensures text { self.new ≡ self.old ++ decimal number }
        ensures room { length self.new ≤ length self.old + 20 }
    {
        self.text(Buffer::new().format(number).as_bytes());
    }

    /// Words, and the number behind them.
    pub fn named(&mut self, words: &[u8], number: u64)
        requires { length self.old + length words.now + 20 ≤ 1024 }
        ensures text { self.new ≡ self.old ++ words.now ++ decimal number }
        ensures room { length self.new ≤ length self.old + length words.now + 20 }
    {
        self.text(words);
        self.number(number);
    }

    pub fn signed(&mut self, number: i64)
        requires { length self.old + 20 ≤ 1024 }
        ensures text { self.new ≡ self.old ++ signed_decimal number }
        ensures room { length self.new ≤ length self.old + 20 }
    {
        self.text(Buffer::new().format(number).as_bytes());
    }

    pub fn key(&mut self, key: &FlowKey)
        requires { length self.old + 99 ≤ 1024 }
        ensures text { self.new ≡ self.old ++ text_of key.now }
        ensures room { length self.new ≤ length self.old + 99 }
    {
        let mut text = [0; 100];
        let len = key_text(key, &mut text);
        self.text(&text[..len]);
    }

    /// The bytes so far.
    pub fn as_slice(&self) -> &[u8]
        ensures { result.now ≡ self.now }
    {
        &self.bytes[..self.len]
    }

    /// Ends the line with a line feed, and writes it as one piece. The line is gone then.
    pub fn send<T: Sink>(mut self, out: &mut T) -> Result<(), Failed>
        requires { length self + 1 ≤ 1024 }
        ensures writes { Writes (T.holds out.old) (T.holds out.new) (self ++ codes "\n") result }
        ensures cause { HasCause (T.faults out.old) (T.faults out.new) result }
    {
        self.text(b"\n");
        write_all(out, &self.bytes[..self.len])
    }
}
