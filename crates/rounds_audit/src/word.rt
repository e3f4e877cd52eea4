ghost use Rattle.std.specs.Prelude.{◌≡◌, ◌≤◌, length, take};
ghost use Rattle.rounds_audit.specs.Words.{word_of};

use audit_law::Value;
use itoa::Buffer;
use packet_key::{key_text, put};
use std::marker::Model;

/// A word of a line of a journal, which has at most 99 bytes.
#[derive(Drop)]
pub struct Word {
    bytes: [u8; 100],
    len: usize,
}

impl Model for Word {
    ghost use Rattle.std.specs.Prelude.{List, ℕ, ◌≤◌, take};

    ghost Value = { List ℕ };

    ghost view = { λ w. take w.len w.bytes };

    ghost invariant = { λ w. w.len ≤ 99 };
}

impl Word {
    /// The word that stands for the value, `none` where there is none.
    pub fn of(value: &Value) -> Word
        ensures { result ≡ word_of value.now }
    {
        match value {
            Value::Number(number) => Word::new(Buffer::new().format(*number).as_bytes()),
            Value::Signed(number) => Word::new(Buffer::new().format(*number).as_bytes()),
            Value::Key(key) => {
                let mut bytes = [0; 100];
                let len = key_text(key, &mut bytes);
                Word { bytes, len }
            }
            Value::Absent => Word::new(b"none"),
        }
    }

    /// The first 99 bytes of the text.
    pub fn front_of(text: &[u8]) -> Word
        ensures { result ≡ take 99 text.now }
    {
        Word::new(&text[..text.len().min(99)])
    }

    fn new(text: &[u8]) -> Word
        requires { length text.now ≤ 99 }
        ensures { result ≡ text.now }
    {
        let mut bytes = [0; 100];
        let len = put(&mut bytes, 0, text);
        Word { bytes, len }
    }

    pub fn as_bytes(&self) -> &[u8]
        ensures text { result.now ≡ self.now }
        ensures most { length result.now ≤ 99 }
    {
        &self.bytes[..self.len]
    }
}
