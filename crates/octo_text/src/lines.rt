ghost use Rattle.std.specs.Prelude.{◌≡◌, ◌+◌, ◌≤◌, ◌++◌, length};
ghost use Rattle.std.specs.List.{flat_map};
ghost use Rattle.flow_base.specs.Causes.{HasCause};
ghost use Rattle.flow_base.specs.Writing.{Writes};
ghost use Rattle.octo_text.specs.Lines.{words_line, count_line, key_line, sketch_words};

use crate::choices::{amount_word, sketch_word};
use crate::line::Line;
use flow_base::{Failed, Sink};
use hash_rows::{Amount, Shape, Sketch};
use packet_key::FlowKey;

/// Writes a line of words, at most 20 bytes of them.
#[tactic(auto, unfolding(crate::specs::Lines::words_line))]
pub fn write_words<T: Sink>(out: &mut T, words: &[u8]) -> Result<(), Failed>
    requires { length words.now ≤ 20 }
    ensures writes { Writes (T.holds out.old) (T.holds out.new) (words_line words.now) result }
    ensures cause { HasCause (T.faults out.old) (T.faults out.new) result }
{
    let mut line = Line::new();
    line.text(words);
    line.send(out)
}

/// Writes a line of a name, at most 20 bytes of it, and a number.
#[tactic(auto, unfolding(crate::specs::Lines::count_line))]
pub fn write_count<T: Sink>(out: &mut T, name: &[u8], number: u64) -> Result<(), Failed>
    requires { length name.now ≤ 20 }
    ensures writes { Writes (T.holds out.old) (T.holds out.new) (count_line name.now number) result }
    ensures cause { HasCause (T.faults out.old) (T.faults out.new) result }
{
    let mut line = Line::new();
    line.text(name);
    line.text(b" ");
    line.number(number);
    line.send(out)
}

#[tactic(auto, unfolding(crate::specs::Lines::key_line))]
fn write_key<T: Sink>(out: &mut T, name: &[u8], key: &FlowKey) -> Result<(), Failed>
    requires { length name.now ≤ 20 }
    ensures writes { Writes (T.holds out.old) (T.holds out.new) (key_line name.now key.now) result }
    ensures cause { HasCause (T.faults out.old) (T.faults out.new) result }
{
    let mut line = Line::new();
    line.text(name);
    line.text(b" ");
    line.key(key);
    line.send(out)
}

pub(crate) fn write_keys<T: Sink>(out: &mut T, name: &[u8], keys: &[FlowKey]) -> Result<(), Failed>
    requires { length name.now ≤ 20 }
    ensures writes { Writes (T.holds out.old) (T.holds out.new) (flat_map (key_line name.now) keys.now) result }
    ensures cause { HasCause (T.faults out.old) (T.faults out.new) result }
{
    for key in keys {
        write_key(out, name, key)?;
    }
    Ok(())
}

// Adds the sketch, its shape, and what a packet adds to it.
#[tactic(auto, unfolding(crate::specs::Lines::sketch_words))]
pub(crate) fn put_sketch(line: &mut Line, sketch: Sketch, shape: &Shape, amount: Amount)
    requires { length line.old + 200 ≤ 1024 }
    ensures text { line.new ≡ line.old ++ sketch_words sketch shape.now amount }
    ensures room { length line.new ≤ length line.old + 200 }
{
    line.text(b"sketch ");
    line.text(sketch_word(sketch));
    line.named(b" rows ", u64::from(shape.rows));
    line.named(b" columns ", u64::from(shape.columns));
    line.text(b" amount ");
    line.text(amount_word(amount));
}
