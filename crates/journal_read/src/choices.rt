ghost use Rattle.std.specs.Prelude.{[]};
ghost use Rattle.hash_rows.specs.OptionTexts.{sketch_text, amount_text, share_text, full_text, mode_text};
ghost use Rattle.journal_read.specs.Numbers.{ReadsWord};

use crate::numbers::{byte_at, skip};
use hash_rows::{Amount, Full, Mode, Share, Sketch};

// Each of these takes a word by the bytes that tell it from the others of its kind. Whether it was
// that word is found out when it is written again.

fn sketch_at(text: &[u8]) -> (Sketch, &[u8])
    ensures { ReadsWord sketch_text text.now [] result.0 result.1.now }
{
    if byte_at(text, 0) == b'l' {
        return (Sketch::LogLog, skip(text, 6));
    }
    if byte_at(text, 6) == b'm' {
        return (Sketch::CountMin, skip(text, 9));
    }
    (Sketch::CountSketch, skip(text, 12))
}

fn amount_at(text: &[u8]) -> (Amount, &[u8])
    ensures { ReadsWord amount_text text.now [] result.0 result.1.now }
{
    if byte_at(text, 0) == b'p' {
        return (Amount::Packets, skip(text, 7));
    }
    (Amount::Bytes, skip(text, 5))
}

fn share_at(text: &[u8]) -> (Share, &[u8])
    ensures { ReadsWord share_text text.now [] result.0 result.1.now }
{
    if byte_at(text, 0) == b't' {
        return (Share::Turn, skip(text, 4));
    }
    (Share::Key, skip(text, 3))
}

fn full_at(text: &[u8]) -> (Full, &[u8])
    ensures { ReadsWord full_text text.now [] result.0 result.1.now }
{
    if byte_at(text, 0) == b'l' {
        return (Full::Leave, skip(text, 5));
    }
    (Full::Wait, skip(text, 4))
}

fn mode_at(text: &[u8]) -> (Mode, &[u8])
    ensures { ReadsWord mode_text text.now [] result.0 result.1.now }
{
    if byte_at(text, 0) == b'r' {
        return (Mode::Rounds, skip(text, 6));
    }
    (Mode::Threads, skip(text, 7))
}

pub(crate) fn sketch_behind<'a>(text: &'a [u8], words: &[u8]) -> (Sketch, &'a [u8])
    ensures { ReadsWord sketch_text text.now words.now result.0 result.1.now }
{
    sketch_at(skip(text, words.len()))
}

pub(crate) fn amount_behind<'a>(text: &'a [u8], words: &[u8]) -> (Amount, &'a [u8])
    ensures { ReadsWord amount_text text.now words.now result.0 result.1.now }
{
    amount_at(skip(text, words.len()))
}

pub(crate) fn share_behind<'a>(text: &'a [u8], words: &[u8]) -> (Share, &'a [u8])
    ensures { ReadsWord share_text text.now words.now result.0 result.1.now }
{
    share_at(skip(text, words.len()))
}

pub(crate) fn full_behind<'a>(text: &'a [u8], words: &[u8]) -> (Full, &'a [u8])
    ensures { ReadsWord full_text text.now words.now result.0 result.1.now }
{
    full_at(skip(text, words.len()))
}

pub(crate) fn mode_behind<'a>(text: &'a [u8], words: &[u8]) -> (Mode, &'a [u8])
    ensures { ReadsWord mode_text text.now words.now result.0 result.1.now }
{
    mode_at(skip(text, words.len()))
}
