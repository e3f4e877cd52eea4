//! Where two texts are not the same: the line, and in it the word.
ghost use Rattle.std.specs.Prelude.{◌≡◌, ◌≢◌, ◌<◌, ◌≤◌, ◌+◌, ◌∷◌, ℕ, IfSome, MatchOption, drop, length, slice_get, slice_index, slice_range};
ghost use Rattle.rounds_audit.specs.Pieces.{pieces_from};
ghost use Rattle.rounds_audit.specs.Differences.{IsFirstOther, IsTextVerdict, told_word, words_of};

use crate::verdict::Verdict;
use crate::word::Word;

const LINE_FEED: u8 = 10;

const SPACE: u8 = 32;

// A piece of a text: how many stand before it, and where it begins. Behind the end of the text there
// is none.
#[derive(Clone, Copy)]
struct Place {
    number: usize,
    start: usize,
}

// The first place from here on at which the separator stands, or else the end of the text.
fn next_cut(text: &[u8], start: usize, separator: u8) -> usize
    requires { start ≤ length text.now }
    ensures end { (start ≤ result) × (result ≤ length text.now) }
    ensures none { (k : ℕ) → start ≤ k → k < result → slice_index text.now k ≢ separator }
    ensures found { result < length text.now → slice_index text.now result ≡ separator }
{
    for place in start..text.len() {
        if text[place] == separator {
            return place;
        }
    }
    text.len()
}

// Where the piece ends that begins here.
fn piece_end(text: &[u8], start: usize, separator: u8) -> usize
    requires { start ≤ length text.now }
    ensures end { (start ≤ result) × (result ≤ length text.now) }
    ensures piece { pieces_from separator text.now start
        ≡ slice_range text.now start result ∷ pieces_from separator text.now (result + 1) }
{
    next_cut(text, start, separator)
}

// The first piece, from here on, that isn't the same in both texts.
fn first_other(kept: &[u8], lawful: &[u8], first: usize, separator: u8) -> Option<Place>
    requires few { (length kept.now ≤ 4000000000) × (length lawful.now ≤ 4000000000) × (first ≤ 4000000001) }
    ensures other { MatchOption result (pieces_from separator kept.now first ≡ pieces_from separator lawful.now first)
        (λ p. IsFirstOther (pieces_from separator kept.now first) (pieces_from separator lawful.now first) p.number) }
    ensures kept { IfSome result (λ p. drop p.number (pieces_from separator kept.now first) ≡ pieces_from separator kept.now p.start) }
    ensures lawful { IfSome result (λ p. drop p.number (pieces_from separator lawful.now first) ≡ pieces_from
        separator lawful.now p.start) }
    ensures within { IfSome result (λ p. (first + p.number ≤ p.start) × (p.start ≤ 4000000001)) }
{
    let shorter = kept.len().min(lawful.len());
    let longer = kept.len().max(lawful.len());
    let mut number = 0;
    let mut start = first;
    'pieces: while start <= shorter {
        let end = piece_end(kept, start, separator);
        let other_end = piece_end(lawful, start, separator);
        if kept[start..end] != lawful[start..other_end] {
            return Some(Place { number, start });
        }
        start = end + 1;
        number += 1;
    }
    if start <= longer {
        Some(Place { number, start })
    } else {
        None
    }
}

// The text up to the end of the line that begins here.
fn up_to_line(text: &[u8], start: usize) -> &[u8]
    ensures words { pieces_from 32 result.now start ≡ words_of (slice_get (pieces_from 10 text.now start) 0) }
    ensures few { length result.now ≤ length text.now }
{
    if start <= text.len() {
        &text[..piece_end(text, start, LINE_FEED)]
    } else {
        text
    }
}

// The word that begins here, or `none`.
fn word_from(text: &[u8], start: usize) -> Word
    ensures { result ≡ told_word (slice_get (pieces_from 32 text.now start) 0) }
{
    if start <= text.len() {
        Word::front_of(&text[start..piece_end(text, start, SPACE)])
    } else {
        Word::front_of(b"none")
    }
}

/// Compares two texts of at most 4,000,000,000 bytes: whether they are the same, and else the first line that
/// isn't, with its first words that aren't.
pub fn compare_texts(kept: &[u8], lawful: &[u8]) -> Verdict
    requires { (length kept.now ≤ 4000000000) × (length lawful.now ≤ 4000000000) }
    ensures { IsTextVerdict kept.now lawful.now result }
{
    let Some(line) = first_other(kept, lawful, 0, LINE_FEED) else {
        return Verdict::Lawful;
    };
    let kept = up_to_line(kept, line.start);
    let lawful = up_to_line(lawful, line.start);
    let Some(word) = first_other(kept, lawful, line.start, SPACE) else {
        return Verdict::Lawful;
    };
    Verdict::Unlawful {
        line: line.number as u32 + 1,
        kept: word_from(kept, word.start),
        lawful: word_from(lawful, word.start),
    }
}
