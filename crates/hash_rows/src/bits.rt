ghost use Rattle.std.specs.Prelude.{◌≡◌, ◌<◌, ◌≤◌, ◌+◌, ◌-◌, ◌*◌, ◌/◌, ◌%◌, ◌^◌, ◌++◌, ◌||◌, ℕ, length, replicate, take, drop, IfOk, slice_set, slice_index_or, count_by, true, false};
ghost use Rattle.std.specs.Int.{bit_at};
ghost use Rattle.hash_rows.specs.Words.{bits_in, is_set_in, is_between};

use flow_base::NoMemory;
use listed::Listed;
use std::alloc::Global;
use std::marker::Model;

// So many bits share a word.
const PER_WORD: u32 = 64;

/// A list of bits, which contracts see as a list of truth values.
#[derive(Drop)]
pub struct Bits {
    words: Listed<u64>,
    len: u32,
}

/// One list of bits for each worker.
pub type BitRows = Listed<Bits>;

impl Model for Bits {
    ghost use Rattle.std.specs.Prelude.{List, Bool};
    ghost use Rattle.hash_rows.specs.Words.{HaveBits, bits_in};

    ghost Value = { List Bool };

    ghost view = { λ b. bits_in b.words.items b.len };

    ghost invariant = { λ b. HaveBits b.words.items b.len };
}

impl Bits {
    /// So many bits, all clear.
    pub fn new(alloc: Global, len: u32) -> Result<Bits, NoMemory>
        ensures { IfOk result (λ bits. bits ≡ replicate len false) }
    {
        let words = Listed::filled(alloc, len.div_ceil(PER_WORD), 0)?;
        Ok(Bits { words, len })
    }

    pub fn len(&self) -> u32
        ensures { result ≡ length self.now }
    {
        self.len
    }

    pub fn get(&self, place: u32) -> bool
        requires { place < length self.now }
        ensures { result ≡ slice_index_or self.now place false }
    {
        let word = *self.words.get(place / PER_WORD);
        (word >> (place % PER_WORD)) & 1 == 1
    }

    pub fn set(&mut self, place: u32)
        requires { place < length self.old }
        ensures { self.new ≡ slice_set self.old place true }
    {
        let word = *self.words.get(place / PER_WORD);
        self.words
            .set(place / PER_WORD, word | (1 << (place % PER_WORD)));
    }

    /// Sets the bits from the start up to the end, word by word.
    pub fn set_range(&mut self, start: u32, end: u32)
        requires { (start ≤ end) × (end ≤ length self.old) }
        ensures { self.new ≡ take start self.old ++ replicate (end - start) true ++ drop end self.old }
    {
        set_between(&mut self.words, start, end);
    }

    /// The first place from the start on whose bit is set, or else the number of bits. It looks at
    /// whole words.
    pub fn next(&self, start: u32) -> u32
        requires { start ≤ length self.now }
        ensures low { start ≤ result }
        ensures high { result ≤ length self.now }
        ensures before { (k : ℕ) → start ≤ k → k < result → slice_index_or self.now k false ≡ false }
        ensures found { result < length self.now → slice_index_or self.now result false ≡ true }
    {
        let len = self.len as usize;
        let place = set_from(self.words.as_slice(), start as usize);
        place.min(len) as u32
    }

    /// Clears all bits.
    pub fn clear(&mut self)
        ensures { self.new ≡ replicate (length self.old) false }
    {
        clear_words(&mut self.words);
    }

    /// How many bits are set.
    pub fn count(&self) -> u32
        ensures { result ≡ count_by (λ mark. mark) self.now }
    {
        let _len = self.len;
        set_in(self.words.as_slice()) as u32
    }
}

// Clears all bits of the words.
fn clear_words(words: &mut Listed<u64>)
    ensures items { words.new.items ≡ replicate (length words.old.items) 0 }
    ensures room { words.new.room ≡ words.old.room }
{
    for place in 0..words.len() {
        words.set(place, 0);
    }
}

// How many bits of the words are set, where the words are few enough that the number fits.
fn set_in(words: &[u64]) -> usize
    requires { length words.now < 2 ^ 32 }
    ensures { result ≡ count_by (λ mark. mark) (bits_in words.now (length words.now * 64)) }
{
    let mut count = 0;
    for word in words {
        count += word.count_ones() as usize;
    }
    count
}

// Sets so many bits of one word, from the place on.
fn set_in_word(words: &mut Listed<u64>, place: u32, count: u32)
    requires some { 0 < count }
    requires one_word { place % 64 + count ≤ 64 }
    requires within { place / 64 < length words.old.items }
    ensures len { length words.new.items ≡ length words.old.items }
    ensures bits { (k : ℕ) → is_set_in words.new.items k ≡ (is_between place (place + count) k || is_set_in words.old.items k) }
{
    let low = place % PER_WORD;
    let ones = (u64::MAX << low) & (u64::MAX >> (PER_WORD - low - count));
    let word = *words.get(place / PER_WORD);
    words.set(place / PER_WORD, word | ones);
}

// Sets the bits from the start up to the end.
fn set_between(words: &mut Listed<u64>, start: u32, end: u32)
    requires { (start ≤ end) × (end ≤ length words.old.items * 64) }
    ensures len { length words.new.items ≡ length words.old.items }
    ensures bits { (k : ℕ) → is_set_in words.new.items k ≡ (is_between start end k || is_set_in words.old.items k) }
{
    let mut place = start;
    while place < end {
        let count = (end - place).min(PER_WORD - place % PER_WORD);
        set_in_word(words, place, count);
        place += count;
    }
}

// The first set bit of the word from this one on, or else 64.
fn bit_from(word: u64, low: usize) -> usize
    requires { low < 64 }
    ensures low { low ≤ result }
    ensures high { result ≤ 64 }
    ensures before { (k : ℕ) → low ≤ k → k < result → bit_at word k ≡ 0 }
    ensures found { result < 64 → bit_at word result ≡ 1 }
{
    let rest = word & (u64::MAX << low);
    if rest == 0 {
        64
    } else {
        rest.trailing_zeros() as usize
    }
}

// The first set bit of the words from this one on, or else the number of bits.
fn set_from(words: &[u64], start: usize) -> usize
    requires few { length words.now < 2 ^ 32 }
    requires within { start ≤ length words.now * 64 }
    ensures low { start ≤ result }
    ensures high { result ≤ length words.now * 64 }
    ensures before { (k : ℕ) → start ≤ k → k < result → is_set_in words.now k ≡ false }
    ensures found { result < length words.now * 64 → is_set_in words.now result ≡ true }
{
    let mut low = start % 64;
    for row in start / 64..words.len() {
        let bit = bit_from(words[row], low);
        if bit < 64 {
            return row * 64 + bit;
        }
        low = 0;
    }
    words.len() * 64
}
