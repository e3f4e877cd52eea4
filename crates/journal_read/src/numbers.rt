ghost use Rattle.std.specs.Prelude.{◌≡◌, ◌<◌, ◌^◌, [], ℕ, suc, pos, negsuc, drop, slice_index};
ghost use Rattle.journal_read.specs.Numbers.{number_at, ReadsNumber, ReadsSmall, ReadsSigned};

/// The text without so many bytes at its front.
pub(crate) fn skip(text: &[u8], count: usize) -> &[u8]
    ensures { result.now ≡ drop count text.now }
{
    let count = count.min(text.len());
    &text[count..]
}

/// The byte at the place, or 0 behind the end.
pub(crate) fn byte_at(text: &[u8], place: usize) -> u8
    ensures { result ≡ slice_index text.now place }
{
    if place < text.len() { text[place] } else { 0 }
}

// The number that the digits at the front write, and what stands behind them.
fn number_at(text: &[u8]) -> (u64, &[u8])
    ensures number { result.0 ≡ (number_at text.now).0 }
    ensures rest { result.1.now ≡ (number_at text.now).1 }
{
    let mut number: u64 = 0;
    let mut at = 0;
    while at < text.len() && text[at].is_ascii_digit() {
        number = number
            .wrapping_mul(10)
            .wrapping_add(u64::from(text[at] - b'0'));
        at += 1;
    }
    (number, &text[at..])
}

/// The number behind the words, and what stands behind it.
pub(crate) fn number_behind<'a>(text: &'a [u8], words: &[u8]) -> (u64, &'a [u8])
    ensures { ReadsNumber text.now words.now result.0 result.1.now }
{
    number_at(skip(text, words.len()))
}

// The number, where it has 32 bits.
fn small(number: u64) -> u32
    ensures { number < 2 ^ 32 → result ≡ number }
{
    if number < 0x1_0000_0000 {
        number as u32
    } else {
        0
    }
}

pub(crate) fn small_behind<'a>(text: &'a [u8], words: &[u8]) -> (u32, &'a [u8])
    ensures { ReadsSmall text.now words.now result.0 result.1.now }
{
    let (number, rest) = number_behind(text, words);
    (small(number), rest)
}

// The number, where it has 63 bits.
fn positive(number: u64) -> i64
    ensures { number < 2 ^ 63 → result ≡ pos number }
{
    if number < 0x8000_0000_0000_0000 {
        number as i64
    } else {
        0
    }
}

// The number below 0 that is so far from it, where it has 64 bits with sign.
fn negative(number: u64) -> i64
    ensures { (n : ℕ) → n < 2 ^ 63 → number ≡ suc n → result ≡ negsuc n }
{
    if number == 0 || number > 0x8000_0000_0000_0000 {
        0
    } else {
        -1 - (number - 1) as i64
    }
}

// The number with its sign at the front, and what stands behind it.
fn signed_at(text: &[u8]) -> (i64, &[u8])
    ensures { ReadsSigned text.now [] result.0 result.1.now }
{
    if byte_at(text, 0) == b'-' {
        let (number, rest) = number_behind(text, b"-");
        (negative(number), rest)
    } else {
        let (number, rest) = number_behind(text, b"");
        (positive(number), rest)
    }
}

/// The number with its sign behind the words, and what stands behind it.
pub(crate) fn signed_behind<'a>(text: &'a [u8], words: &[u8]) -> (i64, &'a [u8])
    ensures { ReadsSigned text.now words.now result.0 result.1.now }
{
    signed_at(skip(text, words.len()))
}
