ghost use Rattle.std.specs.Prelude.{◌≡◌, ◌≢◌, ◌<◌, ◌^◌, ℕ, MatchOption, true, false, codes};
ghost use Rattle.octo_text.specs.Lines.{words_line, count_line};

use crate::numbers::number_behind;
use octo_text::Line;

/// Whether the line is the first of a journal.
#[tactic(auto, unfolding(octo_text::specs::Lines::words_line))]
pub fn is_head(line: &[u8]) -> bool
    ensures yes { result ≡ true → line.now ≡ words_line (codes "octosketch journal 1") }
    ensures no { result ≡ false → line.now ≢ words_line (codes "octosketch journal 1") }
{
    line == b"octosketch journal 1\n".as_slice()
}

/// Whether the line is the last of a journal.
#[tactic(auto, unfolding(octo_text::specs::Lines::words_line))]
pub fn is_end(line: &[u8]) -> bool
    ensures yes { result ≡ true → line.now ≡ words_line (codes "end") }
    ensures no { result ≡ false → line.now ≢ words_line (codes "end") }
{
    line == b"end\n".as_slice()
}

fn missed_in(line: &[u8]) -> u64
    ensures { (n : ℕ) → n < 2 ^ 64 → line.now ≡ count_line (codes "missed") n → result ≡ n }
{
    number_behind(line, b"missed ").0
}

#[tactic(auto, unfolding(octo_text::specs::Lines::count_line))]
fn is_missed(line: &[u8], missed: u64) -> bool
    ensures yes { result ≡ true → line.now ≡ count_line (codes "missed") missed }
    ensures no { result ≡ false → line.now ≢ count_line (codes "missed") missed }
{
    let mut text = Line::new();
    text.named(b"missed ", missed);
    text.text(b"\n");
    text.as_slice() == line
}

/// How many messages the line says were missed, exactly where it is such a line.
pub fn read_missed(line: &[u8]) -> Option<u64>
    ensures { MatchOption result
        ((missed : ℕ) → missed < 2 ^ 64 → line.now ≢ count_line (codes "missed") missed)
        (λ missed. line.now ≡ count_line (codes "missed") missed) }
{
    let missed = missed_in(line);
    if is_missed(line, missed) {
        Some(missed)
    } else {
        None
    }
}
