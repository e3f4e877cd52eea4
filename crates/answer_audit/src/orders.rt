ghost use Rattle.std.specs.Prelude.{◌||◌, ◌≡◌, ◌≤◌, ◌<◌, ◌-◌, ◌*◌, ℕ, All, length, map, true};
ghost use Rattle.std.specs.List.{range_with_len};
ghost use Rattle.hash_rows.specs.Lawful.{IsLawful};
ghost use Rattle.hash_rows.specs.declared.answer.Answer.{Answer as Kept};
ghost use Rattle.octo_text.specs.Content.{content_of};
ghost use Rattle.audit_law.specs.declared.failure.Value.TheVariants.{Number};
ghost use Rattle.audit_law.specs.Tests.{first_failing};
ghost use Rattle.audit_law.specs.AnswerTests.{answer_at, first_unlike, is_no_further, order_test, place_in};
ghost use Rattle.answer_audit.specs.Risen.{AreNumbered, AreOrderedUpTo, HaveRisen, RiseIn};

use audit_law::{Failure, Value};
use octo_text::Journal;

// Whether the front has at most what the other has in each place.
fn is_no_further(front: &[u64], other: &[u64]) -> bool
    requires { length front.now ≡ length other.now }
    ensures { result ≡ is_no_further front.now other.now }
{
    for worker in 0..front.len() {
        if other[worker] < front[worker] {
            return false;
        }
    }
    true
}

// The first place where the fronts aren't equal, or 0.
fn first_unlike(front: &[u64], other: &[u64]) -> usize
    requires { length front.now ≡ length other.now }
    ensures { result ≡ first_unlike front.now other.now }
{
    for worker in 0..front.len() {
        if front[worker] != other[worker] {
            return worker;
        }
    }
    front.len()
}

// The number of the place, 0 behind the last.
fn number_at(front: &[u64], place: usize) -> u64
    ensures { result ≡ place_in front.now place }
{
    if place < front.len() { front[place] } else { 0 }
}

// At the first place where the fronts aren't equal.
fn unordered(line: u32, front: &[u64], other: &[u64]) -> Failure
    requires { length front.now ≡ length other.now }
    ensures { result ≡ (order_test line front.now other.now).failure }
{
    let place = first_unlike(front, other);
    Failure {
        line,
        kept: Value::Number(number_at(front, place)),
        lawful: Value::Number(number_at(other, place)),
    }
}

// Whether one of the fronts is no further than the other.
fn are_ordered(front: &[u64], other: &[u64]) -> bool
    requires { length front.now ≡ length other.now }
    ensures { result ≡ (is_no_further other.now front.now || is_no_further front.now other.now) }
{
    is_no_further(other, front) || is_no_further(front, other)
}

// The first answer before this place whose front is neither at most this one in every place nor
// at least.
fn first_unordered(line: u32, front: &[u64], journal: &Journal, place: u32) -> Option<Failure>
    requires place { place ≤ length journal.now.lists.answers.items }
    requires lens { All (λ (a : Kept). length a.front.items ≡ length front.now) journal.now.lists.answers.items }
    ensures { result ≡ first_failing (map
        (λ e. order_test line front.now (answer_at (content_of journal.now) e).front) (range_with_len 0 place)) }
{
    for earlier in 0..place {
        let other = journal.lists.answers.get(earlier).front.as_slice();
        if !are_ordered(front, other) {
            return Some(unordered(line, front, other));
        }
    }
    None
}

// Of answers whose fronts rise, the first that is further than this front, or else the end.
fn first_further(front: &[u64], journal: &Journal, start: u32, end: u32) -> u32
    requires run { (start ≤ end) × (end ≤ length journal.now.lists.answers.items) }
    requires lens { All (λ (a : Kept). length a.front.items ≡ length front.now) journal.now.lists.answers.items }
    ensures range { (start ≤ result) × (result ≤ end) }
    ensures before { start < result → is_no_further (answer_at (content_of journal.now) (result - 1)).front front.now ≡ true }
{
    let mut low = start;
    let mut high = end;
    while low < high {
        let middle = low + (high - low) / 2;
        let other = journal.lists.answers.get(middle).front.as_slice();
        if is_no_further(other, front) {
            low = middle + 1;
        } else {
            high = middle;
        }
    }
    low
}

// Whether the front is ordered with those of answers that rise: then it stands between two of them.
fn is_ordered_in(front: &[u64], journal: &Journal, start: u32, end: u32) -> bool
    requires run { (start ≤ end) × (end ≤ length journal.now.lists.answers.items) }
    requires lens { All (λ (a : Kept). length a.front.items ≡ length front.now) journal.now.lists.answers.items }
    ensures { result ≡ true → RiseIn (content_of journal.now) start end
        → (line e : ℕ) → start ≤ e → e < end → (order_test line front.now (answer_at (content_of journal.now) e).front).holds ≡ true }
{
    let place = first_further(front, journal, start, end);
    if place == end {
        return true;
    }
    is_no_further(front, journal.lists.answers.get(place).front.as_slice())
}

/// Whether each answer has the number of its place among those of its reader.
pub fn are_numbered(journal: &Journal) -> bool
    ensures { result ≡ true → AreNumbered journal.now.options.asks (content_of journal.now) }
{
    let asks = journal.options.asks;
    if asks == 0 {
        return journal.lists.answers.len() == 0;
    }
    for place in 0..journal.lists.answers.len() {
        if journal.lists.answers.get(place).number != place % asks {
            return false;
        }
    }
    true
}

// Whether the front is ordered with that of each answer before this place, one reader after
// another, where no front falls behind the one before of its reader.
fn is_ordered(front: &[u64], journal: &Journal, place: u32) -> bool
    requires lawful { IsLawful journal.now.options }
    requires place { place ≤ length journal.now.lists.answers.items }
    requires lens { All (λ (a : Kept). length a.front.items ≡ length front.now) journal.now.lists.answers.items }
    ensures { result ≡ true → AreNumbered journal.now.options.asks (content_of journal.now) → HaveRisen (content_of journal.now) place
        → (line : ℕ) → AreOrderedUpTo line front.now (content_of journal.now) place }
{
    let asks = journal.options.asks;
    let readers = journal.options.readers;
    for reader in 0..readers {
        let start = (reader * asks).min(place);
        let end = (start + asks).min(place);
        if !is_ordered_in(front, journal, start, end) {
            return false;
        }
    }
    place <= readers * asks
}

/// The first answer before this place whose front is neither at most this one in every place nor
/// at least. Where the answers are numbered by their places, few of them are looked at unless one
/// fails.
pub fn order_failure(
    line: u32,
    front: &[u64],
    journal: &Journal,
    place: u32,
    numbered: bool,
) -> Option<Failure>
    requires lawful { IsLawful journal.now.options }
    requires place { place ≤ length journal.now.lists.answers.items }
    requires lens { All (λ (a : Kept). length a.front.items ≡ length front.now) journal.now.lists.answers.items }
    requires numbered { numbered ≡ true → AreNumbered journal.now.options.asks (content_of journal.now) }
    requires risen { HaveRisen (content_of journal.now) place }
    ensures { result ≡ first_failing (map
        (λ e. order_test line front.now (answer_at (content_of journal.now) e).front) (range_with_len 0 place)) }
{
    if numbered && is_ordered(front, journal, place) {
        return None;
    }
    first_unordered(line, front, journal, place)
}
