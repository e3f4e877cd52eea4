ghost use Rattle.std.specs.Prelude.{◌≡◌, ◌≢◌, ◌<◌, ◌^◌, ℕ, MatchOption, IfSome, true, false};
ghost use Rattle.octo_text.specs.JournalText.{worker_line, run_line};

use crate::numbers::number_behind;
use octo_text::Line;

/// What a worker's line says: the worker, the number of its messages, and that of its refused
/// updates.
#[derive(Clone, Copy, Debug, PartialEq, Eq)]
pub struct WorkerLine {
    pub worker: u64,
    pub pushes: u64,
    pub refused: u64,
}

/// What a line of refused updates says: the worker, the first update and the last one.
#[derive(Clone, Copy, Debug, PartialEq, Eq)]
pub struct RunLine {
    pub worker: u64,
    pub first: u64,
    pub last: u64,
}

#[tactic(auto, unfolding(octo_text::specs::JournalText::worker_line))]
fn worker_in(line: &[u8]) -> WorkerLine
    ensures { (w p r : ℕ) → w < 2 ^ 64 → p < 2 ^ 64 → r < 2 ^ 64 → line.now ≡ worker_line w p r
        → result ≡ record { worker = w; pushes = p; refused = r } }
{
    let (worker, rest) = number_behind(line, b"worker ");
    let (pushes, rest) = number_behind(rest, b" pushes ");
    let (refused, _) = number_behind(rest, b" refused ");
    WorkerLine {
        worker,
        pushes,
        refused,
    }
}

// Whether the line is the one that says this.
#[tactic(auto, unfolding(octo_text::specs::JournalText::worker_line))]
fn is_worker(line: &[u8], said: &WorkerLine) -> bool
    ensures yes { result ≡ true → line.now ≡ worker_line said.now.worker said.now.pushes said.now.refused }
    ensures no { result ≡ false → line.now ≢ worker_line said.now.worker said.now.pushes said.now.refused }
{
    let mut text = Line::new();
    text.named(b"worker ", said.worker);
    text.named(b" pushes ", said.pushes);
    text.named(b" refused ", said.refused);
    text.text(b"\n");
    text.as_slice() == line
}

/// What the line says, exactly where it is a worker's line. It says one thing alone.
pub fn read_worker(line: &[u8]) -> Option<WorkerLine>
    ensures line { MatchOption result
        ((worker pushes refused : ℕ) → worker < 2 ^ 64 → pushes < 2 ^ 64 → refused < 2 ^ 64 → line.now ≢ worker_line worker pushes refused)
        (λ said. line.now ≡ worker_line said.worker said.pushes said.refused) }
    ensures once { IfSome result (λ said. (worker pushes refused : ℕ) → worker < 2 ^ 64 → pushes < 2 ^ 64 → refused < 2 ^ 64
        → line.now ≡ worker_line worker pushes refused → said ≡ record { worker = worker; pushes = pushes; refused = refused }) }
{
    let said = worker_in(line);
    if is_worker(line, &said) {
        Some(said)
    } else {
        None
    }
}

#[tactic(auto, unfolding(octo_text::specs::JournalText::run_line))]
fn run_in(line: &[u8]) -> RunLine
    ensures { (w a b : ℕ) → w < 2 ^ 64 → a < 2 ^ 64 → b < 2 ^ 64 → line.now ≡ run_line w (a, b)
        → result ≡ record { worker = w; first = a; last = b } }
{
    let (worker, rest) = number_behind(line, b"refused ");
    let (first, rest) = number_behind(rest, b" ");
    let (last, _) = number_behind(rest, b"-");
    RunLine {
        worker,
        first,
        last,
    }
}

#[tactic(auto, unfolding(octo_text::specs::JournalText::run_line))]
fn is_run(line: &[u8], said: &RunLine) -> bool
    ensures yes { result ≡ true → line.now ≡ run_line said.now.worker (said.now.first, said.now.last) }
    ensures no { result ≡ false → line.now ≢ run_line said.now.worker (said.now.first, said.now.last) }
{
    let mut text = Line::new();
    text.named(b"refused ", said.worker);
    text.named(b" ", said.first);
    text.named(b"-", said.last);
    text.text(b"\n");
    text.as_slice() == line
}

/// What the line says, exactly where it is a line of refused updates. It says one thing alone.
pub fn read_run(line: &[u8]) -> Option<RunLine>
    ensures line { MatchOption result
        ((worker first last : ℕ) → worker < 2 ^ 64 → first < 2 ^ 64 → last < 2 ^ 64 → line.now ≢ run_line worker (first, last))
        (λ said. line.now ≡ run_line said.worker (said.first, said.last)) }
    ensures once { IfSome result (λ said. (worker first last : ℕ) → worker < 2 ^ 64 → first < 2 ^ 64 → last < 2 ^ 64
        → line.now ≡ run_line worker (first, last) → said ≡ record { worker = worker; first = first; last = last }) }
{
    let said = run_in(line);
    if is_run(line, &said) {
        Some(said)
    } else {
        None
    }
}
