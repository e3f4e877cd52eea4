ghost use Rattle.std.specs.Prelude.{◌≡◌, ◌≢◌, ◌<◌, ◌≤◌, ◌+◌, ◌-◌, ◌^◌, ◌++◌, ◌∷◌, [], ℕ, All, IfOk, IfSome, MatchOption, map, true, false, length, replicate};
ghost use Rattle.std.specs.List.{range_with_len};
ghost use Rattle.hash_rows.specs.Marks.{marked};
ghost use Rattle.journal_read.specs.Drafts.{MayFollow, in_last};
ghost use Rattle.journal_read.specs.Entries.{line_of, Run, Worker};
ghost use Rattle.journal_whole.specs.Drafted.{draft_of, HasRooms, IsClearFrom, IsProper};
ghost use Rattle.journal_whole.specs.Steps.{Judges, Reads};

use crate::reading::{Place, Reading};
use flow_base::NoMemory;
use hash_rows::{BitRows, Bits};
use journal_read::{RunLine, WorkerLine, read_run, read_worker};
use std::alloc::Global;

/// The most messages, and the most refused updates, that a journal tells.
const MOST_UPDATES: u32 = 1 << 27;

// What a worker's line says, where it may come next.
fn worker_in(line: &[u8], worker: u32, refused: u32) -> Option<WorkerLine>
    requires { refused ≤ 2 ^ 27 }
    ensures some { IfSome result (λ said. (said.worker ≡ worker) × (said.pushes ≤ 2 ^ 27) × (refused + said.refused ≤ 2 ^ 27)) }
    ensures line { MatchOption result
        ((w p r : ℕ) → w ≡ worker → p ≤ 2 ^ 27 → refused + r ≤ 2 ^ 27 → line.now ≢ line_of (Worker w p r))
        (λ said. line.now ≡ line_of (Worker said.worker said.pushes said.refused)) }
{
    let said = read_worker(line)?;
    let most = u64::from(MOST_UPDATES - refused);
    if said.worker == u64::from(worker)
        && said.pushes <= u64::from(MOST_UPDATES)
        && said.refused <= most
    {
        Some(said)
    } else {
        None
    }
}

/// Reads the next worker's line, where it is one.
pub(crate) fn take_worker(
    alloc: Global,
    line: &[u8],
    reading: &mut Reading,
) -> Result<bool, NoMemory>
    requires rooms { HasRooms reading.old }
    requires proper { IsProper (draft_of reading.old) }
    requires listing { reading.old.place ≡ Place.Lists }
    requires due { reading.old.due ≡ 0 }
    requires more { length reading.old.journal.lists.pushes.items < reading.old.journal.options.workers }
    ensures rooms { IfOk result (λ _. HasRooms reading.new) }
    ensures yes { IfOk result (λ taken. taken ≡ true → Reads (draft_of reading.old) (draft_of reading.new) line.now) }
    ensures no { IfOk result (λ taken. taken ≡ false
        → (w p r : ℕ) → MayFollow (draft_of reading.old) (Worker w p r) → line.now ≢ line_of (Worker w p r)) }
{
    let worker = reading.journal.lists.pushes.len();
    let Some(said) = worker_in(line, worker, reading.refused) else {
        return Ok(false);
    };
    let bits = Bits::new(alloc, MOST_UPDATES)?;
    reading.journal.lists.refused.push(bits);
    reading.journal.lists.pushes.push(said.pushes);
    reading.refused += said.refused as u32;
    reading.due = said.refused as u32;
    reading.least = 0;
    Ok(true)
}

// Whether the run is one of the last worker's, and begins and ends where it may.
fn is_in_place(said: &RunLine, workers: u64, least: u64) -> bool
    ensures yes { result ≡ true → (said.now.worker + 1 ≡ workers) × (least ≤ said.now.first)
        × (said.now.first ≤ said.now.last) × (said.now.last < 2 ^ 27) }
    ensures no { result ≡ false → said.now.worker + 1 ≡ workers → least ≤ said.now.first
        → said.now.first ≤ said.now.last → said.now.last < 2 ^ 27 → ⊥ }
{
    said.worker < workers
        && said.worker + 1 == workers
        && least <= said.first
        && said.first <= said.last
        && said.last < u64::from(MOST_UPDATES)
}

// Whether the run may come next.
fn is_next(said: &RunLine, reading: &Reading) -> bool
    requires { reading.now.place ≡ Place.Lists }
    ensures yes { result ≡ true → MayFollow (draft_of reading.now) (Run said.now.worker said.now.first said.now.last) }
    ensures no { result ≡ false → MayFollow (draft_of reading.now) (Run said.now.worker said.now.first said.now.last) → ⊥ }
{
    let workers = u64::from(reading.journal.lists.pushes.len());
    if !is_in_place(said, workers, u64::from(reading.least)) {
        return false;
    }
    said.last + 1 - said.first <= u64::from(reading.due)
}

// What a line of refused updates says, where it may come next.
fn run_in(line: &[u8], reading: &Reading) -> Option<RunLine>
    requires listing { reading.now.place ≡ Place.Lists }
    requires few { length reading.now.journal.lists.pushes.items ≤ 16 }
    ensures some { IfSome result (λ said. MayFollow (draft_of reading.now) (Run said.worker said.first said.last)) }
    ensures line { MatchOption result
        ((w a b : ℕ) → MayFollow (draft_of reading.now) (Run w a b) → line.now ≢ line_of (Run w a b))
        (λ said. line.now ≡ line_of (Run said.worker said.first said.last)) }
{
    match read_run(line) {
        Some(said) if is_next(&said, reading) => Some(said),
        _ => None,
    }
}

// Sets the bits from the start up to the end in the last list, which is clear from the start on.
fn mark(rows: &mut BitRows, start: u32, end: u32)
    requires some { 0 < length rows.old.items }
    requires room { length rows.old.items ≤ rows.old.room }
    requires len { All (λ bits. length bits ≡ 2 ^ 27) rows.old.items }
    requires clear { IsClearFrom start rows.old.items }
    requires run { (start ≤ end) × (end ≤ 2 ^ 27) }
    ensures room { rows.new.room ≡ rows.old.room }
    ensures len { All (λ bits. length bits ≡ 2 ^ 27) rows.new.items }
    ensures clear { IsClearFrom end rows.new.items }
    ensures marked { map marked rows.new.items ≡ in_last (map marked rows.old.items) (range_with_len start (end - start)) }
{
    if let Some(mut bits) = rows.pop() {
        bits.set_range(start, end);
        rows.push(bits);
    }
}

/// Reads the line of a run of refused updates, where it is one that may come next.
pub(crate) fn take_run(line: &[u8], reading: &mut Reading) -> bool
    requires rooms { HasRooms reading.old }
    requires proper { IsProper (draft_of reading.old) }
    requires listing { reading.old.place ≡ Place.Lists }
    requires due { 0 < reading.old.due }
    ensures rooms { HasRooms reading.new }
    ensures judges { Judges (draft_of reading.old) (draft_of reading.new) line.now result }
{
    let Some(said) = run_in(line, reading) else {
        return false;
    };
    let start = said.first as u32;
    let end = said.last as u32 + 1;
    mark(&mut reading.journal.lists.refused, start, end);
    reading.due -= end - start;
    reading.least = end + 1;
    true
}
