//! What readers see.
ghost use Rattle.std.specs.Prelude.{◌≡◌, ◌≤◌, ◌+◌, ℕ, List, length, IfOk, OnOk, ◌<◌, ◌*◌};
ghost use Rattle.push_history.specs.Journal.{keys_of};
ghost use Rattle.push_history.specs.LagRun.{Terms};
ghost use Rattle.live_state.specs.Copies.{IsCopyOf, estimates_in};
ghost use Rattle.live_state.specs.Fold.{state_after, layout_in};
ghost use Rattle.round_law.specs.OwnRounds.{folded_after};
ghost use Rattle.octo_engine.specs.Looks.{AreAllLooks, AreLooks, Runs, looks_wanted};
ghost use Rattle.octo_engine.specs.Answers.{AreLooksByReader, IsLookFor, IsLike};

use flow_base::NoMemory;
use hash_rows::{Answer, Answers, Cells, Counts, Keys, Kind, Options, Sketch, ZERO_KEY};
use listed::Listed;
use live_state::State;
use std::alloc::Global;

/// The keys that each ask asks for.
pub fn asked_keys(alloc: Global, options: &Options) -> Result<Keys, NoMemory>
    ensures { IfOk result (λ keys. keys.items ≡ keys_of options.now) }
{
    match options.sketch {
        Sketch::LogLog => Listed::filled(alloc, 1, ZERO_KEY),
        Sketch::CountMin | Sketch::CountSketch => copy_keys(alloc, &options.watch),
    }
}

fn copy_keys(alloc: Global, keys: &Keys) -> Result<Keys, NoMemory>
    ensures { IfOk result (λ copy. copy.items ≡ keys.now.items) }
{
    let mut copy = Listed::new(alloc, keys.len())?;
    for key in keys.as_slice() {
        copy.push(*key);
    }
    Ok(copy)
}

/// How many looks answer all asks: readers ask at the same moments.
pub fn looks_wanted(options: &Options) -> u32
    ensures { result ≡ looks_wanted options.now }
{
    if options.readers == 0 {
        0
    } else {
        options.asks
    }
}

/// Takes a look at the state, where one is wanted still.
pub fn look_once<K: Kind>(
    alloc: Global,
    state: &State<K>,
    keys: &Keys,
    options: &Options,
    looks: &mut Answers,
) -> Result<(), NoMemory>
    requires { keys.now.items ≡ keys_of options.now }
    ensures { OnOk result ((t : Terms) (n : ℕ) → Runs K.rules t options.now
        → state.now ≡ state_after K.rules (layout_in options.now) (folded_after t options.now (n + 1))
        → AreLooks K.rules t options.now n looks.old → AreLooks K.rules t options.now (n + 1) looks.new) }
{
    let _options = options;
    if looks.len() < looks.room() {
        looks.push(look_at(alloc, state, keys)?);
    }
    Ok(())
}

/// Takes the rest of the looks at the last state.
pub fn look_at_end<K: Kind>(
    alloc: Global,
    state: &State<K>,
    keys: &Keys,
    options: &Options,
    looks: &mut Answers,
) -> Result<(), NoMemory>
    requires { keys.now.items ≡ keys_of options.now }
    ensures { OnOk result ((t : Terms) (n : ℕ) → Runs K.rules t options.now
        → state.now ≡ state_after K.rules (layout_in options.now) (folded_after t options.now n)
        → AreLooks K.rules t options.now n looks.old → AreAllLooks K.rules t options.now n looks.new.items) }
{
    let _options = options;
    'looks: while looks.len() < looks.room() {
        looks.push(look_at(alloc, state, keys)?);
    }
    Ok(())
}

// What a reader sees that asks now.
fn look_at<K: Kind>(alloc: Global, state: &State<K>, keys: &Keys) -> Result<Answer, NoMemory>
    ensures { IfOk result (λ look. IsCopyOf K.rules state.now keys.now.items look) }
{
    Ok(Answer {
        reader: 0,
        number: 0,
        folded: state.folded(),
        front: copy_counts(alloc, state.fronts(), state.workers())?,
        upto: copy_counts(alloc, state.uptos(), state.workers())?,
        shown: estimate_all(alloc, state, keys)?,
    })
}

/// Copies a list of counts.
pub fn copy_counts(alloc: Global, counts: &[u64], len: u32) -> Result<Counts, NoMemory>
    requires { len ≡ length counts.now }
    ensures { IfOk result (λ copy. copy.items ≡ counts.now) }
{
    let mut copy = Listed::new(alloc, len)?;
    for count in counts {
        copy.push(*count);
    }
    Ok(copy)
}

fn estimate_all<K: Kind>(alloc: Global, state: &State<K>, keys: &Keys) -> Result<Cells, NoMemory>
    ensures { IfOk result (λ cells. cells.items ≡ estimates_in K.rules state.now keys.now.items) }
{
    let mut cells = Listed::new(alloc, keys.len())?;
    for key in keys.as_slice() {
        cells.push(state.table().estimate(key));
    }
    Ok(cells)
}

/// The answers of all readers, by reader: each has the looks as its own.
pub fn answers_from(alloc: Global, looks: &Answers, options: &Options) -> Result<Answers, NoMemory>
    requires small { (options.now.readers ≤ 4) × (options.now.asks ≤ 1024) }
    requires looks { 0 < options.now.readers → length looks.now.items ≡ options.now.asks }
    ensures { IfOk result (λ answers. AreLooksByReader options.now.readers options.now.asks looks.now.items answers.items) }
{
    let mut answers = Listed::new(alloc, options.readers * options.asks)?;
    'readers: for reader in 0..options.readers {
        answer_all(alloc, looks, options.asks, reader, &mut answers)?;
    }
    Ok(answers)
}

// Adds the answers of one reader.
fn answer_all(
    alloc: Global,
    looks: &Answers,
    asks: u32,
    reader: u32,
    answers: &mut Answers,
) -> Result<(), NoMemory>
    requires looks { length looks.now.items ≡ asks }
    requires room { length answers.old.items + asks ≤ answers.old.room }
    ensures room { OnOk result (answers.new.room ≡ answers.old.room) }
    ensures answers { OnOk result (IsLike reader asks looks.now.items answers.old.items answers.new.items) }
{
    'asks: for number in 0..asks {
        let answer = answer_as(alloc, looks.get(number), reader, number)?;
        answers.push(answer);
    }
    Ok(())
}

// The look as an answer of the reader.
fn answer_as(alloc: Global, look: &Answer, reader: u32, number: u32) -> Result<Answer, NoMemory>
    ensures { IfOk result (λ answer. IsLookFor reader number look.now answer) }
{
    Ok(Answer {
        reader,
        number,
        folded: look.folded,
        front: copy_counts(alloc, look.front.as_slice(), look.front.len())?,
        upto: copy_counts(alloc, look.upto.as_slice(), look.upto.len())?,
        shown: copy_cells(alloc, &look.shown)?,
    })
}

fn copy_cells(alloc: Global, cells: &Cells) -> Result<Cells, NoMemory>
    ensures { IfOk result (λ copy. copy.items ≡ cells.now.items) }
{
    let mut copy = Listed::new(alloc, cells.len())?;
    for cell in cells.as_slice() {
        copy.push(*cell);
    }
    Ok(copy)
}
