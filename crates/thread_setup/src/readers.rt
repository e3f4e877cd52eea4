//! The readers' parts, with their answers.
ghost use Rattle.std.specs.Prelude.{◌≡◌, ◌<◌, ◌++◌, [], ◌∷◌, All, length, IfOk};
ghost use Rattle.live_view.specs.Views.{WriterView};
ghost use Rattle.push_history.specs.Journal.{keys_of};
ghost use Rattle.thread_setup.specs.Answers.{AreLists, AreNew};
ghost use Rattle.thread_setup.specs.Setups.{AreReaders, IsFreshView};

use flow_base::NoMemory;
use hash_rows::{Answer, Answers, Kind, Options};
use listed::Listed;
use live_view::Views;
use std::alloc::Global;
use thread_run::ReaderPart;

/// The answers of each reader, the last reader's first.
pub type AnswerLists = Listed<Answers>;

/// The answers of all readers, with room for so many keys.
pub fn answers_of(alloc: Global, options: &Options, keys: u32) -> Result<AnswerLists, NoMemory>
    requires keys { keys ≡ length (keys_of options.now) }
    ensures { IfOk result (λ lists. AreLists options.now options.now.readers lists.items) }
{
    let mut lists = Listed::new(alloc, options.readers)?;
    for count in 0..options.readers {
        let reader = options.readers - 1 - count;
        lists.push(answers_of_reader(alloc, reader, options, keys)?);
    }
    Ok(lists)
}

// The answers of one reader.
fn answers_of_reader(
    alloc: Global,
    reader: u32,
    options: &Options,
    keys: u32,
) -> Result<Answers, NoMemory>
    requires keys { keys ≡ length (keys_of options.now) }
    ensures { IfOk result (λ answers. AreNew options.now reader options.now.asks answers.items) }
{
    let mut answers = Listed::new(alloc, options.asks)?;
    for number in 0..options.asks {
        answers.push(Answer::new(alloc, reader, number, options.workers, keys)?);
    }
    Ok(answers)
}

/// The parts of all readers, in the room for them.
pub fn readers_of<K: Kind>(
    options: &Options,
    views: Views<K>,
    lists: AnswerLists,
    room: Listed<ReaderPart<K>>,
) -> Vec<ReaderPart<K>>
    requires views { length views.items ≡ options.now.readers }
    requires lists { AreLists options.now options.now.readers lists.items }
    requires room { (room.items ≡ []) × (room.room ≡ options.now.readers) }
    ensures len { length result.items ≡ options.now.readers }
    ensures readers { (w : WriterView) → All (IsFreshView w) views.items → AreReaders options.now w options.now.readers result.items }
{
    let mut views = views;
    let mut lists = lists;
    let mut parts = room;
    for _ in 0..options.readers {
        let view = take_last(&mut views);
        let answers = take_last(&mut lists);
        parts.push(ReaderPart { view, answers });
    }
    parts.into_items()
}

// Takes the last item out.
fn take_last<T>(list: &mut Listed<T>) -> T
    requires { 0 < length list.old.items }
    ensures { list.old.items ≡ list.new.items ++ result ∷ [] }
{
    match list.pop() {
        Some(last) => last,
        None => unreachable!(),
    }
}
