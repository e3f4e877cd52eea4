//! The readers learn all that was published, and give their answers away.
ghost use Rattle.std.specs.Prelude.{◌≡◌, ◌≤◌, ◌+◌, ◌++◌, [], All, length};
ghost use Rattle.std.specs.List.{flat_map};
ghost use Rattle.live_state.specs.Copies.{HasRoomFor};
ghost use mathlib.Core.List.{IsPrefix};

use hash_rows::{Answer, Answers, Kind};
use live_view::{ViewWriter, settle};
use packet_key::FlowKey;
use std::sync::Wait;
use thread_run::ReaderPart;

// Moves the answers to the end of others.
fn move_answers(from: Answers, into: &mut Answers)
    requires room { length into.old.items + length from.items ≤ into.old.room }
    ensures items { into.new.items ≡ into.old.items ++ from.items }
    ensures room { into.new.room ≡ into.old.room }
{
    for answer in from.into_items() {
        into.push(answer);
    }
}

// The reader's view learns all that was published, and gives its answers away.
fn gather_one<K: Kind, R: Wait>(
    rt: &R,
    writer: &mut ViewWriter<K>,
    keys: &[FlowKey],
    part: ReaderPart<K>,
    last: &mut Answer,
    answers: &mut Answers,
)
    requires pair { (part.view.book ≡ writer.old.book) × (part.view.layout ≡ writer.old.layout) }
    requires room { HasRoomFor writer.old.layout.workers keys.now last.old }
    requires answers_room { length answers.old.items + length part.answers.items ≤ answers.old.room }
    ensures writer { writer.new ≡ writer.old }
    ensures room { HasRoomFor writer.old.layout.workers keys.now last.new }
    ensures answers { answers.new.items ≡ answers.old.items ++ part.answers.items }
    ensures answers_room { answers.new.room ≡ answers.old.room }
    ensures before { IsPrefix part.view.known writer.old.published }
{
    let ReaderPart {
        mut view,
        answers: own,
    } = part;
    settle(rt, writer, &mut view, keys, last);
    move_answers(own, answers);
}

/// Each reader's view learns all that was published, and gives its answers away.
pub fn gather_answers<K: Kind, R: Wait>(
    rt: &R,
    writer: &mut ViewWriter<K>,
    keys: &[FlowKey],
    readers: Vec<ReaderPart<K>>,
    last: &mut Answer,
    answers: &mut Answers,
)
    requires pair { All (λ p. (p.view.book ≡ writer.old.book) × (p.view.layout ≡ writer.old.layout)) readers.items }
    requires room { HasRoomFor writer.old.layout.workers keys.now last.old }
    requires answers_room { (answers.old.items ≡ []) × (length (flat_map (λ p. p.answers.items) readers.items) ≤ answers.old.room) }
    ensures writer { writer.new ≡ writer.old }
    ensures answers { answers.new.items ≡ flat_map (λ p. p.answers.items) readers.items }
    ensures before { All (λ p. IsPrefix p.view.known writer.old.published) readers.items }
{
    for part in readers {
        gather_one(rt, writer, keys, part, last, answers);
    }
}
