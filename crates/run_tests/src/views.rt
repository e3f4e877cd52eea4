ghost use Rattle.std.specs.Prelude.{◌≡◌, [], pos, All, IfSome};
ghost use Rattle.std.specs.Thread.{IsSync};
ghost use Rattle.live_state.specs.Copies.{HasRoomFor};
ghost use Rattle.live_view.specs.Views.{layout_for};

use count_min::CountMin;
use hash_rows::{Answer, Push, Shape};
use live_view::{State, View, ViewWriter, Views, make_views, settle};
use packet_key::FlowKey;
use std::alloc::Global;
use std::sync::Wait;
use std::test::*;
use std::thread;
use std::thread::{Threads, join_mut};

const KEY: FlowKey = FlowKey::V4 {
    src: 0x0A00_0001,
    dst: 0x0A00_0002,
    sport: 53,
    dport: 1234,
    proto: 17,
};

const ONE_CELL: Shape = Shape {
    rows: 1,
    columns: 1,
};

fn message(update: u32) -> Push
    ensures place { (result.worker ≡ 0) × (result.cell ≡ 0) }
    ensures amount { result.amount ≡ pos 5 }
{
    Push {
        worker: 0,
        packet: update,
        update,
        key: KEY,
        cell: 0,
        amount: 5,
    }
}

#[test]
fn an_ask_shows_what_was_published(rt: HostRuntime) -> Result<(), Fail> {
    let alloc: Global = rt.alloc();
    let keys = [KEY];
    let Ok(mut answer) = Answer::new(alloc, 0, 0, 2, 1) else {
        return Err(Fail::from("memory"));
    };
    let Ok(mut state) = State::<CountMin>::new(alloc, ONE_CELL, 2, 4, 1) else {
        return Err(Fail::from("memory"));
    };
    let Ok((mut writer, mut views)) = make_views::<CountMin, _>(&rt, alloc, 1, ONE_CELL, 2, 4, 1)
    else {
        return Err(Fail::from("memory"));
    };
    let appended = writer.append(message(0)).is_ok();
    let mut before = 9;
    if let Some(mut view) = views.pop() {
        view.ask(&rt, &keys, &mut answer);
        before = answer.folded;
        writer.publish(&rt);
        view.learn(writer.tell());
        view.ask(&rt, &keys, &mut answer);
    }
    writer.copy_state(&rt, &mut state);
    let folded = writer.folded();
    writer.close(&rt);
    assert!(rt; appended);
    assert!(rt; (before, answer.folded, folded) == (0, 1, 1));
    assert!(rt; answer.front.as_slice() == [1, 0].as_slice());
    assert!(rt; answer.upto.as_slice() == [1, 0].as_slice());
    assert!(rt; answer.shown.as_slice() == [5].as_slice());
    assert!(rt; state.table().estimate(&KEY) == 5);
    Ok(())
}

// Appends and publishes one message at a time.
fn write_all<R: Wait>(rt: &R, writer: &mut ViewWriter<CountMin>, messages: u32) -> bool
    requires { writer.old.layout ≡ layout_for (record { rows = 1; columns = 1 }) 2 4 (pos 1) }
    ensures { (writer.new.book ≡ writer.old.book) × (writer.new.layout ≡ writer.old.layout) }
{
    for update in 0..messages {
        if writer.append(message(update)).is_err() {
            return false;
        }
        writer.publish(rt);
    }
    true
}

// Whether no answer has fewer messages than the one before.
fn read_rising<R: Wait>(
    rt: &R,
    view: &mut View<CountMin>,
    keys: &[FlowKey],
    into: &mut Answer,
) -> bool
    requires { HasRoomFor view.old.layout.workers keys.now into.old }
    ensures pair { (view.new.book ≡ view.old.book) × (view.new.layout ≡ view.old.layout) }
    ensures room { HasRoomFor view.old.layout.workers keys.now into.new }
{
    let mut rising = true;
    for _ in 0..20 {
        let before = into.folded;
        view.ask(rt, keys, into);
        rising = rising && before <= into.folded;
        thread::yield_now();
    }
    rising
}

// Two readers beside each other.
fn read_both<R: Threads + Wait + Sync>(
    rt: &R,
    first: &mut View<CountMin>,
    second: &mut View<CountMin>,
    keys: &[FlowKey],
    one: &mut Answer,
    two: &mut Answer,
) -> bool
    requires { HasRoomFor first.old.layout.workers keys.now one.old × HasRoomFor second.old.layout.workers keys.now two.old }
    ensures first { (first.new.book ≡ first.old.book) × (first.new.layout ≡ first.old.layout)
        × HasRoomFor first.old.layout.workers keys.now one.new }
    ensures second { (second.new.book ≡ second.old.book) × (second.new.layout ≡ second.old.layout)
        × HasRoomFor second.old.layout.workers keys.now two.new }
{
    let mut first_rises = false;
    let mut second_rises = false;
    join_mut(
        rt,
        &mut || first_rises = read_rising(rt, first, keys, one),
        &mut || second_rises = read_rising(rt, second, keys, two),
    );
    first_rises && second_rises
}

// The last of the writer's views.
fn next_view(views: &mut Views<CountMin>, writer: &ViewWriter<CountMin>) -> Option<View<CountMin>>
    requires { All (λ v. (v.book ≡ writer.now.book) × (v.layout ≡ writer.now.layout) × (v.known ≡ []) × (v.told ≡ [])) views.old.items }
    ensures own { IfSome result (λ v. (v.book ≡ writer.now.book) × (v.layout ≡ writer.now.layout) × (v.known ≡ []) × (v.told ≡ [])) }
    ensures rest { All (λ v. (v.book ≡ writer.now.book) × (v.layout ≡ writer.now.layout) × (v.known ≡ []) × (v.told ≡ [])) views.new.items }
{
    match views.pop() {
        Some(view) => Some(view),
        None => None,
    }
}

// A writer beside two readers: whether all was appended, and whether no reader saw less than before.
fn run_beside<R: Threads + Wait + Sync>(
    rt: &R,
    writer: &mut ViewWriter<CountMin>,
    first: &mut View<CountMin>,
    second: &mut View<CountMin>,
    keys: &[FlowKey],
    one: &mut Answer,
    two: &mut Answer,
) -> bool
    requires writer { writer.old.layout ≡ layout_for (record { rows = 1; columns = 1 }) 2 4 (pos 1) }
    requires first { HasRoomFor first.old.layout.workers keys.now one.old }
    requires second { HasRoomFor second.old.layout.workers keys.now two.old }
    ensures writer { (writer.new.book ≡ writer.old.book) × (writer.new.layout ≡ writer.old.layout) }
    ensures first { (first.new.book ≡ first.old.book) × (first.new.layout ≡ first.old.layout)
        × HasRoomFor first.old.layout.workers keys.now one.new }
    ensures second { (second.new.book ≡ second.old.book) × (second.new.layout ≡ second.old.layout)
        × HasRoomFor second.old.layout.workers keys.now two.new }
{
    let mut wrote = false;
    let mut rising = false;
    join_mut(
        rt,
        &mut || wrote = write_all(rt, writer, 40),
        &mut ||
            requires { IsSync R.row × HasRoomFor first.now.layout.workers keys.now one.now
                × HasRoomFor second.now.layout.workers keys.now two.now }
            ensures { (first.exit.now.book ≡ first.entry.now.book) × (first.exit.now.layout ≡ first.entry.now.layout)
                × (second.exit.now.book ≡ second.entry.now.book) × (second.exit.now.layout ≡ second.entry.now.layout)
                × HasRoomFor first.entry.now.layout.workers keys.entry.now one.exit.now
                × HasRoomFor second.entry.now.layout.workers keys.entry.now two.exit.now }
        { rising = read_both(rt, first, second, keys, one, two) },
    );
    wrote && rising
}

#[test]
fn readers_beside_a_writer_see_more_and_more(rt: HostRuntime) -> Result<(), Fail> {
    let alloc: Global = rt.alloc();
    let keys = [KEY];
    let (Ok(mut one), Ok(mut two)) = (
        Answer::new(alloc, 0, 0, 2, 1),
        Answer::new(alloc, 1, 0, 2, 1),
    ) else {
        return Err(Fail::from("memory"));
    };
    let Ok((mut writer, mut views)) = make_views::<CountMin, _>(&rt, alloc, 2, ONE_CELL, 2, 4, 1)
    else {
        return Err(Fail::from("memory"));
    };
    let mut rising = false;
    if let (Some(mut first), Some(mut second)) = (
        next_view(&mut views, &writer),
        next_view(&mut views, &writer),
    ) {
        rising = run_beside(
            &rt,
            &mut writer,
            &mut first,
            &mut second,
            &keys,
            &mut one,
            &mut two,
        );
        settle(&rt, &mut writer, &mut first, &keys, &mut one);
        settle(&rt, &mut writer, &mut second, &keys, &mut two);
    }
    writer.close(&rt);
    assert!(rt; rising);
    assert!(rt; (one.folded, two.folded) == (40, 40));
    assert!(rt; one.shown.as_slice() == [200].as_slice());
    Ok(())
}

// A message that was refused for want of memory goes in when it comes again.
#[test]
fn a_refused_message_comes_again(rt: HostRuntime) -> Result<(), Fail> {
    let alloc: Global = rt.alloc();
    let Ok((mut writer, _views)) = make_views::<CountMin, _>(&rt, alloc, 0, ONE_CELL, 2, 4, 1)
    else {
        return Err(Fail::from("memory"));
    };
    let taken = writer.append(message(0)).is_ok() || writer.append(message(0)).is_ok();
    writer.publish(&rt);
    let folded = writer.folded();
    writer.close(&rt);
    assert!(rt; taken);
    assert!(rt; folded == 1);
    Ok(())
}
