ghost use Rattle.std.specs.Prelude.{◌≡◌, ◌≤◌, ◌<◌, ◌+◌, ◌^◌, length};

use hash_rows::Push;
use packet_key::FlowKey;
use push_lane::{InPass, Lane, OutPass};
use std::sync::Wait;
use std::test::*;
use std::thread;
use std::thread::join_mut;

fn message(update: u32) -> Push {
    let key = FlowKey::V4 {
        src: 0x0A00_0001,
        dst: 0x0A00_0002,
        sport: 53,
        dport: 1234,
        proto: 17,
    };
    Push {
        worker: 0,
        packet: update,
        update,
        key,
        cell: update,
        amount: 5,
    }
}

fn send<R: Wait>(rt: &R, lane: &Lane, pass: &mut InPass, update: u32) -> Result<(), Push>
    requires lane { pass.old.id ≡ lane.now.id }
    requires room { length pass.old.sent < 100 }
    ensures lane { pass.new.id ≡ pass.old.id }
    ensures more { length pass.new.sent ≤ length pass.old.sent + 1 }
{
    lane.push(rt, pass, message(update))
}

#[test]
fn a_full_lane_hands_the_message_back(rt: HostRuntime) -> Result<(), Fail> {
    let (a, b, c) = (message(0), message(1), message(2));
    let Ok((lane, mut sends, mut takes)) = Lane::new(&rt, rt.alloc(), 2) else {
        return Err(Fail::from("memory"));
    };
    assert!(rt; send(&rt, &lane, &mut sends, 0) == Ok(()));
    assert!(rt; send(&rt, &lane, &mut sends, 1) == Ok(()));
    assert!(rt; send(&rt, &lane, &mut sends, 2) == Err(c));
    assert!(rt; sends.fulls() == 1);
    assert!(rt; lane.take(&rt, &mut takes) == Some(a));
    assert!(rt; send(&rt, &lane, &mut sends, 2) == Ok(()));
    assert!(rt; lane.take(&rt, &mut takes) == Some(b));
    assert!(rt; lane.take(&rt, &mut takes) == Some(c));
    assert!(rt; lane.take(&rt, &mut takes) == None);
    Ok(())
}

#[test]
fn what_is_left_is_drained(rt: HostRuntime) -> Result<(), Fail> {
    let (a, b) = (message(0), message(1));
    let Ok((lane, mut sends, mut takes)) = Lane::new(&rt, rt.alloc(), 2) else {
        return Err(Fail::from("memory"));
    };
    assert!(rt; send(&rt, &lane, &mut sends, 0) == Ok(()));
    assert!(rt; send(&rt, &lane, &mut sends, 1) == Ok(()));
    assert!(rt; lane.take(&rt, &mut takes) == Some(a));
    let mut both = lane.take_in(&rt, sends, takes);
    assert!(rt; lane.drain(&rt, &mut both) == Some(b));
    assert!(rt; lane.drain(&rt, &mut both) == None);
    assert!(rt; both.fulls() == 0);
    Ok(())
}

fn send_until<R: Wait>(rt: &R, lane: &Lane, pass: &mut InPass, end: u32)
    requires lane { pass.old.id ≡ lane.now.id }
    requires room { length pass.old.sent + end < 2 ^ 32 }
    ensures lane { pass.new.id ≡ pass.old.id }
{
    for update in 2..end {
        lane.push_wait(rt, pass, message(update));
    }
}

fn take_one<R: Wait>(rt: &R, lane: &Lane, pass: &mut OutPass) -> Push
    requires { pass.old.id ≡ lane.now.id }
    ensures { pass.new.id ≡ pass.old.id }
{
    for _ in rt.forever() {
        if let Some(message) = lane.take(rt, pass) {
            return message;
        }
        thread::yield_now();
    }
    unreachable!()
}

// How many of the messages with numbers from 0 on come in order.
fn take_until<R: Wait>(rt: &R, lane: &Lane, pass: &mut OutPass, end: u32) -> u32
    requires { pass.old.id ≡ lane.now.id }
    ensures { pass.new.id ≡ pass.old.id }
{
    for update in 0..end {
        if take_one(rt, lane, pass) != message(update) {
            return update;
        }
    }
    end
}

#[test]
fn a_message_that_met_a_full_lane_is_sent_after_a_take(rt: HostRuntime) -> Result<(), Fail> {
    let Ok((lane, mut sends, mut takes)) = Lane::new(&rt, rt.alloc(), 2) else {
        return Err(Fail::from("memory"));
    };
    assert!(rt; send(&rt, &lane, &mut sends, 0) == Ok(()));
    assert!(rt; send(&rt, &lane, &mut sends, 1) == Ok(()));
    assert!(rt; send(&rt, &lane, &mut sends, 2) == Err(message(2)));
    let mut in_order = 0;
    join_mut(
        &rt,
        &mut || send_until(&rt, &lane, &mut sends, 50),
        &mut || in_order = take_until(&rt, &lane, &mut takes, 50),
    );
    assert!(rt; in_order == 50);
    let mut both = lane.take_in(&rt, sends, takes);
    assert!(rt; lane.drain(&rt, &mut both) == None);
    assert!(rt; both.fulls() >= 1, "the third message met a full lane");
    Ok(())
}
