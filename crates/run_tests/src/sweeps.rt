ghost use Rattle.std.specs.Prelude.{◌≡◌, ◌<◌, ◌+◌, ◌^◌, length};
ghost use Rattle.aggregate.specs.Takens.{ArePassesOf};

use aggregate::{Aggregator, OutPasses};
use count_min::CountMin;
use flow_base::NoMemory;
use hash_rows::{Push, Shape};
use live_view::make_views;
use packet_key::FlowKey;
use push_lane::{InPass, Lane};
use std::sync::Wait;
use std::test::*;

const ONE_ROW: Shape = Shape {
    rows: 1,
    columns: 4,
};

// Sends so many messages of the worker.
fn send_some<R: Wait>(rt: &R, lane: &Lane, pass: &mut InPass, worker: u32, count: u32) -> bool
    requires lane { pass.old.id ≡ lane.now.id }
    requires room { length pass.old.sent + count < 2 ^ 32 }
{
    let key = FlowKey::V4 {
        src: 0x0A00_0001,
        dst: 0x0A00_0002,
        sport: 53,
        dport: 1234,
        proto: 17,
    };
    for update in 0..count {
        let message = Push {
            worker,
            packet: update,
            update,
            key,
            cell: 0,
            amount: 1,
        };
        if lane.push(rt, pass, message).is_err() {
            return false;
        }
    }
    true
}

// What a sweep takes, and what is published then.
fn sweep_once<R: Wait>(
    rt: &R,
    aggregator: &mut Aggregator<CountMin>,
    lanes: &[Lane],
) -> Result<(u32, u64), NoMemory>
    requires { ArePassesOf lanes.now aggregator.old.outs }
    ensures { ArePassesOf lanes.now aggregator.new.outs }
{
    let swept = aggregator.sweep(rt, lanes)?;
    Ok((swept.taken, aggregator.folded()))
}

#[test]
fn a_sweep_takes_at_most_a_batch_of_each_lane(rt: HostRuntime) -> Result<(), Fail> {
    let alloc = rt.alloc();
    let Ok((first, mut to_first, from_first)) = Lane::new(&rt, alloc, 4) else {
        return Err(Fail::from("memory"));
    };
    let Ok((second, mut to_second, from_second)) = Lane::new(&rt, alloc, 4) else {
        return Err(Fail::from("memory"));
    };
    let Ok(mut outs) = OutPasses::new(alloc, 2) else {
        return Err(Fail::from("memory"));
    };
    outs.push(from_first);
    outs.push(from_second);
    let sent = send_some(&rt, &first, &mut to_first, 0, 3)
        && send_some(&rt, &second, &mut to_second, 1, 1);
    let lanes = [first, second];
    let Ok((writer, _views)) = make_views::<CountMin, _>(&rt, alloc, 0, ONE_ROW, 2, 4, 1) else {
        return Err(Fail::from("memory"));
    };
    let mut aggregator = Aggregator::new(writer, outs, 2);
    let one = sweep_once(&rt, &mut aggregator, &lanes);
    let two = sweep_once(&rt, &mut aggregator, &lanes);
    let three = sweep_once(&rt, &mut aggregator, &lanes);
    let held = aggregator.held();
    let (writer, _outs) = aggregator.into_parts();
    writer.close(&rt);
    assert!(rt; sent);
    assert!(rt; (one, two, three) == (Ok((3, 3)), Ok((1, 4)), Ok((0, 4))));
    assert!(rt; held == None);
    Ok(())
}
