ghost use Rattle.std.specs.Prelude.{◌≡◌, ◌≤◌, ◌≤ℤ◌, length, pos};
ghost use Rattle.hash_rows.specs.Lawful.{IsLawful, Suits};
ghost use Rattle.hash_rows.specs.Shapes.{IsShape};

use count_min::CountMin;
use count_sketch::CountSketch;
use flow_base::NoMemory;
use hash_rows::{Amount, Full, Keys, Kind, Mode, Options, Packet, Shape, Share, Sketch};
use listed::Listed;
use loglog_regs::LogLog;
use octo_engine::{Settled, run_rounds};
use packet_key::FlowKey;
use std::alloc::Global;
use std::test::Fail;
use std::thread::Threads;

const KEY: FlowKey = FlowKey::V4 {
    src: 0x0A00_0001,
    dst: 0x0A00_0002,
    sport: 1234,
    dport: 443,
    proto: 6,
};

const PACKET: Packet = Packet {
    key: KEY,
    amount: 1,
};

const ONE_CELL: Shape = Shape {
    rows: 1,
    columns: 1,
};

// One worker whose pushes are due at once, and a reader that asks three times.
fn options_for(
    sketch: Sketch,
    shape: Shape,
    lane: u32,
    batch: u32,
    round: u32,
    full: Full,
    watch: Keys,
) -> Options
    requires shape { IsShape shape }
    requires lane { (1 ≤ lane) × (lane ≤ 4096) }
    requires batch { (1 ≤ batch) × (batch ≤ 1024) }
    requires round { (1 ≤ round) × (round ≤ 65536) }
    requires watch { length watch.items ≤ 1 }
    requires suits { Suits sketch shape watch.items }
    ensures lawful { IsLawful result }
    ensures sketch { result.sketch ≡ sketch }
{
    Options {
        sketch,
        shape,
        amount: Amount::Packets,
        share: Share::Turn,
        workers: 1,
        threshold: 1,
        lane,
        batch,
        round,
        full,
        mode: Mode::Rounds,
        readers: 1,
        asks: 3,
        watch,
        heavy: 64,
        least: 5,
        journal: true,
    }
}

// What the answers say: how many messages were folded, and the first estimate.
fn answers_of<K: Kind>(settled: &Settled<K>) -> [(u64, i64); 3] {
    let mut told = [(0, 0); 3];
    for place in 0..settled.lists.answers.len().min(3) {
        let answer = settled.lists.answers.get(place);
        if answer.shown.len() > 0 {
            told[place as usize] = (answer.folded, *answer.shown.get(0));
        }
    }
    told
}

// Which of the first worker's six updates were refused.
fn refused_of<K: Kind>(settled: &Settled<K>) -> [bool; 6] {
    let mut marks = [false; 6];
    if settled.lists.refused.len() > 0 {
        let row = settled.lists.refused.get(0);
        for place in 0..row.len().min(6) {
            marks[place as usize] = row.get(place);
        }
    }
    marks
}

fn run_six<K: Kind, R: Threads + Sync>(
    rt: &R,
    alloc: Global,
    options: &Options,
) -> Result<Settled<K>, NoMemory>
    requires lawful { IsLawful options.now }
    requires sketch { options.now.sketch ≡ K.sketch }
{
    let packets = [PACKET; 6];
    run_rounds::<K, R>(rt, alloc, &packets, options)
}

#[test]
fn a_full_lane_refuses_or_pushes_wait_for_the_next_round(rt: HostRuntime) -> Result<(), Fail> {
    let watch = Listed::filled(rt.alloc(), 1, KEY)?;
    let options = options_for(Sketch::CountMin, ONE_CELL, 1, 32, 4, Full::Leave, watch);
    let settled = run_six::<CountMin, _>(&rt, rt.alloc(), &options)?;
    assert!(rt; settled.lists.pushes.as_slice() == [2].as_slice());
    assert!(rt; refused_of(&settled) == [false, true, true, true, false, true]);
    assert!(rt; answers_of(&settled) == [(1, 1), (2, 5), (2, 5)]);
    assert!(rt; settled.table.estimate(&KEY) == 6);
    assert!(rt; settled.lists.live.as_slice() == [KEY].as_slice());
    assert!(rt; settled.lists.missed == 0);
    let watch = Listed::filled(rt.alloc(), 1, KEY)?;
    let options = options_for(Sketch::CountMin, ONE_CELL, 1, 32, 4, Full::Wait, watch);
    let waited = run_six::<CountMin, _>(&rt, rt.alloc(), &options)?;
    assert!(rt; waited.lists.pushes.as_slice() == [6].as_slice());
    assert!(rt; answers_of(&waited) == [(1, 1), (2, 2), (3, 3)]);
    assert!(rt; waited.table.estimate(&KEY) == 6);
    Ok(())
}

#[test]
fn a_front_stands_between_two_rows(rt: HostRuntime) -> Result<(), Fail> {
    let shape = Shape {
        rows: 2,
        columns: 1,
    };
    let watch = Listed::filled(rt.alloc(), 1, KEY)?;
    let options = options_for(Sketch::CountMin, shape, 2, 1, 1, Full::Leave, watch);
    let settled = run_rounds::<CountMin, _>(&rt, rt.alloc(), &[PACKET], &options)?;
    assert!(rt; settled.lists.pushes.as_slice() == [2].as_slice());
    assert!(rt; answers_of(&settled) == [(1, 0), (2, 1), (2, 1)]);
    Ok(())
}

#[test]
fn runs_the_other_kinds(rt: HostRuntime) -> Result<(), Fail> {
    let watch = Listed::filled(rt.alloc(), 1, KEY)?;
    let options = options_for(Sketch::CountSketch, ONE_CELL, 1, 32, 4, Full::Wait, watch);
    let signed = run_six::<CountSketch, _>(&rt, rt.alloc(), &options)?;
    assert!(rt; signed.table.estimate(&KEY) == 6);
    let shape = Shape {
        rows: 1,
        columns: 128,
    };
    let none = Listed::new(rt.alloc(), 0)?;
    let options = options_for(Sketch::LogLog, shape, 1, 32, 4, Full::Leave, none);
    let ranks = run_six::<LogLog, _>(&rt, rt.alloc(), &options)?;
    assert!(rt; ranks.table.estimate(&KEY) == 1);
    assert!(rt; ranks.lists.pushes.as_slice() == [1].as_slice());
    assert!(rt; answers_of(&ranks) == [(1, 1), (1, 1), (1, 1)]);
    Ok(())
}
