ghost use Rattle.std.specs.Prelude.{◌≡◌};

use count_min::CountMin;
use count_sketch::CountSketch;
use flow_base::NoMemory;
use hash_rows::{
    Amount, Flow, Full, Keys, Kind, Mode, Options, Packet, Shape, Share, Sketch, Tallies,
};
use listed::Listed;
use loglog_regs::LogLog;
use octo_text::Report;
use packet_key::FlowKey;
use reports::*;
use std::alloc::Global;
use std::test::Fail;

const FIRST: FlowKey = FlowKey::V4 {
    src: 1,
    dst: 2,
    sport: 3,
    dport: 4,
    proto: 6,
};

const SECOND: FlowKey = FlowKey::V4 {
    src: 2,
    dst: 1,
    sport: 4,
    dport: 3,
    proto: 6,
};

const SKIPPED: Tallies = Tallies {
    short: 1,
    not_ip: 2,
    bad_ip: 3,
    tags: 4,
};

fn options_for(sketch: Sketch, shape: Shape, watch: Keys) -> Options
    ensures { result.sketch ≡ sketch }
{
    Options {
        sketch,
        shape,
        amount: Amount::Bytes,
        share: Share::Turn,
        workers: 1,
        threshold: 1,
        lane: 1,
        batch: 1,
        round: 1,
        full: Full::Leave,
        mode: Mode::Rounds,
        readers: 0,
        asks: 0,
        watch,
        heavy: 1,
        least: 5,
        journal: false,
    }
}

// The report of one packet.
fn report_of_one<K: Kind>(alloc: Global, sketch: Sketch) -> Result<Report, NoMemory>
    requires { sketch ≡ K.sketch }
{
    let shape = Shape {
        rows: 1,
        columns: 128,
    };
    let packets = [Packet {
        key: FIRST,
        amount: 5,
    }];
    let table = sequential::<K>(alloc, &packets, shape)?;
    let options = options_for(sketch, shape, Listed::new(alloc, 0)?);
    report_of(alloc, &packets, 1, SKIPPED, 0, &options, &table)
}

// One sum of 5 is 5 in each sketch of sums. A LogLog with one register of 128 that isn't 0 counts
// linearly: 128 * 65536 div 128 div 65536.
#[test]
fn reports_one_packet_at_each_kind(rt: HostRuntime) -> Result<(), Fail> {
    let sums = report_of_one::<CountMin>(rt.alloc(), Sketch::CountMin)?;
    assert!(rt; (sums.distinct, sums.heavy, sums.total) == (None, 1, 5));
    let signed = report_of_one::<CountSketch>(rt.alloc(), Sketch::CountSketch)?;
    assert!(rt; (signed.distinct, signed.heavy, signed.total) == (None, 1, 5));
    let ranks = report_of_one::<LogLog>(rt.alloc(), Sketch::LogLog)?;
    assert!(rt; (ranks.distinct, ranks.heavy, ranks.total) == (Some(1), 0, 5));
    Ok(())
}

// In one cell all amounts come together.
#[test]
fn reports_sums_in_one_cell(rt: HostRuntime) -> Result<(), Fail> {
    let shape = Shape {
        rows: 1,
        columns: 1,
    };
    let packets = [(FIRST, 5), (SECOND, 7), (FIRST, 1)].map(|(key, amount)| Packet { key, amount });
    let table = sequential::<CountMin>(rt.alloc(), &packets, shape)?;
    let watch = Listed::filled(rt.alloc(), 1, SECOND)?;
    let options = options_for(Sketch::CountMin, shape, watch);
    let report = report_of(rt.alloc(), &packets, 4, SKIPPED, 9, &options, &table)?;
    assert!(rt; (report.records, report.keyed, report.cut) == (4, 3, 9));
    assert!(rt; (report.total, report.heavy) == (13, 2));
    assert!(rt; report.skipped == SKIPPED);
    assert!(rt; report.used.as_slice() == [1u64].as_slice());
    let flow = |key| Flow { key, estimate: 13 };
    assert!(rt; report.watch.as_slice() == [flow(SECOND)].as_slice());
    assert!(rt; report.flows.as_slice() == [flow(FIRST)].as_slice());
    Ok(())
}
