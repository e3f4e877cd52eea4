ghost use Rattle.std.specs.Prelude.{◌≡◌, IfOk};
ghost use Rattle.hash_rows.specs.Lawful.{IsLawful};
ghost use Rattle.hash_rows.specs.Shapes.{IsShape};
ghost use Rattle.hash_rows.specs.declared.options.Sketch.TheVariants.{CountSketch};

use epoch_run::{Change, Epochs, epochs_rounds};
use epoch_threads::{OpenGate, epochs_threads};
use flow_base::NoMemory;
use hash_rows::{Amount, Flow, Full, Mode, Options, Packet, Shape, Share, Sketch};
use listed::Listed;
use packet_key::FlowKey;
use std::alloc::Global;
use std::test::Fail;

// Its row hash 0x6EFFE6B8176D0A30 names cell 0 of two.
const EVEN: FlowKey = FlowKey::V4 {
    src: 1,
    dst: 2,
    sport: 3,
    dport: 4,
    proto: 6,
};

// 10.0.0.1:1234>10.0.0.2:443/6. Its row hash 0xE27FBF7987133339 names cell 1 of two.
const ODD: FlowKey = FlowKey::V4 {
    src: 0x0A000001,
    dst: 0x0A000002,
    sport: 1234,
    dport: 443,
    proto: 6,
};

// A Count Sketch of one row, whose heavy flows have an estimate of at least 100.
fn options_for(alloc: Global, columns: u32, mode: Mode) -> Result<Options, NoMemory>
    requires { IsShape (record { rows = 1; columns = columns }) }
    ensures lawful { IfOk result (λ o. IsLawful o) }
    ensures sketch { IfOk result (λ o. o.sketch ≡ CountSketch) }
    ensures readers { IfOk result (λ o. o.readers ≡ 0) }
    ensures mode { IfOk result (λ o. o.mode ≡ mode) }
{
    Ok(Options {
        sketch: Sketch::CountSketch,
        shape: Shape { rows: 1, columns },
        amount: Amount::Packets,
        share: Share::Turn,
        workers: 2,
        threshold: 16,
        lane: 64,
        batch: 32,
        round: 256,
        full: Full::Leave,
        mode,
        readers: 0,
        asks: 0,
        watch: Listed::new(alloc, 0)?,
        heavy: 64,
        least: 100,
        journal: false,
    })
}

fn packet_of(key: FlowKey) -> Packet {
    Packet { key, amount: 1 }
}

// Of each epoch its packets, their total, and how many flows are heavy and how many changed.
fn numbers_of(epochs: &Epochs) -> [(u32, u64, u64, u64); 4] {
    let mut numbers = [(0, 0, 0, 0); 4];
    for place in 0..epochs.epochs.len().min(4) {
        let epoch = epochs.epochs.get(place);
        numbers[place as usize] = (epoch.packets, epoch.total, epoch.heavy, epoch.changed);
    }
    numbers
}

// The used cells of each epoch's first row.
fn used_of(epochs: &Epochs) -> [u64; 4] {
    let mut used = [0; 4];
    for place in 0..epochs.epochs.len().min(4) {
        let epoch = epochs.epochs.get(place);
        if epoch.used.len() > 0 {
            used[place as usize] = *epoch.used.get(0);
        }
    }
    used
}

fn flows_of(epochs: &Epochs, place: u32) -> &[Flow] {
    if place < epochs.epochs.len() {
        epochs.epochs.get(place).flows.as_slice()
    } else {
        &[]
    }
}

fn changes_of(epochs: &Epochs, place: u32) -> &[Change] {
    if place < epochs.epochs.len() {
        epochs.epochs.get(place).changes.as_slice()
    } else {
        &[]
    }
}

const HEAVY: [Flow; 1] = [Flow {
    key: ODD,
    estimate: 256,
}];

const LESS: [Change; 1] = [Change {
    key: ODD,
    before: 256,
    after: 44,
}];

#[test]
fn a_change_of_212_reaches_212(rt: HostRuntime) -> Result<(), Fail> {
    let packets = [packet_of(ODD); 300];
    let options = options_for(rt.alloc(), 1, Mode::Rounds)?;
    let epochs = epochs_rounds(&rt, rt.alloc(), &packets, 256, 212, &options)?;
    assert!(rt;
        numbers_of(&epochs) == [(256, 256, 1, 0), (44, 44, 0, 1), (0, 0, 0, 0), (0, 0, 0, 0)]
    );
    assert!(rt; used_of(&epochs) == [1, 1, 0, 0]);
    assert!(rt; flows_of(&epochs, 0) == HEAVY.as_slice());
    assert!(rt; changes_of(&epochs, 1) == LESS.as_slice());
    assert!(rt; epochs.whole.estimate(&ODD) == 300);
    let none = epochs_rounds(&rt, rt.alloc(), &packets, 256, 213, &options)?;
    assert!(rt;
        numbers_of(&none) == [(256, 256, 1, 0), (44, 44, 0, 0), (0, 0, 0, 0), (0, 0, 0, 0)]
    );
    assert!(rt; changes_of(&none, 1).len() == 0);
    Ok(())
}

#[test]
fn threads_come_to_the_same(rt: HostRuntime) -> Result<(), Fail> {
    let packets = [packet_of(ODD); 300];
    let options = options_for(rt.alloc(), 1, Mode::Threads)?;
    let epochs = epochs_threads(&rt, rt.alloc(), &packets, 256, 212, &options, &OpenGate)?;
    assert!(rt;
        numbers_of(&epochs) == [(256, 256, 1, 0), (44, 44, 0, 1), (0, 0, 0, 0), (0, 0, 0, 0)]
    );
    assert!(rt; used_of(&epochs) == [1, 1, 0, 0]);
    assert!(rt; flows_of(&epochs, 0) == HEAVY.as_slice());
    assert!(rt; changes_of(&epochs, 1) == LESS.as_slice());
    assert!(rt; epochs.whole.estimate(&ODD) == 300);
    Ok(())
}

// Each epoch of the three has one flow, which isn't that of the epoch before.
#[test]
fn nothing_of_an_epoch_stands_in_the_next(rt: HostRuntime) -> Result<(), Fail> {
    let mut packets = [packet_of(EVEN); 768];
    for place in 256..512 {
        packets[place] = packet_of(ODD);
    }
    let options = options_for(rt.alloc(), 2, Mode::Rounds)?;
    let epochs = epochs_rounds(&rt, rt.alloc(), &packets, 256, 1, &options)?;
    assert!(rt;
        numbers_of(&epochs)
            == [
                (256, 256, 1, 0),
                (256, 256, 1, 2),
                (256, 256, 1, 2),
                (0, 0, 0, 0)
            ]
    );
    assert!(rt; used_of(&epochs) == [1, 1, 1, 0]);
    let gone = Change {
        key: EVEN,
        before: 256,
        after: 0,
    };
    let come = Change {
        key: ODD,
        before: 0,
        after: 256,
    };
    assert!(rt; changes_of(&epochs, 1) == [gone, come].as_slice());
    assert!(rt; epochs.whole.estimate(&EVEN) == 512);
    assert!(rt; epochs.whole.estimate(&ODD) == 256);
    Ok(())
}

#[test]
fn no_packet_makes_no_epoch(rt: HostRuntime) -> Result<(), Fail> {
    let options = options_for(rt.alloc(), 1, Mode::Rounds)?;
    let epochs = epochs_rounds(&rt, rt.alloc(), &[], 256, 1, &options)?;
    assert!(rt; epochs.epochs.len() == 0);
    assert!(rt; epochs.whole.used(0) == 0);
    Ok(())
}
