// Runs in threads whose parts wait for one another.

use crate::runs::{Ended, SMOOTH, run_gated};
use crate::texts::whole_text;
use flow_base::Status;
use octo_run::Gate;
use std::alloc::Global;
use std::sync::Wait;
use std::sync::atomic::{AtomicU64, Ordering};
use std::test::Fail;
use std::thread::{self, Threads};

/// The turns after which a hold ends, and notes a miss. At each of them others may go first.
const TURNS: u32 = 1048576;

// Waits until the count is at least so high.
fn hold(count: &AtomicU64, least: u64, misses: &AtomicU64) {
    for _ in 0..TURNS {
        if count.load(Ordering::SeqCst) >= least {
            return;
        }
        thread::yield_now();
    }
    misses.fetch_add(1, Ordering::SeqCst);
}

/// What two workers wait for: worker 0 at its first packet until worker 1 has come by its first,
/// and worker 1 at its second until worker 0 has come by its first.
#[derive(Drop)]
struct Meeting {
    first: AtomicU64,
    second: AtomicU64,
    misses: AtomicU64,
}

impl Meeting {
    fn new() -> Meeting {
        Meeting {
            first: AtomicU64::new(0),
            second: AtomicU64::new(0),
            misses: AtomicU64::new(0),
        }
    }
}

impl Gate for Meeting {
    fn pass(&self, worker: u32, place: u32) {
        match (worker, place) {
            (0, 0) => {
                hold(&self.second, 1, &self.misses);
                self.first.store(1, Ordering::SeqCst);
            }
            (1, 0) => self.second.store(1, Ordering::SeqCst),
            (1, 1) => hold(&self.first, 1, &self.misses),
            _ => {}
        }
    }

    fn swept(&self, _folded: u64) {}

    fn seen(&self, _reader: u32, _number: u32, _folded: u64) {}
}

/// What a reader and a worker wait for: the reader behind its first ask until something was
/// published, and the worker at its second packet until the reader has seen a message.
#[derive(Drop)]
struct Look {
    published: AtomicU64,
    seen: AtomicU64,
    misses: AtomicU64,
}

impl Look {
    fn new() -> Look {
        Look {
            published: AtomicU64::new(0),
            seen: AtomicU64::new(0),
            misses: AtomicU64::new(0),
        }
    }
}

impl Gate for Look {
    fn pass(&self, _worker: u32, place: u32) {
        if place == 1 {
            hold(&self.seen, 1, &self.misses);
        }
    }

    fn swept(&self, _folded: u64) {
        self.published.store(1, Ordering::SeqCst);
    }

    fn seen(&self, _reader: u32, number: u32, folded: u64) {
        if folded > 0 {
            self.seen.store(1, Ordering::SeqCst);
        }
        if number == 0 {
            hold(&self.published, 1, &self.misses);
        }
    }
}

/// What fills the narrowest lane: the worker waits at its second packet until one message was
/// published, the aggregator then until the worker has come to its sixth, and the worker there
/// until two messages were published.
#[derive(Drop)]
struct Narrow {
    place: AtomicU64,
    published: AtomicU64,
    misses: AtomicU64,
}

impl Narrow {
    fn new() -> Narrow {
        Narrow {
            place: AtomicU64::new(0),
            published: AtomicU64::new(0),
            misses: AtomicU64::new(0),
        }
    }
}

impl Gate for Narrow {
    fn pass(&self, _worker: u32, place: u32) {
        self.place.store(u64::from(place), Ordering::SeqCst);
        match place {
            1 => hold(&self.published, 1, &self.misses),
            5 => hold(&self.published, 2, &self.misses),
            _ => {}
        }
    }

    fn swept(&self, folded: u64) {
        self.published.store(folded, Ordering::SeqCst);
        if folded == 1 {
            hold(&self.place, 5, &self.misses);
        }
    }

    fn seen(&self, _reader: u32, _number: u32, _folded: u64) {}
}

fn gated<R: Threads + Wait + Sync, G: Gate>(
    rt: &R,
    alloc: Global,
    line: &str,
    bytes: &str,
    gate: &G,
) -> Result<Ended, Fail> {
    run_gated(rt, alloc, line, bytes, SMOOTH, gate)
}

#[test]
fn workers_go_beside_each_other(rt: HostRuntime) -> Result<(), Fail> {
    for line in [
        "run --mode threads --workers 2",
        "epochs --packets 256 --workers 2 --mode threads",
    ] {
        let gate = Meeting::new();
        let end = gated(&rt, rt.alloc(), line, "LH 4*tcp", &gate)?;
        assert!(rt; end.status == Status::Done, "{line}");
        assert!(rt; gate.misses.load(Ordering::SeqCst) == 0, "{line}");
    }
    Ok(())
}

#[test]
fn a_reader_sees_messages_while_a_worker_is_held(rt: HostRuntime) -> Result<(), Fail> {
    let gate = Look::new();
    let line = "run --mode threads --workers 1 --rows 1 --threshold 1 --readers 1 --asks 2";
    let end = gated(&rt, rt.alloc(), line, "LH 2*tcp", &gate)?;
    assert!(rt; end.status == Status::Done);
    assert!(rt; gate.misses.load(Ordering::SeqCst) == 0);
    Ok(())
}

const NARROW: &str = "octosketch report 1, sketch count-min rows 1 columns 1 amount packets
records 6, keyed 6, notip 0, cut 0, total 6
row 0 used 1
heavy 1, flow 10.0.0.1:1234>10.0.0.2:443/6 6, end
octosketch journal 1
options sketch count-min rows 1 columns 1 amount packets share turn workers 1 threshold 1 lane 1 batch 32 round 64 full leave mode threads readers 0 asks 0 heavy 64 least 5
worker 0 pushes 3 refused 3, refused 0 2-4
live 10.0.0.1:1234>10.0.0.2:443/6, missed 0, end
";

#[test]
fn a_full_lane_leaves_updates_for_a_later_push(rt: HostRuntime) -> Result<(), Fail> {
    let gate = Narrow::new();
    let line =
        "run --mode threads --workers 1 --rows 1 --columns 1 --threshold 1 --lane 1 --least 5 --journal";
    let end = gated(&rt, rt.alloc(), line, "LH 6*tcp", &gate)?;
    assert!(rt; gate.misses.load(Ordering::SeqCst) == 0);
    assert!(rt; end.status == Status::Done);
    assert!(rt; end.out.held() == whole_text(rt.alloc(), NARROW)?.as_str().as_bytes());
    Ok(())
}
