// Sources and outputs that fail.

use crate::audits::{LAWFUL, audit};
use crate::runs::{SMOOTH, Ways, run};
use crate::texts::{case_named, journal_named};
use flow_base::Status;
use std::alloc::Global;
use std::sync::Wait;
use std::test::Fail;
use std::thread::Threads;

/// The run of one packet, whose report has 15 lines.
const ONE: &str = "one packet";

/// The run whose journal is judged. With its 272 bytes and the 444 of the capture it comes in 12 pieces
/// of 64.
const JUDGED: &str = "a Count Sketch finds its live key";

// How a run ends whose source gives pieces and fails at a call.
fn end_of_reads<R: Threads + Wait + Sync>(
    rt: &R,
    alloc: Global,
    bytes: &str,
    piece: u32,
    call: u32,
) -> Result<(Status, usize), Fail> {
    let ways = Ways {
        piece,
        failing_reads: &[call],
        ..SMOOTH
    };
    let end = run(rt, alloc, case_named(ONE)?.words, bytes, ways)?;
    Ok((end.status, end.out.held().len()))
}

#[test]
fn a_failing_read_ends_the_run(rt: HostRuntime) -> Result<(), Fail> {
    let alloc = rt.alloc();
    for call in 0..15 {
        assert!(rt; end_of_reads(&rt, alloc, "LH tcp", 7, call)? == (Status::ReadFault, 0));
    }
    assert!(rt; end_of_reads(&rt, alloc, "LH tcp", 7, 15)?.0 == Status::Done);
    assert!(rt; end_of_reads(&rt, alloc, "1f8b0800", 1, 3)?.0 == Status::ReadFault);
    assert!(rt; end_of_reads(&rt, alloc, "1f8b0800", 1, 4)?.0 == Status::BadCapture);
    Ok(())
}

// Whether a write that fails in the run with this name leaves just the lines before it.
fn leaves_lines<R: Threads + Wait + Sync>(
    rt: &R,
    alloc: Global,
    name: &str,
    lines: u32,
) -> Result<bool, Fail> {
    let case = case_named(name)?;
    let whole = run(rt, alloc, case.words, case.bytes, SMOOTH)?;
    let mut good = whole.status == Status::Done;
    for call in 0..lines {
        let ways = Ways {
            failing_writes: &[call],
            ..SMOOTH
        };
        let cut = run(rt, alloc, case.words, case.bytes, ways)?;
        let held = cut.out.held();
        let whole_lines = held.iter().filter(|byte| **byte == b'\n').count();
        good = good
            && cut.status == Status::WriteFault
            && whole.out.held().starts_with(held)
            && whole_lines == call as usize
            && cut.err.held() == b"octo: write fault\n".as_slice();
    }
    let later = Ways {
        failing_writes: &[lines],
        ..SMOOTH
    };
    Ok(good && run(rt, alloc, case.words, case.bytes, later)?.status == Status::Done)
}

#[test]
fn a_failing_write_leaves_whole_lines(rt: HostRuntime) -> Result<(), Fail> {
    for (name, lines) in [
        ("a full lane leaves updates refused", 24),
        ("in one cell a reader asks before anything was told", 29),
    ] {
        assert!(rt; leaves_lines(&rt, rt.alloc(), name, lines)?, "{name}");
    }
    Ok(())
}

#[test]
fn a_small_output_holds_a_front_of_the_report(rt: HostRuntime) -> Result<(), Fail> {
    let alloc = rt.alloc();
    let case = case_named(ONE)?;
    let whole = run(&rt, alloc, case.words, case.bytes, SMOOTH)?;
    let bytewise = Ways {
        at_a_time: 1,
        ..SMOOTH
    };
    let small = Ways { room: 30, ..SMOOTH };
    let failing = Ways {
        failing_writes: &[25],
        ..bytewise
    };
    for (ways, held) in [
        (small, 30),
        (failing, 25),
        (bytewise, whole.out.held().len()),
    ] {
        let end = run(&rt, alloc, case.words, case.bytes, ways)?;
        assert!(rt; end.out.held().len() == held);
        assert!(rt; whole.out.held().starts_with(end.out.held()));
        assert!(rt; (end.status == Status::Done) == (held > 30));
    }
    Ok(())
}

#[test]
fn a_fault_of_the_error_output_changes_nothing_else(rt: HostRuntime) -> Result<(), Fail> {
    let untold = Ways {
        failing_writes: &[1],
        failing_lines: &[0],
        ..SMOOTH
    };
    let case = case_named(ONE)?;
    let cut = run(&rt, rt.alloc(), case.words, case.bytes, untold)?;
    assert!(rt; (cut.status, cut.out.held().len()) == (Status::WriteFault, 20));
    assert!(rt; cut.err.held().is_empty());
    let unread = Ways {
        failing_reads: &[0],
        failing_lines: &[0],
        ..SMOOTH
    };
    let end = run(&rt, rt.alloc(), case.words, case.bytes, unread)?;
    assert!(rt; (end.status, end.out.held().len()) == (Status::ReadFault, 0));
    Ok(())
}

// Bytes come in pieces of 64 and go one by one, and these reads and writes fail.
fn failing<'x>(reads: &'x [u32], writes: &'x [u32]) -> Ways<'x> {
    Ways {
        piece: 64,
        failing_reads: reads,
        failing_writes: writes,
        at_a_time: 1,
        ..SMOOTH
    }
}

#[test]
fn a_failing_read_ends_an_audit(rt: HostRuntime) -> Result<(), Fail> {
    let alloc = rt.alloc();
    let bytes = case_named(JUDGED)?.bytes;
    let journal = journal_named(alloc, JUDGED)?;
    // The last read finds the end of the input.
    for call in 0..13 {
        let end = audit(&rt, alloc, journal.as_str(), bytes, failing(&[call], &[]))?;
        assert!(rt; end.status == Status::ReadFault, "{call}");
        assert!(rt; end.out.held().is_empty());
        assert!(rt; end.err.held() == b"octo: read fault\n".as_slice());
    }
    let end = audit(&rt, alloc, journal.as_str(), bytes, failing(&[13], &[]))?;
    assert!(rt; end.status == Status::Done && end.out.held() == LAWFUL);
    Ok(())
}

#[test]
fn a_failing_write_leaves_a_front_of_the_verdict(rt: HostRuntime) -> Result<(), Fail> {
    let alloc = rt.alloc();
    let bytes = case_named(JUDGED)?.bytes;
    let journal = journal_named(alloc, JUDGED)?;
    for call in 0..24u32 {
        let end = audit(&rt, alloc, journal.as_str(), bytes, failing(&[], &[call]))?;
        let held = end.out.held();
        assert!(rt; end.status == Status::WriteFault, "{call}");
        assert!(rt;
            held.len() == call as usize && LAWFUL.starts_with(held),
            "{call}"
        );
        assert!(rt; end.err.held() == b"octo: write fault\n".as_slice());
    }
    let end = audit(&rt, alloc, journal.as_str(), bytes, failing(&[], &[24]))?;
    assert!(rt; end.status == Status::Done && end.out.held() == LAWFUL);
    Ok(())
}

#[test]
fn an_audit_whose_fault_is_not_told_ends_the_same(rt: HostRuntime) -> Result<(), Fail> {
    let alloc = rt.alloc();
    let bytes = case_named(JUDGED)?.bytes;
    let journal = journal_named(alloc, JUDGED)?;
    for (reads, writes, status, count) in [
        ([3].as_slice(), [].as_slice(), Status::ReadFault, 0),
        (&[], &[5], Status::WriteFault, 5),
    ] {
        let untold = Ways {
            failing_lines: &[0],
            ..failing(reads, writes)
        };
        let end = audit(&rt, alloc, journal.as_str(), bytes, untold)?;
        assert!(rt; (end.status, end.out.held().len()) == (status, count));
        assert!(rt; LAWFUL.starts_with(end.out.held()));
        assert!(rt; end.err.held().is_empty());
    }
    Ok(())
}
