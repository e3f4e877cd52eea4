// Each command in each of its modes, with a source or an output that fails.

use crate::runs::{Ended, SMOOTH, Ways, run};
use flow_base::Status;
use std::alloc::Global;
use std::process::Abort;
use std::sync::Wait;
use std::test::Fail;
use std::thread::Threads;

/// A line has the number of reads of the command, the bytes of each, the capture and the words. The
/// reads are those of the bytes, and one more that finds their end: 94 bytes with one packet, 444
/// with six, 21,024 with 300, and 296 with three in pcapng. `load` reads nothing.
const COMMANDS: &str = "
15|7|LH tcp|run --workers 1 --threshold 1 --least 1 --watch 10.0.0.1:1234>10.0.0.2:443/6
24|20|LH 6*tcp|run --workers 2 --threshold 1 --readers 1 --asks 3 --least 1 --watch 10.0.0.1:1234>10.0.0.2:443/6 --journal
16|20|SB IB EB PB EB|run --sketch loglog --columns 128 --readers 2 --asks 1 --journal
24|20|LH 6*tcp|run --mode threads --workers 1 --threshold 1 --readers 1 --asks 3 --least 1 --watch 10.0.0.1:1234>10.0.0.2:443/6
0|1||load --records 20 --start 0 --threshold 1 --least 1 --heavy 4 --journal
0|1||load --records 20 --start 0 --threshold 1 --least 1 --heavy 4 --mode threads --workers 2
24|20|LH 6*tcp|prefix --threshold 1 --readers 1 --asks 1 --least 1 --watch 10.0.0.0/8,10.0.0.1/32
23|1000|LH 300*tcp|epochs --packets 256 --rows 1 --columns 1 --least 100 --change 212
23|1000|LH 300*tcp|epochs --packets 256 --rows 1 --columns 1 --least 100 --change 212 --mode threads
";

/// How many lines the table has.
const COUNT: u32 = 9;

#[derive(Clone, Copy)]
struct Case<'a> {
    reads: u32,
    piece: u32,
    bytes: &'a str,
    words: &'a str,
}

fn case_of(line: &str) -> Option<Case<'_>> {
    let (reads, rest) = line.split_once('|')?;
    let (piece, rest) = rest.split_once('|')?;
    let (bytes, words) = rest.split_once('|')?;
    Some(Case {
        reads: reads.parse::<u32>().ok()?,
        piece: piece.parse::<u32>().ok()?,
        bytes,
        words,
    })
}

// The run of a case where nothing fails.
fn smooth<R: Threads + Wait + Sync + Abort>(
    rt: &R,
    alloc: Global,
    case: Case,
) -> Result<Ended, Fail> {
    let end = run(rt, alloc, case.words, case.bytes, SMOOTH)?;
    assert!(rt; end.status == Status::Done, "{}", case.words);
    assert!(rt; end.err.held().is_empty(), "{}", case.words);
    Ok(end)
}

fn lines_of(bytes: &[u8]) -> u32 {
    let mut lines = 0u32;
    for byte in bytes {
        if *byte == b'\n' {
            lines = lines.saturating_add(1);
        }
    }
    lines
}

// Each read of the case fails in turn. The one behind the last is never made.
fn fail_reads<R: Threads + Wait + Sync + Abort>(
    rt: &R,
    alloc: Global,
    case: Case,
) -> Result<(), Fail> {
    let whole = smooth(rt, alloc, case)?;
    let all = whole.out.held().len();
    for call in 0..=case.reads {
        let ways = Ways {
            piece: case.piece,
            failing_reads: &[call],
            ..SMOOTH
        };
        let end = run(rt, alloc, case.words, case.bytes, ways)?;
        let (status, len, line): (Status, usize, &[u8]) = if call < case.reads {
            (Status::ReadFault, 0, b"octo: read fault\n")
        } else {
            (Status::Done, all, b"")
        };
        let held = end.out.held();
        assert!(rt; end.status == status, "{} {call}", case.words);
        assert!(rt; held.len() == len, "{} {call}", case.words);
        assert!(rt; whole.out.held().starts_with(held), "{} {call}", case.words);
        assert!(rt; end.err.held() == line, "{} {call}", case.words);
    }
    Ok(())
}

// Each write of the case fails in turn: each line is one, and the lines before it are left. The one
// behind the last is never made.
fn fail_writes<R: Threads + Wait + Sync + Abort>(
    rt: &R,
    alloc: Global,
    case: Case,
) -> Result<(), Fail> {
    let whole = smooth(rt, alloc, case)?;
    let lines = lines_of(whole.out.held());
    for call in 0..=lines {
        let ways = Ways {
            failing_writes: &[call],
            ..SMOOTH
        };
        let end = run(rt, alloc, case.words, case.bytes, ways)?;
        let (status, line): (Status, &[u8]) = if call < lines {
            (Status::WriteFault, b"octo: write fault\n")
        } else {
            (Status::Done, b"")
        };
        let held = end.out.held();
        assert!(rt; end.status == status, "{} {call}", case.words);
        assert!(rt; whole.out.held().starts_with(held), "{} {call}", case.words);
        assert!(rt; lines_of(held) == call, "{} {call}", case.words);
        assert!(rt;
            held.ends_with(b"\n") == (call > 0),
            "{} {call}",
            case.words
        );
        assert!(rt; end.err.held() == line, "{} {call}", case.words);
    }
    Ok(())
}

// The output of the case has room for a front of the text alone, and at last for all of it.
fn fill_rooms<R: Threads + Wait + Sync + Abort>(
    rt: &R,
    alloc: Global,
    case: Case,
) -> Result<(), Fail> {
    let whole = smooth(rt, alloc, case)?;
    let len = u32::try_from(whole.out.held().len())?;
    for room in 0..=len {
        let end = run(rt, alloc, case.words, case.bytes, Ways { room, ..SMOOTH })?;
        let (status, line): (Status, &[u8]) = if room < len {
            (Status::WriteFault, b"octo: write fault\n")
        } else {
            (Status::Done, b"")
        };
        let held = end.out.held();
        assert!(rt; end.status == status, "{} {room}", case.words);
        assert!(rt; held.len() == room as usize, "{} {room}", case.words);
        assert!(rt; whole.out.held().starts_with(held), "{} {room}", case.words);
        assert!(rt; end.err.held() == line, "{} {room}", case.words);
    }
    Ok(())
}

// The line of a fault can't be written.
fn fail_lines<R: Threads + Wait + Sync + Abort>(
    rt: &R,
    alloc: Global,
    case: Case,
) -> Result<(), Fail> {
    for (failing_reads, failing_writes, room) in [
        ([0].as_slice(), [].as_slice(), 65536),
        (&[2], &[], 65536),
        (&[], &[0], 65536),
        (&[], &[3], 65536),
        (&[], &[], 50),
    ] {
        let told = Ways {
            piece: case.piece,
            failing_reads,
            failing_writes,
            room,
            ..SMOOTH
        };
        let untold = Ways {
            failing_lines: &[0],
            ..told
        };
        let first = run(rt, alloc, case.words, case.bytes, told)?;
        let second = run(rt, alloc, case.words, case.bytes, untold)?;
        assert!(rt; second.status == first.status, "{}", case.words);
        assert!(rt; second.out.held() == first.out.held(), "{}", case.words);
        assert!(rt; second.err.held().is_empty(), "{}", case.words);
    }
    Ok(())
}

#[test]
fn a_failing_read_leaves_nothing_on_the_output(rt: HostRuntime) -> Result<(), Fail> {
    let mut count = 0u32;
    for line in COMMANDS.lines() {
        if let Some(case) = case_of(line) {
            fail_reads(&rt, rt.alloc(), case)?;
            count = count.saturating_add(1);
        }
    }
    assert!(rt; count == COUNT);
    Ok(())
}

#[test]
fn a_failing_write_leaves_the_lines_before_it(rt: HostRuntime) -> Result<(), Fail> {
    let mut count = 0u32;
    for line in COMMANDS.lines() {
        if let Some(case) = case_of(line) {
            fail_writes(&rt, rt.alloc(), case)?;
            count = count.saturating_add(1);
        }
    }
    assert!(rt; count == COUNT);
    Ok(())
}

// Fills the rooms of `run` or of the other commands, and says how many lines they have.
fn fill_rooms_of<R: Threads + Wait + Sync + Abort>(
    rt: &R,
    alloc: Global,
    is_run: bool,
) -> Result<u32, Fail> {
    let mut count = 0u32;
    for line in COMMANDS.lines() {
        if let Some(case) = case_of(line)
            && case.words.starts_with("run ") == is_run
        {
            fill_rooms(rt, alloc, case)?;
            count = count.saturating_add(1);
        }
    }
    Ok(count)
}

#[test]
fn a_small_output_holds_a_front_of_a_run(rt: HostRuntime) -> Result<(), Fail> {
    assert!(rt; fill_rooms_of(&rt, rt.alloc(), true)? == 4);
    Ok(())
}

#[test]
fn a_small_output_holds_a_front_of_another_text(rt: HostRuntime) -> Result<(), Fail> {
    assert!(rt; fill_rooms_of(&rt, rt.alloc(), false)? == 5);
    Ok(())
}

#[test]
fn a_line_that_cannot_be_written_changes_nothing_else(rt: HostRuntime) -> Result<(), Fail> {
    let mut count = 0u32;
    for line in COMMANDS.lines() {
        if let Some(case) = case_of(line) {
            fail_lines(&rt, rt.alloc(), case)?;
            count = count.saturating_add(1);
        }
    }
    assert!(rt; count == COUNT);
    Ok(())
}
