// Bytes that lie: fields of captures at 0, 1, their limits and behind them; and words that are not in
// the grammar.

use crate::runs::{Ended, SMOOTH, Ways, end_of, run};
use flow_base::Status;
use std::alloc::Global;
use std::process::Abort;
use std::sync::Wait;
use std::test::Fail;
use std::thread::Threads;

/// What the line of each refusal begins with.
const BAD: &str = "4 octo: bad capture ";

/// Each line with a bar has the rest of a refusal's line, and the capture that is refused.
const REFUSED: &str = "
- the magic of libpcap
2 magic 00000000|00000000 20*00
2 magic 01000000|01000000 20*00
2 magic 00000001|00000001 20*00
2 magic d4c3b2a0|d4c3b2a0 20*00
2 magic d4c3b2a2|d4c3b2a2 20*00
2 magic a1b2c3d5|a1b2c3d5 20*00
2 magic 4d3cb2a2|4d3cb2a2 20*00
2 magic 0a0d0d0b|0a0d0d0b 20*00
2 magic 1f8b0800|1f8b0800
2 magic ffffffff|ffffffff 20*00
- its version
4 version 0.0|LH/4 00000000
4 version 1.4|LH/4 01000400
4 version 2.0|LH/4 02000000
4 version 2.3|LH/4 02000300
4 version 2.5|LH/4 02000500
4 version 3.4|LH/4 03000400
4 version 65535.65535|LH/4 ffffffff
4 version 512.1024|BH/4 02000400
4 version 65535.4|BH/4 ffff0004
- its link type, which is the low half of its field
5 link 0|LH/20 00000000
5 link 2|LH/20 02000000
5 link 113|LH/20 71000000
5 link 65535|LH/20 ffff0000
5 link 65535|LH/20 ffffffff
5 link 256|BH/20 00000100
- a record's captured length
6 offset 24 length 262145|LH 0000000000000000 01000400 01000400
6 offset 94 length 262145|LH tcp 0000000000000000 01000400 01000400
6 offset 24 length 4294967295|LH 0000000000000000 ffffffff ffffffff
6 offset 24 length 4294967295|LH 0000000000000000 ffffffff 00000000
6 offset 164 length 4294967295|LH 2*tcp 0000000000000000 ffffffff 00000000
6 offset 24 length 262145|BH 0000000000000000 00040001 00040001
6 offset 24 length 905969664|BH 0000000000000000 36000000 36000000
- the total length of pcapng's section
10 offset 0 length 0|SB/4 00000000 4d3c2b1a
10 offset 0 length 1|SB/4 01000000 4d3c2b1a
10 offset 0 length 24|SB/4 18000000 4d3c2b1a
10 offset 0 length 27|SB/4 1b000000 4d3c2b1a
10 offset 0 length 29|SB/4 1d000000 4d3c2b1a
10 offset 0 length 4294967295|SB/4 ffffffff 4d3c2b1a
8 length 16|SB/4 fcffffff 4d3c2b1a 01000000
10 offset 28 length 0|SB SB/4 00000000 4d3c2b1a
- the same at its end
10 offset 0 length 28|SB/24 00000000
10 offset 0 length 28|SB/24 01000000
10 offset 0 length 28|SB/24 1b000000
10 offset 0 length 28|SB/24 1d000000
10 offset 0 length 28|SB/24 ffffffff
- its order of bytes
9 magic 00000000|SB/8 00000000
9 magic 01000000|SB/8 01000000
9 magic 1a2b3c4c|SB/8 1a2b3c4c
9 magic 4d3c2b1b|SB/8 4d3c2b1b
9 magic ffffffff|SB/8 ffffffff
- its version
4 version 0.0|SB/12 00000000
4 version 2.0|SB/12 02000000
4 version 65535.65535|SB/12 ffffffff
4 version 256.0|SB/4 0000001c 1a2b3c4d 01000000
- an interface's total length
10 offset 28 length 0|SB 01000000 00000000
10 offset 28 length 1|SB 01000000 01000000
10 offset 28 length 19|SB 01000000 13000000
10 offset 28 length 21|SB 01000000 15000000
10 offset 28 length 4294967295|SB 01000000 ffffffff
10 offset 28 length 20|SB IB/16 00000000
10 offset 28 length 20|SB IB/16 ffffffff
- its link type
5 link 0|SB IB/8 00000000 00000000
5 link 2|SB IB/8 02000000 00000000
5 link 113|SB IB/8 71000000 00000000
5 link 65535|SB IB/8 ffff0000 00000000
- its snapshot length, which bounds simple packets alone
10 offset 48 length 16|SB IB/12 00000400 14000000 03000000 10000000 ffffffff
6 offset 48 length 262145|SB IB/12 01000400 14000000 03000000 14000400 ffffffff
6 offset 48 length 4294967295|SB IB 03000000 fcffffff ffffffff
- a packet block's total length
10 offset 48 length 0|SB IB 06000000 00000000
10 offset 48 length 1|SB IB 06000000 01000000
10 offset 48 length 28|SB IB 06000000 1c000000
10 offset 48 length 31|SB IB 06000000 1f000000
10 offset 48 length 33|SB IB 06000000 21000000
10 offset 48 length 4294967295|SB IB 06000000 ffffffff
10 offset 48 length 0|SB IB 03000000 00000000
10 offset 48 length 12|SB IB 03000000 0c000000
10 offset 48 length 15|SB IB 03000000 0f000000
10 offset 48 length 4294967295|SB IB 03000000 ffffffff
10 offset 48 length 88|SB IB EB/84 00000000
10 offset 48 length 88|SB IB EB/84 59000000
10 offset 48 length 88|SB IB EB/84 ffffffff
10 offset 48 length 72|SB IB PB/68 ffffffff
- a packet's captured length
10 offset 48 length 88|SB IB EB/20 39000000 36000000
10 offset 48 length 88|SB IB EB/20 00000400 36000000
6 offset 48 length 262145|SB IB 06000000 24000400 00000000 0000000000000000 01000400 01000400
6 offset 48 length 4294967295|SB IB EB/20 ffffffff ffffffff
- a packet's interface
11 offset 48 interface 1|SB IB EB/8 01000000 0000000000000000 36000000 36000000
11 offset 48 interface 4294967295|SB IB EB/8 ffffffff 0000000000000000 36000000 36000000
11 offset 68 interface 2|SB 2*IB EB/8 02000000 0000000000000000 36000000 36000000
11 offset 76 interface 0|SB IB SB EB
11 offset 28 interface 0|SB PB
11 offset 28 interface 0|SB EB
- other blocks
10 offset 28 length 0|SB 05000000 00000000
10 offset 28 length 1|SB 05000000 01000000
10 offset 28 length 11|SB 05000000 0b000000
10 offset 28 length 13|SB 05000000 0d000000
10 offset 28 length 4294967295|SB 05000000 ffffffff
10 offset 28 length 12|SB 05000000 0c000000 00000000
";

/// Each line with a bar has three numbers of a report, and the capture, which is read.
const READ: &str = "
- libpcap's snapshot length, which is read past
records 1 keyed 1 cut 0|LH/16 00000000 01000000 tcp
records 1 keyed 1 cut 0|LH/16 01000000 01000000 tcp
records 1 keyed 1 cut 0|LH/16 ffffffff 01000000 tcp
- a record's captured length
records 1 keyed 0 cut 0|LH 0000000000000000 00000000 00000000
records 0 keyed 0 cut 16|LH 0000000000000000 01000000 01000000
records 1 keyed 0 cut 0|LH 0000000000000000 01000000 01000000 00
records 0 keyed 0 cut 16|LH 0000000000000000 00000400 00000400
records 0 keyed 0 cut 262159|LH 0000000000000000 00000400 00000400 262143*00
records 1 keyed 0 cut 0|LH 0000000000000000 00000400 00000400 262144*00
records 0 keyed 0 cut 16|BH 0000000000000000 00040000 00040000
- a record's original length, which is no bound of its bytes
records 1 keyed 0 cut 0|LH 0000000000000000 01000000 00000000 00
records 1 keyed 0 cut 0|LH 0000000000000000 01000000 ffffffff 00
- the total length of pcapng's section
records 0 keyed 0 cut 0|SB
records 0 keyed 0 cut 0|SB/4 20000000 4d3c2b1a 01000000 ffffffffffffffff 00000000 20000000
records 0 keyed 0 cut 16|SB SB/4 fcffffff 4d3c2b1a 01000000
- its version
records 1 keyed 1 cut 0|SB/12 0100ffff ffffffffffffffff 1c000000 IB EB
- the section's length, which is read past
records 1 keyed 1 cut 0|SB/16 0000000000000000 1c000000 IB EB
records 1 keyed 1 cut 0|SB/16 0100000000000000 1c000000 IB EB
records 1 keyed 1 cut 0|SB/16 ffffffffffffff7f 1c000000 IB EB
- an interface's total length
records 0 keyed 0 cut 8|SB 01000000 fcffffff
- an interface's snapshot length, which bounds simple packets alone
records 1 keyed 1 cut 0|SB IB PB
records 1 keyed 0 cut 0|SB IB/12 01000000 14000000 PB
records 1 keyed 1 cut 0|SB IB/12 01000000 14000000 EB
records 1 keyed 1 cut 0|SB IB/12 ffffffff 14000000 PB
records 0 keyed 0 cut 12|SB IB/12 00000400 14000000 03000000 10000400 ffffffff
- a packet block's total length
records 0 keyed 0 cut 8|SB IB 06000000 20000000
records 0 keyed 0 cut 8|SB IB 06000000 fcffffff
- a packet's captured length
records 1 keyed 0 cut 0|SB IB 06000000 20000000 00000000 0000000000000000 00000000 00000000 20000000
records 1 keyed 0 cut 0|SB IB EB/20 00000000 36000000 56*00 58000000
records 1 keyed 0 cut 0|SB IB EB/20 01000000 36000000 56*00 58000000
records 1 keyed 0 cut 0|SB IB EB/20 38000000 36000000 56*00 58000000
records 0 keyed 0 cut 28|SB IB 06000000 20000400 00000000 0000000000000000 00000400 00000400
records 1 keyed 0 cut 0|SB IB 06000000 20000400 00000000 0000000000000000 00000400 00000400 262144*00 20000400
- a packet's interface
records 1 keyed 0 cut 0|SB 2*IB EB/8 01000000 0000000000000000 36000000 36000000 56*00 58000000
- other blocks
records 0 keyed 0 cut 0|SB 00000000 0c000000 0c000000
records 0 keyed 0 cut 0|SB 02000000 0c000000 0c000000
records 0 keyed 0 cut 0|SB ffffffff 0c000000 0c000000
records 0 keyed 0 cut 8|SB 05000000 fcffffff
";

/// Lines of no journal that are too long, alone and behind a journal's first line.
const LONG_LINES: &str = "
12 line 1|1023*78
12 line 1|1024*78
12 line 1|1025*78
12 line 1|65536*78
12 line 1|1024*00
12 line 1|1024*ff
12 line 1|1024*0a
12 line 1|6f63746f736b65746368206a6f75726e616c2031
12 line 2|6f63746f736b65746368206a6f75726e616c20310a
12 line 2|6f63746f736b65746368206a6f75726e616c20310a 1023*78 0a
12 line 2|6f63746f736b65746368206a6f75726e616c20310a 1024*78
12 line 2|6f63746f736b65746368206a6f75726e616c20310a 1024*78 0a
12 line 2|6f63746f736b65746368206a6f75726e616c20310a 65536*78
";

// The end of a run, and how many records, keyed records and cut bytes its report tells.
fn told_of(alloc: Global, end: &Ended) -> Result<String, Fail> {
    let mut told = end_of(alloc, end)?;
    for line in str::from_utf8(end.out.held())?.lines() {
        if line.starts_with("records ") || line.starts_with("keyed ") || line.starts_with("cut ") {
            told.push_str(" ")?;
            told.push_str(line)?;
        }
    }
    Ok(told)
}

// Runs octo on the bytes of each line of a table, where what is told begins with these words.
fn judge_each<R: Threads + Wait + Sync + Abort>(
    rt: &R,
    alloc: Global,
    words: &str,
    front: &str,
    table: &str,
) -> Result<u32, Fail> {
    let mut count = 0u32;
    for line in table.lines() {
        if let Some((rest, bytes)) = line.split_once('|') {
            let end = run(rt, alloc, words, bytes, SMOOTH)?;
            let due = format!(in alloc; "{front}{rest}")?;
            assert!(rt; told_of(alloc, &end)?.as_str() == due.as_str(), "{line}");
            assert!(rt;
                end.out.held().is_empty() == (end.status == Status::BadCapture),
                "{line}"
            );
            count = count.saturating_add(1);
        }
    }
    Ok(count)
}

#[test]
fn lying_captures_are_refused(rt: HostRuntime) -> Result<(), Fail> {
    assert!(rt; judge_each(&rt, rt.alloc(), "run", BAD, REFUSED)? == 98);
    Ok(())
}

#[test]
fn lying_captures_are_read(rt: HostRuntime) -> Result<(), Fail> {
    assert!(rt; judge_each(&rt, rt.alloc(), "run", "0 ", READ)? == 38);
    Ok(())
}

#[test]
fn a_long_line_is_none_of_a_journal(rt: HostRuntime) -> Result<(), Fail> {
    assert!(rt; judge_each(&rt, rt.alloc(), "audit", BAD, LONG_LINES)? == 13);
    Ok(())
}

#[test]
fn bad_words_end_a_run_before_it_reads(rt: HostRuntime) -> Result<(), Fail> {
    let alloc = rt.alloc();
    let unread = Ways {
        failing_reads: &[0],
        ..SMOOTH
    };
    let lines = "
walk
run --threshold 0
run --workers 17
run --rows 04
run --rows 2 --rows 2
run --speed 1
run --
run --sketch loglog --rows 2
run --journal=
run --journal --journal";
    for line in lines.lines() {
        let end = run(&rt, alloc, line, "LH", unread)?;
        assert!(rt; end.status == Status::Usage, "{line}");
        assert!(rt; end.out.held().is_empty());
        assert!(rt; end.err.held() == b"octo: usage\n".as_slice());
    }
    Ok(())
}

#[test]
fn a_value_stands_behind_a_space_or_a_sign(rt: HostRuntime) -> Result<(), Fail> {
    let joined = run(&rt, rt.alloc(), "run --rows=2", "LH tcp", SMOOTH)?;
    let spaced = run(&rt, rt.alloc(), "run --rows 2", "LH tcp", SMOOTH)?;
    assert!(rt; joined.status == Status::Done && joined.out.held() == spaced.out.held());
    Ok(())
}
