// Captures in the pcapng format.

use crate::runs::{SMOOTH, Ways, run, run_cases};
use flow_base::Status;
use std::test::Fail;

const RUNS: &str = "== three packets in two sorts of block
run
SB IB EB PB EB
0
octosketch report 1, sketch count-min rows 4 columns 2048 amount packets
records 3, keyed 3, notip 0, cut 0, total 3
row 0 used 1, row 1 used 1, row 2 used 1, row 3 used 1
heavy 0, end
== a cut packet block
run
SB IB EB/40
0
octosketch report 1, sketch count-min rows 4 columns 2048 amount packets
records 0, keyed 0, notip 0, cut 40, total 0
row 0 used 0, row 1 used 0, row 2 used 0, row 3 used 0
heavy 0, end
";

#[test]
fn pcapng_captures_are_reported(rt: HostRuntime) -> Result<(), Fail> {
    assert!(rt; run_cases(&rt, rt.alloc(), RUNS)? == 2);
    Ok(())
}

#[test]
fn both_formats_have_one_report_however_they_are_cut(rt: HostRuntime) -> Result<(), Fail> {
    let alloc = rt.alloc();
    let words = "run --amount bytes --least 1";
    let whole = run(&rt, alloc, words, "LH 3*tcp", SMOOTH)?;
    for bytes in ["SB IB EB PB EB", "LH 3*tcp"] {
        for piece in [1, 2, 3, 4, 5, 27, 89] {
            let ways = Ways { piece, ..SMOOTH };
            let end = run(&rt, alloc, words, bytes, ways)?;
            assert!(rt;
                end.status == Status::Done && end.out.held() == whole.out.held(),
                "{bytes} {piece}"
            );
        }
    }
    Ok(())
}

#[test]
fn a_refusal_waits_for_its_last_byte(rt: HostRuntime) -> Result<(), Fail> {
    let alloc = rt.alloc();
    for (call, status) in [
        (3, Status::ReadFault),
        (11, Status::ReadFault),
        (12, Status::BadCapture),
    ] {
        let ways = Ways {
            piece: 1,
            failing_reads: &[call],
            ..SMOOTH
        };
        let end = run(&rt, alloc, "run", "SB/8 4d3c2b1b SB", ways)?;
        assert!(rt; end.status == status, "{call}");
    }
    Ok(())
}
