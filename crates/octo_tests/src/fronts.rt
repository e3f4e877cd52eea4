// Lengths and options that a packet's bytes don't depend on, and fronts of good captures.

use crate::captures::capture;
use crate::runs::{SMOOTH, end_of, run, run_on};
use crate::texts::whole_text;
use flow_base::Status;
use octo_run::OpenGate;
use std::test::Fail;

const WORDS: &str = "run --amount bytes --rows 1 --columns 1";

/// Captures of one keyed packet whose original length or whose options lie, and the last bytes and the
/// total of their reports.
const PACKETS: &str = "
LH 8*00 36000000 01000000 frame|cut 0 total 1
LH 8*00 36000000 00000400 frame|cut 0 total 262144
LH 8*00 36000000 01000400 frame|cut 0 total 262145
LH 8*00 36000000 ffffffff frame|cut 0 total 4294967295
SB IB/12 36000000 14000000 PB|cut 0 total 54
SB IB/12 ffffffff 14000000 PB|cut 0 total 54
SB 01000000 1c000000 01000000 00000000 02000000 00000000 1c000000 EB|cut 0 total 54
SB 01000000 1c000000 01000000 00000000 02000100 00000000 1c000000 EB|cut 0 total 54
SB 01000000 1c000000 01000000 00000000 02000500 00000000 1c000000 EB|cut 0 total 54
SB 01000000 1c000000 01000000 00000000 0200ffff 00000000 1c000000 EB|cut 0 total 54
SB IB EB/4 60000000 12*00 36000000 36000000 frame 0000 0100ffff 00000000 60000000|cut 0 total 54
SB IB EB/24 00000000 frame 0000 58000000|cut 0 total 0
SB IB EB/24 01000000 frame 0000 58000000|cut 0 total 1
SB IB EB/24 ffffffff frame 0000 58000000|cut 0 total 4294967295
SB IB PB/8 38000000 frame 0000 48000000|cut 0 total 56
SB IB/12 36000000 14000000 PB/8 ffffffff frame 0000 48000000|cut 0 total 4294967295
";

#[test]
fn a_packet_counts_by_its_original_length(rt: HostRuntime) -> Result<(), Fail> {
    let alloc = rt.alloc();
    let mut count = 0u32;
    for line in PACKETS.lines() {
        if let Some((bytes, part)) = line.split_once('|') {
            let end = run(&rt, alloc, WORDS, bytes, SMOOTH)?;
            let report = str::from_utf8(end.out.held())?.replace(alloc, "\n", " ")?;
            assert!(rt;
                end.status == Status::Done && report.contains("keyed 1 "),
                "{line}"
            );
            let part = format!(in alloc; " {part} row ")?;
            assert!(rt; report.contains(part.as_str()), "{line}");
            count = count.saturating_add(1);
        }
    }
    assert!(rt; count == 16);
    Ok(())
}

/// What reports tell of none, one and two whole packets, up to the bytes that are cut.
const NONE: &str = "records 0, keyed 0, notip 0, cut ";

const ONE: &str = "records 1, keyed 1, notip 0, cut ";

const BOTH: &str = "records 2, keyed 2, notip 0, cut ";

/// How a run ends in a header and in a section, up to the bytes that there are.
const HEADER: &str = "4 octo: bad capture 1 length ";

const SECTION: &str = "4 octo: bad capture 8 length ";

/// Fronts of a capture, from the first length up to before the second, and what is told of them, with
/// the bytes behind the third length.
const FRONTS: [(&str, u32, u32, u32, &str); 10] = [
    ("LH 2*tcp", 0, 24, 0, HEADER),
    ("LH 2*tcp", 24, 94, 24, NONE),
    ("LH 2*tcp", 94, 164, 94, ONE),
    ("LH 2*tcp", 164, 165, 164, BOTH),
    ("SB IB EB PB", 0, 4, 0, HEADER),
    ("SB IB EB PB", 4, 28, 0, SECTION),
    ("SB IB EB PB", 28, 48, 28, NONE),
    ("SB IB EB PB", 48, 136, 48, NONE),
    ("SB IB EB PB", 136, 208, 136, ONE),
    ("SB IB EB PB", 208, 209, 208, BOTH),
];

#[test]
fn a_front_of_a_capture_is_refused_or_cut(rt: HostRuntime) -> Result<(), Fail> {
    let alloc = rt.alloc();
    for (bytes, first, behind, from, text) in FRONTS {
        let whole = capture(alloc, bytes)?;
        for len in first..behind {
            let front = &whole.as_slice()[..whole.len().min(len as usize)];
            let end = run_on(&rt, alloc, WORDS, front, SMOOTH, &OpenGate)?;
            let part = format!(in alloc; "{text}{}", len.saturating_sub(from))?;
            let lines = whole_text(alloc, part.as_str())?;
            let told = end_of(alloc, &end)?.as_str() == part.as_str();
            let reported = str::from_utf8(end.out.held())?.contains(lines.as_str());
            let fault = from == 0;
            assert!(rt;
                told == fault && end.out.held().is_empty() == fault,
                "{bytes} {len}"
            );
            assert!(rt;
                reported != fault && (end.status == Status::Done) != fault,
                "{bytes} {len}"
            );
        }
    }
    Ok(())
}
