// The report doesn't depend on workers, push rule and lanes, and the journal is the same at each run.

use crate::runs::{SMOOTH, run};
use crate::texts::whole_text;
use flow_base::Status;
use std::alloc::Global;
use std::sync::Wait;
use std::test::Fail;
use std::thread::Threads;

/// Push rules, lanes, numbers of workers and shares.
const WAYS: [&str; 9] = [
    "--workers 1",
    "--workers 2",
    "--workers 7",
    "--workers 1 --share key",
    "--workers 2 --share key --threshold 1000",
    "--workers 7 --share key --threshold 3 --lane 1 --batch 1 --round 7",
    "--workers 16 --lane 1 --threshold 1 --batch 1 --round 1",
    "--lane 1 --threshold 1 --batch 1 --round 1 --full wait",
    "--workers 3 --lane 4096 --threshold 2 --batch 1024 --round 65536 --full wait",
];

// Whether these words give one report for all of them.
fn is_one_report<R: Threads + Wait + Sync>(
    rt: &R,
    alloc: Global,
    line: &str,
    bytes: &str,
) -> Result<bool, Fail> {
    let first = run(rt, alloc, line, bytes, SMOOTH)?;
    let mut same = first.status == Status::Done;
    for way in WAYS {
        let words = format!(in alloc; "{line} {way}")?;
        let other = run(rt, alloc, words.as_str(), bytes, SMOOTH)?;
        same = same && other.out.held() == first.out.held();
    }
    Ok(same)
}

/// Seven frames with keys, of which two are equal, and one without.
const MIXED: &str = "LH tcp tagged fragment arp icmp ipv6 tcp icmp";

#[test]
fn a_capture_has_one_report(rt: HostRuntime) -> Result<(), Fail> {
    for (line, bytes) in [
        ("run --least 1", "LH"),
        ("run --least 1", MIXED),
        ("run --rows 1 --columns 1 --least 7 --heavy 2", MIXED),
        ("run --least 1", "LH 20*tcp"),
        ("run --rows 2 --columns 3 --least 1 --amount bytes", MIXED),
        (
            "run --sketch count-sketch --rows 3 --columns 5 --least 1",
            MIXED,
        ),
        ("run --sketch loglog --columns 128", MIXED),
    ] {
        assert!(rt; is_one_report(&rt, rt.alloc(), line, bytes)?, "{line}");
    }
    Ok(())
}

#[test]
fn many_packets_have_one_report_and_one_journal(rt: HostRuntime) -> Result<(), Fail> {
    let alloc = rt.alloc();
    let line = "load --records 65536 --start 7 --workers 4 --readers 2 --asks 100";
    let plain = run(&rt, alloc, line, "", SMOOTH)?;
    let counts = whole_text(
        alloc,
        "octosketch report 1, sketch count-min rows 4 columns 2048 amount packets
records 65536, keyed 65536, notip 0, cut 0, total 65536",
    )?;
    assert!(rt; plain.status == Status::Done);
    assert!(rt; plain.out.held().starts_with(counts.as_str().as_bytes()));
    let words = "load --records 65536 --start 7 --workers 4 --readers 2 --asks 100 --journal";
    let told = run(&rt, alloc, words, "", SMOOTH)?;
    let again = run(&rt, alloc, words, "", SMOOTH)?;
    assert!(rt; told.status == Status::Done);
    assert!(rt; told.out.held().starts_with(plain.out.held()));
    assert!(rt; told.out.held().len() > plain.out.held().len());
    assert!(rt; told.out.held() == again.out.held());
    let words = "load --records 65536 --start 7 --readers 2 --asks 100 --full wait";
    let waiting = run(&rt, alloc, words, "", SMOOTH)?;
    assert!(rt; waiting.out.held() == plain.out.held());
    Ok(())
}
