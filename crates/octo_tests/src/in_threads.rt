// Runs in threads: one report in both modes, and journals that no schedule changes.

use crate::runs::{SMOOTH, run, run_cases};
use flow_base::Status;
use std::alloc::Global;
use std::process::Abort;
use std::sync::Wait;
use std::test::Fail;
use std::thread::Threads;

pub const UNREFUSED: &str = "== a lane that is never full refuses nothing
run --sketch count-sketch --rows 1 --columns 1 --workers 1 --threshold 1 --least 5 --mode threads --journal
LH 6*tcp
0
octosketch report 1, sketch count-sketch rows 1 columns 1 amount packets
records 6, keyed 6, notip 0, cut 0, total 6
row 0 used 1
heavy 1, flow 10.0.0.1:1234>10.0.0.2:443/6 6, end
octosketch journal 1
options sketch count-sketch rows 1 columns 1 amount packets share turn workers 1 threshold 1 lane 64 batch 32 round 64 full leave mode threads readers 0 asks 0 heavy 64 least 5
worker 0 pushes 6 refused 0
live 10.0.0.1:1234>10.0.0.2:443/6, missed 0, end
== a push that waits is never refused in threads
run --full wait --rows 1 --columns 1 --workers 1 --threshold 1 --lane 1 --least 5 --mode threads --journal
LH 6*tcp
0
octosketch report 1, sketch count-min rows 1 columns 1 amount packets
records 6, keyed 6, notip 0, cut 0, total 6
row 0 used 1
heavy 1, flow 10.0.0.1:1234>10.0.0.2:443/6 6, end
octosketch journal 1
options sketch count-min rows 1 columns 1 amount packets share turn workers 1 threshold 1 lane 1 batch 32 round 64 full wait mode threads readers 0 asks 0 heavy 64 least 5
worker 0 pushes 6 refused 0
live 10.0.0.1:1234>10.0.0.2:443/6, missed 0, end
";

#[test]
fn no_schedule_changes_these_journals(rt: HostRuntime) -> Result<(), Fail> {
    for _ in 0..20 {
        assert!(rt; run_cases(&rt, rt.alloc(), UNREFUSED)? == 2);
    }
    Ok(())
}

// Twenty runs in the mode have the report of a run in rounds.
fn have_one_report<R: Threads + Wait + Sync + Abort>(
    rt: &R,
    alloc: Global,
    mode: &str,
) -> Result<(), Fail> {
    let line = "load --records 65536 --start 7 --workers 4 --readers 2 --asks 100";
    let first = run(rt, alloc, line, "", SMOOTH)?;
    assert!(rt; first.status == Status::Done);
    let words = format!(in alloc; "{line} --mode {mode}")?;
    for _ in 0..20 {
        let other = run(rt, alloc, words.as_str(), "", SMOOTH)?;
        assert!(rt; other.out.held() == first.out.held(), "{mode}");
    }
    Ok(())
}

#[test]
fn runs_in_rounds_have_one_report(rt: HostRuntime) -> Result<(), Fail> {
    have_one_report(&rt, rt.alloc(), "rounds")
}

#[test]
fn runs_in_threads_have_the_same_report(rt: HostRuntime) -> Result<(), Fail> {
    have_one_report(&rt, rt.alloc(), "threads")
}
