// Journals that are given back with the captures behind them, and what is said of them.

use crate::captures::capture;
use crate::runs::{Ended, SMOOTH, Ways, end_of, run, run_on};
use crate::texts::{journal_in, journal_named, whole_text};
use capture_load::GenSource;
use flow_base::{Source, Status};
use octo_run::OpenGate;
use std::alloc::Global;
use std::process::Abort;
use std::sync::Wait;
use std::test::Fail;
use std::thread::Threads;

/// The worked run of six packets whose journal is given.
const SIX: &str = "a full lane leaves updates refused";

/// Each line with bars has the end of an audit, and what stands in the journal for what it had.
const CHANGES: &str = "
- the first line
4 octo: bad capture 12 line 1|journal 1|journal 0
4 octo: bad capture 12 line 1|journal 1|journal 2
4 octo: bad capture 12 line 1|journal 1|journal 18446744073709551616
- numbers of the options, at their limits and behind them
4 octo: bad capture 12 line 2|rows 1|rows 0
4 octo: bad capture 12 line 2|rows 1|rows 9
4 octo: bad capture 12 line 2|rows 1|rows 4294967296
4 octo: bad capture 12 line 2|rows 1|rows 18446744073709551616
7 octo: differs line 4 kept 4 lawful 46|rows 1|rows 8
4 octo: bad capture 12 line 2|columns 1|columns 0
4 octo: bad capture 12 line 2|columns 1|columns 65537
4 octo: bad capture 12 line 2|columns 1|columns 4294967296
4 octo: bad capture 12 line 2|columns 1|columns 18446744073709551616
0|columns 1|columns 65536
4 octo: bad capture 12 line 2|workers 1|workers 0
4 octo: bad capture 12 line 2|workers 1|workers 17
4 octo: bad capture 12 line 2|workers 1|workers 4294967296
4 octo: bad capture 12 line 2|workers 1|workers 18446744073709551616
4 octo: bad capture 12 line 7|workers 1|workers 16
4 octo: bad capture 12 line 2|threshold 1|threshold 0
4 octo: bad capture 12 line 2|threshold 1|threshold 1099511627777
4 octo: bad capture 12 line 2|threshold 1|threshold 18446744073709551616
7 octo: differs line 4 kept 2 lawful 0|threshold 1|threshold 1099511627776
4 octo: bad capture 12 line 2|lane 1|lane 0
4 octo: bad capture 12 line 2|lane 1|lane 4097
4 octo: bad capture 12 line 2|lane 1|lane 4294967296
4 octo: bad capture 12 line 2|lane 1|lane 18446744073709551616
7 octo: differs line 4 kept 2 lawful 6|lane 1|lane 4096
4 octo: bad capture 12 line 2|batch 32|batch 0
4 octo: bad capture 12 line 2|batch 32|batch 1025
4 octo: bad capture 12 line 2|batch 32|batch 4294967296
4 octo: bad capture 12 line 2|batch 32|batch 18446744073709551616
0|batch 32|batch 1
0|batch 32|batch 1024
4 octo: bad capture 12 line 2|round 4|round 0
4 octo: bad capture 12 line 2|round 4|round 65537
4 octo: bad capture 12 line 2|round 4|round 4294967296
4 octo: bad capture 12 line 2|round 4|round 18446744073709551616
7 octo: differs line 4 kept 2 lawful 1|round 4|round 65536
4 octo: bad capture 12 line 2|readers 1|readers 5
4 octo: bad capture 12 line 2|readers 1|readers 4294967296
4 octo: bad capture 12 line 2|readers 1|readers 18446744073709551616
4 octo: bad capture 12 line 7|readers 1|readers 0
4 octo: bad capture 12 line 10|readers 1|readers 4
4 octo: bad capture 12 line 2|asks 3|asks 1025
4 octo: bad capture 12 line 2|asks 3|asks 4294967296
4 octo: bad capture 12 line 2|asks 3|asks 18446744073709551616
4 octo: bad capture 12 line 7|asks 3|asks 0
4 octo: bad capture 12 line 10|asks 3|asks 1024
4 octo: bad capture 12 line 2|heavy 64|heavy 0
4 octo: bad capture 12 line 2|heavy 64|heavy 1025
4 octo: bad capture 12 line 2|heavy 64|heavy 4294967296
4 octo: bad capture 12 line 2|heavy 64|heavy 18446744073709551616
0|heavy 64|heavy 1
0|heavy 64|heavy 1024
4 octo: bad capture 12 line 2|least 5|least 0
4 octo: bad capture 12 line 2|least 5|least 1099511627777
4 octo: bad capture 12 line 2|least 5|least 18446744073709551616
0|least 5|least 1
7 octo: differs line 10 kept live lawful missed|least 5|least 1099511627776
- messages and refused updates, of which a journal tells 2^27 at most
7 octo: differs line 4 kept 0 lawful 2|pushes 2|pushes 0
7 octo: differs line 4 kept 1 lawful 2|pushes 2|pushes 1
7 octo: differs line 4 kept 134217728 lawful 2|pushes 2|pushes 134217728
4 octo: bad capture 12 line 4|pushes 2|pushes 134217729
4 octo: bad capture 12 line 4|pushes 2|pushes 4294967296
4 octo: bad capture 12 line 4|pushes 2|pushes 18446744073709551616
4 octo: bad capture 12 line 5|refused 4|refused 0
4 octo: bad capture 12 line 5|refused 4|refused 1
4 octo: bad capture 12 line 7|refused 4|refused 134217728
4 octo: bad capture 12 line 4|refused 4|refused 134217729
4 octo: bad capture 12 line 4|refused 4|refused 4294967296
4 octo: bad capture 12 line 4|refused 4|refused 18446744073709551616
7 octo: differs line 6 kept 134217727-134217727 lawful 5-5|5-5|134217727-134217727
4 octo: bad capture 12 line 6|5-5|134217728-134217728
4 octo: bad capture 12 line 6|5-5|4294967296-4294967296
4 octo: bad capture 12 line 6|5-5|18446744073709551616-18446744073709551616
- answers
4 octo: bad capture 12 line 7|answer 0 0|answer 1 0
4 octo: bad capture 12 line 7|answer 0 0|answer 0 1
4 octo: bad capture 12 line 7|answer 0 0|answer 0 4294967296
4 octo: bad capture 12 line 7|answer 0 0|answer 18446744073709551616 0
7 octo: differs line 7 kept 0 lawful 1|folded 1|folded 0
7 octo: differs line 7 kept 18446744073709551615 lawful 1|folded 1|folded 18446744073709551615
4 octo: bad capture 12 line 7|folded 1|folded 18446744073709551616
7 octo: differs line 7 kept 0 lawful 1|front 1|front 0
7 octo: differs line 7 kept 134217728 lawful 1|front 1|front 134217728
4 octo: bad capture 12 line 7|front 1|front 134217729
4 octo: bad capture 12 line 7|front 1|front 4294967296
4 octo: bad capture 12 line 7|front 1|front 18446744073709551616
7 octo: differs line 7 kept 0 lawful 1|shown 1|shown 0
7 octo: differs line 8 kept 6 lawful 5|front 2 shown 5|front 2 shown 6
7 octo: differs line 7 kept 9223372036854775807 lawful 1|shown 1|shown 9223372036854775807
7 octo: differs line 7 kept -9223372036854775808 lawful 1|shown 1|shown -9223372036854775808
4 octo: bad capture 12 line 7|shown 1|shown 9223372036854775808
4 octo: bad capture 12 line 7|shown 1|shown -9223372036854775809
4 octo: bad capture 12 line 7|shown 1|shown 18446744073709551616
- the missed messages
7 octo: differs line 11 kept 1 lawful 0|missed 0|missed 1
7 octo: differs line 11 kept 18446744073709551615 lawful 0|missed 0|missed 18446744073709551615
4 octo: bad capture 12 line 11|missed 0|missed 18446744073709551616
";

/// The first lines of journals of runs in threads.
const OPTIONS: &str = "octosketch journal 1
options sketch count-min rows 1 columns 1 amount packets share turn workers 1 threshold 1 lane 4 batch 32 round 4 full leave mode threads readers 0 asks 0 heavy 64 least 5
";

/// Each line with bars has the end of an audit, the capture, and the other lines of a journal.
const IN_THREADS: &str = "
- a refused update at which nothing is due
7 octo: differs line 4 kept 2 lawful 4|LH 6*tcp|worker 0 pushes 5 refused 1, refused 0 2-2, missed 0, end
- one push too many
7 octo: differs line 3 kept 6 lawful 5|LH 6*tcp|worker 0 pushes 6 refused 1, refused 0 2-2, missed 0, end
- a capture of no bytes
4 octo: bad capture 1 length 0||worker 0 pushes 6 refused 0, missed 0, end
- a record that is too long, whose place is counted from the capture on
4 octo: bad capture 6 offset 94 length 262145|LH tcp 0000000000000000 01000400 01000400|worker 0 pushes 6 refused 0, missed 0, end
";

/// What is said of a journal that is lawful.
pub const LAWFUL: &[u8] = b"octosketch audit lawful\n";

/// Audits the journal and the capture that a line of words names.
pub fn audit<R: Threads + Wait + Sync>(
    rt: &R,
    alloc: Global,
    journal: &str,
    bytes: &str,
    ways: Ways,
) -> Result<Ended, Fail> {
    let mut given = Vec::new(alloc);
    given.extend_from_slice(journal.as_bytes())?;
    given.extend_from_slice(capture(alloc, bytes)?.as_slice())?;
    run_on(rt, alloc, "audit", given.as_slice(), ways, &OpenGate)
}

// Whether the audit ends so, with its verdict where the journal is lawful.
fn ends_so<R: Threads + Wait + Sync>(
    rt: &R,
    alloc: Global,
    journal: &str,
    bytes: &str,
    ending: &str,
) -> Result<bool, Fail> {
    let end = audit(rt, alloc, journal, bytes, SMOOTH)?;
    let said: &[u8] = if ending == "0" { LAWFUL } else { &[] };
    Ok(end_of(alloc, &end)?.as_str() == ending && end.out.held() == said)
}

fn row_of(line: &str) -> Option<(&str, (&str, &str))> {
    let (ending, rest) = line.split_once('|')?;
    Some((ending, rest.split_once('|')?))
}

// The journal with other words for the first that are the same.
fn changed(alloc: Global, journal: &str, kept: &str, other: &str) -> Result<String, Fail> {
    match journal.split_once(kept) {
        Some((front, rest)) => Ok(format!(in alloc; "{front}{other}{rest}")?),
        None => Err(Fail::from("no such words in the journal")),
    }
}

#[test]
fn lying_journals_are_judged(rt: HostRuntime) -> Result<(), Fail> {
    let alloc = rt.alloc();
    let whole = journal_named(alloc, SIX)?;
    let mut count = 0u32;
    for line in CHANGES.lines() {
        if let Some((ending, (kept, other))) = row_of(line) {
            let journal = changed(alloc, whole.as_str(), kept, other)?;
            assert!(rt;
                ends_so(&rt, alloc, journal.as_str(), "LH 6*tcp", ending)?,
                "{line}"
            );
            count = count.saturating_add(1);
        }
    }
    assert!(rt; count == 97);
    Ok(())
}

#[test]
fn journals_of_threads_are_judged(rt: HostRuntime) -> Result<(), Fail> {
    let alloc = rt.alloc();
    let mut count = 0u32;
    for line in IN_THREADS.lines() {
        if let Some((ending, (bytes, rest))) = row_of(line) {
            let lines = whole_text(alloc, rest)?;
            let journal = format!(in alloc; "{OPTIONS}{lines}")?;
            assert!(rt;
                ends_so(&rt, alloc, journal.as_str(), bytes, ending)?,
                "{line}"
            );
            count = count.saturating_add(1);
        }
    }
    assert!(rt; count == 4);
    Ok(())
}

// The lines before that of the first worker.
fn before_workers(journal: &str) -> &str {
    match journal.split_once("worker 0 ") {
        Some((front, _)) => front,
        None => journal,
    }
}

#[test]
fn another_capture_and_fronts_are_judged(rt: HostRuntime) -> Result<(), Fail> {
    let alloc = rt.alloc();
    let whole = journal_named(alloc, SIX)?;
    let front = before_workers(whole.as_str());
    for (journal, bytes, ending) in [
        (
            whole.as_str(),
            "LH 5*tcp",
            "7 octo: differs line 4 kept 4 lawful 3",
        ),
        (front, "", "4 octo: bad capture 12 line 4"),
        ("", "", "4 octo: bad capture 12 line 1"),
    ] {
        assert!(rt; ends_so(&rt, alloc, journal, bytes, ending)?, "{ending}");
    }
    Ok(())
}

// The bytes of a capture that is generated. One read gives its header, each further one a record.
fn generated(alloc: Global, records: u32, start: u32) -> Result<Vec<u8>, Fail> {
    let mut source = GenSource::new(records, start);
    let mut bytes = Vec::new(alloc);
    let mut buf = [0u8; 4096];
    for _ in 0..65538u32 {
        match source.read(&mut buf) {
            Ok(count) if count > 0 && count <= buf.len() => bytes.extend_from_slice(&buf[..count])?,
            _ => break,
        }
    }
    Ok(bytes)
}

// Whether the journal of a run in the mode is lawful for the capture that it ran on.
fn passes<R: Threads + Wait + Sync>(rt: &R, alloc: Global, mode: &str) -> Result<bool, Fail> {
    let line = "load --records 65536 --start 7 --workers 4 --readers 2 --asks 100 --journal --mode";
    let words = format!(in alloc; "{line} {mode}")?;
    let wide = Ways {
        room: 16777216,
        at_a_time: 16777216,
        ..SMOOTH
    };
    let end = run(rt, alloc, words.as_str(), "", wide)?;
    let journal = journal_in(alloc, str::from_utf8(end.out.held())?)?;
    let mut given = Vec::new(alloc);
    given.extend_from_slice(journal.as_str().as_bytes())?;
    given.extend_from_slice(generated(alloc, 65536, 7)?.as_slice())?;
    let audit = run_on(rt, alloc, "audit", given.as_slice(), SMOOTH, &OpenGate)?;
    Ok(audit.status == Status::Done && audit.out.held() == LAWFUL)
}

#[test]
fn the_journal_of_each_run_is_lawful(rt: HostRuntime) -> Result<(), Fail> {
    for mode in ["rounds", "threads"] {
        assert!(rt; passes(&rt, rt.alloc(), mode)?, "{mode}");
    }
    Ok(())
}
