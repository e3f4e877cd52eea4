// Journals of runs in rounds of which one number is raised by one: none of them is lawful.

use crate::audits::{LAWFUL, audit};
use crate::runs::{SMOOTH, case_of, end_of};
use crate::texts::{case_named, journal_named};
use crate::worked_journals::JOURNALS;
use flow_base::Status;
use std::alloc::Global;
use std::process::Abort;
use std::sync::Wait;
use std::test::Fail;
use std::thread::Threads;

/// The digits of a number, with what stands before and behind them in a journal.
#[derive(Clone, Copy)]
struct Number<'a> {
    before: &'a str,
    digits: &'a str,
    behind: &'a str,
}

// The number that stands behind so many others.
fn number_behind(text: &str, others: u32) -> Option<Number<'_>> {
    let mut from = text;
    let mut behind = text;
    for _ in 0..=others {
        from = behind.trim_start_matches(|c: char| !c.is_ascii_digit());
        behind = from.trim_start_matches(|c: char| c.is_ascii_digit());
    }
    if from.is_empty() {
        return None;
    }
    Some(Number {
        before: text.strip_suffix(from)?,
        digits: from.strip_suffix(behind)?,
        behind,
    })
}

fn behind_last(text: &str, cut: char) -> &str {
    match text.rsplit_once(cut) {
        Some((_, behind)) => behind,
        None => text,
    }
}

fn before_first(text: &str, cut: char) -> &str {
    match text.split_once(cut) {
        Some((before, _)) => before,
        None => text,
    }
}

fn count_of(text: &str, byte: u8) -> usize {
    text.as_bytes()
        .iter()
        .filter(|other| **other == byte)
        .count()
}

// The first line behind that of the number that tells no refused updates, where `line` is its own.
fn line_behind(number: Number<'_>, line: usize) -> usize {
    for (place, text) in number.behind.lines().enumerate() {
        if place > 0 && !text.starts_with("refused ") {
            return line.saturating_add(place);
        }
    }
    line
}

// The first line that isn't one of a journal where the number is raised, if there is one.
fn bad_line(number: Number<'_>, line: usize) -> Option<usize> {
    let start = behind_last(number.before, '\n');
    let begins_run = behind_last(start, ' ').is_empty();
    let next = line_behind(number, line);
    match (before_first(start, ' '), count_of(start, b' ')) {
        // Another version; another worker, reader or ask than the place of the line says.
        ("octosketch", _) | ("worker" | "refused" | "answer", 1) | ("answer", 2) => Some(line),
        // A refused update more than the runs tell.
        ("worker", 5) => Some(next),
        // A run of one update ends before it begins; of a longer one an update is missing.
        ("refused", _) if begins_run => {
            let single = before_first(number.behind, '\n').strip_prefix('-') == Some(number.digits);
            Some(if single { line } else { next })
        }
        // The last run has an update too many.
        ("refused", _) => Some(next.saturating_sub(1)),
        _ => None,
    }
}

// How the audit ends where the number is raised to this one.
fn ending(alloc: Global, number: Number<'_>, raised: u64) -> Result<String, Fail> {
    let line = count_of(number.before, b'\n').saturating_add(1);
    if let Some(bad) = bad_line(number, line) {
        return Ok(format!(in alloc; "4 octo: bad capture 12 line {bad}")?);
    }
    let front = behind_last(behind_last(number.before, '\n'), ' ');
    let back = before_first(before_first(number.behind, '\n'), ' ');
    let digits = number.digits;
    Ok(format!(in alloc;
        "7 octo: differs line {line} kept {front}{raised}{back} lawful {front}{digits}{back}"
    )?)
}

// Raises each number from the first place up to before the second that stands in no line of options
// or watched keys, and says how many there are.
fn raise_each<R: Threads + Wait + Sync + Abort>(
    rt: &R,
    alloc: Global,
    journal: &str,
    bytes: &str,
    first: u32,
    end: u32,
) -> Result<u32, Fail> {
    let mut count = 0u32;
    for others in first..end {
        let Some(number) = number_behind(journal, others) else {
            break;
        };
        let Number {
            before,
            digits,
            behind,
        } = number;
        let start = behind_last(before, '\n');
        if start.starts_with("options ") || start.starts_with("watched ") {
            continue;
        }
        let raised = digits.parse::<u64>()?.saturating_add(1);
        let changed = format!(in alloc; "{before}{raised}{behind}")?;
        let ended = audit(rt, alloc, changed.as_str(), bytes, SMOOTH)?;
        let told = end_of(alloc, &ended)?;
        let due = ending(alloc, number, raised)?;
        assert!(rt; told.as_str() == due.as_str(), "{told} instead of {due}");
        assert!(rt; ended.out.held().is_empty());
        count = count.saturating_add(1);
    }
    Ok(count)
}

// The same for the journal of the worked run with this name.
fn raise_each_of<R: Threads + Wait + Sync + Abort>(
    rt: &R,
    alloc: Global,
    name: &str,
    first: u32,
    end: u32,
) -> Result<u32, Fail> {
    let bytes = case_named(name)?.bytes;
    let journal = journal_named(alloc, name)?;
    raise_each(rt, alloc, journal.as_str(), bytes, first, end)
}

#[test]
fn the_worked_journals_are_lawful(rt: HostRuntime) -> Result<(), Fail> {
    let alloc = rt.alloc();
    let mut count = 0u32;
    for text in JOURNALS.split("== ") {
        if let Some(case) = case_of(text) {
            let journal = journal_named(alloc, case.name)?;
            let end = audit(&rt, alloc, journal.as_str(), case.bytes, SMOOTH)?;
            assert!(rt; end.status == Status::Done, "{}", case.name);
            assert!(rt; end.out.held() == LAWFUL, "{}", case.name);
            count = count.saturating_add(1);
        }
    }
    assert!(rt; count == 7);
    Ok(())
}

// An audit takes 16 megabytes and its time for each worker, so the journals stand in tests apart, and
// that of sixteen workers in three: its first eight workers, the others, and its answer.

#[test]
fn each_raised_number_is_told_where_updates_were_refused(rt: HostRuntime) -> Result<(), Fail> {
    let name = "a full lane leaves updates refused";
    assert!(rt; raise_each_of(&rt, rt.alloc(), name, 0, 1000)? == 37);
    Ok(())
}

#[test]
fn each_raised_number_is_told_where_pushes_wait(rt: HostRuntime) -> Result<(), Fail> {
    let name = "a push that waits is never refused";
    assert!(rt; raise_each_of(&rt, rt.alloc(), name, 0, 1000)? == 31);
    Ok(())
}

#[test]
fn each_raised_number_is_told_in_each_sketch(rt: HostRuntime) -> Result<(), Fail> {
    for (name, count) in [
        ("a front stands between two rows", 31),
        ("a Count Sketch finds its live key", 16),
        ("registers answer how many keys there are", 10),
    ] {
        assert!(rt;
            raise_each_of(&rt, rt.alloc(), name, 0, 1000)? == count,
            "{name}"
        );
    }
    Ok(())
}

#[test]
fn each_raised_number_is_told_among_four_workers(rt: HostRuntime) -> Result<(), Fail> {
    let name = "defaults leave residues of ten";
    assert!(rt; raise_each_of(&rt, rt.alloc(), name, 0, 1000)? == 46);
    Ok(())
}

/// The journal of sixteen workers. Its numbers begin with the version, and behind those of options and
/// watched key each worker's line has three, and the answer's twenty.
const SIXTEEN: &str = "idle workers push nothing";

#[test]
fn each_raised_number_is_told_of_the_first_workers(rt: HostRuntime) -> Result<(), Fail> {
    assert!(rt; raise_each_of(&rt, rt.alloc(), SIXTEEN, 0, 47)? == 25);
    Ok(())
}

#[test]
fn each_raised_number_is_told_of_the_other_workers(rt: HostRuntime) -> Result<(), Fail> {
    assert!(rt; raise_each_of(&rt, rt.alloc(), SIXTEEN, 47, 71)? == 24);
    Ok(())
}

#[test]
fn each_raised_number_is_told_of_an_answer(rt: HostRuntime) -> Result<(), Fail> {
    assert!(rt; raise_each_of(&rt, rt.alloc(), SIXTEEN, 71, 1000)? == 21);
    Ok(())
}
