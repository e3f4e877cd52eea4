use crate::captures::capture;
use crate::texts::whole_text;
use flow_base::{MemSink, MemSource, Status};
use octo_run::{Gate, OpenGate, octo};
use std::alloc::{AllocError, Global};
use std::process::Abort;
use std::sync::Wait;
use std::test::Fail;
use std::thread::Threads;

/// How a run ended, and what it left.
#[derive(Drop)]
pub struct Ended {
    pub status: Status,
    pub out: MemSink,
    pub err: MemSink,
}

/// How its source and its outputs behave: the pieces in which bytes come, and the numbers of the
/// calls that fail.
#[derive(Clone, Copy)]
pub struct Ways<'a> {
    pub piece: u32,
    pub failing_reads: &'a [u32],
    pub failing_writes: &'a [u32],
    pub failing_lines: &'a [u32],
    /// The bytes that the output has room for, and takes at a time.
    pub room: u32,
    pub at_a_time: u32,
}

/// Nothing fails, and bytes come at once.
pub const SMOOTH: Ways = Ways {
    piece: 1000000,
    failing_reads: &[],
    failing_writes: &[],
    failing_lines: &[],
    room: 65536,
    at_a_time: 65536,
};

/// Runs octo on the words, which spaces part, and on the capture that a line of words names.
pub fn run<R: Threads + Wait + Sync>(
    rt: &R,
    alloc: Global,
    line: &str,
    bytes: &str,
    ways: Ways,
) -> Result<Ended, Fail> {
    run_gated(rt, alloc, line, bytes, ways, &OpenGate)
}

/// The same with a gate that is told of the steps of a run in threads.
pub fn run_gated<R: Threads + Wait + Sync, G: Gate>(
    rt: &R,
    alloc: Global,
    line: &str,
    bytes: &str,
    ways: Ways,
    gate: &G,
) -> Result<Ended, Fail> {
    let bytes = capture(alloc, bytes)?;
    run_on(rt, alloc, line, bytes.as_slice(), ways, gate)
}

/// The same on bytes that are given.
pub fn run_on<R: Threads + Wait + Sync, G: Gate>(
    rt: &R,
    alloc: Global,
    line: &str,
    bytes: &[u8],
    ways: Ways,
    gate: &G,
) -> Result<Ended, Fail> {
    let words = words_of(alloc, line)?;
    let piece = ways.piece.max(1);
    let mut source = MemSource::new(alloc, bytes, piece, ways.failing_reads)?;
    let at_a_time = ways.at_a_time.max(1);
    let mut out = MemSink::in_pieces(alloc, ways.room, at_a_time, ways.failing_writes)?;
    let mut err = MemSink::new(alloc, 65536, ways.failing_lines)?;
    let status = octo(
        rt,
        alloc,
        words.as_slice(),
        &mut source,
        &mut out,
        &mut err,
        gate,
    );
    Ok(Ended { status, out, err })
}

fn words_of(alloc: Global, line: &str) -> Result<Vec<String>, AllocError> {
    let mut words = Vec::new(alloc);
    for word in line.split(' ') {
        if !word.is_empty() {
            words.push(String::from_str(alloc, word)?)?;
        }
    }
    Ok(words)
}

/// A worked run: its words, its capture, its exit status with the line on the error output, and
/// the text on the output in shorthand.
#[derive(Clone, Copy)]
pub struct Case<'a> {
    pub name: &'a str,
    pub words: &'a str,
    pub bytes: &'a str,
    pub status: &'a str,
    pub text: &'a str,
}

/// A case is its name, its words, its capture and its status, a line each, and then the text.
pub fn case_of(text: &str) -> Option<Case<'_>> {
    let (name, rest) = text.split_once('\n')?;
    let (words, rest) = rest.split_once('\n')?;
    let (bytes, rest) = rest.split_once('\n')?;
    let (status, text) = rest.split_once('\n')?;
    Some(Case {
        name,
        words,
        bytes,
        status,
        text,
    })
}

/// The status and the line on the error output, as a case tells them.
pub fn end_of(alloc: Global, end: &Ended) -> Result<String, Fail> {
    let code = end.status.code();
    let line = str::from_utf8(end.err.held())?;
    if line.is_empty() {
        return Ok(format!(in alloc; "{code}")?);
    }
    Ok(format!(in alloc; "{code} {}", line.trim_end())?)
}

/// Runs each case of a table, in which cases stand behind `== `.
pub fn run_cases<R: Threads + Wait + Sync + Abort>(
    rt: &R,
    alloc: Global,
    table: &str,
) -> Result<u32, Fail> {
    run_cases_with(rt, alloc, table, "")
}

/// The same with more words.
pub fn run_cases_with<R: Threads + Wait + Sync + Abort>(
    rt: &R,
    alloc: Global,
    table: &str,
    more: &str,
) -> Result<u32, Fail> {
    let mut count = 0u32;
    for text in table.split("== ") {
        if let Some(case) = case_of(text) {
            let words = format!(in alloc; "{} {more}", case.words)?;
            let whole = whole_text(alloc, case.text)?;
            let end = run(rt, alloc, words.as_str(), case.bytes, SMOOTH)?;
            let ending = end_of(alloc, &end)?;
            assert!(rt; ending.as_str() == case.status, "{} {more}", case.name);
            assert!(rt;
                end.out.held() == whole.as_str().as_bytes(),
                "{} {more}",
                case.name
            );
            count = count.saturating_add(1);
        }
    }
    Ok(count)
}
