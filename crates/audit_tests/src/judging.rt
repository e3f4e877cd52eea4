ghost use Rattle.std.specs.Prelude.{◌≤◌, length};
ghost use Rattle.hash_rows.specs.Limits.{most_records};
ghost use Rattle.octo_text.specs.Readable.{IsReadable};

use count_min::CountMin;
use count_sketch::CountSketch;
use flow_base::{Ahead, MemSource, NoMemory};
use hash_rows::{Packet, Sketch};
use journal_audit::audit_journal;
use journal_whole::read_journal;
use loglog_regs::LogLog;
use octo_text::Journal;
use packet_key::FlowKey;
use rounds_audit::Verdict;
use std::alloc::Global;
use std::process::Abort;
use std::test::Fail;

// A packet of one flow for each letter: those of A and of B differ in the source port, and in a
// row of two columns A has the second one and B the first.
fn packets_of(alloc: Global, letters: &[u8]) -> Result<Vec<Packet>, Fail> {
    let mut packets = Vec::new(alloc);
    for letter in letters {
        let key = FlowKey::V4 {
            src: 0x0A000001,
            dst: 0x0A000002,
            sport: if *letter == b'A' { 1234 } else { 1236 },
            dport: 443,
            proto: 6,
        };
        packets.push(Packet { key, amount: 1 })?;
    }
    Ok(packets)
}

// Judges a journal by its sketch.
fn audit(alloc: Global, packets: &[Packet], journal: &Journal) -> Result<Verdict, NoMemory>
    requires readable { IsReadable journal.now }
    requires few { length packets.now ≤ most_records }
{
    match journal.options.sketch {
        Sketch::CountMin => audit_journal::<CountMin>(alloc, packets, journal),
        Sketch::CountSketch => audit_journal::<CountSketch>(alloc, packets, journal),
        Sketch::LogLog => audit_journal::<LogLog>(alloc, packets, journal),
    }
}

// The options that a case doesn't change: one worker with lanes of four messages, and no reader.
const OPTIONS: &str =
    "sketch count-min, rows 1, columns 1, amount packets, share turn, workers 1, threshold 1, lane 4, batch 32, round 4, full leave, mode threads, readers 0, asks 0, heavy 64, least 5";

#[derive(Clone, Copy)]
struct Case<'a> {
    said: &'a str,
    letters: &'a str,
    changed: &'a str,
    lines: &'a str,
}

fn case_of(line: &str) -> Option<Case<'_>> {
    let (said, rest) = line.split_once('|')?;
    let (letters, rest) = rest.split_once('|')?;
    let (changed, lines) = rest.split_once('|')?;
    Some(Case {
        said,
        letters,
        changed,
        lines,
    })
}

fn name_of(option: &str) -> &str {
    match option.split_once(' ') {
        Some((name, _)) => name,
        None => option,
    }
}

// Adds the option, or the one of the same name among those that are changed.
fn add_option(text: &mut Vec<u8>, option: &str, changed: &str) -> Result<(), Fail> {
    text.extend_from_slice(b" ")?;
    for other in changed.split(", ") {
        if name_of(other) == name_of(option) {
            text.extend_from_slice(other.as_bytes())?;
            return Ok(());
        }
    }
    text.extend_from_slice(option.as_bytes())?;
    Ok(())
}

fn add_lines(text: &mut Vec<u8>, lines: &str) -> Result<(), Fail> {
    for line in lines.split(", ") {
        text.extend_from_slice(b"\n")?;
        text.extend_from_slice(line.as_bytes())?;
    }
    Ok(())
}

// The text of the case's journal.
fn text_of(alloc: Global, case: Case) -> Result<Vec<u8>, Fail> {
    let mut text = Vec::new(alloc);
    text.extend_from_slice(b"octosketch journal 1\noptions")?;
    for option in OPTIONS.split(", ") {
        add_option(&mut text, option, case.changed)?;
    }
    add_lines(&mut text, case.lines)?;
    text.extend_from_slice(b"\nend\n")?;
    Ok(text)
}

fn judged(alloc: Global, case: Case) -> Result<Verdict, Fail> {
    let text = text_of(alloc, case)?;
    let mut source = MemSource::new(alloc, &text, 4096, &[])?;
    let mut ahead = Ahead::new(&mut source);
    let Ok(journal) = read_journal(alloc, &mut ahead) else {
        return Err(Fail::from("no journal"));
    };
    let packets = packets_of(alloc, case.letters.as_bytes())?;
    if packets.len() > 100 {
        return Err(Fail::from("too many packets"));
    }
    let verdict = audit(alloc, &packets, &journal)?;
    Ok(verdict)
}

// What a case says of a journal with this verdict.
fn told_of(alloc: Global, verdict: Verdict) -> Result<String, Fail> {
    let Verdict::Unlawful { line, kept, lawful } = verdict else {
        return Ok(String::from_str(alloc, "lawful")?);
    };
    let kept = str::from_utf8(kept.as_bytes())?;
    let lawful = str::from_utf8(lawful.as_bytes())?;
    Ok(format!(in alloc; "line {line} kept {kept} lawful {lawful}")?)
}

/// Judges the journal of each line of a table, and says how many there are.
pub fn judge_each<R: Abort>(rt: &R, alloc: Global, table: &str) -> Result<u32, Fail> {
    let mut count = 0u32;
    for line in table.lines() {
        if let Some(case) = case_of(line) {
            let told = told_of(alloc, judged(alloc, case)?)?;
            assert!(rt; told.as_str() == case.said, "{line}");
            count = count.saturating_add(1);
        }
    }
    Ok(count)
}
