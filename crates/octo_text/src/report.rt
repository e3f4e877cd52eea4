ghost use Rattle.std.specs.Prelude.{◌≡◌, ◌+◌, ◌≤◌, ◌++◌, ℕ, length, codes};
ghost use Rattle.flow_base.specs.Causes.{HasCause};
ghost use Rattle.flow_base.specs.Writing.{Writes};
ghost use Rattle.octo_text.specs.Lines.{words_line, count_line, sketch_words};
ghost use Rattle.octo_text.specs.ReportText.{skipped_line, row_line, estimate_line, capture_lines, table_lines, flow_lines, distinct_line, estimate_lines, report_text};
ghost use Rattle.std.specs.List.{flat_map, enumerate_from};

use crate::line::Line;
use crate::lines::{put_sketch, write_count, write_words};
use flow_base::{Failed, Sink};
use hash_rows::{Amount, Counts, Flow, Flows, Shape, Sketch, Tallies};

/// What a report tells.
#[derive(Drop)]
pub struct Report {
    pub sketch: Sketch,
    pub shape: Shape,
    pub amount: Amount,
    /// Whole records.
    pub records: u64,
    /// Records with a key.
    pub keyed: u64,
    pub skipped: Tallies,
    /// The bytes behind the last whole record.
    pub cut: u32,
    /// The sum of all amounts.
    pub total: u64,
    /// The cells of each row that aren't 0.
    pub used: Counts,
    /// The watched keys, in the order given.
    pub watch: Flows,
    /// The estimate of the number of keys, with LogLog alone.
    pub distinct: Option<i64>,
    /// The number of all heavy flows.
    pub heavy: u64,
    /// The heavy flows that are listed.
    pub flows: Flows,
}

/// Writes the line of the sketch, its shape, and what a packet adds to it.
#[tactic(auto, unfolding(crate::specs::Lines::words_line))]
pub fn write_sketch<T: Sink>(
    out: &mut T,
    sketch: Sketch,
    shape: &Shape,
    amount: Amount,
) -> Result<(), Failed>
    ensures writes { Writes (T.holds out.old) (T.holds out.new) (words_line (sketch_words sketch shape.now amount)) result }
    ensures cause { HasCause (T.faults out.old) (T.faults out.new) result }
{
    let mut line = Line::new();
    put_sketch(&mut line, sketch, shape, amount);
    line.send(out)
}

/// Writes the line that tells how many records have no key, by why.
#[tactic(auto, unfolding(crate::specs::ReportText::skipped_line))]
pub fn write_skipped<T: Sink>(out: &mut T, skipped: &Tallies) -> Result<(), Failed>
    ensures writes { Writes (T.holds out.old) (T.holds out.new) (skipped_line skipped.now) result }
    ensures cause { HasCause (T.faults out.old) (T.faults out.new) result }
{
    let mut line = Line::new();
    line.named(b"skipped short ", skipped.short);
    line.named(b" notip ", skipped.not_ip);
    line.named(b" badip ", skipped.bad_ip);
    line.named(b" tags ", skipped.tags);
    line.send(out)
}

#[tactic(auto, unfolding(crate::specs::ReportText::row_line))]
fn write_row<T: Sink>(out: &mut T, row: usize, used: u64) -> Result<(), Failed>
    ensures writes { Writes (T.holds out.old) (T.holds out.new) (row_line (row, used)) result }
    ensures cause { HasCause (T.faults out.old) (T.faults out.new) result }
{
    let mut line = Line::new();
    line.named(b"row ", row as u64);
    line.named(b" used ", used);
    line.send(out)
}

#[tactic(auto, unfolding(crate::specs::ReportText::estimate_line))]
fn write_estimate<T: Sink>(out: &mut T, name: &[u8], flow: &Flow) -> Result<(), Failed>
    requires { length name.now ≤ 20 }
    ensures writes { Writes (T.holds out.old) (T.holds out.new) (estimate_line name.now flow.now) result }
    ensures cause { HasCause (T.faults out.old) (T.faults out.new) result }
{
    let mut line = Line::new();
    line.text(name);
    line.text(b" ");
    line.key(&flow.key);
    line.text(b" ");
    line.signed(flow.estimate);
    line.send(out)
}

/// Writes a line for each flow: a name, at most 20 bytes of it, its key and its estimate.
pub fn write_estimates<T: Sink>(out: &mut T, name: &[u8], flows: &[Flow]) -> Result<(), Failed>
    requires { length name.now ≤ 20 }
    ensures writes { Writes (T.holds out.old) (T.holds out.new)
        (flat_map (estimate_line name.now) flows.now) result }
    ensures cause { HasCause (T.faults out.old) (T.faults out.new) result }
{
    for flow in flows {
        write_estimate(out, name, flow)?;
    }
    Ok(())
}

/// Writes a line for each row of a table, by how many of its cells aren't 0.
pub fn write_rows<T: Sink>(out: &mut T, used: &[u64]) -> Result<(), Failed>
    ensures writes { Writes (T.holds out.old) (T.holds out.new)
        (flat_map row_line (enumerate_from 0 used.now)) result }
    ensures cause { HasCause (T.faults out.old) (T.faults out.new) result }
{
    for (row, cells) in used.iter().enumerate() {
        write_row(out, row, *cells)?;
    }
    Ok(())
}

fn write_capture<T: Sink>(out: &mut T, report: &Report) -> Result<(), Failed>
    ensures writes { Writes (T.holds out.old) (T.holds out.new) (capture_lines report.now) result }
    ensures cause { HasCause (T.faults out.old) (T.faults out.new) result }
{
    write_count(out, b"records", report.records)?;
    write_count(out, b"keyed", report.keyed)?;
    write_skipped(out, &report.skipped)?;
    write_count(out, b"cut", report.cut as u64)
}

fn write_table<T: Sink>(out: &mut T, report: &Report) -> Result<(), Failed>
    ensures writes { Writes (T.holds out.old) (T.holds out.new) (table_lines report.now) result }
    ensures cause { HasCause (T.faults out.old) (T.faults out.new) result }
{
    write_count(out, b"total", report.total)?;
    write_rows(out, report.used.as_slice())
}

fn write_flows<T: Sink>(out: &mut T, report: &Report) -> Result<(), Failed>
    ensures writes { Writes (T.holds out.old) (T.holds out.new) (flow_lines report.now) result }
    ensures cause { HasCause (T.faults out.old) (T.faults out.new) result }
{
    write_estimates(out, b"watch", report.watch.as_slice())?;
    write_count(out, b"heavy", report.heavy)?;
    write_estimates(out, b"flow", report.flows.as_slice())
}

#[tactic(auto, unfolding(crate::specs::ReportText::distinct_line))]
fn write_distinct<T: Sink>(out: &mut T, estimate: i64) -> Result<(), Failed>
    ensures writes { Writes (T.holds out.old) (T.holds out.new) (distinct_line estimate) result }
    ensures cause { HasCause (T.faults out.old) (T.faults out.new) result }
{
    let mut line = Line::new();
    line.text(b"distinct ");
    line.signed(estimate);
    line.send(out)
}

// What the sketch says of the keys.
#[tactic(auto, unfolding(crate::specs::ReportText::estimate_lines))]
fn write_findings<T: Sink>(out: &mut T, report: &Report) -> Result<(), Failed>
    ensures writes { Writes (T.holds out.old) (T.holds out.new)
        (estimate_lines report.now.distinct report.now) result }
    ensures cause { HasCause (T.faults out.old) (T.faults out.new) result }
{
    match report.distinct {
        Some(estimate) => write_distinct(out, estimate),
        None => write_flows(out, report),
    }
}

/// Writes the report's text, each line as one piece. It takes no memory.
///
/// After an error the sink holds a proper front of the text.
pub fn write_report<T: Sink>(out: &mut T, report: &Report) -> Result<(), Failed>
    ensures writes { Writes (T.holds out.old) (T.holds out.new) (report_text report.now) result }
    ensures cause { HasCause (T.faults out.old) (T.faults out.new) result }
{
    write_words(out, b"octosketch report 1")?;
    write_sketch(out, report.sketch, &report.shape, report.amount)?;
    write_capture(out, report)?;
    write_table(out, report)?;
    write_findings(out, report)?;
    write_words(out, b"end")
}
