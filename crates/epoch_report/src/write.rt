ghost use Rattle.flow_base.specs.Causes.{HasCause};
ghost use Rattle.flow_base.specs.Writing.{Writes};
ghost use Rattle.epoch_report.specs.EpochsText.{capture_lines, report_text, whole_line, whole_lines};

use crate::epochs::{put_packets, write_each};
use crate::report::EpochReport;
use flow_base::{Failed, Sink};
use hash_rows::Sketch;
use octo_text::{Line, write_count, write_rows, write_sketch, write_skipped, write_words};

fn write_capture<T: Sink>(out: &mut T, report: &EpochReport) -> Result<(), Failed>
    ensures writes { Writes (T.holds out.old) (T.holds out.new) (capture_lines report.now) result }
    ensures cause { HasCause (T.faults out.old) (T.faults out.new) result }
{
    write_count(out, b"records", report.records)?;
    write_count(out, b"keyed", report.keyed)?;
    write_skipped(out, &report.skipped)?;
    write_count(out, b"cut", report.cut as u64)
}

#[tactic(auto, unfolding(crate::specs::EpochsText::whole_line))]
fn write_whole_line<T: Sink>(out: &mut T, packets: u64, total: u64) -> Result<(), Failed>
    ensures writes { Writes (T.holds out.old) (T.holds out.new) (whole_line packets total) result }
    ensures cause { HasCause (T.faults out.old) (T.faults out.new) result }
{
    let mut line = Line::new();
    line.text(b"whole");
    put_packets(&mut line, packets, total);
    line.send(out)
}

// What the table of all packets says.
fn write_whole<T: Sink>(out: &mut T, report: &EpochReport) -> Result<(), Failed>
    ensures writes { Writes (T.holds out.old) (T.holds out.new) (whole_lines report.now) result }
    ensures cause { HasCause (T.faults out.old) (T.faults out.new) result }
{
    write_whole_line(out, report.keyed, report.total)?;
    write_rows(out, report.used.as_slice())
}

/// Writes the report's text, each line as one piece. It takes no memory.
///
/// After an error the sink holds a proper front of the text.
pub fn write_epochs<T: Sink>(out: &mut T, report: &EpochReport) -> Result<(), Failed>
    ensures writes { Writes (T.holds out.old) (T.holds out.new) (report_text report.now) result }
    ensures cause { HasCause (T.faults out.old) (T.faults out.new) result }
{
    write_words(out, b"octosketch epochs 1")?;
    write_sketch(out, Sketch::CountSketch, &report.shape, report.amount)?;
    write_capture(out, report)?;
    write_each(out, report.epochs.as_slice())?;
    write_whole(out, report)?;
    write_words(out, b"end")
}
