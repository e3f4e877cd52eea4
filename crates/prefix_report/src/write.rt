ghost use Rattle.flow_base.specs.Causes.{HasCause};
ghost use Rattle.flow_base.specs.Writing.{Writes};
ghost use Rattle.prefix_report.specs.Reports.{HasEachLength};
ghost use Rattle.prefix_report.specs.PrefixText.{capture_lines, keyed_lines, report_text};

use crate::levels::write_levels;
use crate::report::PrefixReport;
use flow_base::{Failed, Sink};
use hash_rows::Sketch;
use octo_text::{write_count, write_sketch, write_skipped, write_words};

fn write_keyed<T: Sink>(out: &mut T, report: &PrefixReport) -> Result<(), Failed>
    ensures writes { Writes (T.holds out.old) (T.holds out.new) (keyed_lines report.now) result }
    ensures cause { HasCause (T.faults out.old) (T.faults out.new) result }
{
    write_count(out, b"records", report.records)?;
    write_count(out, b"keyed", report.keyed)?;
    write_count(out, b"other", report.other)
}

fn write_capture<T: Sink>(out: &mut T, report: &PrefixReport) -> Result<(), Failed>
    ensures writes { Writes (T.holds out.old) (T.holds out.new) (capture_lines report.now) result }
    ensures cause { HasCause (T.faults out.old) (T.faults out.new) result }
{
    write_keyed(out, report)?;
    write_skipped(out, &report.skipped)?;
    write_count(out, b"cut", report.cut as u64)?;
    write_count(out, b"total", report.total)
}

/// Writes the report's text, each line as one piece. It takes no memory.
///
/// After an error the sink holds a proper front of the text.
pub fn write_prefix<T: Sink>(out: &mut T, report: &PrefixReport) -> Result<(), Failed>
    requires { HasEachLength report.now }
    ensures writes { Writes (T.holds out.old) (T.holds out.new) (report_text report.now) result }
    ensures cause { HasCause (T.faults out.old) (T.faults out.new) result }
{
    write_words(out, b"octosketch prefix 1")?;
    write_sketch(out, Sketch::CountMin, &report.shape, report.amount)?;
    write_capture(out, report)?;
    write_levels(out, report)?;
    write_words(out, b"end")
}
