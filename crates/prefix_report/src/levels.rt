ghost use Rattle.std.specs.Prelude.{◌≡◌, ◌+◌, ◌*◌, All};
ghost use Rattle.std.specs.List.{flat_map};
ghost use Rattle.flow_base.specs.Causes.{HasCause};
ghost use Rattle.flow_base.specs.Writing.{Writes};
ghost use Rattle.prefixes.specs.Networks.{IsNetwork};
ghost use Rattle.prefix_report.specs.Reports.{HasFewShown, HasEachLength};
ghost use Rattle.prefix_report.specs.PrefixText.{heavy_line, hit_lines, level_lines, levels_in};

use crate::answers::write_answers;
use crate::networks::{count_of, write_networks};
use crate::report::PrefixReport;
use flow_base::{Failed, Sink};
use hash_rows::Answers;
use octo_text::{Line, write_count};
use prefix_stack::Hit;

// The number of hits of a length, and whether there are others.
#[tactic(auto, unfolding(crate::specs::PrefixText::heavy_line))]
fn write_heavy<T: Sink>(out: &mut T, hits: u64, more: bool) -> Result<(), Failed>
    ensures writes { Writes (T.holds out.old) (T.holds out.new) (heavy_line hits more) result }
    ensures cause { HasCause (T.faults out.old) (T.faults out.new) result }
{
    let mut line = Line::new();
    line.named(b"heavy ", hits);
    line.named(b" more ", u64::from(more));
    line.send(out)
}

fn write_hits<T: Sink>(out: &mut T, bits: u32, hits: &[Hit], more: bool) -> Result<(), Failed>
    requires { All (λ hit. IsNetwork hit.prefix) hits.now }
    ensures writes { Writes (T.holds out.old) (T.holds out.new) (hit_lines bits hits.now more) result }
    ensures cause { HasCause (T.faults out.old) (T.faults out.new) result }
{
    write_heavy(out, count_of(bits, hits), more)?;
    write_networks(out, b"prefix", bits, hits)
}

// What is told of the networks of a length.
fn write_level<T: Sink>(
    out: &mut T,
    report: &PrefixReport,
    bits: u32,
    answers: &Answers,
    more: bool,
) -> Result<(), Failed>
    requires complete { HasEachLength report.now }
    requires answers { All HasFewShown answers.now.items }
    ensures writes { Writes (T.holds out.old) (T.holds out.new) (level_lines report.now (bits, (answers.now, more))) result }
    ensures cause { HasCause (T.faults out.old) (T.faults out.new) result }
{
    write_count(out, b"level", u64::from(bits))?;
    write_answers(out, answers.as_slice())?;
    write_networks(out, b"watch", bits, report.watch.as_slice())?;
    write_hits(out, bits, report.found.hits.as_slice(), more)
}

/// Writes what is told of each length, by length upwards.
pub(crate) fn write_levels<T: Sink>(out: &mut T, report: &PrefixReport) -> Result<(), Failed>
    requires { HasEachLength report.now }
    ensures writes { Writes (T.holds out.old) (T.holds out.new)
        (flat_map (level_lines report.now) (levels_in report.now)) result }
    ensures cause { HasCause (T.faults out.old) (T.faults out.new) result }
{
    for (place, answers) in report.answers.as_slice().iter().enumerate() {
        let bits = 8 * (place as u32 + 1);
        write_level(out, report, bits, answers, report.found.more[place])?;
    }
    Ok(())
}
