ghost use Rattle.std.specs.Prelude.{◌≡◌, ◌+◌, ◌≤◌, ◌++◌, length};
ghost use Rattle.std.specs.List.{enumerate_from, flat_map};
ghost use Rattle.flow_base.specs.Causes.{HasCause};
ghost use Rattle.flow_base.specs.Writing.{Writes};
ghost use Rattle.epoch_report.specs.EpochsText.{epoch_line, epoch_lines, flow_lines, packets_words, since_before};

use crate::changes::write_changes;
use epoch_run::Epoch;
use flow_base::{Failed, Sink};
use octo_text::{Line, write_count, write_estimates, write_rows};

/// Adds a number of packets, and the sum of their amounts.
#[tactic(auto, unfolding(crate::specs::EpochsText::packets_words))]
pub(crate) fn put_packets(line: &mut Line, packets: u64, total: u64)
    requires { length line.old + 100 ≤ 1024 }
    ensures text { line.new ≡ line.old ++ packets_words packets total }
    ensures room { length line.new ≤ length line.old + 100 }
{
    line.named(b" packets ", packets);
    line.named(b" total ", total);
}

#[tactic(auto, unfolding(crate::specs::EpochsText::epoch_line))]
fn write_head<T: Sink>(out: &mut T, number: usize, epoch: &Epoch) -> Result<(), Failed>
    ensures writes { Writes (T.holds out.old) (T.holds out.new) (epoch_line number epoch.now) result }
    ensures cause { HasCause (T.faults out.old) (T.faults out.new) result }
{
    let mut line = Line::new();
    line.named(b"epoch ", number as u64);
    put_packets(&mut line, u64::from(epoch.packets), epoch.total);
    line.send(out)
}

fn write_flows<T: Sink>(out: &mut T, epoch: &Epoch) -> Result<(), Failed>
    ensures writes { Writes (T.holds out.old) (T.holds out.new) (flow_lines epoch.now) result }
    ensures cause { HasCause (T.faults out.old) (T.faults out.new) result }
{
    write_count(out, b"heavy", epoch.heavy)?;
    write_estimates(out, b"flow", epoch.flows.as_slice())
}

// What changed since the epoch before, where there is one.
#[tactic(auto, unfolding(crate::specs::EpochsText::since_before))]
fn write_since<T: Sink>(out: &mut T, number: usize, epoch: &Epoch) -> Result<(), Failed>
    ensures writes { Writes (T.holds out.old) (T.holds out.new) (since_before number epoch.now) result }
    ensures cause { HasCause (T.faults out.old) (T.faults out.new) result }
{
    if number == 0 {
        Ok(())
    } else {
        write_changes(out, epoch)
    }
}

fn write_epoch<T: Sink>(out: &mut T, number: usize, epoch: &Epoch) -> Result<(), Failed>
    ensures writes { Writes (T.holds out.old) (T.holds out.new) (epoch_lines (number, epoch.now)) result }
    ensures cause { HasCause (T.faults out.old) (T.faults out.new) result }
{
    write_head(out, number, epoch)?;
    write_rows(out, epoch.used.as_slice())?;
    write_flows(out, epoch)?;
    write_since(out, number, epoch)
}

/// Writes what is told of each epoch.
pub(crate) fn write_each<T: Sink>(out: &mut T, epochs: &[Epoch]) -> Result<(), Failed>
    ensures writes { Writes (T.holds out.old) (T.holds out.new)
        (flat_map epoch_lines (enumerate_from 0 epochs.now)) result }
    ensures cause { HasCause (T.faults out.old) (T.faults out.new) result }
{
    for (number, epoch) in epochs.iter().enumerate() {
        write_epoch(out, number, epoch)?;
    }
    Ok(())
}
