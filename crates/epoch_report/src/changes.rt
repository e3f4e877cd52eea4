ghost use Rattle.std.specs.Prelude.{◌≡◌, ◌≤◌};
ghost use Rattle.std.specs.List.{flat_map};
ghost use Rattle.flow_base.specs.Causes.{HasCause};
ghost use Rattle.flow_base.specs.Writing.{Writes};
ghost use Rattle.epoch_report.specs.EpochsText.{change_line, change_lines};

use epoch_run::{Change, Epoch};
use flow_base::{Failed, Sink};
use octo_text::{Line, write_count};

#[tactic(auto, unfolding(crate::specs::EpochsText::change_line))]
fn write_change<T: Sink>(out: &mut T, change: &Change) -> Result<(), Failed>
    ensures writes { Writes (T.holds out.old) (T.holds out.new) (change_line change.now) result }
    ensures cause { HasCause (T.faults out.old) (T.faults out.new) result }
{
    let mut line = Line::new();
    line.text(b"change ");
    line.key(&change.key);
    line.text(b" ");
    line.signed(change.before);
    line.text(b" ");
    line.signed(change.after);
    line.send(out)
}

fn write_each<T: Sink>(out: &mut T, changes: &[Change]) -> Result<(), Failed>
    ensures writes { Writes (T.holds out.old) (T.holds out.new) (flat_map change_line changes.now) result }
    ensures cause { HasCause (T.faults out.old) (T.faults out.new) result }
{
    for change in changes {
        write_change(out, change)?;
    }
    Ok(())
}

/// Writes how many flows changed since the epoch before, and those of them that are listed.
pub(crate) fn write_changes<T: Sink>(out: &mut T, epoch: &Epoch) -> Result<(), Failed>
    ensures writes { Writes (T.holds out.old) (T.holds out.new) (change_lines epoch.now) result }
    ensures cause { HasCause (T.faults out.old) (T.faults out.new) result }
{
    write_count(out, b"changed", epoch.changed)?;
    write_each(out, epoch.changes.as_slice())
}
