ghost use Rattle.std.specs.Prelude.{◌≡◌, ◌≤◌, ◌<◌, ◌*◌, ◌^◌, All, map, length, IfOk};
ghost use Rattle.hash_rows.specs.Limits.{most_records};
ghost use Rattle.hash_rows.specs.Shapes.{IsShape};
ghost use Rattle.hash_rows.specs.Sketches.{rows_of};
ghost use Rattle.hash_rows.specs.Tables.{used_in};
ghost use Rattle.epoch_run.specs.Epochs.{HasChanges, IsEpoch, IsSettled, epoch_packets, sketch_table};
ghost use Rattle.epoch_run.specs.Places.{packets_before};

use crate::change::GreatestChanges;
use crate::changed::greatest_changes;
use crate::epoch::Epoch;
use crate::pieces::{packets_around, packets_of};
use count_sketch::CountSketch;
use flow_base::NoMemory;
use hash_rows::{Counts, Options, Packet, Table};
use heavy_keys::{HeaviestFlows, heaviest};
use listed::Listed;
use reports::total_of;
use std::alloc::Global;

/// What the epoch comes to, from the table of the epoch before, its own, and how many cells are used in each
/// of its rows.
pub fn settle(
    alloc: Global,
    packets: &[Packet],
    size: u32,
    number: u32,
    change: u64,
    options: &Options,
    old: &Table<CountSketch>,
    new: &Table<CountSketch>,
    used: Counts,
) -> Result<Epoch, NoMemory>
    requires shape { IsShape options.now.shape }
    requires few { length packets.now ≤ most_records }
    requires amounts { All (λ p. p.amount < 2 ^ 32) packets.now }
    requires size { size ≤ most_records }
    requires number { number * size < length packets.now }
    requires old { old.now ≡ sketch_table options.now.shape (packets_before size packets.now number) }
    requires new { new.now ≡ sketch_table options.now.shape (epoch_packets size packets.now number) }
    requires used { used.items ≡ map (used_in new.now) (rows_of options.now.shape) }
    ensures { IfOk result (IsEpoch size change options.now packets.now number) }
{
    let greatest = changes_at(alloc, packets, size, number, change, options, old, new)?;
    let here = packets_of(packets, size, number);
    epoch_of(alloc, here, options, new, used, greatest)
}

// What changed since the epoch before.
fn changes_at(
    alloc: Global,
    packets: &[Packet],
    size: u32,
    number: u32,
    change: u64,
    options: &Options,
    old: &Table<CountSketch>,
    new: &Table<CountSketch>,
) -> Result<GreatestChanges, NoMemory>
    requires shape { IsShape options.now.shape }
    requires few { length packets.now ≤ most_records }
    requires amounts { All (λ p. p.amount < 2 ^ 32) packets.now }
    requires size { size ≤ most_records }
    requires number { number * size < length packets.now }
    requires old { old.now ≡ sketch_table options.now.shape (packets_before size packets.now number) }
    requires new { new.now ≡ sketch_table options.now.shape (epoch_packets size packets.now number) }
    ensures { IfOk result (λ g. HasChanges size change options.now packets.now number g.count g.changes.items) }
{
    if number == 0 {
        return Ok(GreatestChanges {
            count: 0,
            changes: Listed::new(alloc, 0)?,
        });
    }
    let around = packets_around(packets, size, number);
    greatest_changes(alloc, around, old, new, change, options.heavy)
}

// What the table says of these packets, whose changes are known.
fn epoch_of(
    alloc: Global,
    here: &[Packet],
    options: &Options,
    table: &Table<CountSketch>,
    used: Counts,
    greatest: GreatestChanges,
) -> Result<Epoch, NoMemory>
    requires few { length here.now ≤ most_records }
    requires table { table.now ≡ sketch_table options.now.shape here.now }
    requires used { used.items ≡ map (used_in table.now) (rows_of options.now.shape) }
    ensures settled { IfOk result (IsSettled options.now here.now) }
    ensures changed { IfOk result (λ epoch. epoch.changed ≡ greatest.count) }
    ensures changes { IfOk result (λ epoch. epoch.changes.items ≡ greatest.changes.items) }
{
    let HeaviestFlows { count, flows } = heaviest(
        alloc,
        here,
        table,
        options.least,
        options.heavy,
    )?;
    Ok(Epoch {
        packets: here.len() as u32,
        total: total_of(here),
        used,
        heavy: count,
        flows,
        changed: greatest.count,
        changes: greatest.changes,
    })
}
