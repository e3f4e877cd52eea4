ghost use Rattle.std.specs.Prelude.{◌≤◌, length, IfOk};
ghost use Rattle.hash_rows.specs.Limits.{most_records};
ghost use Rattle.epoch_run.specs.Epochs.{IsEpochs};
ghost use Rattle.epoch_report.specs.Reports.{IsEpochReport};

use epoch_run::{EpochRows, Epochs};
use flow_base::NoMemory;
use hash_rows::{Amount, Counts, Options, Packet, Shape, Tallies};
use reports::{total_of, used_of};
use std::alloc::Global;

/// What is told of a capture's epochs. The sketch is a Count Sketch.
#[derive(Drop)]
pub struct EpochReport {
    pub shape: Shape,
    pub amount: Amount,
    /// Whole records.
    pub records: u64,
    /// Records with a key: the packets of all epochs.
    pub keyed: u64,
    pub skipped: Tallies,
    /// The bytes behind the last whole record.
    pub cut: u32,
    pub epochs: EpochRows,
    /// The sum of all amounts.
    pub total: u64,
    /// The cells of each row of the table of all packets that aren't 0.
    pub used: Counts,
}

/// The report of a capture's epochs of `size` packets: its keyed packets, how many records it holds, how
/// many of them have no key and why, the bytes behind the last whole record, and what its epochs come to,
/// with these options and the least change.
pub fn report_of(
    alloc: Global,
    packets: &[Packet],
    records: u64,
    skipped: Tallies,
    cut: u32,
    size: u32,
    change: u64,
    options: &Options,
    epochs: Epochs,
) -> Result<EpochReport, NoMemory>
    requires few { length packets.now ≤ most_records }
    requires epochs { IsEpochs size change options.now packets.now epochs.epochs.items epochs.whole }
    ensures { IfOk result (IsEpochReport packets.now records skipped cut size change options.now) }
{
    Ok(EpochReport {
        shape: options.shape,
        amount: options.amount,
        records,
        keyed: packets.len() as u64,
        skipped,
        cut,
        total: total_of(packets),
        used: used_of(alloc, &epochs.whole)?,
        epochs: epochs.epochs,
    })
}
