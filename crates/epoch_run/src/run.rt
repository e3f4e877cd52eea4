ghost use Rattle.std.specs.Prelude.{◌≤◌, length, IfOk};
ghost use Rattle.hash_rows.specs.Limits.{most_records};
ghost use Rattle.epoch_run.specs.Epochs.{IsEpochs, IsEpochsRun};

use crate::counting::{clear, fill};
use crate::epoch::Epochs;
use crate::pieces::{packets_before, packets_of};
use crate::settling::settle;
use count_sketch::CountSketch;
use flow_base::NoMemory;
use hash_rows::{Options, Packet};
use listed::Listed;
use reports::sequential;
use shares::amounts_fit;
use std::alloc::Global;
use std::mem::swap;
use std::thread::Threads;

/// Counts the packets in epochs of `size` packets each, and says of each epoch which flows' estimates are at
/// least `change` apart from those of the epoch before.
pub fn epochs_rounds<R: Threads + Sync>(
    _rt: &R,
    alloc: Global,
    packets: &[Packet],
    size: u32,
    change: u64,
    options: &Options,
) -> Result<Epochs, NoMemory>
    requires run { IsEpochsRun size change options.now }
    requires few { length packets.now ≤ most_records }
    ensures { IfOk result (λ e. IsEpochs size change options.now packets.now e.epochs.items e.whole) }
{
    amounts_fit(packets);
    let count = packets.len().div_ceil(size as usize) as u32;
    let mut epochs = Listed::new(alloc, count)?;
    let mut old = sequential::<CountSketch>(alloc, &[], options.shape)?;
    let mut new = sequential::<CountSketch>(alloc, &[], options.shape)?;
    for number in 0..count {
        let used = fill(alloc, packets_of(packets, size, number), &mut new)?;
        let epoch = settle(
            alloc, packets, size, number, change, options, &old, &new, used,
        )?;
        epochs.push(epoch);
        clear(&mut old, packets_before(packets, size, number));
        swap(&mut old, &mut new);
    }
    let whole = sequential::<CountSketch>(alloc, packets, options.shape)?;
    Ok(Epochs { epochs, whole })
}
