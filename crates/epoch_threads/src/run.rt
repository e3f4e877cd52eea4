ghost use Rattle.std.specs.Prelude.{◌≡◌, ◌≤◌, length, IfOk};
ghost use Rattle.hash_rows.specs.Lawful.{IsLawful};
ghost use Rattle.hash_rows.specs.Limits.{most_records};
ghost use Rattle.hash_rows.specs.declared.options.Mode.TheVariants.{Threads as InThreads};
ghost use Rattle.hash_rows.specs.declared.options.Sketch.TheVariants.{CountSketch as CountSketchSketch};
ghost use Rattle.epoch_run.specs.Epochs.{IsEpochs, IsEpochsRun, sketch_table};

use count_sketch::CountSketch;
use epoch_run::{Epochs, packets_of, settle};
use flow_base::NoMemory;
use hash_rows::{Options, Packet, Table};
use listed::Listed;
use reports::{sequential, used_of};
use shares::amounts_fit;
use std::alloc::Global;
use std::sync::Wait;
use std::thread::Threads;
use thread_engine::{Gate, Ran, run_threads};

/// Counts the packets in epochs of `size` packets each, every epoch in threads, and says of each which
/// flows' estimates are at least `change` apart from those of the epoch before. The places that the gate gets
/// count within an epoch's share.
pub fn epochs_threads<R: Threads + Wait + Sync, G: Gate>(
    rt: &R,
    alloc: Global,
    packets: &[Packet],
    size: u32,
    change: u64,
    options: &Options,
    gate: &G,
) -> Result<Epochs, NoMemory>
    requires run { IsEpochsRun size change options.now }
    requires mode { options.now.mode ≡ InThreads }
    requires few { length packets.now ≤ most_records }
    ensures { IfOk result (λ e. IsEpochs size change options.now packets.now e.epochs.items e.whole) }
{
    amounts_fit(packets);
    let count = packets.len().div_ceil(size as usize) as u32;
    let mut epochs = Listed::new(alloc, count)?;
    let mut old = sequential::<CountSketch>(alloc, &[], options.shape)?;
    for number in 0..count {
        let new = table_of(rt, alloc, packets_of(packets, size, number), options, gate)?;
        let used = used_of(alloc, &new)?;
        let epoch = settle(
            alloc, packets, size, number, change, options, &old, &new, used,
        )?;
        epochs.push(epoch);
        old = new;
    }
    let whole = sequential::<CountSketch>(alloc, packets, options.shape)?;
    Ok(Epochs { epochs, whole })
}

// The table of the packets, which are counted in threads.
fn table_of<R: Threads + Wait + Sync, G: Gate>(
    rt: &R,
    alloc: Global,
    packets: &[Packet],
    options: &Options,
    gate: &G,
) -> Result<Table<CountSketch>, NoMemory>
    requires lawful { IsLawful options.now }
    requires sketch { options.now.sketch ≡ CountSketchSketch }
    requires mode { options.now.mode ≡ InThreads }
    requires few { length packets.now ≤ most_records }
    ensures { IfOk result (λ table. table ≡ sketch_table options.now.shape packets.now) }
{
    let Ran {
        settled,
        lanes: _,
        passes: _,
        writer,
    } = run_threads::<CountSketch, R, G>(rt, alloc, packets, options, gate)?;
    writer.close(rt);
    Ok(settled.table)
}
