ghost use Rattle.std.specs.Prelude.{◌≡◌, ◌≤◌, ◌<◌, ◌+◌, ◌*◌, ◌++◌, length, min};
ghost use Rattle.hash_rows.specs.Limits.{most_records};
ghost use Rattle.epoch_run.specs.Epochs.{epoch_packets};
ghost use Rattle.epoch_run.specs.Places.{packets_before};

use hash_rows::Packet;

/// The packets of the epoch.
pub fn packets_of(packets: &[Packet], size: u32, number: u32) -> &[Packet]
    requires few { length packets.now ≤ most_records }
    requires size { size ≤ most_records }
    requires number { number * size < length packets.now }
    ensures { result.now ≡ epoch_packets size packets.now number }
{
    let start = number as usize * size as usize;
    &packets[start..end_after(packets, start, size)]
}

/// The packets of the epoch before, and those of the epoch.
pub fn packets_around(packets: &[Packet], size: u32, number: u32) -> &[Packet]
    requires few { length packets.now ≤ most_records }
    requires size { size ≤ most_records }
    requires number { number * size < length packets.now }
    requires later { 0 < number }
    ensures { result.now ≡ packets_before size packets.now number ++ epoch_packets size packets.now number }
{
    let start = number as usize * size as usize;
    &packets[start - size as usize..end_after(packets, start, size)]
}

/// The packets of the epoch before, and none before the first.
pub fn packets_before(packets: &[Packet], size: u32, number: u32) -> &[Packet]
    requires few { length packets.now ≤ most_records }
    requires size { size ≤ most_records }
    requires number { number * size < length packets.now }
    ensures { result.now ≡ packets_before size packets.now number }
{
    if number == 0 {
        return &packets[..0];
    }
    packets_of(packets, size, number - 1)
}

// Where the epoch that starts there ends.
fn end_after(packets: &[Packet], start: usize, size: u32) -> usize
    requires start { start < length packets.now }
    requires few { length packets.now ≤ most_records }
    ensures start { start ≤ result }
    ensures end { result ≤ length packets.now }
    ensures place { result ≡ min (length packets.now) (start + size) }
{
    packets.len().min(start + size as usize)
}
