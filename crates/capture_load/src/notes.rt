ghost use Rattle.std.specs.Prelude.{◌≡◌, ◌<◌, ◌≤◌, ◌+◌, ◌++◌, [], length, OnOk};
ghost use Rattle.std.specs.Prelude.{◌∷◌, Err};
ghost use Rattle.packet_key.specs.Frame.{key_of};
ghost use Rattle.hash_rows.specs.Limits.{most_records};
ghost use Rattle.capture_load.specs.Notes.{number_of, tallied};
ghost use Rattle.capture_load.specs.Packets.{amount_of, packets_of};

use flow_base::NoMemory;
use hash_rows::{Amount, Packet, Packets, Tallies};
use packet_key::{Skip, read_frame};

/// What is kept of the frames: the packets of those that have a key, and why the others have none.
#[derive(Drop)]
pub struct Notes {
    pub packets: Packets,
    pub skipped: Tallies,
    pub amount: Amount,
}

impl Notes {
    /// Keeps the packet of a frame, or counts why it has none.
    #[inline(always)]
    pub fn note(&mut self, original: u32, bytes: &[u8]) -> Result<(), NoMemory>
        requires { number_of self.old < most_records }
        ensures packets { OnOk result (self.new.packets.items ≡ self.old.packets.items
            ++ packets_of self.old.amount (record { original = original; bytes = bytes.now } ∷ [])) }
        ensures skipped { OnOk result (self.new.skipped ≡ tallied self.old.skipped (key_of bytes.now)) }
        ensures one { OnOk result (number_of self.new ≡ number_of self.old + 1) }
        ensures amount { self.new.amount ≡ self.old.amount }
    {
        match read_frame(bytes) {
            Ok(key) => {
                let amount = amount_in(self.amount, original);
                add(&mut self.packets, Packet { key, amount })
            }
            Err(why) => {
                tally(&mut self.skipped, why);
                Ok(())
            }
        }
    }

    /// How many frames there were: each has a packet or is skipped.
    pub fn number(&self) -> u64
        requires { number_of self.now ≤ most_records }
        ensures { result ≡ number_of self.now }
    {
        let skipped = &self.skipped;
        skipped.short
            + skipped.not_ip
            + skipped.bad_ip
            + skipped.tags
            + u64::from(self.packets.len())
    }
}

fn amount_in(amount: Amount, original: u32) -> u32
    ensures { result ≡ amount_of amount original }
{
    match amount {
        Amount::Packets => 1,
        Amount::Bytes => original,
    }
}

// Adds the packet, with room for more where there is none.
fn add(packets: &mut Packets, packet: Packet) -> Result<(), NoMemory>
    requires { length packets.old.items < most_records }
    ensures { OnOk result (packets.new.items ≡ packets.old.items ++ packet ∷ []) }
{
    make_room(packets)?;
    packets.push(packet);
    Ok(())
}

fn make_room(packets: &mut Packets) -> Result<(), NoMemory>
    requires { length packets.old.items < most_records }
    ensures items { packets.new.items ≡ packets.old.items }
    ensures room { OnOk result (length packets.new.items < packets.new.room) }
{
    let len = packets.len();
    if len < packets.room() {
        return Ok(());
    }
    packets.grow(2 * len + 4096)
}

fn tally(skipped: &mut Tallies, why: Skip)
    requires { skipped.old.short + skipped.old.not_ip + skipped.old.bad_ip + skipped.old.tags < most_records }
    ensures { skipped.new ≡ tallied skipped.old (Err why) }
{
    match why {
        Skip::ShortFrame => skipped.short += 1,
        Skip::NotIp { .. } => skipped.not_ip += 1,
        Skip::BadIp => skipped.bad_ip += 1,
        Skip::ManyTags => skipped.tags += 1,
    }
}
