ghost use Rattle.std.specs.Prelude.{◌≡◌, ◌<◌, ◌≤◌, ◌+◌, ℕ, List, [], take, IfOk, IfErr, MatchResult};
ghost use Rattle.pcap_read.specs.Place.{Stands};
ghost use Rattle.pcap_read.specs.Records.{Framed};
ghost use Rattle.pcapng_read.specs.View.{Stands as NgStands};
ghost use Rattle.capture_load.specs.Capture.{ng_magic};
ghost use Rattle.capture_load.specs.Loads.{EndsAs, IsCounted, StandsIn, bytes_taken};

use crate::LoadStop;
use flow_base::NoMemory;
use pcap_read::{Bad, Reader};
use pcapng_read::NgReader;
use std::alloc::Global;

/// The greatest number of records, of packet blocks, and of other blocks.
const LIMIT: u32 = 16777216;

/// The bytes with which a pcapng capture begins.
pub const MAGIC: [u8; 4] = [0x0a, 0x0d, 0x0d, 0x0a];

/// The format of a capture, which its first four bytes tell, and its reader.
#[derive(Drop)]
pub enum Format {
    /// Fewer than four bytes came: so many of those with which a pcapng capture begins.
    Open(usize),
    Pcap(Reader),
    Ng(NgReader),
}

/// A reader of libpcap captures that has taken the first so many bytes of a pcapng capture.
pub fn pcap_reader(alloc: Global, matched: usize) -> Result<Reader, NoMemory>
    requires { matched < 4 }
    ensures stands { IfOk result (λ reader. Stands reader (take matched ng_magic) []) }
    ensures counted { IfOk result (λ reader. IsCounted (Format.Pcap reader) 0) }
    ensures bytes { IfOk result (λ reader. reader.bytes ≡ matched) }
{
    let mut reader = Reader::new(alloc, LIMIT)?;
    if matched == 0 {
        return Ok(reader);
    }
    match reader.take(&MAGIC[..matched]) {
        Ok(_) => Ok(reader),
        Err(_) => unreachable!(),
    }
}

/// A reader of pcapng captures that has taken the first four bytes of one.
pub fn ng_reader(alloc: Global) -> Result<NgReader, NoMemory>
    ensures stands { IfOk result (λ reader. NgStands reader ng_magic []) }
    ensures counted { IfOk result (λ reader. IsCounted (Format.Ng reader) 0) }
    ensures bytes { IfOk result (λ reader. bytes_taken (Format.Ng reader) ≡ 4) }
{
    let mut reader = NgReader::new(alloc, LIMIT)?;
    match reader.take(&MAGIC) {
        Ok(_) => Ok(reader),
        Err(_) => unreachable!(),
    }
}

impl Format {
    /// At the end of input, how many bytes stand behind the last whole record or block.
    pub fn end(&self) -> Result<u32, LoadStop>
        requires { (number : ℕ) × IsCounted self.now number }
        ensures { (bytes : List ℕ) (frames : List Framed) → StandsIn self.now bytes frames → EndsAs bytes frames result }
    {
        match self {
            Format::Open(matched) => Err(LoadStop::Bad(Bad::ShortHeader {
                len: *matched as u32,
            })),
            Format::Pcap(reader) => match reader.end() {
                Ok(cut) => Ok(cut),
                Err(bad) => Err(LoadStop::Bad(bad)),
            },
            Format::Ng(reader) => match reader.end() {
                Ok(cut) => Ok(cut),
                Err(bad) => Err(LoadStop::Ng(bad)),
            },
        }
    }
}
