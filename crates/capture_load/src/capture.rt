use hash_rows::{Packets, Tallies};
use pcap_read::Bad;
use pcapng_read::NgBad;

/// What is known of a capture that was read to its end.
#[derive(Drop)]
pub struct Capture {
    /// The records or packet blocks whose frame has a key, in order.
    pub packets: Packets,
    /// How many records or packet blocks are whole.
    pub records: u64,
    pub skipped: Tallies,
    /// The bytes behind the last whole record or block.
    pub cut: u32,
}

/// Why a capture is refused, by its format.
#[derive(Clone, Copy, Debug, PartialEq, Eq)]
pub enum Refusal {
    Pcap(Bad),
    Ng(NgBad),
}

/// Why a capture was not loaded.
#[derive(Clone, Copy, Debug, PartialEq, Eq)]
pub enum LoadStop {
    ReadFault,
    Bad(Bad),
    Ng(NgBad),
    NoMemory,
}
