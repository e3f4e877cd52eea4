/// Why a pcapng capture is refused. An offset is that of a block's first byte in the capture, the
/// length of `BadBlock` the total length at the block's front. Lengths and offsets are in bytes.
#[derive(Clone, Copy, Debug, PartialEq, Eq)]
pub enum NgBad {
    ShortSection { len: u32 },
    BadOrder { magic: u32 },
    BadVersion { major: u16, minor: u16 },
    BadBlock { offset: u64, length: u32 },
    NotEthernet { link: u16 },
    NoInterface { offset: u64, number: u32 },
    TooLong { offset: u64, length: u32 },
    TooMany,
}
