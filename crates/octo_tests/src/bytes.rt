// Bytes that captures are made of: headers, heads of records and frames.

/// Little-endian and microseconds.
pub const LITTLE_HEADER: &[u8] =
    b"\xd4\xc3\xb2\xa1\x02\0\x04\0\0\0\0\0\0\0\0\0\xff\xff\0\0\x01\0\0\0";

/// Big-endian and nanoseconds.
pub const BIG_HEADER: &[u8] = b"\xa1\xb2\x3c\x4d\0\x02\0\x04\0\0\0\0\0\0\0\0\0\0\xff\xff\0\0\0\x01";

/// TCP from 10.0.0.1:1234 to 10.0.0.2:443, 54 bytes.
pub const TCP_FRAME: &[u8] =
    b"\x02\0\0\0\0\x02\x02\0\0\0\0\x01\x08\0\x45\0\0\x28\0\0\0\0\x40\x06\0\0\x0a\0\0\x01\x0a\0\0\x02\x04\xd2\x01\xbb\0\0\0\0\0\0\0\0\0\0\0\0\0\0\0\0";

/// Tagged UDP behind a header of six words, 50 bytes.
pub const TAGGED_FRAME: &[u8] =
    b"\x02\0\0\0\0\x02\x02\0\0\0\0\x01\x81\0\0\x64\x08\0\x46\0\0\x20\0\0\0\0\x40\x11\0\0\x0a\0\0\x01\x0a\0\0\x02\x01\x01\x01\x01\0\x35\x04\xd2\0\x08\0\0";

/// ARP, 42 bytes.
pub const ARP_FRAME: &[u8] =
    b"\x02\0\0\0\0\x02\x02\0\0\0\0\x01\x08\x06\0\0\0\0\0\0\0\0\0\0\0\0\0\0\0\0\0\0\0\0\0\0\0\0\0\0\0\0";

/// A later fragment of UDP, 42 bytes.
pub const FRAGMENT: &[u8] =
    b"\x02\0\0\0\0\x02\x02\0\0\0\0\x01\x08\0\x45\0\0\x1c\0\0\0\xb9\x40\x11\0\0\x0a\0\0\x01\x0a\0\0\x02\0\x35\x04\xd2\0\x08\0\0";

/// ICMP, 42 bytes.
pub const ICMP_FRAME: &[u8] =
    b"\x02\0\0\0\0\x02\x02\0\0\0\0\x01\x08\0\x45\0\0\x1c\0\0\0\0\x40\x01\0\0\x0a\0\0\x01\x0a\0\0\x02\x08\0\0\0\0\0\0\0";

/// UDP over IPv6, 62 bytes.
pub const IPV6_FRAME: &[u8] =
    b"\x02\0\0\0\0\x02\x02\0\0\0\0\x01\x86\xdd\x60\0\0\0\0\x08\x11\x40\x20\x01\x0d\xb8\0\0\0\0\0\0\0\0\0\0\0\x01\x20\x01\x0d\xb8\0\0\0\0\0\0\0\0\0\0\0\x02\0\x35\x04\xd2\0\x08\0\0";

/// Heads of records whose captured and original length are those of the frames.
pub const HEAD_OF_54: &[u8] = b"\0\0\0\0\0\0\0\0\x36\0\0\0\x36\0\0\0";

pub const HEAD_OF_50: &[u8] = b"\0\0\0\0\0\0\0\0\x32\0\0\0\x32\0\0\0";

pub const HEAD_OF_42: &[u8] = b"\0\0\0\0\0\0\0\0\x2a\0\0\0\x2a\0\0\0";

pub const HEAD_OF_62: &[u8] = b"\0\0\0\0\0\0\0\0\x3e\0\0\0\x3e\0\0\0";

/// The first one in big-endian order.
pub const BIG_HEAD_OF_54: &[u8] = b"\0\0\0\0\0\0\0\0\0\0\0\x36\0\0\0\x36";

/// Heads of the first frame whose original length is 0, and the greatest.
pub const HEAD_OF_NONE: &[u8] = b"\0\0\0\0\0\0\0\0\x36\0\0\0\0\0\0\0";

pub const HEAD_OF_MOST: &[u8] = b"\0\0\0\0\0\0\0\0\x36\0\0\0\xff\xff\xff\xff";

/// The blocks of a pcapng capture: a little-endian section, and an Ethernet interface.
pub const SECTION: &[u8] =
    b"\x0a\x0d\x0d\x0a\x1c\0\0\0\x4d\x3c\x2b\x1a\x01\0\0\0\xff\xff\xff\xff\xff\xff\xff\xff\x1c\0\0\0";

pub const INTERFACE: &[u8] = b"\x01\0\0\0\x14\0\0\0\x01\0\0\0\0\0\0\0\x14\0\0\0";

/// What stands before and behind the first frame in an enhanced and in a simple packet block.
pub const ENHANCED_HEAD: &[u8] =
    b"\x06\0\0\0\x58\0\0\0\0\0\0\0\0\0\0\0\0\0\0\0\x36\0\0\0\x36\0\0\0";

pub const ENHANCED_TAIL: &[u8] = b"\0\0\x58\0\0\0";

pub const SIMPLE_HEAD: &[u8] = b"\x03\0\0\0\x48\0\0\0\x36\0\0\0";

pub const SIMPLE_TAIL: &[u8] = b"\0\0\x48\0\0\0";
