use flow_base::NoMemory;
use pcapng_read::{
    NgBad, NgReader, capture_fine, one_outcome, one_reading, one_refusal, refusal_stays, standing,
};
use std::alloc::{AllocError, Global};
use std::test::Fail;

// A section's header, an interface, and a TCP packet in an enhanced and in a simple block.
const SB: &[u8] =
    b"\x0a\x0d\x0d\x0a\x1c\0\0\0\x4d\x3c\x2b\x1a\x01\0\0\0\xff\xff\xff\xff\xff\xff\xff\xff\x1c\0\0\0";

const IB: &[u8] = b"\x01\0\0\0\x14\0\0\0\x01\0\0\0\0\0\0\0\x14\0\0\0";

const F1: &[u8] =
    b"\x02\0\0\0\0\x02\x02\0\0\0\0\x01\x08\0\x45\0\0\x28\0\0\0\0\x40\x06\0\0\x0a\0\0\x01\x0a\0\0\x02\x04\xd2\x01\xbb\0\0\0\0\0\0\0\0\0\0\0\0\0\0\0\0";

const EB_HEAD: &[u8] = b"\x06\0\0\0\x58\0\0\0\0\0\0\0\0\0\0\0\0\0\0\0\x36\0\0\0\x36\0\0\0";

const EB_TAIL: &[u8] = b"\0\0\x58\0\0\0";

const PB_HEAD: &[u8] = b"\x03\0\0\0\x48\0\0\0\x36\0\0\0";

const PB_TAIL: &[u8] = b"\0\0\x48\0\0\0";

// The same section, interface and packet with the most significant byte first.
const SB_BIG: &[u8] =
    b"\x0a\x0d\x0d\x0a\0\0\0\x1c\x1a\x2b\x3c\x4d\0\x01\0\x02\xff\xff\xff\xff\xff\xff\xff\xff\0\0\0\x1c";

const IB_BIG: &[u8] = b"\0\0\0\x01\0\0\0\x14\0\x01\0\0\0\0\0\x28\0\0\0\x14";

const PB_BIG: &[u8] = b"\0\0\0\x03\0\0\0\x38\0\0\0\x36";

const PB_BIG_TAIL: &[u8] = b"\0\0\0\x38";

fn joined(alloc: Global, parts: &[&[u8]]) -> Result<Vec<u8>, AllocError> {
    let mut all = Vec::new(alloc);
    for part in parts {
        all.extend_from_slice(part)?;
    }
    Ok(all)
}

// How many packets a capture has that comes in such pieces, their bytes, and how it ends.
fn read_all(
    alloc: Global,
    limit: u32,
    input: &[u8],
    piece: usize,
) -> Result<(u32, u64, Result<u32, NgBad>), NoMemory> {
    let mut reader = NgReader::new(alloc, limit)?;
    let mut packets = 0u32;
    let mut bytes = 0u64;
    for chunk in input.chunks(piece.max(1)) {
        let mut at = 0;
        while at < chunk.len() {
            match reader.take(&chunk[at..]) {
                Err(bad) => return Ok((packets, bytes, Err(bad))),
                Ok(taken) => {
                    at += taken.used;
                    if taken.packet {
                        packets = packets.saturating_add(1);
                        bytes = bytes.saturating_add(reader.lent().bytes.len() as u64);
                    }
                }
            }
        }
    }
    Ok((packets, bytes, reader.end()))
}

#[test]
fn packets_of_both_blocks(rt: HostRuntime) -> Result<(), Fail> {
    let input = joined(
        rt.alloc(),
        &[
            SB, IB, EB_HEAD, F1, EB_TAIL, PB_HEAD, F1, PB_TAIL, EB_HEAD, F1, EB_TAIL,
        ],
    )?;
    for piece in [1, 2, 3, 5, 7, 29, 1000] {
        assert!(rt; read_all(rt.alloc(), 3, &input, piece)? == (3, 162, Ok(0)));
    }
    let big = joined(
        rt.alloc(),
        &[SB_BIG, IB_BIG, PB_BIG, &F1[..40], PB_BIG_TAIL],
    )?;
    for piece in [1, 3, 1000] {
        assert!(rt; read_all(rt.alloc(), 2, &big, piece)? == (1, 40, Ok(0)));
    }
    let both = joined(
        rt.alloc(),
        &[
            SB,
            IB,
            EB_HEAD,
            F1,
            EB_TAIL,
            SB_BIG,
            IB_BIG,
            PB_BIG,
            &F1[..40],
            PB_BIG_TAIL,
        ],
    )?;
    assert!(rt; read_all(rt.alloc(), 5, &both, 11)? == (2, 94, Ok(0)));
    let cut = joined(rt.alloc(), &[SB, IB, EB_HEAD, &F1[..12]])?;
    assert!(rt; read_all(rt.alloc(), 3, &cut, 9)? == (0, 0, Ok(40)));
    Ok(())
}

#[test]
fn refusals_stand_at_every_cut(rt: HostRuntime) -> Result<(), Fail> {
    let rows: [(&[u8], &[u8], &[u8], u32, NgBad); 19] = [
        (b"", b"", b"", 2, NgBad::ShortSection { len: 0 }),
        (&SB[..27], b"", b"", 2, NgBad::ShortSection { len: 27 }),
        (
            b"\xd4\xc3\xb2\xa1",
            b"",
            b"",
            2,
            NgBad::BadOrder { magic: 0xd4c3b2a1 },
        ),
        (&SB[..8], b"", b"", 0, NgBad::TooMany),
        (SB, &IB[..8], b"", 1, NgBad::TooMany),
        (
            &SB[..8],
            b"\x4d\x3c\x2b\x1b",
            b"",
            2,
            NgBad::BadOrder { magic: 0x4d3c2b1b },
        ),
        (
            &SB[..4],
            b"\x18\0\0\0",
            &SB[8..12],
            2,
            NgBad::BadBlock {
                offset: 0,
                length: 24,
            },
        ),
        (
            &SB[..4],
            b"\x1e\0\0\0",
            &SB[8..12],
            2,
            NgBad::BadBlock {
                offset: 0,
                length: 30,
            },
        ),
        (
            &SB[..12],
            b"\x02\0\x07\0",
            b"",
            2,
            NgBad::BadVersion { major: 2, minor: 7 },
        ),
        (
            SB,
            b"\x05\0\0\0\x08\0\0\0",
            b"",
            2,
            NgBad::BadBlock {
                offset: 28,
                length: 8,
            },
        ),
        (
            SB,
            b"\x01\0\0\0\x10\0\0\0",
            b"",
            2,
            NgBad::BadBlock {
                offset: 28,
                length: 16,
            },
        ),
        (
            SB,
            b"\x01\0\0\0\x14\0\0\0\x71\0\0\0",
            b"\0\0\0\0",
            2,
            NgBad::NotEthernet { link: 113 },
        ),
        (
            SB,
            EB_HEAD,
            b"",
            2,
            NgBad::NoInterface {
                offset: 28,
                number: 0,
            },
        ),
        (
            SB,
            PB_HEAD,
            b"",
            2,
            NgBad::NoInterface {
                offset: 28,
                number: 0,
            },
        ),
        (
            SB,
            IB,
            b"\x06\0\0\0\x58\0\0\0\0\0\0\0\0\0\0\0\0\0\0\0\x01\0\x04\0\x36\0\0\0",
            2,
            NgBad::TooLong {
                offset: 48,
                length: 262145,
            },
        ),
        (
            SB,
            IB,
            b"\x06\0\0\0\x58\0\0\0\0\0\0\0\0\0\0\0\0\0\0\0\x39\0\0\0\x36\0\0\0",
            2,
            NgBad::BadBlock {
                offset: 48,
                length: 88,
            },
        ),
        (
            SB,
            IB,
            b"\x03\0\0\0\x48\0\0\0\x39\0\0\0",
            2,
            NgBad::BadBlock {
                offset: 48,
                length: 72,
            },
        ),
        (
            &SB[..24],
            b"\x1c\0\0\x01",
            b"",
            2,
            NgBad::BadBlock {
                offset: 0,
                length: 28,
            },
        ),
        (
            SB,
            &IB[..16],
            b"\x14\x01\0\0",
            2,
            NgBad::BadBlock {
                offset: 28,
                length: 20,
            },
        ),
    ];
    for (first, second, third, limit, bad) in rows {
        let input = joined(rt.alloc(), &[first, second, third])?;
        for piece in 1..60 {
            assert!(rt; read_all(rt.alloc(), limit, &input, piece)?.2 == Err(bad));
        }
    }
    Ok(())
}

// Simple packets of no bytes, and blocks that are passed over: three, and the head of a fourth.
const PACKETS: &[u8] =
    b"\x03\0\0\0\x10\0\0\0\0\0\0\0\x10\0\0\0\x03\0\0\0\x10\0\0\0\0\0\0\0\x10\0\0\0\x03\0\0\0\x10\0\0\0\0\0\0\0\x10\0\0\0\x03\0\0\0\x10\0\0\0";

const OTHERS: &[u8] =
    b"\x05\0\0\0\x0c\0\0\0\x0c\0\0\0\x05\0\0\0\x0c\0\0\0\x0c\0\0\0\x05\0\0\0\x0c\0\0\0\x0c\0\0\0\x05\0\0\0\x0c\0\0\0";

#[test]
fn the_fourth_block_of_a_sort_is_one_too_many(rt: HostRuntime) -> Result<(), Fail> {
    // With a limit of 3: a section and an interface are two others.
    let rows: [(&[u8], &[u8], u32, Result<u32, NgBad>); 6] = [
        (IB, &PACKETS[..48], 3, Ok(0)),
        (IB, &PACKETS[..55], 3, Ok(7)),
        (IB, PACKETS, 3, Err(NgBad::TooMany)),
        (b"", &OTHERS[..24], 0, Ok(0)),
        (b"", &OTHERS[..31], 0, Ok(7)),
        (b"", &OTHERS[..32], 0, Err(NgBad::TooMany)),
    ];
    for (second, third, packets, end) in rows {
        let input = joined(rt.alloc(), &[SB, second, third])?;
        for piece in [1, 7, 1000] {
            assert!(rt; read_all(rt.alloc(), 3, &input, piece)? == (packets, 0, end));
        }
    }
    Ok(())
}

#[test]
fn a_packet_is_not_lent_before_its_end(rt: HostRuntime) -> Result<(), Fail> {
    let input = joined(rt.alloc(), &[SB, IB, EB_HEAD, F1, b"\0\0\x58\0\0\x01"])?;
    let bad = NgBad::BadBlock {
        offset: 48,
        length: 88,
    };
    for piece in [1, 4, 50, 1000] {
        assert!(rt; read_all(rt.alloc(), 3, &input, piece)? == (0, 0, Err(bad)));
    }
    assert!(rt; input.len() == 136);
    let mut reader = NgReader::new(rt.alloc(), 3)?;
    assert!(rt; reader.take_at_front(&input[48..]).is_none());
    assert!(rt; reader.take(&input) == Err(bad));
    assert!(rt; reader.take(SB) == Err(bad));
    assert!(rt; reader.end() == Err(bad));
    Ok(())
}

static ZEROS: [u8; 262144] = [0; 262144];

#[test]
fn a_long_block_is_passed_over(rt: HostRuntime) -> Result<(), Fail> {
    let head: &[u8] = b"\x05\0\0\0\xe0\x93\x04\0";
    let tail: &[u8] = b"\xe0\x93\x04\0";
    let input = joined(
        rt.alloc(),
        &[
            SB,
            head,
            &ZEROS,
            &ZEROS[..37844],
            tail,
            IB,
            PB_HEAD,
            F1,
            PB_TAIL,
        ],
    )?;
    for piece in [4096, 100000, 1000000] {
        assert!(rt; read_all(rt.alloc(), 3, &input, piece)? == (1, 54, Ok(0)));
    }
    Ok(())
}

// How many bytes the block of the packet has that is lent from the piece, how many the packet
// had, and whether its bytes are those of F1.
fn front_of(reader: &mut NgReader, piece: &[u8]) -> Option<(usize, u32, bool)> {
    let front = reader.take_at_front(piece)?;
    Some((front.used, front.frame.original, front.frame.bytes == F1))
}

#[test]
fn a_whole_packet_is_lent_from_the_piece(rt: HostRuntime) -> Result<(), Fail> {
    let input = joined(
        rt.alloc(),
        &[EB_HEAD, F1, EB_TAIL, PB_HEAD, F1, PB_TAIL, &EB_HEAD[..9]],
    )?;
    let mut reader = NgReader::new(rt.alloc(), 2)?;
    assert!(rt; reader.take_at_front(SB).is_none());
    assert!(rt; reader.take(SB).is_ok());
    assert!(rt; reader.take(IB).is_ok());
    assert!(rt; input.len() == 169);
    assert!(rt; front_of(&mut reader, &input) == Some((88, 54, true)));
    assert!(rt; front_of(&mut reader, &input[88..]) == Some((72, 54, true)));
    assert!(rt; reader.take_at_front(&input[160..]).is_none());
    assert!(rt; reader.take(&input[160..]) == Err(NgBad::TooMany));
    Ok(())
}

#[test]
fn the_laws_are_called() {
    one_reading();
    refusal_stays();
    one_refusal();
    capture_fine();
    one_outcome();
    standing();
}
