use flow_base::NoMemory;
use pcap_read::{
    Bad, Reader, capture_fine, one_outcome, one_reading, one_refusal, refusal_stays, standing,
};
use std::alloc::{AllocError, Global};
use std::test::Fail;

const HL: &[u8] = b"\xd4\xc3\xb2\xa1\x02\0\x04\0\0\0\0\0\0\0\0\0\xff\xff\0\0\x01\0\0\0";

const HB: &[u8] = b"\xa1\xb2\x3c\x4d\0\x02\0\x04\0\0\0\0\0\0\0\0\0\0\xff\xff\0\0\0\x01";

// A TCP packet from 10.0.0.1:1234 to 10.0.0.2:443, behind its head.
const REC: &[u8] =
    b"\0\0\0\0\0\0\0\0\x36\0\0\0\x36\0\0\0\x02\0\0\0\0\x02\x02\0\0\0\0\x01\x08\0\x45\0\0\x28\0\0\0\0\x40\x06\0\0\x0a\0\0\x01\x0a\0\0\x02\x04\xd2\x01\xbb\0\0\0\0\0\0\0\0\0\0\0\0\0\0\0\0";

const REC_BIG: &[u8] =
    b"\0\0\0\0\0\0\0\0\0\0\0\x36\0\0\0\x36\x02\0\0\0\0\x02\x02\0\0\0\0\x01\x08\0\x45\0\0\x28\0\0\0\0\x40\x06\0\0\x0a\0\0\x01\x0a\0\0\x02\x04\xd2\x01\xbb\0\0\0\0\0\0\0\0\0\0\0\0\0\0\0\0";

// Heads of records with 262144, 262145 and 4294967295 captured bytes.
const LONGEST: &[u8] = b"\0\0\0\0\0\0\0\0\0\0\x04\0\0\0\x04\0";

const TOO_LONG: &[u8] = b"\0\0\0\0\0\0\0\0\x01\0\x04\0\x01\0\x04\0";

const ALL_ONES: &[u8] = b"\0\0\0\0\0\0\0\0\xff\xff\xff\xff\xff\xff\xff\xff";

static ZEROS: [u8; 262144] = [0; 262144];

fn joined(alloc: Global, parts: &[&[u8]]) -> Result<Vec<u8>, AllocError> {
    let mut all = Vec::new(alloc);
    for part in parts {
        all.extend_from_slice(part)?;
    }
    Ok(all)
}

// How many records a capture has that comes in such pieces, and how it ends.
fn read_all(
    alloc: Global,
    limit: u32,
    input: &[u8],
    piece: usize,
) -> Result<(u32, Result<u32, Bad>), NoMemory> {
    let mut reader = Reader::new(alloc, limit)?;
    let mut records = 0u32;
    for chunk in input.chunks(piece.max(1)) {
        let mut at = 0;
        while at < chunk.len() {
            match reader.take(&chunk[at..]) {
                Err(bad) => return Ok((records, Err(bad))),
                Ok(taken) => {
                    at += taken.used;
                    records = records.saturating_add(u32::from(taken.whole));
                }
            }
        }
    }
    Ok((records, reader.end()))
}

#[test]
fn captures_and_refusals(rt: HostRuntime) -> Result<(), Fail> {
    let rows: [(&[u8], &[u8], &[u8], u32, Result<u32, Bad>); 21] = [
        (b"", b"", b"", 0, Err(Bad::ShortHeader { len: 0 })),
        (&HL[..7], b"", b"", 0, Err(Bad::ShortHeader { len: 7 })),
        (&HL[..23], b"", b"", 0, Err(Bad::ShortHeader { len: 23 })),
        (HL, b"", b"", 0, Ok(0)),
        (HL, REC, REC, 2, Ok(0)),
        (HB, REC_BIG, REC_BIG, 2, Ok(0)),
        (b"\xa1\xb2\xc3\xd4", &HB[4..], REC_BIG, 1, Ok(0)),
        (b"\x4d\x3c\xb2\xa1", &HL[4..], REC, 1, Ok(0)),
        (b"\x0a\x0d\x0d\x0a", b"", b"", 0, Err(Bad::PcapNg)),
        (
            b"\x1f\x8b",
            b"\x08\0",
            REC,
            0,
            Err(Bad::UnknownMagic { magic: 0x1f8b0800 }),
        ),
        (
            &HL[..6],
            b"\x03\0",
            REC,
            0,
            Err(Bad::BadVersion { major: 2, minor: 3 }),
        ),
        (
            &HL[..4],
            b"\x03\0\x04\0",
            b"",
            0,
            Err(Bad::BadVersion { major: 3, minor: 4 }),
        ),
        (
            &HL[..20],
            b"\x71\0\0\0",
            REC,
            0,
            Err(Bad::NotEthernet { link: 113 }),
        ),
        (&HL[..20], b"\x01\0\x01\0", REC, 1, Ok(0)),
        (
            HL,
            TOO_LONG,
            b"",
            0,
            Err(Bad::TooLong {
                offset: 24,
                length: 262145,
            }),
        ),
        (
            HL,
            REC,
            TOO_LONG,
            1,
            Err(Bad::TooLong {
                offset: 94,
                length: 262145,
            }),
        ),
        (
            HL,
            ALL_ONES,
            b"",
            0,
            Err(Bad::TooLong {
                offset: 24,
                length: 4294967295,
            }),
        ),
        (HL, LONGEST, ZEROS.as_slice(), 1, Ok(0)),
        (HL, REC, &REC[..9], 1, Ok(9)),
        (HL, &ZEROS[..48], &ALL_ONES[..15], 3, Ok(15)),
        (HL, &ZEROS[..48], ALL_ONES, 3, Err(Bad::TooMany)),
    ];
    for (first, second, third, records, end) in rows {
        let input = joined(rt.alloc(), &[first, second, third])?;
        for piece in [1, 7, 1000000] {
            assert!(rt; read_all(rt.alloc(), 3, &input, piece)? == (records, end));
        }
    }
    let whole = joined(rt.alloc(), &[HL, REC])?;
    assert!(rt; whole.len() == 94);
    for len in 24..94 {
        let cut = (len - 24) as u32;
        assert!(rt; read_all(rt.alloc(), 3, &whole[..len], 10)? == (0, Ok(cut)));
    }
    Ok(())
}

#[test]
fn frames_are_lent_and_a_refusal_is_kept(rt: HostRuntime) -> Result<(), Fail> {
    let mut reader = Reader::new(rt.alloc(), 2)?;
    assert!(rt; reader.take(HL).is_ok() == true);
    for _ in 0..2 {
        let taken = reader.take(&ZEROS[..16])?;
        assert!(rt; taken.whole);
        assert!(rt; reader.lent().bytes.len() == 0);
    }
    assert!(rt; reader.take(TOO_LONG) == Err(Bad::TooMany));
    assert!(rt; reader.take(&ZEROS[..16]) == Err(Bad::TooMany));
    assert!(rt; reader.end() == Err(Bad::TooMany));
    let mut other = Reader::new(rt.alloc(), 1)?;
    let input = joined(rt.alloc(), &[HB, REC_BIG, LONGEST])?;
    assert!(rt; input.len() == 110);
    let taken = other.take(&input)?;
    assert!(rt; taken.whole);
    assert!(rt; taken.used == 94);
    let frame = other.lent();
    assert!(rt; frame.original == 54);
    assert!(rt; frame.bytes == &REC[16..]);
    assert!(rt; other.take(&input[94..]) == Err(Bad::TooMany));
    Ok(())
}

#[test]
fn a_whole_record_is_lent_from_the_piece(rt: HostRuntime) -> Result<(), Fail> {
    let mut reader = Reader::new(rt.alloc(), 2)?;
    assert!(rt; reader.take_at_front(HL).is_none());
    assert!(rt; reader.take(HL).is_ok());
    assert!(rt; reader.take_at_front(&REC[..69]).is_none());
    let input = joined(rt.alloc(), &[REC, REC])?;
    match reader.take_at_front(&input) {
        Some(front) => {
            let frame = front.frame;
            assert!(rt; front.used == 70);
            assert!(rt; frame.original == 54);
            assert!(rt; frame.bytes == &REC[16..]);
        }
        None => assert!(rt; false),
    }
    assert!(rt; reader.take(&REC[..9]).is_ok());
    assert!(rt; reader.take_at_front(REC).is_none());
    assert!(rt; reader.end() == Ok(9));
    Ok(())
}

#[test]
fn the_laws_are_called() {
    one_reading();
    refusal_stays();
    one_refusal();
    capture_fine();
    one_outcome();
    standing();
}
