use hash_rows::*;
use packet_key::FlowKey;
use std::test::Fail;

// 10.0.0.1:1234>10.0.0.2:443/6
const FIRST: FlowKey = FlowKey::V4 {
    src: 0x0A000001,
    dst: 0x0A000002,
    sport: 1234,
    dport: 443,
    proto: 6,
};

#[test]
fn hashes_known_bytes(rt: HostRuntime) {
    assert!(rt; fnv64(b"") == 0xCBF29CE484222325);
    assert!(rt; fnv64(b"a") == 0xAF63DC4C8601EC8C);
    assert!(rt; fnv64(b"foobar") == 0x85944171F73967E8);
    for (z, mixed) in [
        (0, 0),
        (0x9E3779B97F4A7C15, 0xE220A8397B1DCDAF),
        (0x3C6EF372FE94F82A, 0x6E789E6AA1B965F4),
    ] {
        assert!(rt; mix64(z) == mixed);
    }
}

// The expected numbers were made by a program of its own from FNV-1a and SplitMix64.
#[test]
fn hashes_a_key_in_rows(rt: HostRuntime) {
    let shape = Shape {
        rows: 4,
        columns: 2048,
    };
    assert!(rt; row_hash(&FIRST, 0) == 0xE27FBF7987133339);
    assert!(rt; row_hash(&FIRST, 63) == 0x6A7B5A0ABE2DC173);
    assert!(rt; hash_in_row(key_hash(&FIRST), 2) == 0x1BC0DEA3BADD6CA9);
    assert!(rt; cell_of(&shape, &FIRST, 0) == 825);
    assert!(rt; cell_of(&shape, &FIRST, 3) == 6672);
    assert!(rt; cell_in_row(&shape, 0xAAAB511C7FAB10A0, 1) == 2208);
    assert!(rt; share_of(&FIRST, 4) == 3);
}

#[test]
fn sets_one_bit_of_three(rt: HostRuntime) -> Result<(), Fail> {
    let mut bits = Bits::new(rt.alloc(), 3)?;
    bits.set(1);
    assert!(rt; (bits.get(0), bits.get(1), bits.get(2)) == (false, true, false));
    assert!(rt; bits.count() == 1);
    Ok(())
}

#[test]
fn sets_bits_on_both_sides_of_a_border(rt: HostRuntime) -> Result<(), Fail> {
    let mut bits = Bits::new(rt.alloc(), 130)?;
    bits.set(0);
    bits.set(63);
    bits.set(64);
    bits.set(127);
    for place in 0..bits.len() {
        assert!(rt; bits.get(place) == matches!(place, 0 | 63 | 64 | 127));
    }
    assert!(rt; (bits.len(), bits.count()) == (130, 4));
    Ok(())
}

#[test]
fn sets_ranges_and_finds_the_next_bit(rt: HostRuntime) -> Result<(), Fail> {
    let mut bits = Bits::new(rt.alloc(), 200)?;
    bits.set_range(60, 130);
    assert!(rt; bits.len() == 200);
    bits.set_range(199, 200);
    assert!(rt; bits.len() == 200);
    bits.set_range(150, 150);
    assert!(rt; bits.len() == 200);
    for place in 0..bits.len() {
        assert!(rt; bits.get(place) == matches!(place, 60..130 | 199));
    }
    for (start, next) in [
        (0, 60),
        (61, 61),
        (129, 129),
        (130, 199),
        (199, 199),
        (200, 200),
    ] {
        assert!(rt; bits.next(start) == next);
    }
    assert!(rt; bits.count() == 71);
    Ok(())
}

#[test]
fn begins_an_answer(rt: HostRuntime) -> Result<(), Fail> {
    let answer = Answer::new(rt.alloc(), 1, 2, 3, 4)?;
    assert!(rt; (answer.reader, answer.number, answer.folded) == (1, 2, 0));
    assert!(rt; answer.front.as_slice() == [0u64, 0, 0].as_slice());
    assert!(rt; answer.upto.as_slice() == [0u64, 0, 0].as_slice());
    assert!(rt; answer.shown.as_slice() == [0i64, 0, 0, 0].as_slice());
    Ok(())
}

#[test]
fn keeps_the_gap_of_a_sum_in_a_byte(rt: HostRuntime) {
    let held = SumHeld::fresh().counted(-127);
    assert!(rt; held.unsent() == (127, -127));
    assert!(rt; held.small() == Some(-127));
    assert!(rt; SumHeld::from_small(-127) == held);
    assert!(rt; held.counted(-1).small() == None);
    assert!(rt; held.told_all() == SumHeld::fresh());
}
