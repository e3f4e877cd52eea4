use heavy_keys::Heavy;
use packet_key::FlowKey;
use std::test::Fail;

const LOW: FlowKey = FlowKey::V4 {
    src: 1,
    dst: 2,
    sport: 3,
    dport: 4,
    proto: 6,
};

const HIGH: FlowKey = FlowKey::V6 {
    src: [1; 16],
    dst: [2; 16],
    sport: 3,
    dport: 4,
    proto: 17,
};

// A type that can be moved to, and shared with, other threads.
fn shared<T: Send + Sync>(_table: &T) {}

#[test]
fn a_full_table_counts_what_it_missed(rt: HostRuntime) -> Result<(), Fail> {
    let mut table = Heavy::new(rt.alloc(), 1, 2)?;
    for (key, estimate) in [(LOW, 1), (LOW, 2), (HIGH, 5), (LOW, 3), (HIGH, 6)] {
        table.note(key, estimate);
    }
    assert!(rt; table.len() == 1);
    assert!(rt; table.entry(0) == LOW);
    assert!(rt; table.missed() == 2);
    shared(&table);
    Ok(())
}

#[test]
fn a_copy_has_the_same_keys(rt: HostRuntime) -> Result<(), Fail> {
    let mut table = Heavy::new(rt.alloc(), 2, 1)?;
    table.note(HIGH, 1);
    table.note(LOW, 1);
    let mut copy = Heavy::new(rt.alloc(), 2, 1)?;
    copy.copy_from(&table);
    assert!(rt; copy.len() == 2);
    assert!(rt; copy.entry(1) == LOW);
    Ok(())
}
