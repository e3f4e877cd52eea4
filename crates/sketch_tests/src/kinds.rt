use count_min::CountMin;
use count_sketch::CountSketch;
use hash_rows::{Kind, Packet, Shape, Sketch, Table, cell_of, row_hash};
use loglog_regs::{LogLog, distinct};
use packet_key::FlowKey;
use std::alloc::Global;
use std::process::Abort;
use std::test::Fail;

const SHAPE: Shape = Shape {
    rows: 1,
    columns: 128,
};

// 10.0.0.1:1234>10.0.0.2:443/6, of five bytes. Its row hash 0xE27FBF7987133339 names cell 57, has
// the top bit 1, and divided by 128 ends in one zero bit.
const PACKET: Packet = Packet {
    key: FlowKey::V4 {
        src: 0x0A000001,
        dst: 0x0A000002,
        sport: 1234,
        dport: 443,
        proto: 6,
    },
    amount: 5,
};

// What a kind is to answer of the packet.
#[derive(Drop)]
struct Row {
    sketch: Sketch,
    keyed: bool,
    value: i64,
    byte: i8,
    estimate: i64,
}

fn check_kind<K: Kind>(rt: &impl Abort, row: &Row) {
    assert!(rt; K::which_sketch() == row.sketch);
    assert!(rt; K::KEYED == row.keyed);
    let value = K::value(&SHAPE, &PACKET, 0);
    assert!(rt; value == row.value);
    assert!(rt; K::value_in_row(&SHAPE, &PACKET, 0, row_hash(&PACKET.key, 0)) == value);
    assert!(rt; K::is_value(value));
    assert!(rt; K::join(value, 0) == value);
    assert!(rt; K::gap(0, value) == value);
    assert!(rt; K::distance(0, value) == value.unsigned_abs());
}

fn check_held<K: Kind>(rt: &impl Abort, row: &Row) {
    let value = row.value;
    assert!(rt; K::is_value(value));
    let held = K::counted(K::fresh(), value);
    assert!(rt; K::unsent(held) == (value.unsigned_abs(), value));
    let Some(byte) = K::small(held) else {
        panic!(rt; "a held value that has no byte");
    };
    assert!(rt; byte == row.byte);
    assert!(rt; K::unsent(K::from_small(byte)) == K::unsent(held));
    assert!(rt; K::unsent(K::told_all(held)) == (0, 0));
}

fn check_table<K: Kind>(rt: &impl Abort, alloc: Global, row: &Row) -> Result<(), Fail> {
    let mut table: Table<K> = Table::new(alloc, SHAPE)?;
    let cell = cell_of(&SHAPE, &PACKET.key, 0);
    assert!(rt; cell == 57);
    let value = row.value;
    assert!(rt; K::is_value(value));
    table.put(cell, value);
    assert!(rt; table.cell(cell) == value);
    assert!(rt; table.used(0) == 1);
    assert!(rt; table.shape() == SHAPE);
    assert!(rt; table.estimate(&PACKET.key) == row.estimate);
    Ok(())
}

fn check_all<K: Kind>(rt: &impl Abort, alloc: Global, row: &Row) -> Result<(), Fail> {
    check_kind::<K>(rt, row);
    check_held::<K>(rt, row);
    check_table::<K>(rt, alloc, row)
}

#[test]
fn count_min_adds_the_amount(rt: HostRuntime) -> Result<(), Fail> {
    let row = Row {
        sketch: Sketch::CountMin,
        keyed: true,
        value: 5,
        byte: 5,
        estimate: 5,
    };
    check_all::<CountMin>(&rt, rt.alloc(), &row)
}

#[test]
fn count_sketch_adds_with_the_sign_of_the_row(rt: HostRuntime) -> Result<(), Fail> {
    let row = Row {
        sketch: Sketch::CountSketch,
        keyed: true,
        value: -5,
        byte: -5,
        estimate: 5,
    };
    check_all::<CountSketch>(&rt, rt.alloc(), &row)
}

#[test]
fn loglog_keeps_the_greatest_rank(rt: HostRuntime) -> Result<(), Fail> {
    let row = Row {
        sketch: Sketch::LogLog,
        keyed: false,
        value: 2,
        byte: 66,
        estimate: 1,
    };
    check_all::<LogLog>(&rt, rt.alloc(), &row)
}

#[test]
fn distinct_keys_of_few_registers(rt: HostRuntime) -> Result<(), Fail> {
    let mut table: Table<LogLog> = Table::new(rt.alloc(), SHAPE)?;
    assert!(rt; distinct(&table) == 0);
    table.put(3, 32);
    assert!(rt; distinct(&table) == 1);
    Ok(())
}
