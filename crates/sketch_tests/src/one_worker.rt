// One worker's packets by pushes through a bounded outbox, against the table that takes each packet.
ghost use Rattle.std.specs.Prelude.{◌≡◌, ◌<◌, length, None};
ghost use Rattle.hash_rows.specs.Shapes.{IsShape, size_of};

use count_min::CountMin;
use count_sketch::CountSketch;
use hash_rows::{Kind, Packet, Shape, Table, cell_of};
use loglog_regs::LogLog;
use packet_key::FlowKey;
use push_rule::Private;
use std::alloc::Global;
use std::collections::VecDeque;
use std::test::Fail;

/// A message: its cell and its amount.
type Message = (u32, i64);

// Takes up one update: a push that is due is sent where the outbox has room, and refused elsewhere.
fn take_up<K: Kind>(
    sketch: &mut Private<K>,
    outbox: &mut VecDeque<Message>,
    room: usize,
    cell: u32,
    value: i64,
) -> Result<(), Fail>
    requires idle { sketch.old.due ≡ None }
    requires room { sketch.old.room ≡ 1000 }
    requires cell { cell < length sketch.old.held }
    ensures idle { sketch.new.due ≡ None }
    ensures room_stays { sketch.new.room ≡ 1000 }
    ensures cells { length sketch.new.held ≡ length sketch.old.held }
{
    let counted = sketch.counted();
    if counted >= 1000 || !K::is_value(value) {
        return Ok(());
    }
    match sketch.count(cell, value) {
        None => Ok(()),
        Some(amount) => {
            if outbox.len() >= room {
                sketch.refused();
                return Ok(());
            }
            sketch.sent();
            outbox.push_back((cell, amount))?;
            Ok(())
        }
    }
}

// Folds the oldest message.
fn fold_one<K: Kind>(table: &mut Table<K>, outbox: &mut VecDeque<Message>) {
    if let Some((cell, amount)) = outbox.pop_front() {
        put(table, cell, amount);
    }
}

fn put<K: Kind>(table: &mut Table<K>, cell: u32, amount: i64) {
    let shape = table.shape();
    if cell < shape.rows * shape.columns && K::is_value(amount) {
        table.put(cell, amount);
    }
}

// Counts a packet in each row.
fn count_packet<K: Kind>(
    sketch: &mut Private<K>,
    outbox: &mut VecDeque<Message>,
    room: usize,
    shape: &Shape,
    packet: &Packet,
) -> Result<(), Fail>
    requires shape { IsShape shape.now }
    requires idle { sketch.old.due ≡ None }
    requires room { sketch.old.room ≡ 1000 }
    requires cells { length sketch.old.held ≡ size_of shape.now }
    ensures idle { sketch.new.due ≡ None }
    ensures room_stays { sketch.new.room ≡ 1000 }
    ensures cells { length sketch.new.held ≡ size_of shape.now }
{
    for row in 0..shape.rows {
        let cell = cell_of(shape, &packet.key, row);
        let value = K::value(shape, packet, row);
        take_up(sketch, outbox, room, cell, value)?;
    }
    Ok(())
}

// The table of the pushes and the residues.
fn by_pushes<K: Kind>(
    alloc: Global,
    packets: &[Packet],
    shape: Shape,
    threshold: u64,
    room: usize,
) -> Result<Table<K>, Fail>
    requires shape { IsShape shape }
    requires threshold { 0 < threshold }
{
    let cells = shape.rows * shape.columns;
    let mut sketch = Private::<K>::new(alloc, cells, threshold, 1000)?;
    let mut outbox = VecDeque::new(alloc);
    let mut table = Table::<K>::new(alloc, shape)?;
    for packet in packets {
        count_packet(&mut sketch, &mut outbox, room, &shape, packet)?;
        fold_one(&mut table, &mut outbox);
    }
    for _ in 0..1000u32 {
        fold_one(&mut table, &mut outbox);
    }
    for cell in 0..cells {
        put(&mut table, cell, sketch.residue(cell));
    }
    Ok(table)
}

// The table that takes each packet itself.
fn direct<K: Kind>(alloc: Global, packets: &[Packet], shape: Shape) -> Result<Table<K>, Fail>
    requires { IsShape shape }
{
    let mut table = Table::<K>::new(alloc, shape)?;
    for packet in packets {
        for row in 0..shape.rows {
            put(
                &mut table,
                cell_of(&shape, &packet.key, row),
                K::value(&shape, packet, row),
            );
        }
    }
    Ok(table)
}

fn packet(sport: u16, amount: u32) -> Packet {
    Packet {
        key: FlowKey::V4 {
            src: 0x0A00_0001,
            dst: 0x0A00_0002,
            sport,
            dport: 443,
            proto: 6,
        },
        amount,
    }
}

// Packets of five flows.
fn packets() -> [Packet; 12] {
    [
        packet(1, 1),
        packet(2, 7),
        packet(1, 2),
        packet(3, 1),
        packet(1, 40),
        packet(2, 0),
        packet(4, 3),
        packet(1, 1),
        packet(3, 900),
        packet(5, 1),
        packet(1, 2),
        packet(2, 5),
    ]
}

// Whether both tables are one, for each threshold and each outbox.
fn tables_agree<K: Kind>(alloc: Global, shape: Shape) -> Result<bool, Fail>
    requires { IsShape shape }
{
    let packets = packets();
    let wanted = direct::<K>(alloc, &packets, shape)?;
    for (threshold, room) in [(1, 1), (1, 64), (3, 0), (3, 2), (1000, 1)] {
        let table = by_pushes::<K>(alloc, &packets, shape, threshold, room)?;
        for cell in 0..shape.rows * shape.columns {
            if table.shape() != shape || wanted.shape() != shape {
                return Ok(false);
            }
            if table.cell(cell) != wanted.cell(cell) {
                return Ok(false);
            }
        }
    }
    Ok(true)
}

#[test]
fn pushes_and_residues_make_the_direct_table(rt: HostRuntime) -> Result<(), Fail> {
    let wide = Shape {
        rows: 4,
        columns: 8,
    };
    let narrow = Shape {
        rows: 1,
        columns: 1,
    };
    let registers = Shape {
        rows: 1,
        columns: 128,
    };
    assert!(rt; tables_agree::<CountMin>(rt.alloc(), wide)?);
    assert!(rt; tables_agree::<CountMin>(rt.alloc(), narrow)?);
    assert!(rt; tables_agree::<CountSketch>(rt.alloc(), wide)?);
    assert!(rt; tables_agree::<CountSketch>(rt.alloc(), narrow)?);
    assert!(rt; tables_agree::<LogLog>(rt.alloc(), registers)?);
    Ok(())
}
