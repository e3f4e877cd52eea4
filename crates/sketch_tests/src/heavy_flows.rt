use count_min::CountMin;
use flow_base::NoMemory;
use hash_rows::{Flow, Packet, Shape, Table, cell_of};
use heavy_keys::*;
use packet_key::FlowKey;
use std::alloc::Global;
use std::test::Fail;

const SHAPE: Shape = Shape {
    rows: 1,
    columns: 2048,
};

const LOW: FlowKey = FlowKey::V4 {
    src: 1,
    dst: 2,
    sport: 3,
    dport: 4,
    proto: 6,
};

const NEXT: FlowKey = FlowKey::V4 {
    src: 1,
    dst: 2,
    sport: 3,
    dport: 4,
    proto: 17,
};

const HIGH: FlowKey = FlowKey::V6 {
    src: [0; 16],
    dst: [2; 16],
    sport: 3,
    dport: 4,
    proto: 6,
};

const LIGHT: FlowKey = FlowKey::V6 {
    src: [1; 16],
    dst: [2; 16],
    sport: 3,
    dport: 4,
    proto: 17,
};

// What four keys count.
fn table_of_four(alloc: Global) -> Result<Table<CountMin>, NoMemory> {
    let mut table = Table::new(alloc, SHAPE)?;
    table.put(cell_of(&SHAPE, &LOW, 0), 5);
    table.put(cell_of(&SHAPE, &NEXT, 0), 7);
    table.put(cell_of(&SHAPE, &HIGH, 0), 5);
    table.put(cell_of(&SHAPE, &LIGHT, 0), 4);
    Ok(table)
}

fn packet_of(key: FlowKey) -> Packet {
    Packet { key, amount: 1 }
}

// The heavy flows in order, of which the estimates 7, 5 and 5 are at least 5.
const ALL: [Flow; 3] = [
    Flow {
        key: NEXT,
        estimate: 7,
    },
    Flow {
        key: LOW,
        estimate: 5,
    },
    Flow {
        key: HIGH,
        estimate: 5,
    },
];

#[test]
fn the_first_flows_are_listed_and_all_are_counted(rt: HostRuntime) -> Result<(), Fail> {
    let table = table_of_four(rt.alloc())?;
    let packets = [HIGH, LIGHT, LOW, HIGH, NEXT, LOW, HIGH, NEXT].map(packet_of);
    for most in 0..5 {
        let found = heaviest(rt.alloc(), &packets, &table, 5, most)?;
        let listed = (most as usize).min(3);
        assert!(rt; found.count == 3);
        assert!(rt; found.flows.as_slice() == &ALL[..listed]);
    }
    Ok(())
}

#[test]
fn no_packet_makes_no_heavy_flow(rt: HostRuntime) -> Result<(), Fail> {
    let table = table_of_four(rt.alloc())?;
    let found = heaviest(rt.alloc(), &[], &table, 5, 10)?;
    assert!(rt; found.count == 0);
    assert!(rt; found.flows.len() == 0);
    Ok(())
}

// Some of so many packets are weighed twice.
#[test]
fn a_key_of_many_packets_counts_once(rt: HostRuntime) -> Result<(), Fail> {
    let table = table_of_four(rt.alloc())?;
    let found = heaviest(rt.alloc(), &[packet_of(HIGH); 600], &table, 5, 10)?;
    assert!(rt; found.count == 1);
    assert!(rt; found.flows.as_slice() == &ALL[2..]);
    Ok(())
}
