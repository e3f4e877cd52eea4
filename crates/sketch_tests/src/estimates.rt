ghost use Rattle.std.specs.Prelude.{◌≡◌, ◌≤◌, true};
ghost use Rattle.hash_rows.specs.Shapes.{size_of};
ghost use Rattle.hash_rows.specs.Sketches.{is_rank};

use count_sketch::lower_median;
use hash_rows::{Shape, Table};
use loglog_regs::{LogLog, distinct, rank};
use std::test::Fail;

#[test]
fn takes_the_lower_of_two_medians(rt: HostRuntime) {
    assert!(rt; lower_median(&mut [9, 2, -1, 5]) == 2);
    assert!(rt; lower_median(&mut [4]) == 4);
    assert!(rt; lower_median(&mut [3, i64::MIN, i64::MAX]) == 3);
}

#[test]
fn ranks_by_trailing_zeros(rt: HostRuntime) {
    for (hash, columns, wanted) in [
        (0, 128, 32),
        (127, 128, 32),
        (128, 128, 1),
        (513, 128, 3),
        (1 << 63, 128, 32),
        (6, 1, 2),
    ] {
        assert!(rt; rank(hash, columns) == wanted);
    }
}

// Puts the value into so many cells, from the first on.
fn set_first(table: &mut Table<LogLog>, count: u32, value: i64)
    requires count { count ≤ size_of table.old.shape }
    requires value { is_rank value ≡ true }
{
    for cell in 0..count {
        table.put(cell, value);
    }
}

// By the formulas in decimal numbers: 732.4 where each register is 3, and 128 times the sum of 1 / i
// for i from 65 to 128 where half of them are 0.
#[test]
fn estimates_by_registers(rt: HostRuntime) -> Result<(), Fail> {
    let shape = Shape {
        rows: 1,
        columns: 128,
    };
    for (count, value, wanted) in [(128, 3, 732), (64, 1, 88)] {
        let mut table: Table<LogLog> = Table::new(rt.alloc(), shape)?;
        set_first(&mut table, count, value);
        assert!(rt; distinct(&table) == wanted);
    }
    Ok(())
}
