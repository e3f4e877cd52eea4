ghost use Rattle.std.specs.Prelude.{◌≡◌, ◌<◌, ◌+◌, length, None, true};

use count_min::CountMin;
use count_sketch::CountSketch;
use hash_rows::Kind;
use loglog_regs::LogLog;
use push_rule::Private;
use std::alloc::Global;
use std::process::Abort;
use std::test::Fail;

// Counts the value in cell 0, and sends or refuses the push that it makes due.
fn count_one<K: Kind>(sketch: &mut Private<K>, value: i64, send: bool) -> Option<i64>
    requires idle { sketch.old.due ≡ None }
    requires room { sketch.old.counted < sketch.old.room }
    requires cell { 0 < length sketch.old.held }
    requires value { K.rules.is_value value ≡ true }
    ensures idle { sketch.new.due ≡ None }
    ensures counted { sketch.new.counted ≡ sketch.old.counted + 1 }
    ensures room_stays { sketch.new.room ≡ sketch.old.room }
    ensures cells { length sketch.new.held ≡ length sketch.old.held }
{
    let due = sketch.due_with(0, value);
    let amount = sketch.count(0, value);
    if amount.is_some() {
        if send && due {
            sketch.sent();
        } else {
            sketch.refused();
        }
    }
    amount
}

#[test]
fn a_count_min_owes_its_sum(rt: HostRuntime) -> Result<(), Fail> {
    let Ok(mut sketch) = Private::<CountMin>::new(rt.alloc(), 1, 3, 3) else {
        return Err(Fail::from("memory"));
    };
    assert!(rt; count_one(&mut sketch, 1, true) == None);
    assert!(rt; count_one(&mut sketch, 1, true) == None);
    assert!(rt; count_one(&mut sketch, 1, true) == Some(3));
    assert!(rt; sketch.residue(0) == 0);
    assert!(rt; sketch.counted() == 3);
    let bits = sketch.into_bits();
    assert!(rt; bits.count() == 0);
    Ok(())
}

#[test]
fn a_refused_push_of_a_count_sketch_stays_in_the_residue(rt: HostRuntime) -> Result<(), Fail> {
    let Ok(mut sketch) = Private::<CountSketch>::new(rt.alloc(), 1, 3, 3) else {
        return Err(Fail::from("memory"));
    };
    assert!(rt; count_one(&mut sketch, 2, true) == None);
    assert!(rt; count_one(&mut sketch, 1, false) == Some(3));
    assert!(rt; count_one(&mut sketch, -1, true) == None);
    assert!(rt; sketch.residue(0) == 2);
    assert!(rt; sketch.refused_at(0) == false);
    assert!(rt; sketch.refused_at(1) == true);
    let bits = sketch.into_bits();
    assert!(rt; bits.count() == 1);
    Ok(())
}

#[test]
fn a_loglog_register_owes_its_rank(rt: HostRuntime) -> Result<(), Fail> {
    let Ok(mut sketch) = Private::<LogLog>::new(rt.alloc(), 1, 1, 4) else {
        return Err(Fail::from("memory"));
    };
    assert!(rt; count_one(&mut sketch, 3, true) == Some(3));
    assert!(rt; count_one(&mut sketch, 3, true) == None);
    assert!(rt; count_one(&mut sketch, 2, true) == None);
    assert!(rt; count_one(&mut sketch, 7, true) == Some(7));
    assert!(rt; sketch.residue(0) == 0);
    Ok(())
}

// A value that is counted in cell 0, whether the push that it makes due is sent, and what is told
// then: the push's amount, the residue, how many cells are wide, and the byte.
#[derive(Drop)]
struct Step {
    value: i64,
    send: bool,
    amount: Option<i64>,
    residue: i64,
    wide: u32,
    byte: i8,
}

const fn counting(
    value: i64,
    send: bool,
    amount: Option<i64>,
    residue: i64,
    wide: u32,
    byte: i8,
) -> Step {
    Step {
        value,
        send,
        amount,
        residue,
        wide,
        byte,
    }
}

fn check_step<K: Kind>(rt: &impl Abort, sketch: &mut Private<K>, step: &Step)
    requires idle { sketch.old.due ≡ None }
    requires cell { 0 < length sketch.old.held }
    ensures idle { sketch.new.due ≡ None }
    ensures cells { length sketch.new.held ≡ length sketch.old.held }
{
    assert!(rt; sketch.has_left());
    assert!(rt; K::is_value(step.value));
    assert!(rt; count_one(sketch, step.value, step.send) == step.amount);
    assert!(rt; sketch.residue(0) == step.residue);
    assert!(rt; sketch.wide() == step.wide);
    assert!(rt; sketch.small_bytes() == [step.byte].as_slice());
}

fn check_steps<K: Kind>(
    rt: &impl Abort,
    alloc: Global,
    threshold: u64,
    steps: &[Step],
) -> Result<(), Fail>
    requires { 0 < threshold }
{
    let mut sketch = Private::<K>::new(alloc, 1, threshold, 3)?;
    for step in steps {
        check_step(rt, &mut sketch, step);
    }
    Ok(())
}

#[test]
fn what_fits_no_byte_is_wide_until_it_is_told(rt: HostRuntime) -> Result<(), Fail> {
    let told = [
        counting(127, true, None, 127, 0, 127),
        counting(1, true, None, 128, 1, -128),
        counting(72, true, Some(200), 0, 0, 0),
    ];
    check_steps::<CountMin>(&rt, rt.alloc(), 200, &told)?;
    let refused = [counting(200, false, Some(200), 200, 1, -128)];
    check_steps::<CountMin>(&rt, rt.alloc(), 200, &refused)?;
    let below = [
        counting(-127, true, None, -127, 0, -127),
        counting(-1, true, None, -128, 1, -128),
    ];
    check_steps::<CountSketch>(&rt, rt.alloc(), 200, &below)?;
    // Of 2 untold ranks the byte is 33 times 2; of 3 that were told it is 3.
    let ranks = [
        counting(2, true, None, 2, 0, 66),
        counting(3, false, Some(3), 3, 1, -128),
        counting(3, true, Some(3), 0, 0, 3),
    ];
    check_steps::<LogLog>(&rt, rt.alloc(), 3, &ranks)
}
