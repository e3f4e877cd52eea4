ghost use Rattle.std.specs.Prelude.{◌≡◌, ◌<◌, ◌^◌, [], All, length, true, IfOk, slice_index_or};
ghost use Rattle.hash_rows.specs.Shapes.{size_of};
ghost use Rattle.lag_core.specs.Lags.{workers_of};

use count_min::CountMin;
use count_sketch::CountSketch;
use flow_base::NoMemory;
use hash_rows::{Full, Kind, Shape, Update, cell_of};
use lag_core::{Lag, UpdateList, UpdateRows};
use listed::Listed;
use loglog_regs::LogLog;
use packet_key::FlowKey;
use push_history::{Event, Reply};
use std::alloc::Global;
use std::process::Abort;
use std::test::Fail;

const SHAPE: Shape = Shape {
    rows: 1,
    columns: 2,
};

// Its row hash 0x6EFFE6B8176D0A30 names cell 0 of two, and has the top bit 0.
const EVEN: FlowKey = FlowKey::V4 {
    src: 1,
    dst: 2,
    sport: 3,
    dport: 4,
    proto: 6,
};

// 10.0.0.1:1234>10.0.0.2:443/6. Its row hash 0xE27FBF7987133339 names cell 1, and has the top bit 1.
const ODD: FlowKey = FlowKey::V4 {
    src: 0x0A000001,
    dst: 0x0A000002,
    sport: 1234,
    dport: 443,
    proto: 6,
};

// An update of the key for each pair of a cell and a value.
fn updates_of<K: Kind>(
    alloc: Global,
    key: FlowKey,
    counts: &[(u32, i64)],
) -> Result<UpdateList, NoMemory>
    requires few { length counts.now < 2 ^ 32 }
    requires cells { All (λ c. c.0 < 2) counts.now }
    requires values { All (λ c. K.rules.is_value c.1 ≡ true) counts.now }
    ensures len { IfOk result (λ row. length row.items ≡ length counts.now) }
    ensures cells { IfOk result (λ row. All (λ u. u.cell < 2) row.items) }
    ensures values { IfOk result (λ row. All (λ u. K.rules.is_value u.value ≡ true) row.items) }
{
    let mut row = Listed::new(alloc, counts.len() as u32)?;
    for place in 0..counts.len() {
        let (cell, value) = counts[place];
        row.push(Update {
            packet: place as u32,
            key,
            cell,
            value,
        });
    }
    Ok(row)
}

// One worker with these updates, one reader, and a live table of four keys of at least 1.
fn small_lag<K: Kind>(
    alloc: Global,
    threshold: u64,
    capacity: u32,
    full: Full,
    updates: UpdateList,
) -> Result<Lag<K>, NoMemory>
    requires threshold { 0 < threshold }
    requires cells { All (λ u. u.cell < 2) updates.items }
    requires values { All (λ u. K.rules.is_value u.value ≡ true) updates.items }
    ensures workers { IfOk result (λ lag. workers_of lag ≡ 1) }
    ensures shape { IfOk result (λ lag. size_of lag.shape ≡ 2) }
    ensures updates { IfOk result (λ lag. slice_index_or lag.limits.updates 0 [] ≡ updates.items) }
    ensures readers { IfOk result (λ lag. length lag.seen ≡ 1) }
{
    let mut rows: UpdateRows = Listed::new(alloc, 1)?;
    rows.push(updates);
    Lag::new(alloc, SHAPE, threshold, capacity, full, 4, 1, rows, 1)
}

// The same with an update of the key for each pair of a cell and a value.
fn lag_of<K: Kind>(
    alloc: Global,
    key: FlowKey,
    counts: &[(u32, i64)],
    threshold: u64,
    capacity: u32,
    full: Full,
) -> Result<Lag<K>, NoMemory>
    requires few { length counts.now < 2 ^ 32 }
    requires cells { All (λ c. c.0 < 2) counts.now }
    requires values { All (λ c. K.rules.is_value c.1 ≡ true) counts.now }
    requires threshold { 0 < threshold }
    ensures workers { IfOk result (λ lag. workers_of lag ≡ 1) }
    ensures shape { IfOk result (λ lag. size_of lag.shape ≡ 2) }
    ensures updates { IfOk result (λ lag. length (slice_index_or lag.limits.updates 0 []) ≡ length counts.now) }
    ensures readers { IfOk result (λ lag. length lag.seen ≡ 1) }
{
    let updates = updates_of::<K>(alloc, key, counts)?;
    small_lag(alloc, threshold, capacity, full, updates)
}

// The reply that a step tells, with its amount where it has one.
fn reply_of(step: &str) -> Option<Reply> {
    let (word, amount) = match step.split_once(' ') {
        Some((word, amount)) => (word, amount.parse::<i64>().ok()?),
        None => (step, 0),
    };
    match word {
        "counted" => Some(Reply::Counted),
        "pushed" => Some(Reply::Pushed { amount }),
        "refused" => Some(Reply::Refused),
        "waits" => Some(Reply::Waits),
        "over" => Some(Reply::Over),
        "took" => Some(Reply::Took { amount }),
        "empty" => Some(Reply::Empty),
        "published" => Some(Reply::Published),
        "answered" => Some(Reply::Answered),
        _ => None,
    }
}

// The event of worker 0 or of reader 0 that has the reply. Here only updates are over.
fn event_with(reply: Option<Reply>) -> Event {
    match reply {
        Some(Reply::Took { .. }) => Event::Take(0),
        Some(Reply::Empty) => Event::Take(0),
        Some(Reply::Published) => Event::Publish,
        Some(Reply::Answered) => Event::Ask(0),
        _ => Event::Update(0),
    }
}

// Runs the events with these replies in order, and compares the replies.
fn expect_replies<K: Kind, R: Abort>(rt: &R, lag: &mut Lag<K>, steps: &str)
    requires workers { 0 < workers_of lag.old }
    requires readers { 0 < length lag.old.seen }
    ensures limits { lag.new.limits ≡ lag.old.limits }
    ensures shape { lag.new.shape ≡ lag.old.shape }
    ensures readers { length lag.new.seen ≡ length lag.old.seen }
{
    for step in steps.split(", ") {
        let wanted = reply_of(step);
        let reply = match event_with(wanted) {
            Event::Update(_) => lag.step(Event::Update(0)),
            Event::Take(_) => lag.step(Event::Take(0)),
            Event::Publish => lag.step(Event::Publish),
            Event::Ask(_) => lag.step(Event::Ask(0)),
        };
        assert!(rt; Some(reply) == wanted, "{step}");
    }
}

// What a small lag answers: what is shown of both cells, and of a key; the front, the updates up to
// it, and the front that the reader saw; the messages that wait; both residues; the live keys.
type Look = ((i64, i64), i64, (u64, u64, u64), u32, (i64, i64), u32);

fn expect_look<K: Kind, R: Abort>(rt: &R, lag: &Lag<K>, key: &FlowKey, look: Look)
    requires workers { 0 < workers_of lag.now }
    requires readers { 0 < length lag.now.seen }
    requires shape { size_of lag.now.shape ≡ 2 }
{
    let (shown, estimate, fronts, queued, residues, live) = look;
    assert!(rt; (lag.shown(0), lag.shown(1)) == shown);
    assert!(rt; lag.estimate(key) == estimate);
    assert!(rt; (lag.front(0), lag.upto(0), lag.seen(0, 0)) == fronts);
    assert!(rt; lag.queued(0) == queued);
    assert!(rt; (lag.residue(0, 0), lag.residue(0, 1)) == residues);
    assert!(rt; (lag.live_len(), lag.missed()) == (live, 0));
}

#[test]
fn a_push_waits_for_room_or_stays_in_the_residue(rt: HostRuntime) -> Result<(), Fail> {
    let few = [(0, 1), (1, 1), (0, 1)];
    let mut waiting = lag_of::<CountMin>(rt.alloc(), EVEN, &few, 1, 1, Full::Wait)?;
    expect_replies(
        &rt,
        &mut waiting,
        "pushed 1, waits, waits, took 1, pushed 1",
    );
    assert!(rt; waiting.residue(0, 1) == 0);
    let counts = [(0, 1), (1, 1), (0, 1), (1, 1), (0, 1), (1, 1)];
    let mut lag = lag_of::<CountMin>(rt.alloc(), EVEN, &counts, 1, 1, Full::Leave)?;
    let steps = "pushed 1, refused, refused, refused, took 1, published, pushed 2, refused";
    expect_replies(&rt, &mut lag, steps);
    expect_look(&rt, &lag, &EVEN, ((1, 0), 1, (1, 1, 0), 1, (0, 3), 1));
    assert!(rt; (lag.refused_at(0, 3), lag.refused_at(0, 4)) == (true, false));
    expect_replies(&rt, &mut lag, "over, took 2, empty, published, answered");
    expect_look(&rt, &lag, &EVEN, ((3, 0), 3, (2, 5, 2), 0, (0, 3), 1));
    if lag.live_len() > 0 {
        assert!(rt; lag.live(0) == EVEN);
    }
    assert!(rt; cell_of(&SHAPE, &EVEN, 0) == 0);
    Ok(())
}

// Sums with sign: a gap may be negative, and the key's row turns the sign of its cell.
#[test]
fn a_count_sketch_tells_gaps_with_sign(rt: HostRuntime) -> Result<(), Fail> {
    let counts = [(0, 2), (0, -6), (1, 3), (0, 3), (0, -1), (1, -5)];
    let mut lag = lag_of::<CountSketch>(rt.alloc(), ODD, &counts, 3, 2, Full::Leave)?;
    let steps = "counted, pushed -4, pushed 3, refused, took -4, counted, pushed -5, published";
    expect_replies(&rt, &mut lag, steps);
    expect_look(&rt, &lag, &ODD, ((-4, 0), 0, (1, 2, 0), 2, (2, 0), 0));
    assert!(rt; lag.refused_at(0, 3));
    expect_replies(
        &rt,
        &mut lag,
        "over, took 3, took -5, empty, answered, published",
    );
    expect_look(&rt, &lag, &ODD, ((-4, -2), 2, (3, 6, 1), 0, (2, 0), 1));
    Ok(())
}

// Ranks: a cell keeps the greatest, a message tells it whole, and no key is live.
#[test]
fn a_loglog_tells_greater_ranks(rt: HostRuntime) -> Result<(), Fail> {
    let counts = [(0, 1), (0, 3), (0, 2), (1, 2), (0, 4), (1, 5)];
    let mut lag = lag_of::<LogLog>(rt.alloc(), EVEN, &counts, 2, 1, Full::Wait)?;
    expect_replies(
        &rt,
        &mut lag,
        "counted, pushed 3, counted, waits, took 3, published",
    );
    // One register is 0, so the estimate is 2 * 65536 / 2 / 65536.
    expect_look(&rt, &lag, &EVEN, ((3, 0), 1, (1, 2, 0), 0, (0, 0), 0));
    let steps = "pushed 2, counted, waits, took 2, pushed 5, over, took 5, published, answered";
    expect_replies(&rt, &mut lag, steps);
    // Z is 2^29 + 2^27: the estimate is 7213 * 8 * 2^32 / (30790 * 5 * 2^27), 1846528 / 153950.
    expect_look(&rt, &lag, &EVEN, ((3, 5), 11, (3, 6, 3), 0, (4, 0), 0));
    Ok(())
}
