//! What a worker does by itself.
ghost use Rattle.std.specs.Prelude.{◌≡◌, ◌<◌, ◌≤◌, ◌+◌, ◌*◌, ℕ, length, slice_index_or, slice_range, ◌-◌, min, true, false, IfSome, MatchOption};
ghost use Rattle.std.specs.List.{list_any};
ghost use Rattle.hash_rows.specs.Lawful.{IsLawful};
ghost use Rattle.push_history.specs.LagRun.{Terms, Worker};
ghost use Rattle.push_history.specs.OwnSteps.{folded_in_round, own_round, counted_in_round, counts};
ghost use Rattle.push_rule.specs.Counters.{Extends, KeepsSettings};
ghost use Rattle.push_rule.specs.Keeps.{Keeps};
ghost use Rattle.octo_engine.specs.Counts.{HasShare, IsFit, AreNext, HasCounted, HasMoved};
ghost use Rattle.octo_engine.specs.Parts.{AreEnds, HasRun, IsReadyForBlock, RanBlock, block, is_busy_part};
ghost use Rattle.hash_rows.specs.Shapes.{IsShape, size_of};
ghost use Rattle.push_history.specs.Rounds.{is_waits};

use hash_rows::{Kind, Options, Packet, Shape, cell_in_row, hash_in_row, key_hash};
use listed::Listed;
use push_history::Reply;
use push_rule::Counter;
use shares::Positions;
use std::thread::{Threads, for_each_mut};

/// The rounds that each worker runs by itself before their messages are folded.
pub const BLOCK: u32 = 128;

/// What a worker has to itself.
#[derive(Drop)]
pub struct Part<K: Kind> {
    /// The positions of its packets.
    pub share: Positions,
    pub counter: Counter<K>,
    /// How many of the counter's messages are folded before each round of a block, and after the
    /// last one.
    pub ends: Listed<u32>,
}

/// Runs a block of rounds of the worker.
pub fn run_block<K: Kind>(part: &mut Part<K>, packets: &[Packet], options: &Options)
    requires lawful { IsLawful options.now }
    requires sound { IsReadyForBlock options.now (length packets.now) part.old }
    ensures share { part.new.share ≡ part.old.share }
    ensures sound { IsReadyForBlock options.now (length packets.now) part.new }
    ensures ends { AreEnds part.new.ends.items block part.new.counter.taken }
    ensures run { (t : Terms) (w : ℕ) (x : Worker) → HasShare K.rules t options.now.shape packets.now w part.old.share
        → Keeps K.stands t w part.old.counter x → HasRun K.stands t options.now w x block part.new.ends.items part.new.counter }
{
    part.counter.clear();
    part.ends.set(0, 0);
    for round in 0..BLOCK {
        run_round(&mut part.counter, &part.share, packets, options);
        let end = part.counter.taken();
        part.ends.set(round + 1, end);
    }
}

// Runs one round of the worker: it counts, and then gives its oldest messages away to be folded.
fn run_round<K: Kind>(
    counter: &mut Counter<K>,
    share: &Positions,
    packets: &[Packet],
    options: &Options,
)
    requires lawful { IsLawful options.now }
    requires fit { IsFit options.now (length packets.now) share.now counter.old }
    requires room { counter.old.taken + options.now.lane < counter.old.room }
    ensures fit { IsFit options.now (length packets.now) share.now counter.new }
    ensures room { counter.new.room ≡ counter.old.room }
    ensures taken { (counter.old.taken ≤ counter.new.taken) × (counter.new.taken ≤ counter.old.taken + options.now.batch) }
    ensures grows { Extends counter.old.queue counter.new.queue }
    ensures keeps { (t : Terms) (w : ℕ) (x : Worker) → HasShare K.rules t options.now.shape packets.now w share.now
        → Keeps K.stands t w counter.old x → Keeps K.stands t w counter.new (own_round t options.now w x) }
    ensures folded { (t : Terms) (w : ℕ) (x : Worker) → HasShare K.rules t options.now.shape packets.now w share.now
        → Keeps K.stands t w counter.old x
        → slice_range counter.new.queue counter.old.taken counter.new.taken ≡ folded_in_round t options.now w x }
{
    count_in_round(counter, share, packets, options);
    let count = options.batch.min(counter.held());
    counter.take(count);
}

// Counts the worker's next updates, as many as a round has, ending early where a push waits.
fn count_in_round<K: Kind>(
    counter: &mut Counter<K>,
    share: &Positions,
    packets: &[Packet],
    options: &Options,
)
    requires shape { IsShape options.now.shape }
    requires round { options.now.round ≤ 65536 }
    requires fit { IsFit options.now (length packets.now) share.now counter.old }
    requires room { counter.old.taken + options.now.lane < counter.old.room }
    ensures keeps { (t : Terms) (w : ℕ) (x : Worker) → HasShare K.rules t options.now.shape packets.now w share.now
        → Keeps K.stands t w counter.old x → Keeps K.stands t w counter.new (counted_in_round t options.now w x) }
    ensures fit { IsFit options.now (length packets.now) share.now counter.new }
    ensures same { KeepsSettings counter.old counter.new }
    ensures grows { Extends counter.old.queue counter.new.queue }
{
    let count = due_in_round(counter, share, packets, options);
    count_updates(counter, share, packets, options, count);
}

// How many updates the worker counts in the round, unless a push waits.
fn due_in_round<K: Kind>(
    counter: &Counter<K>,
    share: &Positions,
    packets: &[Packet],
    options: &Options,
) -> u32
    requires shape { IsShape options.now.shape }
    requires round { options.now.round ≤ 65536 }
    requires fit { IsFit options.now (length packets.now) share.now counter.now }
    ensures { result ≡ min (options.now.shape.rows * options.now.round) (counter.now.sketch.room - counter.now.sketch.counted) }
{
    let _packets = packets;
    let rows = options.shape.rows;
    let left = rows * share.len() - counter.counted();
    left.min(rows * options.round)
}

// Counts so many of the worker's next updates, ending early where a push waits.
fn count_updates<K: Kind>(
    counter: &mut Counter<K>,
    share: &Positions,
    packets: &[Packet],
    options: &Options,
    count: u32,
)
    requires shape { IsShape options.now.shape }
    requires fit { IsFit options.now (length packets.now) share.now counter.old }
    requires room { counter.old.taken + options.now.lane < counter.old.room }
    requires count { counter.old.sketch.counted + count ≤ counter.old.sketch.room }
    ensures keeps { (t : Terms) (w : ℕ) (x : Worker) → HasShare K.rules t options.now.shape packets.now w share.now
        → Keeps K.stands t w counter.old x → Keeps K.stands t w counter.new (counts t w count x) }
    ensures fit { IsFit options.now (length packets.now) share.now counter.new }
    ensures same { KeepsSettings counter.old counter.new }
    ensures grows { Extends counter.old.queue counter.new.queue }
{
    // A copy, of which the loops read nothing again.
    let shape = options.shape;
    let counted = counter.counted();
    let place = counted / shape.rows;
    let first = counted % shape.rows;
    if first > 0 {
        count_rest(
            counter, share, packets, options, &shape, place, first, count,
        );
        return;
    }
    let many = count / shape.rows;
    if count_packets(counter, share, packets, options, &shape, place, many) {
        return;
    }
    let left = count - shape.rows * many;
    count_rest(
        counter,
        share,
        packets,
        options,
        &shape,
        place + many,
        0,
        left,
    );
}

// Counts what so many packets add, from this place of the worker's share on. Answers whether a push
// has to wait.
fn count_packets<K: Kind>(
    counter: &mut Counter<K>,
    share: &Positions,
    packets: &[Packet],
    options: &Options,
    shape: &Shape,
    place: u32,
    many: u32,
) -> bool
    requires same { shape.now ≡ options.now.shape }
    requires shape { IsShape options.now.shape }
    requires fit { IsFit options.now (length packets.now) share.now counter.old }
    requires room { counter.old.taken + options.now.lane < counter.old.room }
    requires next { counter.old.sketch.counted ≡ options.now.shape.rows * place }
    requires count { counter.old.sketch.counted + options.now.shape.rows * many ≤ counter.old.sketch.room }
    ensures keeps { (t : Terms) (w : ℕ) (x : Worker) → HasShare K.rules t options.now.shape packets.now w share.now
        → Keeps K.stands t w counter.old x
        → HasCounted K.stands t w x (options.now.shape.rows * many) result counter.new }
    ensures moved { HasMoved counter.old counter.new (options.now.shape.rows * many) result }
{
    for ahead in 0..many {
        match count_packet(
            counter,
            share,
            packets,
            options,
            shape,
            place + ahead,
            0,
            shape.rows,
        ) {
            Some(_) => {}
            None => return true,
        }
    }
    false
}

// Counts so many of the worker's next updates, from the packet at this place of its share on, of
// which it has counted the first rows, ending early where a push waits.
fn count_rest<K: Kind>(
    counter: &mut Counter<K>,
    share: &Positions,
    packets: &[Packet],
    options: &Options,
    shape: &Shape,
    place: u32,
    first: u32,
    count: u32,
)
    requires same { shape.now ≡ options.now.shape }
    requires shape { IsShape options.now.shape }
    requires fit { IsFit options.now (length packets.now) share.now counter.old }
    requires room { counter.old.taken + options.now.lane < counter.old.room }
    requires next { (first < options.now.shape.rows) × (counter.old.sketch.counted ≡ options.now.shape.rows * place + first) }
    requires count { counter.old.sketch.counted + count ≤ counter.old.sketch.room }
    ensures keeps { (t : Terms) (w : ℕ) (x : Worker) → HasShare K.rules t options.now.shape packets.now w share.now
        → Keeps K.stands t w counter.old x → Keeps K.stands t w counter.new (counts t w count x) }
    ensures fit { IsFit options.now (length packets.now) share.now counter.new }
    ensures same { KeepsSettings counter.old counter.new }
    ensures grows { Extends counter.old.queue counter.new.queue }
{
    let (mut place, mut first, mut left) = (place, first, count);
    while left > 0 {
        match count_packet(counter, share, packets, options, shape, place, first, left) {
            Some(some) => left -= some,
            None => return,
        }
        place += 1;
        first = 0;
    }
}

// Counts the worker's next updates, at most so many, of the packet at this place of its share, of
// which it has counted the first rows. Answers how many, or None where a push waits.
#[inline(always)]
fn count_packet<K: Kind>(
    counter: &mut Counter<K>,
    share: &Positions,
    packets: &[Packet],
    options: &Options,
    shape: &Shape,
    place: u32,
    first: u32,
    count: u32,
) -> Option<u32>
    requires same { shape.now ≡ options.now.shape }
    requires shape { IsShape options.now.shape }
    requires fit { IsFit options.now (length packets.now) share.now counter.old }
    requires room { counter.old.taken + options.now.lane < counter.old.room }
    requires next { (first < options.now.shape.rows) × (counter.old.sketch.counted ≡ options.now.shape.rows * place + first) }
    requires count { (1 ≤ count) × (counter.old.sketch.counted + count ≤ counter.old.sketch.room) }
    ensures some { IfSome result (λ some. (1 ≤ some) × (some ≤ count)) }
    ensures whole { IfSome result (λ some. some < count → first + some ≡ options.now.shape.rows) }
    ensures keeps { (t : Terms) (w : ℕ) (x : Worker) → HasShare K.rules t options.now.shape packets.now w share.now
        → Keeps K.stands t w counter.old x
        → MatchOption result (HasCounted K.stands t w x count true counter.new) (λ some. HasCounted K.stands t w x some false counter.new) }
    ensures moved { MatchOption result (HasMoved counter.old counter.new count true) (λ some. HasMoved counter.old counter.new some false) }
{
    let _options = options;
    let last = shape.rows.min(first + count);
    let position = share.at(place);
    let packet = &packets[position as usize];
    if count_rows(counter, packet, position, shape, first, last) {
        None
    } else {
        Some(last - first)
    }
}

// Counts what the packet adds in some of its rows. Answers whether a push has to wait. The key's
// bytes are hashed once.
#[inline(always)]
fn count_rows<K: Kind>(
    counter: &mut Counter<K>,
    packet: &Packet,
    position: u32,
    shape: &Shape,
    first: u32,
    last: u32,
) -> bool
    requires shape { IsShape shape.now }
    requires rows { (first ≤ last) × (last ≤ shape.now.rows) }
    requires updates { counter.old.sketch.counted + (last - first) ≤ counter.old.sketch.room }
    requires cells { length counter.old.sketch.held ≡ size_of shape.now }
    requires queue { length counter.old.queue ≤ counter.old.taken + counter.old.lane }
    requires room { counter.old.taken + counter.old.lane < counter.old.room }
    ensures keeps { (t : Terms) (w : ℕ) (x : Worker) → t.rules ≡ K.rules → Keeps K.stands t w counter.old x
        → AreNext t w x shape.now packet.now position first last → HasCounted K.stands t w x (last - first) result counter.new }
    ensures moved { HasMoved counter.old counter.new (last - first) result }
{
    let _amount = packet.amount;
    let key_hash = key_hash(&packet.key);
    for row in first..last {
        let hash = hash_in_row(key_hash, row);
        let cell = cell_in_row(shape, hash, row);
        let value = K::value_in_row(shape, packet, row, hash);
        if is_waiting(counter.count(position, &packet.key, cell, value)) {
            return true;
        }
    }
    false
}

fn is_waiting(reply: Reply) -> bool
    ensures { result ≡ is_waits reply }
{
    match reply {
        Reply::Waits => true,
        _ => false,
    }
}
