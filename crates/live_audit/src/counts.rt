ghost use Rattle.std.specs.Prelude.{◌≡◌, ◌≤◌, ◌&&◌, ℕ, All, length, not, int_le, count_by, if◌then◌else◌, replicate, pos, IfOk};
ghost use Rattle.std.specs.List.{flat_map};
ghost use Rattle.hash_rows.specs.Shapes.{IsShape, size_of};
ghost use Rattle.push_history.specs.LiveHeavy.{is_among, notes_of};
ghost use Rattle.told_table.specs.Tables.{FitsIn, all_messages};
ghost use Rattle.live_audit.specs.Counted.{AreFew, is_missed, is_possible, is_sure};

use crate::key_set::KeySet;
use flow_base::NoMemory;
use hash_rows::{Kind, Push, Shape, Table};
use packet_key::FlowKey;
use std::alloc::Global;
use told_table::tell;

// How many of the messages have a key that isn't live.
fn others_in(live: &KeySet, messages: &[Push]) -> u64
    ensures count { result ≡ count_by (is_missed live.now) messages.now }
    ensures most { result ≤ length messages.now }
{
    let mut count = 0;
    for message in messages {
        if !live.has(&message.key) {
            count += 1;
        }
    }
    count
}

/// How many of all messages have a key that isn't live.
pub fn count_others(live: &KeySet, lists: &[Vec<Push>]) -> u64
    requires { AreFew lists.now }
    ensures { result ≡ count_by (is_missed live.now) (all_messages lists.now) }
{
    let mut count = 0;
    for list in lists {
        count += others_in(live, list);
    }
    count
}

// How many of these are possible: the table says enough of their key.
fn possible_in<K: Kind>(table: &Table<K>, least: i64, live: &KeySet, messages: &[Push]) -> u64
    ensures count { result ≡ count_by (is_possible K.rules table.now least live.now) messages.now }
    ensures most { result ≤ length messages.now }
{
    let mut count = 0;
    for message in messages {
        if !live.has(&message.key) && least <= table.estimate(&message.key) {
            count += 1;
        }
    }
    count
}

/// How many of all messages are possible and have a key that isn't live.
pub fn count_possible<K: Kind>(
    table: &Table<K>,
    least: i64,
    live: &KeySet,
    lists: &[Vec<Push>],
) -> u64
    requires { AreFew lists.now }
    ensures { result ≡ count_by (is_possible K.rules table.now least live.now) (all_messages lists.now) }
{
    let mut count = 0;
    for list in lists {
        count += possible_in(table, least, live, list);
    }
    count
}

// 1 where the table says enough of a key that isn't live, else 0.
fn one_sure<K: Kind>(table: &Table<K>, least: i64, live: &KeySet, key: &FlowKey) -> u64
    ensures one { result ≡ (if is_sure least live.now
        (record { key = key.now; estimate = K.rules.estimate table.now.shape table.now.cells key.now }) then 1 else 0) }
    ensures most { result ≤ 1 }
{
    if least <= table.estimate(key) && !live.has(key) {
        1
    } else {
        0
    }
}

// How many of a worker's messages are sure: what the table says of the key is enough as soon as
// they are told.
fn sure_in<K: Kind>(table: &mut Table<K>, least: i64, live: &KeySet, messages: &[Push]) -> u64
    requires zeros { table.old.cells ≡ replicate (size_of table.old.shape) (pos 0) }
    requires fit { All (FitsIn K.rules table.old.shape) messages.now }
    ensures count { result ≡ count_by (is_sure least live.now) (notes_of K.rules table.old.shape messages.now) }
    ensures most { result ≤ length messages.now }
{
    let mut count = 0;
    for message in messages {
        tell(table, message);
        count += one_sure(table, least, live, &message.key);
    }
    count
}

/// How many messages are sure and have a key that isn't live.
pub fn count_sure<K: Kind>(
    alloc: Global,
    shape: Shape,
    least: i64,
    live: &KeySet,
    lists: &[Vec<Push>],
) -> Result<u64, NoMemory>
    requires shape { IsShape shape }
    requires few { AreFew lists.now }
    requires fit { All (λ list. All (FitsIn K.rules shape) list.items) lists.now }
    ensures { IfOk result (λ count. count ≡ count_by (is_sure least live.now)
        (flat_map (λ list. notes_of K.rules shape list.items) lists.now)) }
{
    let mut count = 0;
    for list in lists {
        let mut table: Table<K> = Table::new(alloc, shape)?;
        count += sure_in(&mut table, least, live, list);
    }
    Ok(count)
}
