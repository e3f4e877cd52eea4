ghost use Rattle.std.specs.Prelude.{◌≡◌, ◌≤◌, ◌+◌, false, take, length, map, IfOk, OnOk, IsTrue};
ghost use Rattle.std.specs.BTreeSet.{insert_key};
ghost use Rattle.std.specs.Ordering.{is_lt};
ghost use Rattle.heavy_keys.specs.Ranks.{flow_at_rank, flow_rank, rank_order};

use crate::ranks::Rank;
use flow_base::NoMemory;
use hash_rows::{Flow, Flows};
use listed::Listed;
use packet_key::FlowKey;
use std::alloc::Global;
use std::cmp::{Ordering, Reverse};
use std::collections::BTreeSet;

/// The first of the ranks that were offered, in order.
pub type TopFlows = BTreeSet<Rank>;

/// Offers a rank to the top, of which there are at most `most`. One behind all of them costs a
/// comparison.
#[inline(always)]
pub fn offer(top: &mut TopFlows, most: u32, estimate: i64, key: &FlowKey) -> Result<(), NoMemory>
    requires { length top.old.keys ≤ most }
    ensures { OnOk result (top.new.keys ≡ take most (insert_key rank_order top.old.keys (flow_rank estimate key.now))) }
{
    if is_late(top, most, estimate, key) {
        return Ok(());
    }
    put(top, most, (Reverse(estimate), *key))
}

// Whether the rank of a key is not before the last of a full list.
#[inline(always)]
fn is_late(top: &TopFlows, most: u32, estimate: i64, key: &FlowKey) -> bool
    requires { length top.now.keys ≤ most }
    ensures { IsTrue result → take most (insert_key rank_order top.now.keys (flow_rank estimate key.now)) ≡ top.now.keys }
{
    if top.len() < most as usize {
        return false;
    }
    match top.last() {
        Some(last) => is_behind(estimate, key, last),
        None => true,
    }
}

// Whether the rank of a key is not before another, which the estimates mostly tell.
#[inline(always)]
fn is_behind(estimate: i64, key: &FlowKey, last: &Rank) -> bool
    ensures { IsTrue result → is_lt (rank_order (flow_rank estimate key.now) last.now) ≡ false }
{
    let least = last.0;
    if estimate < least.0 {
        return true;
    }
    is_not_before((Reverse(estimate), *key), last)
}

#[inline(never)]
fn is_not_before(rank: Rank, last: &Rank) -> bool
    ensures { IsTrue result → is_lt (rank_order rank last.now) ≡ false }
{
    match rank.cmp(last) {
        Ordering::Less => false,
        Ordering::Equal | Ordering::Greater => true,
    }
}

// Puts the rank where it belongs, and drops the last one where it is one too many.
#[inline(never)]
fn put(top: &mut TopFlows, most: u32, rank: Rank) -> Result<(), NoMemory>
    requires { length top.old.keys ≤ most }
    ensures { OnOk result (top.new.keys ≡ take most (insert_key rank_order top.old.keys rank)) }
{
    match top.insert(rank) {
        Ok(_) => {
            cut(top, most);
            Ok(())
        }
        Err(_) => Err(NoMemory),
    }
}

// Drops the last rank where it is one too many.
fn cut(top: &mut TopFlows, most: u32)
    requires { length top.old.keys ≤ most + 1 }
    ensures { top.new.keys ≡ take most top.old.keys }
{
    if top.len() > most as usize {
        let _ = top.pop_last();
    }
}

/// The flows of the top.
pub fn flows_of(alloc: Global, mut top: TopFlows) -> Result<Flows, NoMemory>
    ensures { IfOk result (λ flows. flows.items ≡ map flow_at_rank top.keys) }
{
    let Ok(room) = u32::try_from(top.len()) else {
        return Err(NoMemory);
    };
    let mut flows = Listed::new(alloc, room)?;
    while let Some((Reverse(estimate), key)) = top.pop_first() {
        flows.push(Flow { key, estimate });
    }
    Ok(flows)
}
