ghost use Rattle.std.specs.Prelude.{◌≡◌, ◌<◌, ◌++◌, ◌∷◌, ℕ, List, [], All, IfOk};
ghost use Rattle.prefixes.specs.declared.network.Prefix.{Prefix};
ghost use Rattle.prefixes.specs.Networks.{IsNetwork};
ghost use Rattle.prefix_stack.specs.Descent.{IsLevelOf, IsParent, candidates_of, child_of, children_of, prefixes_of};

use crate::hit::{Hit, Reached};
use count_min::CountMin;
use flow_base::NoMemory;
use hash_rows::Table;
use listed::Listed;
use prefixes::{Prefix, addresses_in, prefix_key};
use std::alloc::Global;

// The network of this number, among the 256 in it that are 8 bits longer.
#[tactic(auto, unfolding(crate::specs::Descent::child_of))]
fn child_of(length: u32, parent: &Prefix, number: u32) -> Prefix
    requires parent { IsParent length parent.now }
    requires number { number < 256 }
    ensures child { result ≡ child_of parent.now number }
    ensures lawful { IsNetwork result }
{
    Prefix {
        bits: parent.bits + number * addresses_in(length),
        length,
    }
}

// Adds the candidate to what was found, where it qualifies.
fn consider(table: &Table<CountMin>, least: i64, candidate: Prefix, reached: &mut Reached)
    requires { IsNetwork candidate }
    ensures { (limit : ℕ) (candidates : List Prefix) → IsLevelOf table.now limit least candidates reached.old
        → IsLevelOf table.now limit least (candidates ++ candidate ∷ []) reached.new }
{
    let estimate = table.estimate(&prefix_key(&candidate));
    if estimate < least {
        return;
    }
    if reached.hits.len() < reached.hits.room() {
        reached.hits.push(Hit {
            prefix: candidate,
            estimate,
        });
    } else {
        reached.more = true;
    }
}

// The same of all networks in the parent that are 8 bits longer.
fn consider_children(
    table: &Table<CountMin>,
    least: i64,
    length: u32,
    parent: &Prefix,
    reached: &mut Reached,
)
    requires { IsParent length parent.now }
    ensures { (limit : ℕ) (candidates : List Prefix) → IsLevelOf table.now limit least candidates reached.old
        → IsLevelOf table.now limit least (candidates ++ children_of parent.now) reached.new }
{
    for number in 0..256 {
        consider(table, least, child_of(length, parent, number), reached);
    }
}

/// The first hits of the length, among the networks that are 8 bits longer than these, and whether
/// there are others.
pub(crate) fn level(
    alloc: Global,
    table: &Table<CountMin>,
    limit: u32,
    least: i64,
    length: u32,
    parents: &[Hit],
) -> Result<Reached, NoMemory>
    requires { All (IsParent length) (prefixes_of parents.now) }
    ensures { IfOk result (IsLevelOf table.now limit least (candidates_of (prefixes_of parents.now))) }
{
    let mut reached = Reached {
        hits: Listed::new(alloc, limit)?,
        more: false,
    };
    for parent in parents {
        consider_children(table, least, length, &parent.prefix, &mut reached);
    }
    Ok(reached)
}
