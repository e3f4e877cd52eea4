ghost use Rattle.std.specs.Prelude.{◌≡◌, ◌<◌, ◌≤◌, ◌+◌, ◌++◌, ◌∷◌, [], All, length, map, IfOk};
ghost use Rattle.hash_rows.specs.Limits.{most_records};
ghost use Rattle.prefixes.specs.Networks.{AreWatched, IsLength, IsNetwork, prefix_key};
ghost use Rattle.prefix_stack.specs.Descent.{IsFound, MissesNone};
ghost use Rattle.prefix_stack.specs.Levels.{level_packets, level_table, level_tables};
ghost use Rattle.prefix_stack.specs.Runs.{AreLevelAnswers, IsNeverBelow, HaveAnswers, IsStackRun, level_options, watched_at};

use crate::descent::descend;
use crate::hit::{AnswerRows, Stack, Tables};
use crate::packets::level_packets;
use count_min::CountMin;
use flow_base::NoMemory;
use hash_rows::{Answers, Keys, Options, Packet, Table};
use listed::Listed;
use octo_engine::run_rounds;
use prefixes::{Prefix, prefix_key};
use shares::amounts_fit;
use std::alloc::Global;
use std::thread::Threads;

// Adds the key of the network, where it has the length.
#[tactic(auto, unfolding(crate::specs::Runs::watched_at))]
fn add_key(keys: &mut Keys, bits: u32, prefix: &Prefix)
    requires network { IsNetwork prefix.now }
    requires room { length keys.old.items < keys.old.room }
    ensures items { keys.new.items ≡ keys.old.items ++ map prefix_key (watched_at bits (prefix.now ∷ [])) }
    ensures few { length keys.new.items ≤ length keys.old.items + 1 }
    ensures room { keys.new.room ≡ keys.old.room }
{
    if prefix.length == bits {
        keys.push(prefix_key(prefix));
    }
}

// The keys of the watched networks of the length.
fn keys_at(alloc: Global, watch: &[Prefix], bits: u32) -> Result<Keys, NoMemory>
    requires { AreWatched watch.now }
    ensures items { IfOk result (λ keys. keys.items ≡ map prefix_key (watched_at bits watch.now)) }
    ensures room { IfOk result (λ keys. keys.room ≡ 16) }
{
    let mut keys = Listed::new(alloc, 16)?;
    for prefix in watch {
        add_key(&mut keys, bits, prefix);
    }
    Ok(keys)
}

// The options with these networks as watched keys.
#[tactic(auto, unfolding(crate::specs::Runs::level_options))]
fn options_at(
    alloc: Global,
    options: &Options,
    watch: &[Prefix],
    bits: u32,
) -> Result<Options, NoMemory>
    requires { AreWatched watch.now }
    ensures { IfOk result (λ at. at ≡ level_options options.now watch.now bits) }
{
    let keys = keys_at(alloc, watch, bits)?;
    Ok(Options {
        sketch: options.sketch,
        shape: options.shape,
        amount: options.amount,
        share: options.share,
        workers: options.workers,
        threshold: options.threshold,
        lane: options.lane,
        batch: options.batch,
        round: options.round,
        full: options.full,
        mode: options.mode,
        readers: options.readers,
        asks: options.asks,
        watch: keys,
        heavy: options.heavy,
        least: options.least,
        journal: options.journal,
    })
}

// The table and the answers of the length.
fn run_level<R: Threads + Sync>(
    rt: &R,
    alloc: Global,
    packets: &[Packet],
    options: &Options,
    watch: &[Prefix],
    bits: u32,
) -> Result<(Table<CountMin>, Answers), NoMemory>
    requires options { IsStackRun options.now }
    requires few { length packets.now ≤ most_records }
    requires watch { AreWatched watch.now }
    requires bits { IsLength bits }
    ensures table { IfOk result (λ level. level.0 ≡ level_table options.now.shape packets.now bits) }
    ensures answers { IfOk result (λ level. AreLevelAnswers (level_packets bits packets.now)
        (level_options options.now watch.now bits) level.1.items) }
{
    let packets = level_packets(alloc, packets, bits)?;
    let options = options_at(alloc, options, watch, bits)?;
    let settled = run_rounds::<CountMin, R>(rt, alloc, packets.as_slice(), &options)?;
    Ok((settled.table, settled.lists.answers))
}

/// Counts the packets by their sources' networks, in a run in rounds for each of the four lengths, and
/// descends from the networks that reach the options' least number to those in them.
pub fn run_levels<R: Threads + Sync>(
    rt: &R,
    alloc: Global,
    packets: &[Packet],
    options: &Options,
    watch: &[Prefix],
) -> Result<Stack, NoMemory>
    requires options { IsStackRun options.now }
    requires few { length packets.now ≤ most_records }
    requires watch { AreWatched watch.now }
    ensures tables { IfOk result (λ s. s.tables.items ≡ level_tables options.now.shape packets.now) }
    ensures answers { IfOk result (λ s. HaveAnswers packets.now options.now watch.now 4 s.answers.items) }
    ensures found { IfOk result (λ s. IsFound s.tables.items options.now.heavy options.now.least s.found.hits.items s.found.more) }
    ensures networks { IfOk result (λ s. All (λ hit. IsNetwork hit.prefix) s.found.hits.items) }
    ensures never_below { IfOk result (λ s. IsNeverBelow packets.now s.tables.items) }
    ensures complete { IfOk result (λ s. MissesNone packets.now options.now.least s.found.hits.items s.found.more) }
{
    amounts_fit(packets);
    let mut tables = Listed::new(alloc, 4)?;
    let mut answers = Listed::new(alloc, 4)?;
    for place in 0..4 {
        let (table, row) = run_level(rt, alloc, packets, options, watch, 8 * (place + 1))?;
        tables.push(table);
        answers.push(row);
    }
    let found = descend(alloc, tables.as_slice(), options.heavy, options.least)?;
    Ok(Stack {
        tables,
        answers,
        found,
    })
}
