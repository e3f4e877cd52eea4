//! A run in rounds.
ghost use Rattle.std.specs.Prelude.{◌≡◌, ◌<◌, ◌≤◌, ◌^◌, List, All, false, length, IfOk};
ghost use Rattle.std.specs.List.{list_any};
ghost use Rattle.hash_rows.specs.Lawful.{IsLawful};
ghost use Rattle.hash_rows.specs.Limits.{most_records};
ghost use Rattle.hash_rows.specs.Sequential.{sequential_table};
ghost use Rattle.hash_rows.specs.declared.options.Sketch.TheVariants.{CountMin};
ghost use Rattle.push_history.specs.declared.event.Event.{Event};
ghost use Rattle.push_history.specs.Journal.{journal_of_lists, keys_of, terms_of};
ghost use Rattle.push_history.specs.LagRun.{lag_run};
ghost use Rattle.push_history.specs.Rounds.{AreRounds, IsRoundsJournal};
ghost use Rattle.round_law.specs.Outcome.{IsNearAnswer, IsWholeRun, MatchesFront};
ghost use Rattle.octo_engine.specs.Parts.{is_busy_part};
ghost use Rattle.octo_engine.specs.Rounds.{IsAfter};

use crate::looks::{asked_keys, look_at_end, looks_wanted};
use crate::rounds::{run_while_busy, run_while_busy_alone};
use crate::settle::settle;
use crate::setup::{parts_of, state_of};
use crate::worker::Part;
use flow_base::NoMemory;
use hash_rows::{Answers, Keys, Kind, Options, Packet, Table};
use listed::Listed;
use live_state::State;
use push_history::RunLists;
use std::alloc::Global;
use std::thread::Threads;

/// What a run comes to.
#[derive(Drop)]
pub struct Settled<K: Kind> {
    /// The table of all packets.
    pub table: Table<K>,
    /// What its journal tells.
    pub lists: RunLists,
}

/// Counts the packets in rounds: the workers count side by side, their messages are folded in
/// order, and readers ask after each round.
pub fn run_rounds<K: Kind, R: Threads + Sync>(
    rt: &R,
    alloc: Global,
    packets: &[Packet],
    options: &Options,
) -> Result<Settled<K>, NoMemory>
    requires lawful { IsLawful options.now }
    requires sketch { options.now.sketch ≡ K.sketch }
    requires packets { length packets.now ≤ most_records }
    ensures journal { IfOk result (λ s. IsRoundsJournal packets.now options.now (journal_of_lists options.now s.lists)) }
    ensures whole { IfOk result (λ s. IsWholeRun options.now s.lists) }
    ensures upto { IfOk result (λ s. (events : List Event) → AreRounds (terms_of packets.now options.now) options.now events
        → All (MatchesFront (lag_run (terms_of packets.now options.now) options.now.readers events)) s.lists.answers.items) }
    ensures bracket { IfOk result (λ s. options.now.sketch ≡ CountMin
        → (events : List Event) → AreRounds (terms_of packets.now options.now) options.now events
        → All (IsNearAnswer (terms_of packets.now options.now) options.now
        (lag_run (terms_of packets.now options.now) options.now.readers events)) s.lists.answers.items) }
    ensures table { IfOk result (λ s. s.table ≡ sequential_table K.rules options.now.shape packets.now) }
{
    let mut parts = parts_of(alloc, packets, options)?;
    let mut state = state_of(alloc, options)?;
    let keys = asked_keys(alloc, options)?;
    let mut looks = Listed::new(alloc, looks_wanted(options))?;
    run_while_busy(
        rt,
        alloc,
        packets,
        options,
        &keys,
        parts.as_mut_slice(),
        &mut state,
        &mut looks,
    )?;
    end_run(alloc, packets, options, &keys, parts, state, looks)
}

/// Counts the packets in the same rounds, one worker after another: it starts no thread.
pub fn run_rounds_alone<K: Kind>(
    alloc: Global,
    packets: &[Packet],
    options: &Options,
) -> Result<Settled<K>, NoMemory>
    requires lawful { IsLawful options.now }
    requires sketch { options.now.sketch ≡ K.sketch }
    requires packets { length packets.now ≤ most_records }
    ensures journal { IfOk result (λ s. IsRoundsJournal packets.now options.now (journal_of_lists options.now s.lists)) }
    ensures whole { IfOk result (λ s. IsWholeRun options.now s.lists) }
    ensures upto { IfOk result (λ s. (events : List Event) → AreRounds (terms_of packets.now options.now) options.now events
        → All (MatchesFront (lag_run (terms_of packets.now options.now) options.now.readers events)) s.lists.answers.items) }
    ensures bracket { IfOk result (λ s. options.now.sketch ≡ CountMin
        → (events : List Event) → AreRounds (terms_of packets.now options.now) options.now events
        → All (IsNearAnswer (terms_of packets.now options.now) options.now
        (lag_run (terms_of packets.now options.now) options.now.readers events)) s.lists.answers.items) }
    ensures table { IfOk result (λ s. s.table ≡ sequential_table K.rules options.now.shape packets.now) }
{
    let mut parts = parts_of(alloc, packets, options)?;
    let mut state = state_of(alloc, options)?;
    let keys = asked_keys(alloc, options)?;
    let mut looks = Listed::new(alloc, looks_wanted(options))?;
    run_while_busy_alone(
        alloc,
        packets,
        options,
        &keys,
        parts.as_mut_slice(),
        &mut state,
        &mut looks,
    )?;
    end_run(alloc, packets, options, &keys, parts, state, looks)
}

// Takes the looks that are left once no worker is busy, and settles the run.
fn end_run<K: Kind>(
    alloc: Global,
    packets: &[Packet],
    options: &Options,
    keys: &Keys,
    parts: Vec<Part<K>>,
    state: State<K>,
    mut looks: Answers,
) -> Result<Settled<K>, NoMemory>
    requires lawful { IsLawful options.now }
    requires sketch { options.now.sketch ≡ K.sketch }
    requires packets { length packets.now ≤ most_records }
    requires amounts { All (λ p. p.amount < 2 ^ 32) packets.now }
    requires keys { keys.now.items ≡ keys_of options.now }
    requires idle { list_any is_busy_part parts.items ≡ false }
    requires after { IsAfter K.stands K.rules (terms_of packets.now options.now) options.now packets.now parts.items state looks }
    ensures journal { IfOk result (λ s. IsRoundsJournal packets.now options.now (journal_of_lists options.now s.lists)) }
    ensures whole { IfOk result (λ s. IsWholeRun options.now s.lists) }
    ensures upto { IfOk result (λ s. (events : List Event) → AreRounds (terms_of packets.now options.now) options.now events
        → All (MatchesFront (lag_run (terms_of packets.now options.now) options.now.readers events)) s.lists.answers.items) }
    ensures bracket { IfOk result (λ s. options.now.sketch ≡ CountMin
        → (events : List Event) → AreRounds (terms_of packets.now options.now) options.now events
        → All (IsNearAnswer (terms_of packets.now options.now) options.now
        (lag_run (terms_of packets.now options.now) options.now.readers events)) s.lists.answers.items) }
    ensures table { IfOk result (λ s. s.table ≡ sequential_table K.rules options.now.shape packets.now) }
{
    look_at_end(alloc, &state, keys, options, &mut looks)?;
    let settled = settle(alloc, parts, state, &looks, packets, options)?;
    Ok(settled)
}
