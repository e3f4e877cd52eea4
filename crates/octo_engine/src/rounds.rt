//! Rounds: the workers count, their messages are folded, and readers look.
ghost use Rattle.std.specs.Prelude.{◌≡◌, ◌<◌, ◌≤◌, ◌+◌, ℕ, length, false, OnOk, Some, slice_get, slice_index_or, ◌*◌, slice_range, fold};
ghost use Rattle.std.specs.List.{list_any, flat_map, range_with_len};
ghost use Rattle.hash_rows.specs.Lawful.{IsLawful};
ghost use Rattle.push_history.specs.Journal.{keys_of, terms_of};
ghost use Rattle.push_history.specs.LagRun.{Terms, fresh_worker, Worker};
ghost use Rattle.push_history.specs.OwnSteps.{folded_in_round, own_round};
ghost use Rattle.live_state.specs.Fold.{state_after, absorbed, layout_in};
ghost use Rattle.round_law.specs.OwnRounds.{folded_after, own_rounds};
ghost use Rattle.octo_engine.specs.Looks.{AreLooks, Runs};
ghost use Rattle.octo_engine.specs.Parts.{AreEnds, block, is_busy_part, messages_in, HasRun, IsReadyForBlock, RanBlock};
ghost use Rattle.octo_engine.specs.Rounds.{AreWorkersAfter, AreTerms, IsAfter};
ghost use Rattle.push_rule.specs.Counters.{Extends};
ghost use Rattle.push_rule.specs.Keeps.{Keeps};
ghost use Rattle.octo_engine.specs.Counts.{HasShare, IsFit};

use crate::looks::look_once;
use crate::worker::{BLOCK, Part, run_block};
use flow_base::NoMemory;
use hash_rows::{Answers, Keys, Kind, Options, Packet, Push};
use live_state::State;
use push_rule::Counter;
use shares::Positions;
use std::alloc::Global;
use std::thread::{Threads, for_each_mut};

/// Runs rounds while a worker has updates left or its lane a message.
pub fn run_while_busy<K: Kind, R: Threads + Sync>(
    rt: &R,
    alloc: Global,
    packets: &[Packet],
    options: &Options,
    keys: &Keys,
    parts: &mut [Part<K>],
    state: &mut State<K>,
    looks: &mut Answers,
) -> Result<(), NoMemory>
    requires lawful { IsLawful options.now }
    requires keys { keys.now.items ≡ keys_of options.now }
    requires terms { AreTerms K.rules (terms_of packets.now options.now) options.now packets.now }
    requires after { IsAfter K.stands K.rules (terms_of packets.now options.now) options.now packets.now parts.old state.old looks.old }
    ensures idle { OnOk result (list_any is_busy_part parts.new ≡ false) }
    ensures after { OnOk result (IsAfter K.stands K.rules
        (terms_of packets.now options.now) options.now packets.now parts.new state.new looks.new) }
{
    'busy: while any_busy(parts) {
        run_workers(rt, parts, packets, options);
        fold_block(alloc, options, keys, parts, state, looks)?;
    }
    Ok(())
}

/// Runs rounds in the same way, one worker after another: it starts no thread.
pub fn run_while_busy_alone<K: Kind>(
    alloc: Global,
    packets: &[Packet],
    options: &Options,
    keys: &Keys,
    parts: &mut [Part<K>],
    state: &mut State<K>,
    looks: &mut Answers,
) -> Result<(), NoMemory>
    requires lawful { IsLawful options.now }
    requires keys { keys.now.items ≡ keys_of options.now }
    requires terms { AreTerms K.rules (terms_of packets.now options.now) options.now packets.now }
    requires after { IsAfter K.stands K.rules (terms_of packets.now options.now) options.now packets.now parts.old state.old looks.old }
    ensures idle { OnOk result (list_any is_busy_part parts.new ≡ false) }
    ensures after { OnOk result (IsAfter K.stands K.rules
        (terms_of packets.now options.now) options.now packets.now parts.new state.new looks.new) }
{
    'busy: while any_busy(parts) {
        run_workers_alone(parts, packets, options);
        fold_block(alloc, options, keys, parts, state, looks)?;
    }
    Ok(())
}

// Folds the rounds of a block, one after another, and takes the looks that are wanted after each.
fn fold_block<K: Kind>(
    alloc: Global,
    options: &Options,
    keys: &Keys,
    parts: &[Part<K>],
    state: &mut State<K>,
    looks: &mut Answers,
) -> Result<(), NoMemory>
    requires keys { keys.now.items ≡ keys_of options.now }
    requires ends { (w : ℕ) (p : _) → slice_get parts.now w ≡ Some p → AreEnds p.ends.items block p.counter.taken }
    requires taken { (w : ℕ) (p : _) → slice_get parts.now w ≡ Some p → p.counter.taken ≤ length p.counter.queue }
    ensures folded { OnOk result ((t : Terms) (n : ℕ) → Runs K.rules t options.now
        → ((k : ℕ) → k < block
        → flat_map (messages_in k) parts.now ≡ flat_map
        (λ w. folded_in_round t options.now w (own_rounds t options.now w (n + k) fresh_worker))
        (range_with_len 0 options.now.workers))
        → state.old ≡ state_after K.rules (layout_in options.now) (folded_after t options.now n)
        → AreLooks K.rules t options.now n looks.old
        → (state.new ≡ state_after K.rules (layout_in options.now) (folded_after t options.now (n + block)))
        × AreLooks K.rules t options.now (n + block) looks.new) }
{
    'rounds: for round in 0..BLOCK {
        fold_round(state, parts, round);
        look_once(alloc, state, keys, options, looks)?;
    }
    Ok(())
}

// Whether a worker has updates left, or its lane a message.
fn any_busy<K: Kind>(parts: &[Part<K>]) -> bool
    ensures { result ≡ list_any is_busy_part parts.now }
{
    for part in parts {
        if part.counter.is_busy() {
            return true;
        }
    }
    false
}

// Runs a block of rounds of each worker, the workers beside each other.
fn run_workers<K: Kind, R: Threads + Sync>(
    rt: &R,
    parts: &mut [Part<K>],
    packets: &[Packet],
    options: &Options,
)
    requires lawful { IsLawful options.now }
    requires sound { (w : ℕ) (p : _) → w < length parts.old → IsReadyForBlock options.now (length packets.now)
        (slice_index_or parts.old w p) }
    ensures len { length parts.new ≡ length parts.old }
    ensures ran { (w : ℕ) (p : _) → w < length parts.old
        → RanBlock K.rules K.stands options.now packets.now (slice_index_or parts.old w p) (slice_index_or parts.new w p) }
{
    let threads = parts.len();
    if threads == 0 {
        return;
    }
    for_each_mut(
        rt,
        parts,
        threads,
        &|_: usize, part: &mut Part<K>|
            requires { IsLawful options.now × IsReadyForBlock options.now (length packets.now) part.now }
            ensures { RanBlock K.rules K.stands options.entry.now packets.entry.now part.entry.now part.exit.now }
        { run_block(part, packets, options) },
    );
}

// The same, one worker after another.
fn run_workers_alone<K: Kind>(parts: &mut [Part<K>], packets: &[Packet], options: &Options)
    requires lawful { IsLawful options.now }
    requires sound { (w : ℕ) (p : _) → w < length parts.old → IsReadyForBlock options.now (length packets.now)
        (slice_index_or parts.old w p) }
    ensures len { length parts.new ≡ length parts.old }
    ensures ran { (w : ℕ) (p : _) → w < length parts.old
        → RanBlock K.rules K.stands options.now packets.now (slice_index_or parts.old w p) (slice_index_or parts.new w p) }
{
    for part in parts.iter_mut() {
        run_block(part, packets, options);
    }
}

// Folds what each worker gave away in a round of the block, by worker.
fn fold_round<K: Kind>(state: &mut State<K>, parts: &[Part<K>], round: u32)
    requires round { round < block }
    requires ends { (w : ℕ) (p : _) → slice_get parts.now w ≡ Some p → AreEnds p.ends.items block p.counter.taken }
    requires taken { (w : ℕ) (p : _) → slice_get parts.now w ≡ Some p → p.counter.taken ≤ length p.counter.queue }
    ensures { state.new ≡ fold (absorbed K.rules) state.old (flat_map (messages_in round) parts.now) }
{
    for part in parts {
        fold_part(state, part, round);
    }
}

// Folds what the worker gave away in a round of the block.
fn fold_part<K: Kind>(state: &mut State<K>, part: &Part<K>, round: u32)
    requires round { round < block }
    requires ends { AreEnds part.now.ends.items block part.now.counter.taken }
    requires taken { part.now.counter.taken ≤ length part.now.counter.queue }
    ensures { state.new ≡ fold (absorbed K.rules) state.old (messages_in round part.now) }
{
    let start = *part.ends.get(round) as usize;
    let end = *part.ends.get(round + 1) as usize;
    fold_messages(state, &part.counter.messages()[start..end]);
}

fn fold_messages<K: Kind>(state: &mut State<K>, messages: &[Push])
    ensures { state.new ≡ fold (absorbed K.rules) state.old messages.now }
{
    for message in messages {
        state.absorb(message);
    }
}
