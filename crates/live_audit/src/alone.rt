ghost use Rattle.std.specs.Prelude.{◌≡◌, ◌≤◌, ◌∷◌, ◌&&◌, ◌||◌, ◌==◌, [], ℕ, List, Bool, fold, length, not, nat_lt, true, false, IfOk, MatchOption};
ghost use Rattle.packet_key.specs.declared.key.FlowKey.{FlowKey};
ghost use Rattle.hash_rows.specs.Lawful.{IsLawful};
ghost use Rattle.push_history.specs.LiveHeavy.{live_keys, missed_keys, same_key};
ghost use Rattle.live_state.specs.Fold.{absorbed, state_after, layout_in};
ghost use Rattle.told_table.specs.Tables.{AreSent, all_messages, lists_of};
ghost use Rattle.audit_law.specs.declared.failure.Value.TheVariants.{Key, Number};
ghost use Rattle.audit_law.specs.Tests.{first_failing, test};
ghost use Rattle.audit_law.specs.LiveTests.{is_lone, key_at, key_there};
ghost use Rattle.live_audit.specs.Alone.{IsAlone};
ghost use Rattle.live_audit.specs.Counted.{AreFew};

use crate::tests::{failure_of, number_failure};
use audit_law::{Failure, Value, first_of};
use flow_base::NoMemory;
use hash_rows::{Kind, Options, Push};
use heavy_keys::Heavy;
use live_state::State;
use packet_key::{FlowKey, same_key};
use std::alloc::Global;

// Whether one worker alone has messages.
fn is_lone(lists: &[Vec<Push>]) -> bool
    requires { AreFew lists.now }
    ensures { result ≡ is_lone (lists_of lists.now) }
{
    let mut count = 0_u32;
    for list in lists {
        if !list.is_empty() {
            count += 1;
        }
    }
    count == 1
}

// Folds the messages.
fn fold_list<K: Kind>(state: &mut State<K>, messages: &[Push])
    ensures { state.new ≡ fold (absorbed K.rules) state.old messages.now }
{
    for message in messages {
        state.absorb(message);
    }
}

// The state after all messages.
fn state_of<K: Kind>(
    alloc: Global,
    options: &Options,
    lists: &[Vec<Push>],
) -> Result<State<K>, NoMemory>
    requires lawful { IsLawful options.now }
    ensures { IfOk result (λ state. state ≡ state_after K.rules (layout_in options.now) (all_messages lists.now)) }
{
    let mut state = State::new(
        alloc,
        options.shape,
        options.workers,
        options.heavy,
        options.least,
    )?;
    for list in lists {
        fold_list(&mut state, list);
    }
    Ok(state)
}

/// The state after all messages, where one worker alone has some.
pub fn alone_of<K: Kind>(
    alloc: Global,
    options: &Options,
    lists: &[Vec<Push>],
) -> Result<Option<State<K>>, NoMemory>
    requires lawful { IsLawful options.now }
    requires workers { length lists.now ≡ options.now.workers }
    requires few { AreFew lists.now }
    requires sent { AreSent K.rules options.now.shape (lists_of lists.now) }
    ensures { IfOk result (λ alone. IsAlone (is_lone (lists_of lists.now))
        (live_keys K.rules options.now.shape options.now.heavy options.now.least (all_messages lists.now))
        (missed_keys K.rules options.now.shape options.now.heavy options.now.least (all_messages lists.now)) alone) }
{
    if !is_lone(lists) {
        return Ok(None);
    }
    let state = state_of(alloc, options, lists)?;
    Ok(Some(state))
}

// The key isn't that at its place.
fn place_failure(line: u32, heavy: &Heavy, place: u32, key: &FlowKey) -> Option<Failure>
    ensures { result ≡ first_failing (test line (Key key.now) (key_there heavy.now.keys place)
        (nat_lt place (length heavy.now.keys) && same_key (key_at heavy.now.keys place) key.now) ∷ []) }
{
    if place >= heavy.len() {
        return failure_of(line, Value::Key(*key), Value::Absent, false);
    }
    let lawful = heavy.entry(place);
    let same = same_key(&lawful, key);
    failure_of(line, Value::Key(*key), Value::Key(lawful), same)
}

/// One worker alone has messages, and the key isn't that at its place of its live keys.
pub fn key_failure<K: Kind>(
    line: u32,
    alone: &Option<State<K>>,
    place: u32,
    key: &FlowKey,
) -> Option<Failure>
    ensures { (lone : Bool) (keys : List FlowKey) (missed : ℕ) → IsAlone lone keys missed alone.now
        → result ≡ first_failing (test line (Key key.now) (key_there keys place)
        (not lone || (nat_lt place (length keys) && same_key (key_at keys place) key.now)) ∷ []) }
{
    match alone {
        None => None,
        Some(state) => place_failure(line, state.heavy(), place, key),
    }
}

/// One worker alone has messages, and it has another number of live keys, or it missed another
/// number.
pub fn missed_failure<K: Kind>(
    line: u32,
    alone: &Option<State<K>>,
    live: u32,
    missed: u64,
) -> Option<Failure>
    ensures { (lone : Bool) (keys : List FlowKey) (lawful : ℕ) → IsAlone lone keys lawful alone.now
        → result ≡ first_failing (test line (Number live) (Number (length keys)) (not lone || (live == length keys))
        ∷ test line (Number missed) (Number lawful) (not lone || (missed == lawful)) ∷ []) }
{
    match alone {
        None => None,
        Some(state) => {
            let heavy = state.heavy();
            let keys = heavy.len();
            let lawful = heavy.missed();
            let first = number_failure(line, u64::from(live), u64::from(keys), live == keys);
            first_of(
                first,
                number_failure(line, missed, lawful, missed == lawful),
            )
        }
    }
}
