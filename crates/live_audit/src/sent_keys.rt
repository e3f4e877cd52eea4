ghost use Rattle.std.specs.Prelude.{◌≡◌, ◌&&◌, ◌||◌, [], map, if◌then◌else◌, OnOk, IfOk};
ghost use Rattle.packet_key.specs.declared.key.FlowKey.{FlowKey};
ghost use Rattle.push_history.specs.LiveHeavy.{distinct_keys, is_among, with_key};
ghost use Rattle.told_table.specs.Tables.{all_messages};
ghost use Rattle.live_audit.specs.Counted.{has_key};

use crate::key_set::KeySet;
use flow_base::NoMemory;
use hash_rows::Push;
use packet_key::FlowKey;
use std::alloc::Global;

/// The keys, each once.
pub fn set_of(alloc: Global, keys: &[FlowKey]) -> Result<KeySet, NoMemory>
    ensures { IfOk result (λ set. set ≡ distinct_keys keys.now) }
{
    let mut set = KeySet::new(alloc, 0)?;
    for key in keys {
        set.add(*key)?;
    }
    Ok(set)
}

// Adds the key if it is live.
fn add_live(live: &KeySet, sent: &mut KeySet, key: FlowKey) -> Result<(), NoMemory>
    ensures { OnOk result (sent.new ≡ (if is_among live.now key then with_key sent.old key else sent.old)) }
{
    if !live.has(&key) {
        return Ok(());
    }
    sent.add(key)
}

// Adds the live ones of the messages' keys.
fn add_sent(live: &KeySet, sent: &mut KeySet, messages: &[Push]) -> Result<(), NoMemory>
    ensures { OnOk result ((key : FlowKey)
        → is_among sent.new key ≡ (is_among sent.old key || (is_among live.now key && has_key messages.now key))) }
{
    for message in messages {
        add_live(live, sent, message.key)?;
    }
    Ok(())
}

/// The live ones of the keys of all messages.
pub fn sent_of(alloc: Global, live: &KeySet, lists: &[Vec<Push>]) -> Result<KeySet, NoMemory>
    ensures { IfOk result (λ sent. (key : FlowKey) → is_among sent key ≡ (is_among live.now key && has_key (all_messages lists.now) key)) }
{
    let mut sent = KeySet::new(alloc, 0)?;
    for list in lists {
        add_sent(live, &mut sent, list)?;
    }
    Ok(sent)
}
