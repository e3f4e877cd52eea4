ghost use Rattle.std.specs.Prelude.{◌≡◌, ◌++◌, ◌∷◌, [], false, OnOk, IfOk};
ghost use Rattle.indexmap.specs.IndexMap.{keys as keys_of_map};
ghost use Rattle.push_history.specs.LiveHeavy.{is_among, with_key};

use flow_base::NoMemory;
use indexmap::IndexMap;
use packet_key::FlowKey;
use std::alloc::Global;
use std::marker::Model;

/// Keys, each once.
#[derive(Drop)]
pub struct KeySet {
    keys: IndexMap<FlowKey, ()>,
}

impl Model for KeySet {
    ghost use Rattle.std.specs.Prelude.{List};
    ghost use Rattle.packet_key.specs.declared.key.FlowKey.{FlowKey};
    ghost use Rattle.indexmap.specs.IndexMap.{keys as keys_of_map};

    ghost Value = { List FlowKey };

    ghost view = { λ s. keys_of_map s.keys };
}

impl KeySet {
    /// No keys.
    pub fn new(alloc: Global, room: u32) -> Result<KeySet, NoMemory>
        ensures { IfOk result (λ set. set ≡ []) }
    {
        match IndexMap::with_capacity(alloc, room as usize) {
            Ok(keys) => Ok(KeySet { keys }),
            Err(_) => Err(NoMemory),
        }
    }

    pub fn has(&self, key: &FlowKey) -> bool
        ensures { result ≡ is_among self.now key.now }
    {
        self.keys.contains_key(key)
    }

    /// Adds the key, unless it is there.
    pub fn add(&mut self, key: FlowKey) -> Result<(), NoMemory>
        ensures { OnOk result (self.new ≡ with_key self.old key) }
    {
        if self.has(&key) {
            return Ok(());
        }
        add_last(&mut self.keys, key)
    }
}

// Adds a key that isn't there.
fn add_last(keys: &mut IndexMap<FlowKey, ()>, key: FlowKey) -> Result<(), NoMemory>
    requires absent { is_among (keys_of_map keys.old) key ≡ false }
    ensures { OnOk result (keys_of_map keys.new ≡ keys_of_map keys.old ++ key ∷ []) }
{
    match keys.insert(key, ()) {
        Ok(_) => Ok(()),
        Err(_) => Err(NoMemory),
    }
}
