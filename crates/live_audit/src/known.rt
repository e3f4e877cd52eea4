ghost use Rattle.std.specs.Prelude.{◌≡◌, ◌≤◌, length, IfOk};
ghost use Rattle.hash_rows.specs.Lawful.{IsLawful};
ghost use Rattle.told_table.specs.Tables.{AreSent, lists_of};
ghost use Rattle.live_audit.specs.Counted.{AreFew};
ghost use Rattle.live_audit.specs.Known.{IsKnown};

use crate::alone::alone_of;
use crate::key_set::KeySet;
use crate::sent_keys::{sent_of, set_of};
use flow_base::NoMemory;
use hash_rows::{Kind, Options, Push, Table};
use live_state::State;
use packet_key::FlowKey;
use std::alloc::Global;
use told_table::table_of;

/// What the tests of live keys look at.
#[derive(Drop)]
pub struct Known<K: Kind> {
    /// The live keys.
    pub live: KeySet,
    /// Those that a message has.
    pub sent: KeySet,
    /// The table of all messages.
    pub table: Table<K>,
    /// The state after all messages, where one worker alone has some.
    pub alone: Option<State<K>>,
}

/// Goes over the messages once for each of these.
pub fn known_of<K: Kind>(
    alloc: Global,
    options: &Options,
    live: &[FlowKey],
    lists: &[Vec<Push>],
) -> Result<Known<K>, NoMemory>
    requires lawful { IsLawful options.now }
    requires workers { length lists.now ≡ options.now.workers }
    requires few { AreFew lists.now }
    requires sent { AreSent K.rules options.now.shape (lists_of lists.now) }
    ensures { IfOk result (IsKnown K.rules options.now live.now lists.now) }
{
    let live = set_of(alloc, live)?;
    let sent = sent_of(alloc, &live, lists)?;
    let table = table_of(alloc, options.shape, lists)?;
    let alone = alone_of(alloc, options, lists)?;
    Ok(Known {
        live,
        sent,
        table,
        alone,
    })
}
