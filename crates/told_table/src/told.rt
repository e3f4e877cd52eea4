ghost use Rattle.std.specs.Prelude.{◌≡◌, ◌++◌, ◌∷◌, [], List, All, map, IfOk};
ghost use Rattle.std.specs.List.{flat_map};
ghost use Rattle.hash_rows.specs.Shapes.{IsShape};
ghost use Rattle.hash_rows.specs.declared.shape.Push.{Push};
ghost use Rattle.told_table.specs.Tables.{FitsIn, IsTableOf, all_messages};

use flow_base::NoMemory;
use hash_rows::{Kind, Push, Shape, Table};
use std::alloc::Global;

/// Joins the message's amount into its cell.
pub fn tell<K: Kind>(table: &mut Table<K>, message: &Push)
    requires fits { FitsIn K.rules table.old.shape message.now }
    ensures shape { table.new.shape ≡ table.old.shape }
    ensures told { (before : List Push) → IsTableOf K.rules table.old before → IsTableOf K.rules table.new (before ++ message.now ∷ []) }
{
    table.put(message.cell, message.amount);
}

/// Joins the amounts of the messages into their cells.
pub fn tell_all<K: Kind>(table: &mut Table<K>, messages: &[Push])
    requires fit { All (FitsIn K.rules table.old.shape) messages.now }
    ensures shape { table.new.shape ≡ table.old.shape }
    ensures told { (before : List Push) → IsTableOf K.rules table.old before → IsTableOf K.rules table.new (before ++ messages.now) }
{
    for message in messages {
        tell(table, message);
    }
}

/// The table of all messages of these lists.
pub fn table_of<K: Kind>(
    alloc: Global,
    shape: Shape,
    lists: &[Vec<Push>],
) -> Result<Table<K>, NoMemory>
    requires shape { IsShape shape }
    requires fit { All (λ list. All (FitsIn K.rules shape) list.items) lists.now }
    ensures shape { IfOk result (λ table. table.shape ≡ shape) }
    ensures told { IfOk result (λ table. IsTableOf K.rules table (all_messages lists.now)) }
{
    let mut table = Table::new(alloc, shape)?;
    for list in lists {
        tell_all(&mut table, list);
    }
    Ok(table)
}
