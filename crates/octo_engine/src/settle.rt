//! What a run comes to.
ghost use Rattle.std.specs.Prelude.{◌≡◌, ◌^◌, ◌<◌, ◌≤◌, ℕ, All, length, IfOk, slice_index_or};
ghost use Rattle.hash_rows.specs.Lawful.{IsLawful};
ghost use Rattle.hash_rows.specs.Limits.{most_records};
ghost use Rattle.hash_rows.specs.Sequential.{sequential_table};
ghost use Rattle.push_history.specs.Journal.{terms_of};
ghost use Rattle.octo_engine.specs.Looks.{AreAllLooks};
ghost use Rattle.octo_engine.specs.Rounds.{IsAtEnd};
ghost use Rattle.octo_engine.specs.Settles.{HasOutcome};
ghost use Rattle.hash_rows.specs.Shapes.{size_of};
ghost use Rattle.push_history.specs.LagRun.{Terms, Worker};
ghost use Rattle.push_rule.specs.Keeps.{Keeps};
ghost use Rattle.push_rule.specs.Residues.{HasJoined, IsWorkerFor};
ghost use Rattle.octo_engine.specs.Residues.{HasRefused, IsRow, residue_by};

use crate::looks::{answers_from, copy_counts};
use crate::run::Settled;
use crate::worker::Part;
use flow_base::NoMemory;
use hash_rows::{Answers, BitRows, Bits, Keys, Kind, Options, Packet, Table};
use heavy_keys::Heavy;
use listed::Listed;
use live_state::State;
use push_history::RunLists;
use push_rule::join_residue;
use std::alloc::Global;

/// What the run comes to, from the parts, the state and the looks after its last round.
pub fn settle<K: Kind>(
    alloc: Global,
    parts: Vec<Part<K>>,
    state: State<K>,
    looks: &Answers,
    packets: &[Packet],
    options: &Options,
) -> Result<Settled<K>, NoMemory>
    requires lawful { IsLawful options.now }
    requires sketch { options.now.sketch ≡ K.sketch }
    requires few { length packets.now ≤ most_records }
    requires amounts { All (λ p. p.amount < 2 ^ 32) packets.now }
    requires end { (n : ℕ) × IsAtEnd K.stands K.rules (terms_of packets.now options.now) options.now packets.now n parts.items state
        × AreAllLooks K.rules (terms_of packets.now options.now) options.now n looks.now.items }
    ensures outcome { IfOk result (λ s. HasOutcome (terms_of packets.now options.now) options.now s.lists) }
    ensures table { IfOk result (λ s. s.table ≡ sequential_table K.rules options.now.shape packets.now) }
{
    let answers = answers_from(alloc, looks, options)?;
    let pushes = copy_counts(alloc, state.fronts(), state.workers())?;
    let live = keys_of_heavy(alloc, state.heavy())?;
    let missed = state.heavy().missed();
    let table = table_of(state, parts.as_slice(), packets, options);
    let refused = refused_rows(alloc, parts, options.workers)?;
    let lists = RunLists {
        refused,
        pushes,
        answers,
        live,
        missed,
    };
    Ok(Settled { table, lists })
}

// The table of what was folded, with each worker's residues joined in.
fn table_of<K: Kind>(
    state: State<K>,
    parts: &[Part<K>],
    packets: &[Packet],
    options: &Options,
) -> Table<K>
    requires lawful { IsLawful options.now }
    requires sketch { options.now.sketch ≡ K.sketch }
    requires few { length packets.now ≤ most_records }
    requires amounts { All (λ p. p.amount < 2 ^ 32) packets.now }
    requires end { (n : ℕ) × IsAtEnd K.stands K.rules (terms_of packets.now options.now) options.now packets.now n parts.now state }
    ensures { result ≡ sequential_table K.rules options.now.shape packets.now }
{
    let _packets = packets;
    let _options = options;
    let mut table = state.into_table();
    join_residues(&mut table, parts);
    table
}

// Joins into each cell what each worker counted of it and did not tell.
fn join_residues<K: Kind>(table: &mut Table<K>, parts: &[Part<K>])
    requires each { (w : ℕ) (p : _) → w < length parts.now
        → IsWorkerFor K.stands K.rules table.old.shape (slice_index_or parts.now w p).counter.sketch }
    requires size { length table.old.cells ≡ size_of table.old.shape }
    ensures shape { table.new.shape ≡ table.old.shape }
    ensures size { length table.new.cells ≡ size_of table.new.shape }
    ensures cells { (t : Terms) (xs : ℕ → Worker) → t.rules ≡ K.rules
        → ((w : ℕ) (p : _) → w < length parts.now → Keeps K.stands t w (slice_index_or parts.now w p).counter (xs w))
        → HasJoined t.rules.join (residue_by t xs) (length parts.now) (size_of table.old.shape) table.old.cells table.new.cells }
{
    for part in parts {
        join_residue(table, part.counter.sketch());
    }
}

// For each worker which of its updates were refused.
fn refused_rows<K: Kind>(
    alloc: Global,
    mut parts: Vec<Part<K>>,
    workers: u32,
) -> Result<BitRows, NoMemory>
    requires { length parts.items ≡ workers }
    ensures { IfOk result (λ rows. HasRefused K.rules K.stands parts.items rows.items) }
{
    let mut rows = empty_rows(alloc, workers)?;
    let mut place = workers;
    'parts: while let Some(part) = parts.pop() {
        place -= 1;
        rows.set(place, refused_of(part));
    }
    Ok(rows)
}

fn empty_rows(alloc: Global, count: u32) -> Result<BitRows, NoMemory>
    ensures { IfOk result (λ rows. length rows.items ≡ count) }
{
    let mut rows = Listed::new(alloc, count)?;
    'rows: for _ in 0..count {
        rows.push(Bits::new(alloc, 0)?);
    }
    Ok(rows)
}

// Which of the worker's updates were refused.
fn refused_of<K: Kind>(part: Part<K>) -> Bits
    ensures { IsRow K.rules K.stands part result }
{
    let Part {
        share: _,
        counter,
        ends: _,
    } = part;
    counter.into_bits()
}

// The heavy keys in their order.
fn keys_of_heavy(alloc: Global, heavy: &Heavy) -> Result<Keys, NoMemory>
    ensures { IfOk result (λ keys. keys.items ≡ heavy.now.keys) }
{
    let len = heavy.len();
    let mut keys = Listed::new(alloc, len)?;
    for place in 0..len {
        keys.push(heavy.entry(place));
    }
    Ok(keys)
}
