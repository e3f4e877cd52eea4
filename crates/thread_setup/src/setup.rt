//! What a run in threads begins with.
ghost use Rattle.live_state.specs.Fold.{layout_in};
ghost use Rattle.std.specs.Prelude.{◌≡◌, ◌<◌, ◌≤◌, ◌^◌, [], All, length, IfOk, OnOk};
ghost use Rattle.hash_rows.specs.Lawful.{IsLawful};
ghost use Rattle.hash_rows.specs.Limits.{most_records};
ghost use Rattle.thread_setup.specs.Setups.{IsFreshView, IsSetUp};

use crate::hands::{Lanes, hands_of};
use crate::readers::{answers_of, readers_of};
use crate::spare::{Spare, spare_of};
use aggregate::Aggregator;
use flow_base::NoMemory;
use hash_rows::{Keys, Kind, Options, Packet};
use listed::Listed;
use live_view::{ViewWriter, Views, make_views};
use octo_engine::asked_keys;
use shares::amounts_fit;
use std::alloc::Global;
use std::sync::Wait;
use thread_run::{FoldPart, RestPart, WorkerPart};

/// What a run in threads begins with. It is not `Drop`, since its writer isn't.
pub struct Setup<K: Kind> {
    /// The keys that each ask asks for.
    pub keys: Keys,
    pub lanes: Lanes,
    pub workers: Vec<WorkerPart<K>>,
    pub rest: RestPart<K>,
    pub spare: Spare<K>,
}

/// Takes all memory of a run, but that of appended messages. The published pair comes last: a
/// writer can't be dropped, so nothing behind it may fail.
pub fn set_up<K: Kind, R: Wait>(
    rt: &R,
    alloc: Global,
    packets: &[Packet],
    options: &Options,
) -> Result<Setup<K>, NoMemory>
    requires lawful { IsLawful options.now }
    requires sketch { options.now.sketch ≡ K.sketch }
    requires few { length packets.now ≤ most_records }
    ensures ready { IfOk result (IsSetUp K.stands K.rules options.now packets.now) }
    ensures amounts { OnOk result (All (λ p. p.amount < 2 ^ 32) packets.now) }
{
    amounts_fit(packets);
    let keys = asked_keys(alloc, options)?;
    let spare = spare_of(alloc, options, keys.len())?;
    let hands = hands_of(rt, alloc, packets, options)?;
    let lists = answers_of(alloc, options, keys.len())?;
    let room = Listed::new(alloc, options.readers)?;
    let (writer, views) = pair_of(rt, alloc, options)?;
    let aggregator = Aggregator::new(writer, hands.outs, options.batch);
    Ok(Setup {
        keys,
        lanes: hands.lanes,
        workers: hands.workers.into_items(),
        rest: RestPart {
            fold: FoldPart {
                aggregator,
                failed: false,
            },
            readers: readers_of(options, views, lists, room),
        },
        spare,
    })
}

// The published pair, with a view of each reader.
fn pair_of<K: Kind, R: Wait>(
    rt: &R,
    alloc: Global,
    options: &Options,
) -> Result<(ViewWriter<K>, Views<K>), NoMemory>
    requires { IsLawful options.now }
    ensures lists { IfOk result (λ t. (t.0.published ≡ []) × (t.0.pending ≡ [])) }
    ensures layout { IfOk result (λ t. t.0.layout ≡ layout_in options.now) }
    ensures count { IfOk result (λ t. length t.1.items ≡ options.now.readers) }
    ensures views { IfOk result (λ t. All (IsFreshView t.0) t.1.items) }
{
    let _least = options.least;
    let (writer, views) = make_views(
        rt,
        alloc,
        options.readers,
        options.shape,
        options.workers,
        options.heavy,
        options.least,
    )?;
    Ok((writer, views))
}
