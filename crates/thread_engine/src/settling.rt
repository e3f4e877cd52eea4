//! What a run in threads comes to, once its parts have ended.
ghost use Rattle.std.specs.Prelude.{◌≡◌, ◌<◌, ◌≤◌, ◌^◌, ℕ, List, [], All, length, map, IfOk, OnOk, slice_index_or};
ghost use Rattle.aggregate.specs.Takens.{ArePassesOf, AreNamed, AreTaken, takens};
ghost use Rattle.hash_rows.specs.Lawful.{IsLawful};
ghost use Rattle.hash_rows.specs.Sequential.{sequential_table};
ghost use Rattle.hash_rows.specs.declared.options.Full.TheVariants.{Leave};
ghost use Rattle.hash_rows.specs.declared.shape.Push.{Push};
ghost use Rattle.push_lane.specs.Views.{LaneView};
ghost use Rattle.thread_ends.specs.Ends.{AreOf, both_fulls, both_sents, both_takens, kept_in};
ghost use Rattle.thread_law.specs.Ran.{HasRunTo, marked_by};
ghost use Rattle.thread_engine.specs.Ended.{HaveEnded, IsAllPublished, KeepsRooms};
ghost use Rattle.thread_engine.specs.Left.{AreDrained};

use crate::lists::{fill_counts, fill_heavy, fill_refused};
use crate::table::join_residues;
use crate::threads::Ran;
use aggregate::OutPasses;
use flow_base::NoMemory;
use hash_rows::{Keys, Kind, Options, Packet, Table};
use listed::Listed;
use live_state::State;
use live_view::ViewWriter;
use octo_engine::Settled;
use push_history::RunLists;
use push_rule::Private;
use std::sync::Wait;
use thread_ends::{drain_all, gather_answers, take_in_all};
use thread_run::{FoldPart, RestPart, WorkerPart};
use thread_setup::{BothPasses, Lanes, Spare};

/// What the run comes to: its lanes are drained, all that was sent is published, each reader
/// learns it, and the residues are joined into the table of it.
pub fn settle<K: Kind, R: Wait>(
    rt: &R,
    packets: &[Packet],
    options: &Options,
    keys: &Keys,
    lanes: Lanes,
    workers: Vec<WorkerPart<K>>,
    rest: RestPart<K>,
    mut spare: Spare<K>,
) -> Result<Ran<K>, NoMemory>
    requires lawful { IsLawful options.now }
    requires sketch { options.now.sketch ≡ K.sketch }
    requires amounts { All (λ p. p.amount < 2 ^ 32) packets.now }
    requires ended { HaveEnded K.stands K.rules options.now packets.now keys.now.items lanes.items workers.items rest spare }
    ensures drained { IfOk result (λ r. AreDrained options.now r.lanes.items r.passes.items r.settled.lists.refused.items) }
    ensures ran { IfOk result (λ r. HasRunTo packets.now options.now (both_sents r.passes.items) r.writer.published r.settled.lists) }
    ensures table { IfOk result (λ r. r.settled.table ≡ sequential_table K.rules options.now.shape packets.now) }
{
    let RestPart { fold, readers } = rest;
    let FoldPart { aggregator, failed } = fold;
    let (mut writer, outs) = aggregator.into_parts();
    if failed {
        writer.close(rt);
        return Err(NoMemory);
    }
    match publish_rest(rt, &lanes, workers, outs, &mut spare, &mut writer) {
        Ok(()) => (),
        Err(_) => {
            writer.close(rt);
            return Err(NoMemory);
        }
    }
    gather_answers(
        rt,
        &mut writer,
        keys.as_slice(),
        readers,
        &mut spare.last,
        &mut spare.answers,
    );
    writer.copy_state(rt, &mut spare.state);
    let _folded = writer.folded();
    let (settled, passes) = conclude(packets, options, spare);
    Ok(Ran {
        settled,
        lanes,
        passes,
        writer,
    })
}

// Takes what the lanes still hold, and publishes all that was sent.
fn publish_rest<K: Kind, R: Wait>(
    rt: &R,
    lanes: &Lanes,
    workers: Vec<WorkerPart<K>>,
    outs: OutPasses,
    spare: &mut Spare<K>,
    writer: &mut ViewWriter<K>,
) -> Result<(), NoMemory>
    requires workers { length workers.items ≡ length lanes.now.items }
    requires ids { (i : ℕ) (l : LaneView) (p : _) → i < length lanes.now.items
        → (slice_index_or workers.items i p).pass.id ≡ (slice_index_or lanes.now.items i l).id }
    requires ends { ArePassesOf lanes.now.items outs.items }
    requires passes_room { (spare.old.passes.items ≡ []) × (length lanes.now.items ≤ spare.old.passes.room) }
    requires sketches_room { (spare.old.sketches.items ≡ []) × (length lanes.now.items ≤ spare.old.sketches.room) }
    requires named { AreNamed K.rules writer.old.layout (map (λ p. p.pass.sent) workers.items) }
    requires taken { AreTaken K.rules writer.old.layout (takens outs.items) (kept_in writer.old) }
    ensures pair { (writer.new.book ≡ writer.old.book) × (writer.new.layout ≡ writer.old.layout) }
    ensures rooms { KeepsRooms spare.old spare.new }
    ensures sketches { spare.new.sketches.items ≡ map (λ p. p.sketch) workers.items }
    ensures ids { AreOf lanes.now.items spare.new.passes.items }
    ensures sents { both_sents spare.new.passes.items ≡ map (λ p. p.pass.sent) workers.items }
    ensures fulls { both_fulls spare.new.passes.items ≡ map (λ p. p.pass.fulls) workers.items }
    ensures drained { OnOk result (both_takens spare.new.passes.items ≡ both_sents spare.new.passes.items) }
    ensures published { OnOk result (AreTaken K.rules writer.new.layout (both_sents spare.new.passes.items) writer.new.published) }
{
    take_in_all(
        rt,
        lanes.as_slice(),
        workers,
        outs,
        &mut spare.passes,
        &mut spare.sketches,
    );
    drain_all(rt, lanes.as_slice(), &mut spare.passes, writer)?;
    writer.publish(rt);
    Ok(())
}

// What the run comes to, from the state of all that was sent, the sketches and the answers.
fn conclude<K: Kind>(
    packets: &[Packet],
    options: &Options,
    spare: Spare<K>,
) -> (Settled<K>, BothPasses)
    requires lawful { IsLawful options.now }
    requires sketch { options.now.sketch ≡ K.sketch }
    requires amounts { All (λ p. p.amount < 2 ^ 32) packets.now }
    requires published { (published : List Push) × IsAllPublished K.stands K.rules options.now packets.now published spare }
    ensures passes { result.1.items ≡ spare.passes.items }
    ensures fulls { (w : ℕ) → w < options.now.workers → options.now.full ≡ Leave
        → slice_index_or (both_fulls spare.passes.items) w 0 ≡ length (marked_by result.0.lists.refused.items w) }
    ensures ran { (published : List Push) → IsAllPublished K.stands K.rules options.now packets.now published spare
        → HasRunTo packets.now options.now (both_sents spare.passes.items) published result.0.lists }
    ensures table { result.0.table ≡ sequential_table K.rules options.now.shape packets.now }
{
    let _packets = packets;
    let _options = options;
    let Spare {
        state,
        last: _,
        passes,
        sketches,
        mut refused,
        mut pushes,
        mut live,
        answers,
    } = spare;
    fill_counts(state.fronts(), &mut pushes);
    fill_heavy(state.heavy(), &mut live);
    let missed = state.heavy().missed();
    let mut table = state.into_table();
    join_residues(&mut table, sketches.as_slice());
    fill_refused(sketches, &mut refused);
    let lists = RunLists {
        refused,
        pushes,
        answers,
        live,
        missed,
    };
    (Settled { table, lists }, passes)
}
