ghost use Rattle.std.specs.Prelude.{◌≡◌, ◌<◌, ℕ, MatchOption, length};
ghost use Rattle.push_history.specs.Front.{message_at};
ghost use Rattle.push_history.specs.LagRun.{Worker, count_step, updates_by};
ghost use Rattle.push_history.specs.OwnSteps.{with_taken};
ghost use Rattle.lag_core.specs.Workers.{CanTakeUp, IsWorkerAt, Limits, terms_within};

use hash_rows::{Kind, Push, Update};
use listed::Listed;
use push_history::Reply;
use push_rule::Counter;

/// The updates of a worker.
pub type UpdateList = Listed<Update>;

/// One list of updates for each worker.
pub type UpdateRows = Listed<UpdateList>;

/// Takes up the worker's next update.
pub fn take_up<K: Kind>(worker: &mut Counter<K>, updates: &UpdateList) -> Reply
    requires { CanTakeUp K.rules updates.now.items worker.old }
    ensures cells { length worker.new.sketch.held ≡ length worker.old.sketch.held }
    ensures stands { (l : Limits) (w : ℕ) (x : Worker) → let t = terms_within K.rules l in updates_by t w ≡ updates.now.items
        → IsWorkerAt K.stands t w worker.old x
        → IsWorkerAt K.stands t w worker.new (count_step t w x).0 × (result ≡ (count_step t w x).1) }
{
    let next = worker.counted();
    if next >= updates.len() {
        return Reply::Over;
    }
    let update = updates.get(next);
    worker.count(update.packet, &update.key, update.cell, update.value)
}

/// Takes the oldest message of the worker's lane.
pub fn take_oldest<K: Kind>(worker: &mut Counter<K>) -> Option<Push>
    requires { worker.old.taken ≡ 0 }
    ensures cells { length worker.new.sketch.held ≡ length worker.old.sketch.held }
    ensures stands { (l : Limits) (w : ℕ) (x : Worker) → let t = terms_within K.rules l in IsWorkerAt K.stands t w worker.old x
        → MatchOption result ((x.taken ≡ length x.sent) × IsWorkerAt K.stands t w worker.new x)
        (λ message. (x.taken < length x.sent) × (message_at x.sent x.taken ≡ message)
        × IsWorkerAt K.stands t w worker.new (with_taken x 1)) }
{
    if worker.held() == 0 {
        return None;
    }
    let message = worker.messages()[0];
    worker.take(1);
    worker.clear();
    Some(message)
}
