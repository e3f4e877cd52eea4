//! Rooms that the end of a run fills.
ghost use Rattle.std.specs.Prelude.{◌≡◌, length, IfOk};
ghost use Rattle.hash_rows.specs.Lawful.{IsLawful};
ghost use Rattle.push_history.specs.Journal.{keys_of};
ghost use Rattle.live_state.specs.Fold.{fresh_state, layout_in};
ghost use Rattle.thread_setup.specs.Setups.{IsSpare};

use flow_base::NoMemory;
use hash_rows::{Answer, Answers, BitRows, Counts, Keys, Kind, Options};
use listed::Listed;
use live_state::State;
use push_lane::BothPass;
use push_rule::Private;
use std::alloc::Global;

/// Both ends of each lane.
pub type BothPasses = Listed<BothPass>;

/// Rooms that the end of a run fills.
#[derive(Drop)]
pub struct Spare<K: Kind> {
    pub state: State<K>,
    pub last: Answer,
    pub passes: BothPasses,
    pub sketches: Listed<Private<K>>,
    pub refused: BitRows,
    pub pushes: Counts,
    pub live: Keys,
    pub answers: Answers,
}

/// The rooms of a run that asks for so many keys.
pub fn spare_of<K: Kind>(alloc: Global, options: &Options, keys: u32) -> Result<Spare<K>, NoMemory>
    requires lawful { IsLawful options.now }
    requires keys { keys ≡ length (keys_of options.now) }
    ensures { IfOk result (IsSpare options.now) }
{
    let workers = options.workers;
    Ok(Spare {
        state: state_of(alloc, options)?,
        last: Answer::new(alloc, 0, 0, workers, keys)?,
        passes: Listed::new(alloc, workers)?,
        sketches: Listed::new(alloc, workers)?,
        refused: Listed::new(alloc, workers)?,
        pushes: Listed::new(alloc, workers)?,
        live: Listed::new(alloc, options.heavy)?,
        answers: Listed::new(alloc, options.readers * options.asks)?,
    })
}

// The state with no message.
fn state_of<K: Kind>(alloc: Global, options: &Options) -> Result<State<K>, NoMemory>
    requires { IsLawful options.now }
    ensures { IfOk result (λ state. state ≡ fresh_state (layout_in options.now)) }
{
    let _least = options.least;
    State::new(
        alloc,
        options.shape,
        options.workers,
        options.heavy,
        options.least,
    )
}
