ghost use Rattle.std.specs.Prelude.{◌<◌, ◌^◌, List, length};
ghost use Rattle.hash_rows.specs.Rules.{Rules};
ghost use Rattle.hash_rows.specs.declared.shape.Push.{Push};
ghost use Rattle.live_state.specs.Fold.{Fit, state_after};
ghost use Rattle.live_state.specs.Shows.{Shows};
ghost use Rattle.live_state.specs.declared.layout.Layout.{Layout};

/// The state after some messages that fit has the joins of their amounts, their front, their last
/// updates, their number and their live keys.
pub fn state_shows_its_messages()
    ensures { (r : Rules) (l : Layout) (messages : List Push) →
        Fit r l messages → length messages < 2 ^ 64 → Shows r l messages (state_after r l messages) }
{}
