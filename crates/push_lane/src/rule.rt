//! The rule of a lane: what was taken, followed by what the lane holds, is what was sent.
use crossbeam_queue::protocol::{Join, Lesson, Outcome, Protocol, Split};
use hash_rows::Push;
use std::collections::LinkedList;

/// What a pass may do, what was sent through it, and what was taken through it. No value of it is made.
pub struct Log {
    pub pushes: bool,
    pub pops: bool,
    pub sent: LinkedList<Push>,
    pub taken: LinkedList<Push>,
}

pub struct InOrder;

impl Protocol<Push, Log> for InOrder {
    ghost use Rattle.std.specs.Prelude.{true, []};
    ghost use Rattle.push_lane.specs.Rule.{log, Kept};

    ghost holds = { Kept };

    ghost first = { log true true [] [] };
}

/// The two ends of a lane.
pub struct Ends;

impl Split<Log> for Ends {
    ghost use Rattle.std.specs.Prelude.{true, false, []};
    ghost use Rattle.push_lane.specs.Rule.{log};

    ghost left = { λ v. log true false v.sent [] };

    ghost right = { λ v. log false true [] v.taken };
}

impl Join<Log> for Ends {
    ghost use Rattle.std.specs.Prelude.{true, false, []};
    ghost use Rattle.push_lane.specs.Rule.{log};

    ghost both = { λ v w. log true true v.sent w.taken };

    ghost spent = { log false false [] [] };
}

/// A message is sent. Where the lane is full, what was sent ends with what it holds.
pub struct Sends;

impl Outcome<Push, Log> for Sends {
    ghost use Rattle.std.specs.Prelude.{◌≡◌, [], ◌∷◌, ◌++◌};
    ghost use Rattle.push_lane.specs.Rule.{log};

    ghost then = { λ v x w. w ≡ log v.pushes v.pops (v.sent ++ x ∷ []) v.taken };
}

impl Lesson<Push, Log> for Sends {
    ghost use Rattle.push_lane.specs.Rule.{EndsWith};

    ghost fact = { λ v items. EndsWith v.sent items };
}

/// A message is taken.
pub struct Takes;

impl Outcome<Push, Log> for Takes {
    ghost use Rattle.std.specs.Prelude.{◌≡◌, [], ◌∷◌, ◌++◌};
    ghost use Rattle.push_lane.specs.Rule.{log};

    ghost then = { λ v x w. w ≡ log v.pushes v.pops v.sent (v.taken ++ x ∷ []) };
}

impl Lesson<Push, Log> for Takes {
    ghost use Rattle.std.specs.Prelude.{⊤};

    ghost fact = { λ v items. ⊤ };
}

/// A message is taken through the pass that knows both lists.
pub struct Drains;

impl Outcome<Push, Log> for Drains {
    ghost use Rattle.std.specs.Prelude.{◌≡◌, [], ◌∷◌, ◌++◌};
    ghost use Rattle.push_lane.specs.Rule.{log, StartsWith};

    ghost then = { λ v x w. (w ≡ log v.pushes v.pops v.sent (v.taken ++ x ∷ [])) × StartsWith w.sent w.taken };
}

impl Lesson<Push, Log> for Drains {
    ghost use Rattle.std.specs.Prelude.{◌≡◌, ◌++◌};

    ghost fact = { λ v items. v.sent ≡ v.taken ++ items };
}
