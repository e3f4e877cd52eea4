//! The two ends of a lane, and both in one.
ghost use Rattle.std.specs.Prelude.{◌≡◌};

use crate::rule::Log;
use crossbeam_queue::Pass;
use hash_rows::Push;
use std::marker::Model;

/// The end to push.
#[derive(Drop)]
pub struct InPass {
    pub(crate) pass: Pass<Push, Log>,
    pub(crate) fulls: u64,
}

impl Model for InPass {
    ghost use Rattle.std.specs.Prelude.{◌≡◌, true, []};
    ghost use Rattle.push_lane.specs.Views.{InView};
    ghost use Rattle.crossbeam_queue.specs.Passes.{view as known};

    ghost Value = { InView };

    ghost view = { λ p. record { id = p.pass.table_id; sent = (known p.pass).sent; fulls = p.fulls } };

    ghost invariant = { λ p. (p.pass.me.1 ≡ []) × ((known p.pass).pushes ≡ true) };
}

/// The end to take.
#[derive(Drop)]
pub struct OutPass {
    pub(crate) pass: Pass<Push, Log>,
}

impl Model for OutPass {
    ghost use Rattle.std.specs.Prelude.{◌≡◌, true, []};
    ghost use Rattle.push_lane.specs.Views.{OutView};
    ghost use Rattle.crossbeam_queue.specs.Passes.{view as known};

    ghost Value = { OutView };

    ghost view = { λ p. record { id = p.pass.table_id; taken = (known p.pass).taken } };

    ghost invariant = { λ p. (p.pass.me.1 ≡ []) × ((known p.pass).pops ≡ true) };
}

/// Both ends in one.
#[derive(Drop)]
pub struct BothPass {
    pub(crate) pass: Pass<Push, Log>,
    pub(crate) fulls: u64,
}

impl Model for BothPass {
    ghost use Rattle.std.specs.Prelude.{◌≡◌, true, []};
    ghost use Rattle.push_lane.specs.Views.{BothView};
    ghost use Rattle.crossbeam_queue.specs.Passes.{view as known};

    ghost Value = { BothView };

    ghost view = { λ p. record { id = p.pass.table_id; sent = (known p.pass).sent; taken = (known p.pass).taken; fulls = p.fulls } };

    ghost invariant = { λ p. (p.pass.me.1 ≡ []) × ((known p.pass).pushes ≡ true) × ((known p.pass).pops ≡ true) };
}

impl InPass {
    /// How often a push found the lane full.
    pub fn fulls(&self) -> u64
        ensures { result ≡ self.now.fulls }
    {
        self.fulls
    }
}

impl BothPass {
    /// How often a push found the lane full.
    pub fn fulls(&self) -> u64
        ensures { result ≡ self.now.fulls }
    {
        self.fulls
    }
}
