ghost use Rattle.std.specs.Prelude.{◌≡◌, ◌↔◌, ◌≤◌, [], Contains, IfOk, IsTrue};
ghost use Rattle.flow_base.specs.Calls.{Calls, one_more};

use crate::NoMemory;
use std::alloc::Global;
use std::marker::Model;

/// The calls made so far, and the numbers of those that are to fail.
#[derive(Drop)]
pub struct Plan {
    failing: Vec<u32>,
    made: u64,
    faults: u64,
}

impl Model for Plan {
    ghost use Rattle.flow_base.specs.Calls.{Calls};

    ghost Value = { Calls };

    ghost view = { λ p. record { failing = p.failing.items; made = p.made; faults = p.faults } };
}

impl Plan {
    pub fn new(alloc: Global, failing: &[u32]) -> Result<Plan, NoMemory>
        ensures { IfOk result (λ plan. plan ≡ record { failing = failing.now; made = 0; faults = 0 }) }
    {
        Ok(Plan {
            failing: failing.to_vec(alloc)?,
            made: 0,
            faults: 0,
        })
    }

    pub fn made(&self) -> u64
        ensures { result ≡ self.now.made }
    {
        self.made
    }

    /// Counts a call, and says whether it is one of those that fail.
    pub fn fails(&mut self) -> bool
        ensures fails { IsTrue result ↔ Contains self.old.failing self.old.made }
        ensures made { self.new ≡ record self.old { made = one_more self.old.made } }
    {
        let call = self.made;
        self.made = call.saturating_add(1);
        self.failing.iter().any(|number| u64::from(*number) == call)
    }

    /// Counts a fault.
    pub fn fault(&mut self)
        ensures faults { self.new ≡ record self.old { faults = one_more self.old.faults } }
        ensures later { self.old.faults ≤ self.new.faults }
    {
        self.faults = self.faults.saturating_add(1);
    }
}
