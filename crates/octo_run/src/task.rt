ghost use Rattle.std.specs.Prelude.{◌≡◌, ◌≤◌, ℕ, List, length, IfOk};
ghost use Rattle.capture_load.specs.Loads.{IsLoaded};
ghost use Rattle.flow_base.specs.Causes.{HasCause};
ghost use Rattle.flow_base.specs.Writing.{Writes};
ghost use Rattle.hash_rows.specs.Limits.{most_records};
ghost use Rattle.hash_rows.specs.declared.options.Amount.{Amount as AmountValue};

use capture_load::Capture;
use flow_base::{Failed, NoMemory, Sink};
use hash_rows::Amount;
use std::alloc::Global;

/// What a command makes of a capture: its results, and the text that tells them.
pub trait Task {
    type Results: Drop;

    /// What its options have to be.
    ghost ready: { Self → Type 0 };

    /// What a packet adds.
    ghost amount: { Self → AmountValue };

    /// Which text is the command's, for the bytes of a capture.
    ghost is_text: { Self → List ℕ → List ℕ → Type 0 };

    /// Whether the results can be told.
    ghost fits: { Self → Self.Results → Type 0 };

    /// The text of the results.
    ghost text: { Self → Self.Results → List ℕ };

    fn amount(&self) -> Amount
        ensures { result ≡ amount self.now };

    fn results(&self, alloc: Global, capture: &Capture) -> Result<Self::Results, NoMemory>
        requires ready { ready self.now }
        requires packets { length capture.now.packets.items ≤ most_records }
        ensures fits { IfOk result (fits self.now) }
        ensures tells { IfOk result (λ results. (bytes : List ℕ) → IsLoaded (amount self.now) bytes capture.now
            → is_text self.now bytes (text self.now results)) };

    fn write<T: Sink>(&self, out: &mut T, results: &Self::Results) -> Result<(), Failed>
        requires { fits self.now results.now }
        ensures writes { Writes (T.holds out.old) (T.holds out.new) (text self.now results.now) result }
        ensures cause { HasCause (T.faults out.old) (T.faults out.new) result };
}
