ghost use Rattle.std.specs.Prelude.{◌≡◌, ℕ, List, ◌++◌};
ghost use Rattle.pcap_read.specs.Records.{Framed};
ghost use Rattle.pcapng_read.specs.Capture.{IsNgCapture, RefusesNext, NgOutcome, NgCaptureOf};
ghost use Rattle.pcapng_read.specs.View.{NgReaderView, Stands};
ghost use Rattle.pcapng_read.specs.declared.bad.NgBad.{NgBad};

/// A list of bytes is read as a pcapng capture in one way only.
pub fn one_reading()
    ensures { (limit : ℕ) (bytes : List ℕ) (fs gs : List Framed) (x y : List ℕ) →
        IsNgCapture limit bytes fs x → IsNgCapture limit bytes gs y → (fs ≡ gs) × (x ≡ y) }
{}

/// A refusal of a list of bytes is that of each longer list.
pub fn refusal_stays()
    ensures { (limit : ℕ) (bytes more : List ℕ) (fs : List Framed) (bad : NgBad) →
        RefusesNext limit bytes fs bad → RefusesNext limit (bytes ++ more) fs bad }
{}

/// A list of bytes has one refusal at most, behind one list of packets.
pub fn one_refusal()
    ensures { (limit : ℕ) (bytes : List ℕ) (fs gs : List Framed) (p q : NgBad) →
        RefusesNext limit bytes fs p → RefusesNext limit bytes gs q → (fs ≡ gs) × (p ≡ q) }
{}

/// A capture holds no refusal.
pub fn capture_fine()
    ensures { (limit : ℕ) (bytes : List ℕ) (fs gs : List Framed) (rest : List ℕ) (bad : NgBad) →
        IsNgCapture limit bytes fs rest → RefusesNext limit bytes gs bad → ⊥ }
{}

/// An input has one outcome at most.
pub fn one_outcome()
    ensures { (limit : ℕ) (bytes : List ℕ) (a b : NgOutcome) →
        NgCaptureOf limit bytes a → NgCaptureOf limit bytes b → a ≡ b }
{}

/// Where a reader stands, nothing was refused.
pub fn standing()
    ensures { (view : NgReaderView) (bytes : List ℕ) (fs gs : List Framed) (bad : NgBad) →
        Stands view bytes fs → RefusesNext view.limit bytes gs bad → ⊥ }
{}
