ghost use Rattle.std.specs.Prelude.{◌≡◌, ◌≢◌, ◌∷◌, ◌++◌, ℕ, List, Option, Some};
ghost use Rattle.flow_base.specs.declared.lines.LineEnd.TheVariants.{Unfinished};
ghost use Rattle.push_history.specs.Journal.{Journal};
ghost use Rattle.journal_read.specs.Reading.{IsJournal, IsBadLine, BreaksOff, HoldsBadLine};
ghost use Rattle.journal_whole.specs.Taken.{TakesJournal, TakesBadLine};

/// A text is that of one journal at most, and of a source whose bytes are told one journal at most
/// can be taken. A law: it does nothing when it runs.
pub fn one_journal()
    ensures text { (text : List ℕ) (c d : Journal) → IsJournal text c → IsJournal text d → c ≡ d }
    ensures source { (given : List ℕ) (a b : Option (List ℕ)) (c d : Journal)
        → TakesJournal (Some given) a c → TakesJournal (Some given) b d → (c ≡ d) × (a ≡ b) }
{}

/// Bytes that begin with the text of a journal have no bad line, and of a source whose bytes are
/// told not both can be taken: so which of the two it is depends on the bytes alone. A law: it does
/// nothing when it runs.
pub fn no_bad_line()
    ensures bytes { (text more : List ℕ) (left : Option (List ℕ)) (c : Journal) (line : ℕ)
        → IsJournal text c → IsBadLine (text ++ more) left line → ⊥ }
    ensures source { (given : List ℕ) (a b : Option (List ℕ)) (c : Journal) (line : ℕ)
        → TakesJournal (Some given) a c → TakesBadLine (Some given) b line → ⊥ }
{}

/// Bytes that break off before the end of a journal don't begin with the text of one, and have no
/// bad line that ends before they do: none that ends whole or long, whatever is left behind it, and
/// none at all where one more byte is left. A law: it does nothing when it runs.
pub fn broken_off()
    ensures journal { (text more : List ℕ) (c : Journal) → BreaksOff (text ++ more) → IsJournal text c → ⊥ }
    ensures ended { (bytes tail : List ℕ) (left : Option (List ℕ)) (line : ℕ)
        → BreaksOff (bytes ++ tail) → (bad : IsBadLine bytes left line) → bad.end ≢ Unfinished → ⊥ }
    ensures line { (given rest : List ℕ) (next line : ℕ) → BreaksOff given → HoldsBadLine given (next ∷ rest) line → ⊥ }
{}

/// Of a source whose bytes are told one line alone is the bad one. A law: it does nothing when it
/// runs.
pub fn one_bad_line()
    ensures { (given : List ℕ) (a b : Option (List ℕ)) (line number : ℕ)
        → TakesBadLine (Some given) a line → TakesBadLine (Some given) b number → line ≡ number }
{}
