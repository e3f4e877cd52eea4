ghost use Rattle.std.specs.Prelude.{◌≡◌, ◌<◌, ◌^◌, ℕ, List, All, Bool, false};
ghost use Rattle.hash_rows.specs.Amounts.{total_amount};
ghost use Rattle.hash_rows.specs.Lawful.{IsLawful};
ghost use Rattle.hash_rows.specs.Sequential.{sequential};
ghost use Rattle.hash_rows.specs.Shapes.{size_of};
ghost use Rattle.hash_rows.specs.declared.answer.Answer.{Answer};
ghost use Rattle.hash_rows.specs.declared.options.Options.{Options};
ghost use Rattle.hash_rows.specs.declared.options.Sketch.TheVariants.{CountMin};
ghost use Rattle.hash_rows.specs.declared.shape.Packet.{Packet};
ghost use Rattle.packet_key.specs.declared.key.FlowKey.{FlowKey};
ghost use Rattle.push_history.specs.declared.event.Event.{Event};
ghost use Rattle.push_history.specs.Journal.{journal_in, rules_in, terms_of};
ghost use Rattle.push_history.specs.LagRun.{lag_run};
ghost use Rattle.push_history.specs.Rounds.{AreRounds, IsRoundsJournal, events_of_rounds, is_busy};
ghost use Rattle.round_law.specs.Outcome.{IsNearAnswer, IsOutcome, IsWhole, MatchesFront, settled_cell};

/// What the workers' own rounds come to is the journal of the round schedule.
pub fn outcome_is_journal()
    ensures { (packets : List Packet) (o : Options) (rounds : ℕ) (bits : List (List Bool)) (pushes : List ℕ) (answers : List Answer)
        (live : List FlowKey) (missed : ℕ) →
        IsLawful o → All (λ p. p.amount < 2 ^ 32) packets →
        IsOutcome (terms_of packets o) o rounds bits pushes answers live missed →
        IsRoundsJournal packets o (journal_in o bits pushes answers live missed) }
{}

/// It tells of each worker and each answer.
pub fn outcome_is_whole()
    ensures { (packets : List Packet) (o : Options) (rounds : ℕ) (bits : List (List Bool)) (pushes : List ℕ) (answers : List Answer)
        (live : List FlowKey) (missed : ℕ) →
        IsOutcome (terms_of packets o) o rounds bits pushes answers live missed →
        IsWhole o bits pushes answers }
{}

/// Each answer's last updates are those of its front.
pub fn answers_match_their_fronts()
    ensures { (packets : List Packet) (o : Options) (rounds : ℕ) (bits : List (List Bool)) (pushes : List ℕ) (answers : List Answer)
        (live : List FlowKey) (missed : ℕ) →
        IsLawful o → All (λ p. p.amount < 2 ^ 32) packets →
        IsOutcome (terms_of packets o) o rounds bits pushes answers live missed →
        (events : List Event) → AreRounds (terms_of packets o) o events →
        All (MatchesFront (lag_run (terms_of packets o) o.readers events)) answers }
{}

/// Each answer of a Count-Min is near the true estimate.
pub fn answers_are_near()
    ensures { (packets : List Packet) (o : Options) (rounds : ℕ) (bits : List (List Bool)) (pushes : List ℕ) (answers : List Answer)
        (live : List FlowKey) (missed : ℕ) →
        IsLawful o → o.sketch ≡ CountMin → total_amount packets < 2 ^ 63 →
        IsOutcome (terms_of packets o) o rounds bits pushes answers live missed →
        (events : List Event) → AreRounds (terms_of packets o) o events →
        All (IsNearAnswer (terms_of packets o) o (lag_run (terms_of packets o) o.readers events)) answers }
{}

/// With each worker's residue joined in, what was folded is the sequential sketch.
pub fn settled_is_sequential()
    ensures { (packets : List Packet) (o : Options) (rounds : ℕ) →
        IsLawful o → All (λ p. p.amount < 2 ^ 32) packets →
        is_busy (terms_of packets o) o (events_of_rounds (terms_of packets o) o rounds) ≡ false →
        (cell : ℕ) → cell < size_of o.shape →
        settled_cell (terms_of packets o) o rounds cell ≡ sequential (rules_in o) o.shape packets cell }
{}
