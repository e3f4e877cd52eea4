ghost use Rattle.std.specs.Prelude.{◌≡◌, ◌<◌, ◌^◌, ℕ, List, Bool, All, length, true};
ghost use Rattle.hash_rows.specs.Amounts.{total_amount};
ghost use Rattle.hash_rows.specs.Lawful.{IsLawful};
ghost use Rattle.hash_rows.specs.Sequential.{sequential};
ghost use Rattle.hash_rows.specs.declared.answer.Answer.{Answer};
ghost use Rattle.hash_rows.specs.declared.options.Mode.TheVariants.{Threads};
ghost use Rattle.hash_rows.specs.declared.options.Options.{Options};
ghost use Rattle.hash_rows.specs.declared.options.Sketch.TheVariants.{CountMin};
ghost use Rattle.hash_rows.specs.declared.shape.Packet.{Packet};
ghost use Rattle.hash_rows.specs.declared.shape.Push.{Push};
ghost use Rattle.packet_key.specs.declared.key.FlowKey.{FlowKey};
ghost use Rattle.push_history.specs.Journal.{journal_in, rules_in};
ghost use Rattle.push_history.specs.LawfulJournal.{LawfulJournal, sent_by};
ghost use Rattle.live_state.specs.Fold.{fits};
ghost use Rattle.live_state.specs.declared.layout.Layout.{Layout};
ghost use Rattle.round_law.specs.Outcome.{IsWhole};
ghost use Rattle.thread_law.specs.Ran.{AreLawful, HasRan, MatchesItsFront, ShowsNear, settled_of};

/// What the parts of a run in threads leave is a lawful journal.
pub fn threads_journal_is_lawful()
    ensures { (packets : List Packet) (o : Options) (messages : List (List Push)) (folded : List Push) (bits : List (List Bool))
        (pushes : List ℕ) (answers : List Answer) (live : List FlowKey) (missed : ℕ) →
        IsLawful o → o.mode ≡ Threads → total_amount packets < 2 ^ 63 →
        HasRan packets o messages folded bits pushes answers live missed →
        LawfulJournal packets o (journal_in o bits pushes answers live missed) }
{}

/// It tells of each worker and each answer.
pub fn ran_is_whole()
    ensures { (packets : List Packet) (o : Options) (messages : List (List Push)) (folded : List Push) (bits : List (List Bool))
        (pushes : List ℕ) (answers : List Answer) (live : List FlowKey) (missed : ℕ) →
        HasRan packets o messages folded bits pushes answers live missed →
        IsWhole o bits pushes answers }
{}

/// Each answer's last updates are those of its front.
pub fn answers_match_their_fronts()
    ensures { (packets : List Packet) (o : Options) (messages : List (List Push)) (folded : List Push) (bits : List (List Bool))
        (pushes : List ℕ) (answers : List Answer) (live : List FlowKey) (missed : ℕ) →
        HasRan packets o messages folded bits pushes answers live missed →
        All (MatchesItsFront messages) answers }
{}

/// Each answer of a Count-Min is near the true estimate.
pub fn answers_are_near()
    ensures { (packets : List Packet) (o : Options) (messages : List (List Push)) (folded : List Push) (bits : List (List Bool))
        (pushes : List ℕ) (answers : List Answer) (live : List FlowKey) (missed : ℕ) →
        IsLawful o → o.sketch ≡ CountMin → total_amount packets < 2 ^ 63 →
        HasRan packets o messages folded bits pushes answers live missed →
        All (ShowsNear packets o messages bits) answers }
{}

/// With each worker's residue joined in, the fold is the sequential sketch.
pub fn ran_is_sequential()
    ensures { (packets : List Packet) (o : Options) (messages : List (List Push)) (folded : List Push) (bits : List (List Bool))
        (pushes : List ℕ) (answers : List Answer) (live : List FlowKey) (missed : ℕ) →
        IsLawful o → All (λ p. p.amount < 2 ^ 32) packets →
        HasRan packets o messages folded bits pushes answers live missed →
        (cell : ℕ) → settled_of packets o messages folded cell ≡ sequential (rules_in o) o.shape packets cell }
{}

/// Lawful messages name their workers and fit a live state of the options' shape and workers.
pub fn lawful_messages_fit()
    ensures { (packets : List Packet) (o : Options) (l : Layout) (messages : List (List Push)) (bits : List (List Bool)) →
        IsLawful o → All (λ p. p.amount < 2 ^ 32) packets → length messages ≡ o.workers → AreLawful packets o messages bits →
        l.shape ≡ o.shape → l.workers ≡ o.workers →
        (w : ℕ) → All (λ m. (m.worker ≡ w) × (fits (rules_in o) l m ≡ true)) (sent_by messages w) }
{}
