ghost use Rattle.std.specs.Prelude.{◌≡◌, ◌<◌, ◌≤◌, ◌^◌, ℕ, List, [], length, slice_index_or, take};
ghost use Rattle.hash_rows.specs.Amounts.{total_amount};
ghost use Rattle.hash_rows.specs.Lawful.{IsLawful};
ghost use Rattle.hash_rows.specs.declared.options.Options.{Options};
ghost use Rattle.hash_rows.specs.declared.shape.Packet.{Packet};
ghost use Rattle.hash_rows.specs.declared.shape.Push.{Push};
ghost use Rattle.push_history.specs.Front.{front_of};
ghost use Rattle.push_history.specs.Journal.{rules_in, updates_by_options};
ghost use Rattle.push_history.specs.LawfulJournal.{IsLawfulHeavy, NoFurther, sent_by};
ghost use Rattle.push_history.specs.LiveHeavy.{live_keys, missed_keys};
ghost use Rattle.push_history.specs.Pushes.{LawfulPushes};
ghost use Rattle.fold_law.specs.Folds.{IsFoldOf};

/// A fold is lawful: whatever order brings the lawful messages of all workers together, the live
/// keys and how many were missed are what a lawful journal may say. And the front of a beginning of
/// a fold is at most that of a longer one, in every place.
pub fn fold_is_lawful()
    ensures heavy { (packets : List Packet) (o : Options) (messages : List (List Push)) (refused : List (List ℕ)) (folded : List Push) →
        IsLawful o → total_amount packets < 2 ^ 63 → length messages ≡ o.workers →
        ((w : ℕ) → w < o.workers
        → LawfulPushes (rules_in o) w o.threshold o.lane o.full (updates_by_options packets o w) (sent_by messages w)
        (slice_index_or refused w [])) →
        IsFoldOf messages folded →
        IsLawfulHeavy o messages (live_keys (rules_in o) o.shape o.heavy o.least folded)
        (missed_keys (rules_in o) o.shape o.heavy o.least folded) }
    ensures fronts { (workers n m : ℕ) (folded : List Push) → n ≤ m →
        NoFurther (front_of workers (take n folded)) (front_of workers (take m folded)) }
{}
