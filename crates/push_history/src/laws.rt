ghost use Rattle.std.specs.Prelude.{◌≡◌, ◌≤◌, ◌<◌, ◌^◌, ℕ, List, All, Some, drop, length, map, slice_get, take, true};
ghost use Rattle.std.specs.List.{range_with_len};
ghost use Rattle.hash_rows.specs.declared.options.Share.{Share};
ghost use Rattle.hash_rows.specs.declared.shape.Packet.{Packet};
ghost use Rattle.hash_rows.specs.declared.shape.Push.{Push};
ghost use Rattle.hash_rows.specs.declared.shape.Shape.{Shape};
ghost use Rattle.hash_rows.specs.declared.shape.Update.{Update};
ghost use Rattle.hash_rows.specs.Rules.{Rules, AreLaws};
ghost use Rattle.hash_rows.specs.Sequential.{joined_of, sequential};
ghost use Rattle.push_history.specs.declared.event.Event.{Event};
ghost use Rattle.push_history.specs.Front.{front_of, messages_of, upto_of};
ghost use Rattle.push_history.specs.LagRun.{State, Terms, lag_run, updates_by, worker_in};
ghost use Rattle.push_history.specs.LawfulRun.{IsLawfulState};
ghost use Rattle.push_history.specs.Pushes.{ArePushes, is_refused};
ghost use Rattle.push_history.specs.Residue.{residue, residue_size};
ghost use Rattle.push_history.specs.Share.{share_of_worker};
ghost use Rattle.push_history.specs.Shown.{shown_of};
ghost use Rattle.push_history.specs.Told.{messages_before, told, told_of};
ghost use Rattle.push_history.specs.Updates.{HoldValues, IsLastOf, updates_of};
ghost use Rattle.push_history.specs.Whole.{whole};

/// What is told up to a front is what the messages up to it tell.
pub fn told_by_prefix()
    ensures { (r : Rules) (threshold : ℕ) (updates : List Update) (messages : List Push) (refused : List ℕ) →
        ArePushes r threshold updates messages refused → (j : ℕ) → j ≤ length messages → (cell : ℕ) →
        told r messages (upto_of messages j) cell ≡ told_of r cell (take j messages) }
{}

/// What was counted of a cell is what was told of it, joined with its residue.
pub fn whole_is_told_and_residue()
    ensures { (r : Rules) → AreLaws r →
        (threshold : ℕ) (updates : List Update) (messages : List Push) (refused : List ℕ) →
        HoldValues r updates → ArePushes r threshold updates messages refused →
        (n cell : ℕ) → n ≤ length updates →
        whole r updates n cell ≡ r.join (told r messages n cell) (residue r updates messages n cell) }
{}

/// At every number of updates from a front's own on, what was counted of a cell is what the messages
/// up to the front tell, joined with those in flight behind it and with the residue.
pub fn whole_is_front_flight_and_residue()
    ensures { (r : Rules) → AreLaws r →
        (threshold : ℕ) (updates : List Update) (messages : List Push) (refused : List ℕ) →
        HoldValues r updates → ArePushes r threshold updates messages refused →
        (j n cell : ℕ) → j ≤ length messages → upto_of messages j ≤ n → n ≤ length updates →
        let shown = told_of r cell (take j messages) in
        let flight = told_of r cell (messages_before n (drop j messages)) in
        whole r updates n cell ≡ r.join (r.join shown flight) (residue r updates messages n cell) }
{}

/// Where a residue is as large as the threshold, the last update of its cell was refused.
pub fn large_only_where_refused()
    ensures { (r : Rules) → AreLaws r →
        (threshold : ℕ) (updates : List Update) (messages : List Push) (refused : List ℕ) →
        HoldValues r updates → ArePushes r threshold updates messages refused → 1 ≤ threshold →
        (n cell : ℕ) → n ≤ length updates → threshold ≤ residue_size r updates messages n cell →
        (k : ℕ) × IsLastOf updates n cell k × (is_refused k refused ≡ true) }
{}

/// What one table makes of all packets is the join of what each worker makes of its share.
pub fn sequential_is_the_join_of_wholes()
    ensures { (r : Rules) → AreLaws r →
        (sharing : Share) (workers : ℕ) (shape : Shape) (packets : List Packet) →
        0 < workers → All (λ p. p.amount < 2 ^ 32) packets → (cell : ℕ) →
        sequential r shape packets cell ≡ joined_of r (map
        (λ w. let updates = updates_of r shape packets (share_of_worker sharing workers packets w) in
        whole r updates (length updates) cell)
        (range_with_len 0 workers)) }
{}

/// What is folded of all workers is what their messages up to its front tell.
pub fn fold_is_shown()
    ensures { (r : Rules) → AreLaws r → (workers : ℕ) (messages : List (List Push)) (folded : List Push) →
        length messages ≡ workers → All (λ m. m.worker < workers) folded →
        All (λ m. r.is_value m.amount ≡ true) folded →
        ((w : ℕ) (sent : List Push) → slice_get messages w ≡ Some sent →
        messages_of w folded ≡ take (length (messages_of w folded)) sent) →
        (cell : ℕ) → shown_of r messages (front_of workers folded) cell ≡ told_of r cell folded }
{}

/// In every state of a run the messages and the refused updates of each worker are lawful, and the
/// messages that were folded are those that were taken of each worker, in order.
pub fn run_is_lawful()
    ensures { (t : Terms) (readers : ℕ) (events : List Event) → IsLawfulState t (lag_run t readers events) }
{}

/// What a worker counted of a cell is what is shown of it, what is folded and not shown, what waits
/// in its lane, and the residue.
pub fn nothing_is_lost()
    ensures { (t : Terms) → AreLaws t.rules → ((w : ℕ) → HoldValues t.rules (updates_by t w)) →
        (s : State) → IsLawfulState t s → (w cell : ℕ) → w < length t.updates →
        let x = worker_in s w in
        let shown = told_of t.rules cell (messages_of w (take s.shown s.folded)) in
        let folded = told_of t.rules cell (messages_of w (drop s.shown s.folded)) in
        let queued = told_of t.rules cell (drop x.taken x.sent) in
        whole t.rules (updates_by t w) x.counted cell
        ≡ t.rules.join (t.rules.join (t.rules.join shown folded) queued) (residue t.rules (updates_by t w) x.sent x.counted cell) }
{}
