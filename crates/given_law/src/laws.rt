ghost use Rattle.std.specs.Prelude.{◌≡◌, ℕ, List};
ghost use Rattle.hash_rows.specs.declared.options.Full.{Full};
ghost use Rattle.hash_rows.specs.declared.shape.Push.{Push};
ghost use Rattle.hash_rows.specs.declared.shape.Update.{Update};
ghost use Rattle.hash_rows.specs.Rules.{Rules};
ghost use Rattle.push_history.specs.Pushes.{LawfulPushes};
ghost use Rattle.given_law.specs.Given.{given_messages, MayRefuse};

/// Where the updates may be refused, they are lawful with the messages that they determine.
pub fn given_is_lawful()
    ensures { (r : Rules) (w T L : ℕ) (full : Full) (updates : List Update) (refused : List ℕ) →
        MayRefuse r w T L full updates refused →
        LawfulPushes r w T L full updates (given_messages r w T updates refused) refused }
{}

/// With no other messages are they lawful, and they may be refused.
pub fn lawful_is_given()
    ensures { (r : Rules) (w T L : ℕ) (full : Full) (updates : List Update) (messages : List Push) (refused : List ℕ) →
        LawfulPushes r w T L full updates messages refused →
        (messages ≡ given_messages r w T updates refused) × MayRefuse r w T L full updates refused }
{}
