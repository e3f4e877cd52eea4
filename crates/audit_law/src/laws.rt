ghost use Rattle.std.specs.Prelude.{◌≡◌, ◌↔◌, List, None};
ghost use Rattle.hash_rows.specs.declared.options.Options.{Options};
ghost use Rattle.hash_rows.specs.declared.shape.Packet.{Packet};
ghost use Rattle.push_history.specs.Journal.{Journal};
ghost use Rattle.push_history.specs.LawfulJournal.{IsThreadsJournal};
ghost use Rattle.audit_law.specs.Forms.{HasForm};
ghost use Rattle.audit_law.specs.Tests.{first_failing};
ghost use Rattle.audit_law.specs.Judged.{tests_of};

/// Of a journal that has the form of one, no line fails exactly where it is lawful for a run in threads.
pub fn none_fails_where_lawful()
    ensures { (packets : List Packet) (o : Options) (j : Journal) → HasForm o j →
        (first_failing (tests_of packets o j) ≡ None) ↔ IsThreadsJournal packets o j }
{}
