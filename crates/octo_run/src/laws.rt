ghost use Rattle.std.specs.Prelude.{◌≡◌, ℕ, List};
ghost use Rattle.hash_rows.specs.declared.options.Mode.{Mode};
ghost use Rattle.hash_rows.specs.declared.options.Options.{Options};
ghost use Rattle.hash_rows.specs.declared.shape.Packet.{Packet};
ghost use Rattle.push_history.specs.Journal.{Journal};
ghost use Rattle.prefixes.specs.declared.network.Prefix.{Prefix};
ghost use Rattle.octo_run.specs.Audits.{AreAudited, DiffersAt, IsAuditText};
ghost use Rattle.octo_run.specs.Epochs.{IsEpochsText};
ghost use Rattle.octo_run.specs.Networks.{IsPrefixText};
ghost use Rattle.octo_run.specs.Runs.{IsRunText};
ghost use Rattle.reports.specs.ReportOf.{AskForOneReport};

/// In rounds, bytes and options determine the text. A law: it does nothing when it runs.
pub fn one_text()
    ensures { (o : Options) (bytes s t : List ℕ) → o.mode ≡ Mode.Rounds → IsRunText o bytes s → IsRunText o bytes t → s ≡ t }
{}

/// In both modes bytes and sketch determine the report: who counted the packets, and who asked
/// meanwhile, has no part in it.
pub fn one_report()
    ensures { (o p : Options) (bytes s t : List ℕ) → AskForOneReport o p
        → (a : IsRunText o bytes s) → (b : IsRunText p bytes t) → a.report ≡ b.report }
{}

/// Bytes, options and watched networks determine the text of the bytes' source networks. A law: it
/// does nothing when it runs.
pub fn one_prefix_text()
    ensures { (o : Options) (watch : List Prefix) (bytes s t : List ℕ)
        → IsPrefixText o watch bytes s → IsPrefixText o watch bytes t → s ≡ t }
{}

/// Bytes, the packets of an epoch, the least change and options determine the text of the bytes'
/// epochs, in both modes. A law: it does nothing when it runs.
pub fn one_epochs_text()
    ensures { (size change : ℕ) (o p : Options) (bytes s t : List ℕ) → AskForOneReport o p
        → IsEpochsText size change o bytes s → IsEpochsText size change p bytes t → s ≡ t }
{
    epoch_report::one_report();
}

/// Bytes are one journal and the packets of one capture at most, and so don't have the line of a
/// lawful journal and a difference as well. A law: it does nothing when it runs.
pub fn one_audit()
    ensures read { (bytes : List ℕ) (c d : Journal) (ps qs : List Packet) → AreAudited bytes c ps
        → AreAudited bytes d qs → (c ≡ d) × (ps ≡ qs) }
    ensures verdict { (bytes text : List ℕ) (line : ℕ) (kept lawful : List ℕ) → IsAuditText bytes text
        → DiffersAt bytes line kept lawful → ⊥ }
{}
