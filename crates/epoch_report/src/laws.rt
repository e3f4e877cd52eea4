ghost use Rattle.std.specs.Prelude.{◌≡◌, ℕ, List};
ghost use Rattle.hash_rows.specs.declared.options.Options.{Options};
ghost use Rattle.hash_rows.specs.declared.shape.Packet.{Packet};
ghost use Rattle.hash_rows.specs.declared.shape.Tallies.{Tallies};
ghost use Rattle.reports.specs.ReportOf.{AskForOneReport};
ghost use Rattle.epoch_report.specs.EpochsText.{report_text};
ghost use Rattle.epoch_report.specs.Reports.{IsEpochReport};
ghost use Rattle.epoch_report.specs.declared.report.EpochReport.{EpochReport};

/// A capture's epochs have one text, whoever counted their packets, in rounds or in threads. A law: it
/// does nothing when it runs.
pub fn one_report()
    ensures { (packets : List Packet) (records : ℕ) (skipped : Tallies) (cut size change : ℕ) (o p : Options) (r s : EpochReport)
        → AskForOneReport o p
        → IsEpochReport packets records skipped cut size change o r → IsEpochReport packets records skipped cut size change p s
        → report_text r ≡ report_text s }
{}
