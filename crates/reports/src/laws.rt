ghost use Rattle.std.specs.Prelude.{◌≡◌, ℕ, List};
ghost use Rattle.hash_rows.specs.declared.options.Options.{Options};
ghost use Rattle.hash_rows.specs.declared.shape.Packet.{Packet};
ghost use Rattle.hash_rows.specs.declared.shape.Tallies.{Tallies};
ghost use Rattle.octo_text.specs.ReportText.{report_text};
ghost use Rattle.octo_text.specs.declared.report.Report.{Report};
ghost use Rattle.reports.specs.ReportOf.{AskForOneReport, IsReport};

/// A capture has one report's text, whoever counted its packets. A law: it does nothing when it
/// runs.
pub fn one_report()
    ensures { (packets : List Packet) (records : ℕ) (skipped : Tallies) (cut : ℕ) (o p : Options) (r s : Report) → AskForOneReport o p
        → IsReport packets records skipped cut o r → IsReport packets records skipped cut p s → report_text r ≡ report_text s }
{}
