//! The texts of the report and of the journal.
#![tactic(auto)]

mod answers;
mod choices;
mod journal;
mod laws;
mod line;
mod lines;
mod report;
mod runs;
mod workers;

pub use answers::{answer_line, put_estimates};
pub use journal::{Journal, options_line, write_journal, write_journal_in};
pub use laws::maximal_runs;
pub use line::Line;
pub use lines::{write_count, write_words};
pub use report::{Report, write_estimates, write_report, write_rows, write_sketch, write_skipped};
pub use runs::run_end;
