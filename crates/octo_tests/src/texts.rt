// Texts in shorthand, and worked runs by their names.

use crate::in_threads::UNREFUSED;
use crate::runs::{Case, case_of};
use crate::worked_epochs::EPOCHS;
use crate::worked_journals::JOURNALS;
use crate::worked_networks::NETWORKS;
use crate::worked_reports::REPORTS;
use std::alloc::Global;
use std::test::Fail;

/// The first line of a journal.
pub const HEAD: &str = "octosketch journal 1\n";

/// The tables of worked runs, in which each name stands once.
const TABLES: [&str; 5] = [REPORTS, JOURNALS, NETWORKS, EPOCHS, UNREFUSED];

/// The whole text of a shorthand, in which `, ` parts lines as their ends do, and `notip N` is the
/// line of what is skipped where nothing else is.
pub fn whole_text(alloc: Global, short: &str) -> Result<String, Fail> {
    let parted = short.replace(alloc, ", ", "\n")?;
    let mut text = String::from_str(alloc, "")?;
    for line in parted.as_str().lines() {
        let whole = match line.strip_prefix("notip ") {
            Some(count) => format!(in alloc; "skipped short 0 notip {count} badip 0 tags 0\n")?,
            None => format!(in alloc; "{line}\n")?,
        };
        text.push_str(whole.as_str())?;
    }
    Ok(text)
}

// The run with this name in a table.
fn case_in(table: &'static str, name: &str) -> Option<Case<'static>> {
    for text in table.split("== ") {
        if let Some(case) = case_of(text)
            && case.name == name
        {
            return Some(case);
        }
    }
    None
}

/// The worked run with this name.
pub fn case_named(name: &str) -> Result<Case<'static>, Fail> {
    for table in TABLES {
        if let Some(case) = case_in(table, name) {
            return Ok(case);
        }
    }
    Err(Fail::from("no such run"))
}

/// The journal in the whole text of a run.
pub fn journal_in(alloc: Global, text: &str) -> Result<String, Fail> {
    match text.split_once(HEAD) {
        Some((_, behind)) => Ok(format!(in alloc; "{HEAD}{behind}")?),
        None => Err(Fail::from("no journal")),
    }
}

/// The journal of the worked run with this name.
pub fn journal_named(alloc: Global, name: &str) -> Result<String, Fail> {
    let text = whole_text(alloc, case_named(name)?.text)?;
    journal_in(alloc, text.as_str())
}
