ghost use Rattle.std.specs.Prelude.{◌≡◌, ◌+◌, ◌*◌, ◌<◌, ◌≤◌, ◌++◌, ℕ, length, codes, zip, map, All, slice_index_or};
ghost use Rattle.std.specs.List.{flat_map, enumerate_from};
ghost use Rattle.flow_base.specs.Causes.{HasCause};
ghost use Rattle.flow_base.specs.Writing.{Writes};
ghost use Rattle.push_history.specs.Journal.{journal_of_lists, with_journal};
ghost use Rattle.octo_text.specs.Content.{content_of, AreComplete, IsComplete};
ghost use Rattle.octo_text.specs.Lines.{words_line, count_line, key_line};
ghost use Rattle.octo_text.specs.JournalText.{share_words, lane_words, query_words, options_line, terms_lines, live_lines, journal_text};

use crate::answers::write_answers;
use crate::choices::{full_word, mode_word, share_word};
use crate::line::Line;
use crate::lines::{put_sketch, write_count, write_keys, write_words};
use crate::workers::write_workers;
use flow_base::{Failed, Sink};
use hash_rows::{Keys, Options};
use push_history::RunLists;

/// What a journal tells of a run.
#[derive(Drop)]
pub struct Journal {
    /// The options of the run. That the journal is asked for is taken as said.
    pub options: Options,
    pub lists: RunLists,
}

// Adds how packets are shared out, and how far a cell changes before it is told.
#[tactic(auto, unfolding(crate::specs::JournalText::share_words))]
fn put_share(line: &mut Line, options: &Options)
    requires { length line.old + 100 ≤ 1024 }
    ensures text { line.new ≡ line.old ++ share_words options.now }
    ensures room { length line.new ≤ length line.old + 100 }
{
    line.text(b" share ");
    line.text(share_word(options.share));
    line.named(b" workers ", u64::from(options.workers));
    line.named(b" threshold ", options.threshold);
}

// Adds the lanes, and how they are emptied.
#[tactic(auto, unfolding(crate::specs::JournalText::lane_words))]
fn put_lanes(line: &mut Line, options: &Options)
    requires { length line.old + 200 ≤ 1024 }
    ensures text { line.new ≡ line.old ++ lane_words options.now }
    ensures room { length line.new ≤ length line.old + 200 }
{
    line.named(b" lane ", u64::from(options.lane));
    line.named(b" batch ", u64::from(options.batch));
    line.named(b" round ", u64::from(options.round));
    line.text(b" full ");
    line.text(full_word(options.full));
}

// Adds how the run goes, who asks, and which flows are heavy.
#[tactic(auto, unfolding(crate::specs::JournalText::query_words))]
fn put_queries(line: &mut Line, options: &Options)
    requires { length line.old + 300 ≤ 1024 }
    ensures text { line.new ≡ line.old ++ query_words options.now }
    ensures room { length line.new ≤ length line.old + 300 }
{
    line.text(b" mode ");
    line.text(mode_word(options.mode));
    line.named(b" readers ", u64::from(options.readers));
    line.named(b" asks ", u64::from(options.asks));
    line.named(b" heavy ", u64::from(options.heavy));
    line.text(b" least ");
    line.signed(options.least);
}

/// The line of the options, without its line feed.
#[tactic(auto, unfolding(crate::specs::JournalText::options_line))]
pub fn options_line(options: &Options) -> Line
    ensures text { result ++ codes "\n" ≡ options_line options.now }
    ensures room { length result + 1 ≤ 1024 }
{
    let mut line = Line::new();
    line.text(b"options ");
    put_sketch(&mut line, options.sketch, &options.shape, options.amount);
    put_share(&mut line, options);
    put_lanes(&mut line, options);
    put_queries(&mut line, options);
    line
}

fn write_options<T: Sink>(out: &mut T, options: &Options) -> Result<(), Failed>
    ensures writes { Writes (T.holds out.old) (T.holds out.new) (options_line options.now) result }
    ensures cause { HasCause (T.faults out.old) (T.faults out.new) result }
{
    options_line(options).send(out)
}

fn write_terms<T: Sink>(out: &mut T, options: &Options) -> Result<(), Failed>
    ensures writes { Writes (T.holds out.old) (T.holds out.new) (terms_lines (with_journal options.now)) result }
    ensures cause { HasCause (T.faults out.old) (T.faults out.new) result }
{
    write_options(out, options)?;
    write_keys(out, b"watched", options.watch.as_slice())
}

fn write_live<T: Sink>(out: &mut T, live: &Keys, missed: u64) -> Result<(), Failed>
    ensures writes { Writes (T.holds out.old) (T.holds out.new) (live_lines live.now.items missed) result }
    ensures cause { HasCause (T.faults out.old) (T.faults out.new) result }
{
    write_keys(out, b"live", live.as_slice())?;
    write_count(out, b"missed", missed)
}

/// Writes the text of the journal that these lists tell, each line as one piece. It takes no
/// memory.
///
/// After an error the sink holds a proper front of the text.
pub fn write_journal_in<T: Sink>(
    out: &mut T,
    options: &Options,
    lists: &RunLists,
) -> Result<(), Failed>
    requires { AreComplete options.now lists.now }
    ensures writes { Writes (T.holds out.old) (T.holds out.new) (journal_text (journal_of_lists options.now lists.now)) result }
    ensures cause { HasCause (T.faults out.old) (T.faults out.new) result }
{
    write_words(out, b"octosketch journal 1")?;
    write_terms(out, options)?;
    write_workers(out, lists.pushes.as_slice(), lists.refused.as_slice())?;
    write_answers(out, lists.answers.as_slice())?;
    write_live(out, &lists.live, lists.missed)?;
    write_words(out, b"end")
}

/// Writes the journal's text in the same way.
#[tactic(auto, unfolding(crate::specs::Content::content_of))]
pub fn write_journal<T: Sink>(out: &mut T, journal: &Journal) -> Result<(), Failed>
    requires { IsComplete journal.now }
    ensures writes { Writes (T.holds out.old) (T.holds out.new) (journal_text (content_of journal.now)) result }
    ensures cause { HasCause (T.faults out.old) (T.faults out.new) result }
{
    write_journal_in(out, &journal.options, &journal.lists)
}
