ghost use Rattle.std.specs.Prelude.{◌≡◌, ◌+◌, ◌<◌, ◌≤◌, ◌*◌, All, length, map, sum, take};
ghost use Rattle.hash_rows.specs.Marks.{marked};
ghost use Rattle.octo_text.specs.Content.{content_of};
ghost use Rattle.audit_law.specs.LineNumbers.{lines_of_worker, refused_line, worker_line};
ghost use Rattle.octo_text.specs.Readable.{HasCountableLines};

use crate::runs::{count_runs, count_runs_until};
use hash_rows::Bits;
use octo_text::Journal;

// The lines before those of a worker, and one more.
fn line_behind(watched: u32, refused: &[Bits]) -> u32
    requires watched { watched ≤ 16 }
    requires workers { length refused.now ≤ 16 }
    requires few { All (λ bits. length bits ≤ 134217728) refused.now }
    ensures line { result ≡ 3 + watched + sum (map lines_of_worker (map marked refused.now)) }
    ensures most { result ≤ 19 + 134217729 * length refused.now }
{
    let mut line = 3 + watched;
    for bits in refused {
        line += 1 + count_runs(bits);
    }
    line
}

/// The line of the worker, or that behind all of them.
pub fn line_of_worker(journal: &Journal, worker: u32) -> u32
    requires short { HasCountableLines journal.now }
    requires worker { worker ≤ length journal.now.lists.refused.items }
    ensures line { result ≡ worker_line (content_of journal.now) worker }
    ensures most { result ≤ 2147483700 }
{
    let before = &journal.lists.refused.as_slice()[..worker as usize];
    line_behind(journal.options.watch.len(), before)
}

/// The line of the run that a refused update of the worker is in.
pub fn line_of_refused(journal: &Journal, worker: u32, update: u32) -> u32
    requires short { HasCountableLines journal.now }
    requires worker { worker < length journal.now.lists.refused.items }
    ensures { result ≡ refused_line (content_of journal.now) worker update }
{
    let runs = count_runs_until(journal.lists.refused.get(worker), update);
    line_of_worker(journal, worker) + runs
}
