ghost use Rattle.std.specs.Prelude.{◌≡◌, IfOk};
ghost use Rattle.hash_rows.specs.Lawful.{IsLawful};
ghost use Rattle.journal_read.specs.Terms.{told_options};
ghost use Rattle.journal_whole.specs.Drafted.{begun, draft_of, HasRooms};

use crate::reading::{Place, Reading};
use flow_base::NoMemory;
use hash_rows::Options;
use listed::Listed;
use octo_text::Journal;
use push_history::RunLists;
use std::alloc::Global;

/// The reading of a journal whose options are read, with room for all that may come but the bits.
pub(crate) fn begin(alloc: Global, options: Options) -> Result<Reading, NoMemory>
    requires lawful { IsLawful options }
    requires told { told_options options ≡ options }
    ensures draft { IfOk result (λ reading. draft_of reading ≡ begun options) }
    ensures rooms { IfOk result HasRooms }
{
    let refused = Listed::new(alloc, options.workers)?;
    let pushes = Listed::new(alloc, options.workers)?;
    let answers = Listed::new(alloc, options.readers * options.asks)?;
    let live = Listed::new(alloc, 1024)?;
    let lists = RunLists {
        refused,
        pushes,
        answers,
        live,
        missed: 0,
    };
    Ok(Reading {
        journal: Journal { options, lists },
        place: Place::Lists,
        refused: 0,
        due: 0,
        least: 0,
    })
}
