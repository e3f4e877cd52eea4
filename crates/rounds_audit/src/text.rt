ghost use Rattle.std.specs.Prelude.{◌≡◌, ◌≤◌, [], length, IfOk};
ghost use Rattle.push_history.specs.Journal.{journal_of_lists};
ghost use Rattle.octo_text.specs.Content.{AreComplete};
ghost use Rattle.octo_text.specs.JournalText.{journal_text};

use flow_base::{Failed, NoMemory, Sink};
use hash_rows::Options;
use octo_text::write_journal_in;
use push_history::RunLists;
use std::alloc::Global;
use std::marker::Model;

// So few that lines can be counted. A longer text counts as want of memory.
const MOST_BYTES: usize = 4_000_000_000;

/// A text in memory that is being written.
#[derive(Drop)]
pub(crate) struct Text {
    bytes: Vec<u8>,
    faults: u64,
}

impl Model for Text {
    ghost use Rattle.std.specs.Prelude.{◌≤◌, length};
    ghost use Rattle.rounds_audit.specs.TextHeld.{TextHeld};

    ghost Value = { TextHeld };

    ghost view = { λ t. record { held = t.bytes.items; faults = t.faults } };

    ghost invariant = { λ t. length t.bytes.items ≤ 4000000000 };
}

impl Text {
    fn new(alloc: Global) -> Text
        ensures { result ≡ record { held = []; faults = 0 } }
    {
        Text {
            bytes: Vec::new(alloc),
            faults: 0,
        }
    }

    fn into_bytes(self) -> Vec<u8>
        ensures bytes { result.items ≡ self.held }
        ensures few { length result.items ≤ 4000000000 }
    {
        self.bytes
    }
}

impl Sink for Text {
    ghost use Rattle.std.specs.Prelude.{◌<◌, Some, OnErr, take};
    ghost use Rattle.flow_base.specs.Causes.{HasCause};
    ghost use Rattle.flow_base.specs.Flow.{grown};

    ghost holds = { λ text. Some text.held };

    ghost faults = { λ text. text.faults };

    fn write(&mut self, piece: &[u8]) -> Result<usize, Failed>
        requires { 0 < length piece.now }
        ensures some { IfOk result (λ count. 0 < count) }
        ensures bound { IfOk result (λ count. count ≤ length piece.now) }
        ensures taken { IfOk result (λ count. Some self.new.held ≡ grown (Some self.old.held) (take count piece.now)) }
        ensures err { OnErr result (Some self.new.held ≡ Some self.old.held) }
        ensures cause { HasCause self.old.faults self.new.faults result }
    {
        if piece.len() <= MOST_BYTES - self.bytes.len()
            && self.bytes.extend_from_slice(piece).is_ok()
        {
            Ok(piece.len())
        } else {
            self.faults = self.faults.saturating_add(1);
            Err(Failed)
        }
    }
}

/// The text of the journal that these lists tell.
pub(crate) fn journal_bytes(
    alloc: Global,
    options: &Options,
    lists: &RunLists,
) -> Result<Vec<u8>, NoMemory>
    requires { AreComplete options.now lists.now }
    ensures text { IfOk result (λ text. text.items ≡ journal_text (journal_of_lists options.now lists.now)) }
    ensures few { IfOk result (λ text. length text.items ≤ 4000000000) }
{
    let mut text = Text::new(alloc);
    match write_journal_in(&mut text, options, lists) {
        Ok(()) => Ok(text.into_bytes()),
        Err(_) => Err(NoMemory),
    }
}
