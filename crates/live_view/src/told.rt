//! What a writer tells.
ghost use Rattle.std.specs.Prelude.{◌≡◌, ◌⊎◌, length};
ghost use mathlib.Core.List.{IsPrefix};

use crate::history::HistoryPrefix;
use std::marker::Model;

/// The list that was published when it was made, and its length.
#[derive(Drop)]
pub struct Told {
    prefix: HistoryPrefix,
    folded: u64,
}

impl Model for Told {
    ghost use Rattle.std.specs.Prelude.{◌≡◌, length};
    ghost use Rattle.live_view.specs.Views.{History};

    ghost Value = { History };

    ghost view = { λ t. t.prefix };

    ghost invariant = { λ t. t.folded ≡ length t.prefix.log };
}

impl Told {
    pub(crate) fn of(prefix: HistoryPrefix, folded: u64) -> Told
        requires { folded ≡ length prefix.log }
        ensures { result ≡ prefix }
    {
        Told { prefix, folded }
    }

    pub(crate) fn prefix(&self) -> &HistoryPrefix
        ensures { result.now ≡ self.now }
    {
        &self.prefix
    }

    /// The length of the list.
    pub fn folded(&self) -> u64
        ensures { result ≡ length self.now.log }
    {
        self.folded
    }

    /// A copy.
    pub fn again(&self) -> Told
        ensures { result ≡ self.now }
    {
        Told {
            prefix: self.prefix.again(),
            folded: self.folded,
        }
    }

    // Of two lists of one history the longer, which the other begins.
    pub(crate) fn longer(&self, other: Told) -> Told
        requires { other.book ≡ self.now.book }
        ensures book { result.book ≡ self.now.book }
        ensures this { IsPrefix self.now.log result.log }
        ensures that { IsPrefix other.log result.log }
        ensures one { (result.log ≡ self.now.log) ⊎ (result.log ≡ other.log) }
    {
        if self.folded < other.folded {
            self.prefix.begins(&other.prefix);
            return other;
        }
        other.prefix.begins(&self.prefix);
        self.again()
    }
}
