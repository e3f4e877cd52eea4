//! The history of a published pair. It exists in the proofs alone, but for its length.
ghost use Rattle.std.specs.Prelude.{◌≡◌, ◌⊎◌, ◌+◌, ◌<◌, ◌≤◌, ◌∷◌, ◌++◌, [], length, IfSome, Some, None, MatchBool};
ghost use mathlib.Core.List.{IsPrefix};
ghost use Rattle.live_view.specs.HistoryRule.{head_of};
ghost use Rattle.live_view.specs.Views.{longer};
ghost use Rattle.live_state.specs.Fold.{most};

use hash_rows::Push;
use logbook::{Gain, Offer, Plain, Play, Rule, Seen, Start, Word};
use std::marker::Model;

/// The rule of the book.
pub struct HistoryRule;

impl Rule<Push, u64> for HistoryRule {
    ghost use Rattle.std.specs.Prelude.{[]};
    ghost use base.Fml.{ftrue};
    ghost use Rattle.live_view.specs.HistoryRule.{HoldsLength};

    ghost holds = { λ cells log. HoldsLength cells log };

    ghost first = { [] };

    ghost hinted = { λ n log. Unit {0} };

    ghost shows = { λ log. [] };

    ghost keeps = { λ names log. ftrue };

    ghost moves = { λ ask before after answer. Unit {0} };
}

/// Callers trade nothing.
pub struct Nothing;

impl Gain<Push, u64> for Nothing {
    ghost use base.Fml.{ftrue};

    ghost after = { λ names about answer. ftrue };
}

/// A step that adds a message.
pub struct Add;

impl Play<Push, u64> for Add {
    ghost use Rattle.live_view.specs.HistoryRule.{Adds};

    ghost then = { Adds };
}

/// What a step asks for: the message.
impl Plain<Push, Push, u64> for Add {
    ghost use Rattle.std.specs.Prelude.{None};

    ghost ask = { λ message. message };

    ghost state = { λ message. None };
}

/// A beginning of the history that was seen. It has no bytes.
#[derive(Drop)]
pub struct HistoryPrefix {
    seen: Seen<Push, u64, HistoryRule>,
}

impl Model for HistoryPrefix {
    ghost use Rattle.live_view.specs.Views.{History};

    ghost Value = { History };

    ghost view = { λ s. record { book = s.seen.book; log = s.seen.log } };
}

impl HistoryPrefix {
    /// A copy.
    pub fn again(&self) -> HistoryPrefix
        ensures { result ≡ self.now }
    {
        HistoryPrefix {
            seen: self.seen.again(),
        }
    }

    /// The shorter of two beginnings of one history begins the longer.
    pub fn begins(&self, other: &HistoryPrefix)
        requires book { other.now.book ≡ self.now.book }
        requires shorter { length self.now.log ≤ length other.now.log }
        ensures { IsPrefix self.now.log other.now.log }
    {
        let mut both = self.seen.again();
        both.learn(&other.seen);
    }
}

/// What the writer appends.
#[derive(Drop)]
pub struct Entry {
    pub message: Push,
    /// The history up to this message.
    pub prefix: HistoryPrefix,
}

/// The word of the history, which is its length, and all that was seen.
#[derive(Drop)]
pub struct HistoryWriter {
    pub head: Word<Push, u64, HistoryRule>,
    pub prefix: HistoryPrefix,
    pub count: u64,
    /// A message that stands in the history, and was refused by the pair.
    pub stuck: Option<Push>,
    pub ghost head_is: { head ≡ head_of prefix.book },
}

impl HistoryWriter {
    pub fn open() -> HistoryWriter
        ensures { (result.prefix.log ≡ []) × (result.count ≡ 0) × (result.stuck ≡ None) }
    {
        let (seen, mut first, _second) = Seen::open(Start::alone(), 0, 0);
        HistoryWriter {
            head: Word::tracked(0, &mut first),
            prefix: HistoryPrefix { seen },
            count: 0,
            stuck: None,
        }
    }

    /// Puts the message into the history, unless it stands there as the one that was refused.
    pub fn ready(&mut self, message: Push) -> bool
        requires count { self.old.count ≡ length self.old.prefix.log }
        requires room { self.old.count < most }
        ensures book { self.new.prefix.book ≡ self.old.prefix.book }
        ensures count { (self.new.count ≡ length self.new.prefix.log) × (self.new.count < most) }
        ensures ready { MatchBool result ((self.new.stuck ≡ Some message)
            × (((self.old.stuck ≡ Some message) × (self.new.prefix ≡ self.old.prefix))
            ⊎ ((self.old.stuck ≡ None) × (self.new.prefix ≡ longer self.old.prefix message)))) (self.new ≡ self.old) }
    {
        if let Some(late) = self.stuck {
            return late == message;
        }
        if self.count >= u64::MAX - 2 {
            return false;
        }
        match extended(&self.head, &self.prefix, self.count, message) {
            Some(prefix) => {
                self.prefix = prefix;
                self.count += 1;
                self.stuck = Some(message);
                true
            }
            None => false,
        }
    }
}

// The history with one message more. It is never refused, since nobody else has the word, but no clause says so.
fn extended(
    head: &Word<Push, u64, HistoryRule>,
    prefix: &HistoryPrefix,
    count: u64,
    message: Push,
) -> Option<HistoryPrefix>
    requires head { head.now ≡ head_of prefix.now.book }
    requires count { count ≡ length prefix.now.log }
    requires room { count < most }
    ensures { IfSome result (λ s. s ≡ longer prefix.now message) }
{
    let mut seen = prefix.seen.again();
    let mut offer: Offer<Push, u64, HistoryRule, Nothing> = seen.plain::<Nothing, Push, Add>(
        &message,
    );
    let mut pen = seen.no_pen();
    let found = head.compare_exchange::<Add, Nothing>(
        count,
        count + 1,
        &mut seen,
        &mut offer,
        &mut pen,
    );
    if found == count {
        Some(HistoryPrefix { seen })
    } else {
        None
    }
}
