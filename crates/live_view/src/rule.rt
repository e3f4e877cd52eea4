//! The rule of a published pair.
use crate::published::Published;
use atomic_table::{Join, Split};
use crossbeam_utils::rule::{Outcome, Protocol};
use hash_rows::{Kind, Push};
use live_state::Layout;

/// Which book it is. No value of it is made.
pub struct Name {
    pub number: u64,
    pub log_name: u64,
    pub cells_name: u64,
}

/// The book of the pair, and what its states are made for. No value of it is made.
pub struct Pair {
    pub book: Name,
    pub layout: Layout,
}

/// What a seat knows: a list that was published. No value of it is made, and a clause reads an array as a list of any length.
pub struct Notes {
    pub known: [Push; 0],
    pub pair: Option<Pair>,
}

/// The state is the fold of its history, which each list that a seat knows begins.
pub struct Law;

impl<K: Kind> Protocol<Published<K>, Notes> for Law {
    ghost use Rattle.live_view.specs.Rule.{IsPublished, notes};
    ghost use Rattle.std.specs.Prelude.{[], None};

    ghost holds = { λ p views. IsPublished K.rules p views };

    ghost first = { notes [] None };
}

/// What an enter tells.
pub struct Enters;

impl<K: Kind> Outcome<Published<K>, Notes> for Enters {
    ghost use Rattle.live_view.specs.Rule.{Entered};

    ghost then = { λ v x y w. Entered K.rules v x w };
}

/// What a publish tells.
pub struct Publishes;

impl<K: Kind> Outcome<Published<K>, Notes> for Publishes {
    ghost use Rattle.std.specs.Prelude.{◌≡◌, Some};
    ghost use Rattle.live_view.specs.Rule.{notes, pair_of};

    ghost then = { λ v x y w. w ≡ notes y.history.log (Some (pair_of y)) };
}

/// A told seat knows what the writer knows.
pub struct Tells;

impl Split<Notes> for Tells {
    ghost left = { λ v. v };

    ghost right = { λ v. v };
}

/// What a told seat knows of the pair is known, and no list.
pub struct Pairs;

impl Join<Notes> for Pairs {
    ghost use Rattle.std.specs.Prelude.{[], None};
    ghost use Rattle.live_view.specs.Rule.{notes};

    ghost both = { λ v w. notes v.known w.pair };

    ghost spent = { notes [] None };
}
