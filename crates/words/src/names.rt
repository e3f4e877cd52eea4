ghost use Rattle.std.specs.Prelude.{◌≡◌, map};
ghost use Rattle.words.specs.Names.{own_flags, own_options, shared_options};
ghost use Rattle.words.specs.Rules.{flag_name, option_name};

/// The commands that have options and flags.
#[derive(Clone, Copy)]
pub(crate) enum Verb {
    Run,
    Load,
    Prefix,
    Epochs,
}

static SHARED: [&str; 12] = [
    "rows",
    "columns",
    "threshold",
    "lane",
    "batch",
    "round",
    "amount",
    "workers",
    "share",
    "heavy",
    "least",
    "full",
];

static RUN: [&str; 5] = ["sketch", "mode", "watch", "readers", "asks"];

static LOAD: [&str; 7] = [
    "sketch", "mode", "watch", "readers", "asks", "records", "start",
];

static PREFIX: [&str; 3] = ["watch", "readers", "asks"];

static EPOCHS: [&str; 3] = ["mode", "packets", "change"];

static JOURNAL: [&str; 1] = ["journal"];

/// The options that all of them take.
pub(crate) fn shared_options() -> &'static [&'static str]
    ensures { map option_name result.now ≡ shared_options }
{
    SHARED.as_slice()
}

/// The options that the command takes beside them.
pub(crate) fn own_options(verb: Verb) -> &'static [&'static str]
    ensures { map option_name result.now ≡ own_options verb }
{
    match verb {
        Verb::Run => RUN.as_slice(),
        Verb::Load => LOAD.as_slice(),
        Verb::Prefix => PREFIX.as_slice(),
        Verb::Epochs => EPOCHS.as_slice(),
    }
}

/// Its flags.
pub(crate) fn own_flags(verb: Verb) -> &'static [&'static str]
    ensures { map flag_name result.now ≡ own_flags verb }
{
    match verb {
        Verb::Run | Verb::Load => JOURNAL.as_slice(),
        Verb::Prefix | Verb::Epochs => &[],
    }
}
