ghost use Rattle.std.specs.Prelude.{◌≡◌, ℕ, IfOk, IfErr, map, string_bytes, List, []};
ghost use Rattle.std.specs.Option.{option_copied};
ghost use Rattle.hash_rows.specs.declared.options.Options.{Options};
ghost use Rattle.listed.specs.Listed.{Listed};
ghost use Rattle.prefixes.specs.declared.network.Prefix.{Prefix};
ghost use Rattle.words.specs.Grammar.{Part};
ghost use Rattle.words.specs.Matches.{AreMatches};
ghost use Rattle.words.specs.Options.{Gives, GivesEpochs, GivesLoad, GivesOptions, GivesPrefix, GivesRun, GivesWatched, IsLawfulCommand};

use crate::names::Verb;
use crate::options::options_of;
use crate::parser::matches_of;
use crate::values::{number_of, number_or};
use crate::watch::watched_or;
use crate::{Command, WordStop};
use clap::ArgMatches;
use hash_rows::{Options, Sketch};
use packet_key::FlowKey;
use prefixes::Prefix;
use std::alloc::Global;

/// The command that the words give; the program's name is not among them. `Usage` comes exactly
/// where they are not in the grammar, and `NoMemory` only for want of memory.
pub fn read_words(alloc: Global, words: &[String]) -> Result<Command, WordStop>
    ensures ok { IfOk result (Gives (map string_bytes words.now)) }
    ensures once { IfOk result (λ c. (d : Command) → Gives (map string_bytes words.now) d → c ≡ d) }
    ensures lawful { IfOk result IsLawfulCommand }
    ensures usage { IfErr result (λ e. e ≡ WordStop.Usage → (c : Command) → Gives (map string_bytes words.now) c → ⊥) }
{
    let Some((first, rest)) = words.split_first() else {
        return Err(WordStop::Usage);
    };
    match first.as_str() {
        "run" => read_run(alloc, rest),
        "load" => read_load(alloc, rest),
        "prefix" => read_prefix(alloc, rest),
        "epochs" => read_epochs(alloc, rest),
        "audit" => read_audit(rest),
        _ => Err(WordStop::Usage),
    }
}

// The words behind `run`.
fn read_run(alloc: Global, rest: &[String]) -> Result<Command, WordStop>
    ensures ok { IfOk result (λ c. (o : Options) × (c ≡ Command.Run o) × GivesRun (map string_bytes rest.now) o) }
    ensures once { IfOk result (λ c. (d : Options) → GivesRun (map string_bytes rest.now) d → c ≡ Command.Run d) }
    ensures usage { IfErr result (λ e. e ≡ WordStop.Usage → (o : Options) → GivesRun (map string_bytes rest.now) o → ⊥) }
{
    let matches = matches_of(alloc, Verb::Run, rest)?;
    let options = read_watched(alloc, &matches)?;
    Ok(Command::Run(options))
}

// The words behind `load`.
fn read_load(alloc: Global, rest: &[String]) -> Result<Command, WordStop>
    ensures ok { IfOk result (λ c. (n : ℕ) × (k : ℕ) × (o : Options) × (c ≡ Command.Load n k o)
        × GivesLoad (map string_bytes rest.now) n k o) }
    ensures once { IfOk result (λ c. (n k : ℕ) → (d : Options) → GivesLoad (map string_bytes rest.now) n k d → c ≡ Command.Load n k d) }
    ensures usage { IfErr result (λ e. e ≡ WordStop.Usage → (n k : ℕ) → (o : Options) → GivesLoad (map string_bytes rest.now) n k o → ⊥) }
{
    let matches = matches_of(alloc, Verb::Load, rest)?;
    let Some(records) = number_of(matches.get_str("records"), 0, 1048576) else {
        return Err(WordStop::Usage);
    };
    let Some(start) = number_of(matches.get_str("start"), 0, 4294967295) else {
        return Err(WordStop::Usage);
    };
    let options = read_watched(alloc, &matches)?;
    Ok(Command::Load {
        records,
        start,
        options,
    })
}

// The words behind `prefix`.
fn read_prefix(alloc: Global, rest: &[String]) -> Result<Command, WordStop>
    ensures ok { IfOk result (λ c. (o : Options) × (w : Listed Prefix) × (c ≡ Command.Prefix o w)
        × GivesPrefix (map string_bytes rest.now) o w) }
    ensures once { IfOk result (λ c. (d : Options) (w : Listed Prefix)
        → GivesPrefix (map string_bytes rest.now) d w → c ≡ Command.Prefix d w) }
    ensures usage { IfErr result (λ e. e ≡ WordStop.Usage
        → (o : Options) (w : Listed Prefix) → GivesPrefix (map string_bytes rest.now) o w → ⊥) }
{
    let matches = matches_of(alloc, Verb::Prefix, rest)?;
    let watch = watched_or::<Prefix>(alloc, matches.get_str("watch"))?;
    let options = read_options(alloc, &matches, Sketch::CountMin, None)?;
    Ok(Command::Prefix { options, watch })
}

// The words behind `epochs`.
fn read_epochs(alloc: Global, rest: &[String]) -> Result<Command, WordStop>
    ensures ok { IfOk result (λ c. (n : ℕ) × (k : ℕ) × (o : Options) × (c ≡ Command.Epochs n k o)
        × GivesEpochs (map string_bytes rest.now) n k o) }
    ensures once { IfOk result (λ c. (n k : ℕ) → (d : Options)
        → GivesEpochs (map string_bytes rest.now) n k d → c ≡ Command.Epochs n k d) }
    ensures usage { IfErr result (λ e. e ≡ WordStop.Usage → (n k : ℕ) → (o : Options) → GivesEpochs (map string_bytes rest.now) n k o → ⊥) }
{
    let matches = matches_of(alloc, Verb::Epochs, rest)?;
    let Some(packets) = number_of(matches.get_str("packets"), 256, 16777216) else {
        return Err(WordStop::Usage);
    };
    let Some(change) = number_or(matches.get_str("change"), 1, 1099511627776, 1024) else {
        return Err(WordStop::Usage);
    };
    let options = read_options(alloc, &matches, Sketch::CountSketch, None)?;
    Ok(Command::Epochs {
        packets,
        change,
        options,
    })
}

// The words behind `audit`, of which there are none.
fn read_audit(rest: &[String]) -> Result<Command, WordStop>
    ensures ok { IfOk result (λ c. (c ≡ Command.Audit) × (map string_bytes rest.now ≡ [])) }
    ensures usage { IfErr result (λ e. map string_bytes rest.now ≡ [] → ⊥) }
{
    if !rest.is_empty() {
        return Err(WordStop::Usage);
    }
    Ok(Command::Audit)
}

// The options of the matches, with the keys to watch.
fn read_watched(alloc: Global, matches: &ArgMatches<'_>) -> Result<Options, WordStop>
    ensures ok { (parts : List Part) → AreMatches parts matches.now → IfOk result (GivesWatched parts) }
    ensures once { (parts : List Part) → AreMatches parts matches.now
        → IfOk result (λ o. (d : Options) → GivesWatched parts d → o ≡ d) }
    ensures usage { (parts : List Part) → AreMatches parts matches.now
        → IfErr result (λ e. e ≡ WordStop.Usage → (o : Options) → GivesWatched parts o → ⊥) }
{
    read_options(alloc, matches, Sketch::CountMin, matches.get_str("watch"))
}

// The options of the matches, where this sketch is usual and the list is that of the keys to watch.
fn read_options(
    alloc: Global,
    matches: &ArgMatches<'_>,
    usual: Sketch,
    list: Option<&str>,
) -> Result<Options, WordStop>
    ensures ok { (parts : List Part) → AreMatches parts matches.now
        → IfOk result (GivesOptions usual (option_copied list.entry) parts) }
    ensures once { (parts : List Part) → AreMatches parts matches.now
        → IfOk result (λ o. (d : Options) → GivesOptions usual (option_copied list.entry) parts d → o ≡ d) }
    ensures usage { (parts : List Part) → AreMatches parts matches.now
        → IfErr result (λ e. e ≡ WordStop.Usage → (o : Options) → GivesOptions usual (option_copied list.entry) parts o → ⊥) }
{
    let watch = watched_or::<FlowKey>(alloc, list)?;
    match options_of(matches, usual, watch) {
        Some(options) => Ok(options),
        None => Err(WordStop::Usage),
    }
}
