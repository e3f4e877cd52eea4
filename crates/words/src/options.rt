ghost use Rattle.std.specs.Prelude.{◌≡◌, List, Option, true, false, codes};
ghost use Rattle.words.specs.Grammar.{Part, Text, is_in};
ghost use Rattle.words.specs.Matches.{AreMatches};
ghost use Rattle.words.specs.Values.{Finds, ReadsKeys};
ghost use Rattle.words.specs.Options.{GivesOptions, GivesShape, HasRegisters, most_rows, usual_rows, usual_threshold, suits};

use crate::values::{
    amount_or, full_or, is_registers, least_or, mode_or, number_or, share_or, sketch_or, small_or,
};
use clap::ArgMatches;
use hash_rows::{Keys, Options, Shape, Sketch};

fn most_rows(sketch: Sketch) -> u32
    ensures { result ≡ most_rows sketch }
{
    match sketch {
        Sketch::LogLog => 1,
        _ => 8,
    }
}

fn usual_rows(sketch: Sketch) -> u32
    ensures { result ≡ usual_rows sketch }
{
    match sketch {
        Sketch::LogLog => 1,
        _ => 4,
    }
}

fn usual_threshold(sketch: Sketch) -> u64
    ensures { result ≡ usual_threshold sketch }
{
    match sketch {
        Sketch::LogLog => 1,
        _ => 16,
    }
}

// Whether the sketch can have so many columns.
fn has_columns(sketch: Sketch, columns: u32) -> bool
    ensures yes { result ≡ true → HasRegisters sketch columns }
    ensures no { result ≡ false → HasRegisters sketch columns → ⊥ }
{
    match sketch {
        Sketch::LogLog => is_registers(columns),
        _ => true,
    }
}

// Whether the matches name nothing that the sketch has no use for.
fn suits(matches: &ArgMatches<'_>, sketch: Sketch) -> bool
    ensures { (parts : List Part) → AreMatches parts matches.now → result ≡ suits sketch parts }
{
    match sketch {
        Sketch::LogLog => {
            !(matches.get_str("amount").is_some()
                || matches.get_str("watch").is_some()
                || matches.get_str("heavy").is_some()
                || matches.get_str("least").is_some())
        }
        _ => true,
    }
}

// The shape that the matches hold.
fn shape_of(matches: &ArgMatches<'_>, sketch: Sketch) -> Option<Shape>
    ensures { (parts : List Part) → AreMatches parts matches.now
        → Finds (GivesShape parts sketch) result }
{
    let usual = usual_rows(sketch);
    let rows = small_or(matches.get_str("rows"), 1, most_rows(sketch), usual)?;
    let columns = small_or(matches.get_str("columns"), 1, 65536, 2048)?;
    if !has_columns(sketch, columns) {
        return None;
    }
    Some(Shape { rows, columns })
}

// Whether the matches hold the flag.
fn has_journal(matches: &ArgMatches<'_>) -> bool
    ensures { (parts : List Part) → AreMatches parts matches.now → result ≡ is_in (codes "journal") parts }
{
    matches.get_flag("journal")
}

/// The options that the matches hold, with the keys that they watch.
pub(crate) fn options_of(matches: &ArgMatches<'_>, usual: Sketch, watch: Keys) -> Option<Options>
    ensures { (parts : List Part) (keys : Option Text) → AreMatches parts matches.now
        → ReadsKeys keys watch.items → watch.room ≡ 16
        → Finds (GivesOptions usual keys parts) result }
{
    let sketch = sketch_or(matches.get_str("sketch"), usual)?;
    if !suits(matches, sketch) {
        return None;
    }
    let otherwise = usual_threshold(sketch);
    let threshold = number_or(matches.get_str("threshold"), 1, 1099511627776, otherwise)?;
    let shape = shape_of(matches, sketch)?;
    Some(Options {
        sketch,
        shape,
        amount: amount_or(matches.get_str("amount"))?,
        share: share_or(matches.get_str("share"))?,
        workers: small_or(matches.get_str("workers"), 1, 16, 4)?,
        threshold,
        lane: small_or(matches.get_str("lane"), 1, 4096, 64)?,
        batch: small_or(matches.get_str("batch"), 1, 1024, 32)?,
        round: small_or(matches.get_str("round"), 1, 65536, 64)?,
        full: full_or(matches.get_str("full"))?,
        mode: mode_or(matches.get_str("mode"))?,
        readers: small_or(matches.get_str("readers"), 0, 4, 0)?,
        asks: small_or(matches.get_str("asks"), 0, 1024, 0)?,
        heavy: small_or(matches.get_str("heavy"), 1, 1024, 64)?,
        least: least_or(matches.get_str("least"))?,
        journal: has_journal(matches),
        watch,
    })
}
