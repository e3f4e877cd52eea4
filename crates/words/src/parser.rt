ghost use Rattle.std.specs.Prelude.{◌≡◌, ◌++◌, IfOk, IfErr, List, map, true, false, string_bytes};
ghost use Rattle.std.specs.List.{list_all};
ghost use Rattle.clap.specs.Words.{app_of, rule_of};
ghost use Rattle.words.specs.Grammar.{IsNoLine, Name};
ghost use Rattle.words.specs.Names.{names_of};
ghost use Rattle.words.specs.Forms.{is_form};
ghost use Rattle.words.specs.Rules.{app_of_names, flag_name, option_name, told};
ghost use Rattle.words.specs.Matches.{HasLine};

use crate::WordStop;
use crate::names::{Verb, own_flags, own_options, shared_options};
use clap::error::ErrorKind;
use clap::{Arg, ArgAction, ArgMatches, Command as Parser};
use std::alloc::{AllocError, Global};

// An option with one value.
fn option<'a>(alloc: Global, name: &'a str) -> Arg<'a>
    ensures rule { rule_of result ≡ told name.entry.now true }
    ensures local { result.global ≡ false }
{
    Arg::new(alloc, name).long(name).action(ArgAction::Set)
}

// A flag.
fn flag<'a>(alloc: Global, name: &'a str) -> Arg<'a>
    ensures rule { rule_of result ≡ told name.entry.now false }
    ensures local { result.global ≡ false }
{
    Arg::new(alloc, name).long(name).action(ArgAction::SetTrue)
}

// The parser with these options more.
fn with_options<'a>(
    alloc: Global,
    begun: Parser<'a>,
    names: &[&'a str],
) -> Result<Parser<'a>, AllocError>
    ensures { (before : List Name) → app_of begun.entry ≡ app_of_names before
        → IfOk result (λ p. app_of p ≡ app_of_names (before ++ map option_name names.now)) }
{
    let mut parser = begun;
    for name in names {
        parser = parser.arg(option(alloc, name))?;
    }
    Ok(parser)
}

// The parser with these flags more.
fn with_flags<'a>(
    alloc: Global,
    begun: Parser<'a>,
    names: &[&'a str],
) -> Result<Parser<'a>, AllocError>
    ensures { (before : List Name) → app_of begun.entry ≡ app_of_names before
        → IfOk result (λ p. app_of p ≡ app_of_names (before ++ map flag_name names.now)) }
{
    let mut parser = begun;
    for name in names {
        parser = parser.arg(flag(alloc, name))?;
    }
    Ok(parser)
}

// The parser of a command's names.
fn parser_of<'a>(alloc: Global, verb: Verb) -> Result<Parser<'a>, AllocError>
    ensures { IfOk result (λ p. app_of p ≡ app_of_names (names_of verb)) }
{
    let begun = Parser::new(alloc, "octo")
        .no_binary_name(true)
        .disable_help_flag(true);
    let shared = with_options(alloc, begun, shared_options())?;
    let whole = with_options(alloc, shared, own_options(verb))?;
    with_flags(alloc, whole, own_flags(verb))
}

// Whether the word is no lone hyphen, no `--`, and does not begin with a single hyphen. The parser
// would take `--`, and `-` as a value.
fn is_form(word: &str) -> bool
    ensures { result ≡ is_form word.now }
{
    let bytes = word.as_bytes();
    bytes.is_empty() || bytes[0] != b'-' || (bytes.len() > 2 && bytes[1] == b'-')
}

fn are_forms(words: &[String]) -> bool
    ensures { result ≡ list_all is_form (map string_bytes words.now) }
{
    for word in words {
        if !is_form(word.as_str()) {
            return false;
        }
    }
    true
}

/// The matches of the words, where they are a line of the command's names.
pub(crate) fn matches_of<'a>(
    alloc: Global,
    verb: Verb,
    words: &'a [String],
) -> Result<ArgMatches<'a>, WordStop>
    ensures ok { IfOk result (HasLine (names_of verb) (map string_bytes words.now)) }
    ensures usage { IfErr result (λ e. e ≡ WordStop.Usage → IsNoLine (names_of verb) (map string_bytes words.now)) }
{
    if !are_forms(words) {
        return Err(WordStop::Usage);
    }
    let parser = match parser_of(alloc, verb) {
        Ok(parser) => parser,
        Err(_) => return Err(WordStop::NoMemory),
    };
    match parser.try_get_matches_from(words) {
        Ok(matches) => Ok(matches),
        Err(error) => match error.kind() {
            ErrorKind::OutOfMemory => Err(WordStop::NoMemory),
            _ => Err(WordStop::Usage),
        },
    }
}
