//! The grammar of the command line, and its reading through `clap`. A command is `run`, `load`,
//! `prefix` or `epochs` with options, or `audit` alone.
#![tactic(auto)]

mod command;
mod names;
mod options;
mod parser;
mod read;
mod values;
mod watch;
mod watched;

pub use command::{Command, WordStop};
pub use read::read_words;
