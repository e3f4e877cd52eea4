//! What the program does: its words, standard input, standard output and error output are handed to
//! the top call, and its status becomes the exit status.
#![tactic(auto)]

mod standard;

pub use standard::program;
