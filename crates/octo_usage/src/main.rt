//! The program octo, run on words that aren't in the grammar.
#![tactic(auto)]

use octo_main::program;
use std::io;
use std::process::ExitCode;

fn main(rt: HostRuntime) -> ExitCode {
    let error_output = rt.stderr();
    program(&rt, io::writer(&error_output))
}
