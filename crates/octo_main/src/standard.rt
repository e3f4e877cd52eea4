ghost use Rattle.std.specs.Prelude.{◌≡◌};
ghost use Rattle.std.specs.Process.{exit_status};
ghost use Rattle.flow_base.specs.Codes.{code_of};

use flow_base::{Status, StdSink, StdSource};
use octo_run::{Fault, OpenGate, octo, tell};
use std::alloc::Global;
use std::env::Env;
use std::io::{ErrorKind, Input, Print, Write};
use std::process::ExitCode;
use std::sync::Wait;
use std::thread::Threads;
use std::{env, io};

// The words after the program's name. Words that aren't UTF-8 are a faulty command line.
fn words_of<R: Env + Alloc<A = Global>>(rt: &R) -> io::Result<Vec<String>> {
    let mut words = Vec::new(rt.alloc());
    for word in env::args(rt)?.skip(1) {
        words.push(word)?;
    }
    Ok(words)
}

// The exit code of a status.
fn exit_of(status: Status) -> ExitCode
    ensures { exit_status result ≡ code_of status }
{
    ExitCode::from(status.code())
}

/// Runs the program, and answers its exit code.
pub fn program<R: Env + Alloc<A = Global> + Input + Print + Threads + Wait + Sync, W: Write + Drop>(
    rt: &R,
    error_output: W,
) -> ExitCode {
    let mut err = StdSink::new(error_output);
    let status = match words_of(rt) {
        Ok(words) => {
            let mut source = StdSource::new(rt.reader());
            let mut out = StdSink::new(io::writer(rt));
            octo(
                rt,
                rt.alloc(),
                &words,
                &mut source,
                &mut out,
                &mut err,
                &OpenGate,
            )
        }
        Err(error) if error.kind() == ErrorKind::OutOfMemory => tell(&mut err, &Fault::NoMemory),
        Err(_) => tell(&mut err, &Fault::Usage),
    };
    exit_of(status)
}
