//! The program: the words of the command line, the standard streams, and one call.
#![tactic(auto)]

use pn_command::{Status, run};
use pn_outside::{BufferedSink, PlainSource, StdSink, StdSource};
use std::env;
use std::io::{BufWriter, ErrorKind};
use std::process::ExitCode;
use std::rt::Env;

/// The words behind the program's name, or the status where one is not UTF-8 or there is no
/// memory for them.
fn words(rt: &(impl Env + AllocGlobal)) -> Result<Vec<String>, Status> {
    let mut words = Vec::new(rt.alloc());
    let args = match env::args(rt) {
        Ok(args) => args,
        Err(error) if error.kind() == ErrorKind::OutOfMemory => return Err(Status::OutOfMemory),
        Err(_) => return Err(Status::Usage),
    };
    for word in args.skip(1) {
        if words.push(word).is_err() {
            return Err(Status::OutOfMemory);
        }
    }
    Ok(words)
}

/// Answers the words over the standard streams.
fn answer(rt: HostRuntime) -> Status {
    let words = match words(&rt) {
        Ok(words) => words,
        Err(status) => return status,
    };
    let Ok(stdout) = BufWriter::new(rt.alloc(), rt.stdout()) else {
        return Status::OutOfMemory;
    };
    let mut source = StdSource::new(rt.stdin());
    let mut side = PlainSource::new(Vec::new(rt.alloc()));
    let mut out = BufferedSink::new(stdout);
    let mut err = StdSink::new(rt.stderr());
    run(
        rt.alloc(),
        &words,
        &mut source,
        &mut side,
        &mut out,
        &mut err,
    )
}

fn main(rt: HostRuntime) -> ExitCode {
    ExitCode::from(answer(rt).number())
}
