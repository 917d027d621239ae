//! Runs the script on standard input: what it prints goes to standard output, the trace to standard error, and the
//! status is the exit status.
#![tactic(auto)]

use apl_outside::{StdSink, StdSource};
use apl_run::{Status, aplm};
use std::process::ExitCode;
use std::rt::Env;
use std::{env, io};

/// The words after the program's name.
fn words_of(rt: &(impl Env + AllocGlobal)) -> io::Result<Vec<String>> {
    let mut words = Vec::new(rt.alloc());
    for word in env::args(rt)?.skip(1) {
        words.push(word)?;
    }
    Ok(words)
}

/// How a run ends whose words can't be had: memory was wanting, or one of them is no text.
fn without_words(rt: &impl Eprint, error: &io::Error) -> Status {
    let (status, line) = match error.kind() {
        io::ErrorKind::OutOfMemory => (Status::NoMemory, "NO MEMORY"),
        _ => (Status::Words, "WORDS REFUSED"),
    };
    // Where the line can't be written, the status stays.
    let _ = rt.eprintln(line);
    status
}

/// Runs the script over standard input, output and error; the status is the exit status.
fn main(rt: HostRuntime) -> ExitCode {
    let words = match words_of(&rt) {
        Ok(words) => words,
        Err(error) => return ExitCode::from(without_words(&rt, &error).code()),
    };
    let mut src = StdSource::new(rt.stdin());
    let mut out = StdSink::new(rt.stdout());
    let mut tr = StdSink::new(rt.stderr());
    let ended = aplm(rt.alloc(), words.as_slice(), &mut src, &mut out, &mut tr);
    ExitCode::from(ended.status.code())
}
