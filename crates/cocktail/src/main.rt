//! The command line tool: the words of the command line are handed to the top call of `commands`, with the
//! real outside, and its status ends the program.
#![tactic(auto)]

mod adapters;
#[cfg(test)]
mod tests;

use adapters::{FileOrigin, FileTarget, StdSink};
use commands::{Status, cocktail};
use std::process::ExitCode;
use std::{env, io};

fn main(rt: HostRuntime) -> ExitCode {
    ExitCode::from(run(&rt).code())
}

// Runs the tool on the real outside. Words that are not UTF-8 are no command, as no words are.
fn run(rt: &HostRuntime) -> Status {
    match words_of(rt) {
        Ok(words) => run_words(rt, words.as_slice()),
        Err(e) if e.kind() == io::ErrorKind::OutOfMemory => Status::NoMemory,
        Err(_) => run_words(rt, &[]),
    }
}

fn words_of(rt: &HostRuntime) -> io::Result<Vec<String>> {
    Ok(env::args(rt)?.skip(1).collect(rt.alloc())?)
}

fn run_words(rt: &HostRuntime, words: &[String]) -> Status {
    cocktail(
        rt.alloc(),
        words,
        &mut FileOrigin::new(rt),
        &mut FileTarget::new(rt),
        &mut StdSink::new(rt),
    )
}
