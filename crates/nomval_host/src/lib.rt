//! The program over the real files and the standard output, by the words of the command line.
#![tactic(auto)]

use gas_desk::HostDesk;
use nomval::run;
use std::alloc::{AllocError, Global};
use std::env;
use std::io::{self, ErrorKind};
use std::process::ExitCode;

// The exit status where the words can't be had for want of memory.
const NO_MEMORY: u8 = 71;

// The exit status where the words can't be had for another reason.
const NO_WORDS: u8 = 72;

fn exit_of(error: io::Error) -> u8 {
    if error.kind() == ErrorKind::OutOfMemory {
        NO_MEMORY
    } else {
        NO_WORDS
    }
}

// The words after the program's name, as references.
fn rest_of(alloc: Global, words: &[String]) -> Result<Vec<&str>, AllocError> {
    let mut rest = Vec::new(alloc);
    for word in words.iter().skip(1) {
        rest.push(word.as_str())?;
    }
    Ok(rest)
}

fn answer(rt: HostRuntime) -> Result<u8, io::Error> {
    let alloc = rt.alloc();
    let words: Vec<String> = env::args(&rt)?.collect(alloc)?;
    let rest = rest_of(alloc, &words)?;
    let mut desk = HostDesk::new(rt, alloc);
    Ok(run(alloc, &rest, &mut desk).exit())
}

/// Answers the words of the command line, and gives the exit status.
pub fn run_words(rt: HostRuntime) -> ExitCode {
    match answer(rt) {
        Ok(status) => ExitCode::from(status),
        Err(error) => ExitCode::from(exit_of(error)),
    }
}
