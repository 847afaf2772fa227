//! The program `cuckoo`: runs scripts on a cuckoo hash map, and makes scripts.
#![tactic(auto)]

mod failure;
mod program;

use program::program;
use std::process::ExitCode;
use std::{env, io};

// The words after the program's name.
fn words_of(rt: &HostRuntime) -> io::Result<Vec<String>> {
    let words = env::args(rt)?.skip(1).collect::<Vec<String>>(rt.alloc())?;
    Ok(words)
}

fn main(rt: HostRuntime) -> ExitCode {
    let (input, output, errors) = (rt.stdin(), rt.stdout(), rt.stderr());
    let status = match words_of(&rt) {
        Ok(words) => program(&rt, rt.alloc(), &words, input, output, errors),
        Err(error) => program::refuse(errors, failure::of_words(&error)),
    };
    ExitCode::from(status)
}
