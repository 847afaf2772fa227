//! What the program is asked to do.
use crate::fault::RequestFault;
use crate::recipe::{Recipe, recipe_of};
use clap::{Arg, ArgMatches, Command, Error};
use std::alloc::Global;

/// What the program is asked to do.
pub enum Request<'a> {
    /// Run the script in this file, else the one on standard input.
    Run(Option<&'a str>),
    /// Make a script.
    Make(Recipe),
}

// `make --seed S --workers W --lines L`, in any order.
fn make<'a>(alloc: Global) -> Result<Command<'a>, Error> {
    let mut make = Command::new(alloc, "make").disable_help_flag(true);
    for name in ["seed", "workers", "lines"] {
        make = make.arg(Arg::new(alloc, name).long(name))?;
    }
    Ok(make)
}

// `run [FILE]` and `make ..`, and nothing else: no help, no version.
fn command<'a>(alloc: Global) -> Result<Command<'a>, Error> {
    let run = Command::new(alloc, "run")
        .disable_help_flag(true)
        .arg(Arg::new(alloc, "file"))?;
    let command = Command::new(alloc, "cuckoo")
        .no_binary_name(true)
        .disable_help_flag(true)
        .disable_version_flag(true)
        .disable_help_subcommand(true)
        .subcommand_required(true)
        .subcommand(run)?
        .subcommand(make(alloc)?)?;
    Ok(command)
}

// The script that the words after `make` ask for.
fn made(make: &ArgMatches<'_>) -> Result<Recipe, RequestFault> {
    match (
        make.get_str("seed"),
        make.get_str("workers"),
        make.get_str("lines"),
    ) {
        (Some(seed), Some(workers), Some(lines)) => recipe_of(seed, workers, lines),
        _ => Err(RequestFault::Arguments),
    }
}

/// What these words ask for. Words that are refused are `Arguments` or `TooManyLines`, and want of
/// memory is `Memory`.
pub fn request_of<'a>(alloc: Global, words: &'a [String]) -> Result<Request<'a>, RequestFault> {
    let matches = command(alloc)?.try_get_matches_from(words)?;
    match matches.subcommand() {
        Some(("run", run)) => Ok(Request::Run(run.get_str("file"))),
        Some(("make", make)) => Ok(Request::Make(made(make)?)),
        _ => Err(RequestFault::Arguments),
    }
}
