//! The program, over any readers and writers.
use crate::failure::Failure;
use ck_format::{FromRead, IntoWrite, make_script, read_script};
use ck_request::{Recipe, Request, request_of};
use ck_script::{OpenGate, RunFault, run};
use std::alloc::Global;
use std::fs::File;
use std::io::{Read, Write};
use std::rt::Files;
use std::thread::Threads;

// Reads a script whole, and runs it. A writer that holds bytes back is flushed.
fn run_from<R: Threads + Sync, I: Read + Drop, O: Write + Drop>(
    rt: &R,
    alloc: Global,
    input: I,
    mut output: O,
) -> Result<(), Failure> {
    let script = match read_script(alloc, &mut FromRead::new(input)) {
        Ok(script) => script,
        Err(fault) => return Err(Failure::Script(fault)),
    };
    match run(
        rt,
        alloc,
        script,
        &mut IntoWrite::new(&mut output),
        &OpenGate,
    ) {
        Ok(()) => {}
        Err(RunFault::Memory) => return Err(Failure::Memory),
        Err(RunFault::Write { .. }) => return Err(Failure::Write),
    }
    output.flush().map_err(|_| Failure::Write)
}

// Makes a script whole, and writes it. A writer that holds bytes back is flushed.
fn make_to<O: Write + Drop>(alloc: Global, recipe: Recipe, mut output: O) -> Result<(), Failure> {
    let mut text = Vec::new(alloc);
    make_script(recipe.seed, recipe.workers, recipe.lines, &mut text).map_err(|_| Failure::Memory)?;
    output.write_all(&text).map_err(|_| Failure::Write)?;
    output.flush().map_err(|_| Failure::Write)
}

// Does what the words ask for.
fn obey<R: Files + Threads + Sync, I: Read + Drop, O: Write + Drop>(
    rt: &R,
    alloc: Global,
    words: &[String],
    input: I,
    output: O,
) -> Result<(), Failure> {
    match request_of(alloc, words)? {
        Request::Run(None) => run_from(rt, alloc, input, output),
        Request::Run(Some(path)) => match File::open(rt, path) {
            Ok(file) => run_from(rt, alloc, file, output),
            Err(_) => Err(Failure::Open),
        },
        Request::Make(recipe) => make_to(alloc, recipe, output),
    }
}

/// Says why the program fails, and gives the status for it. A writer that fails too is let be.
pub fn refuse<E: Write + Drop>(mut errors: E, failure: Failure) -> u8 {
    let _ = writeln!(errors, "cuckoo: {failure}");
    failure.status()
}

/// Does what the words ask for, and gives the exit status: 0 after success, 1 after a fault of a
/// script or a device or want of memory, 2 for words that are refused. What is wrong is one line on
/// `errors`; on a fault of the script and where words are refused nothing is written to `output`.
/// `words` are those after the program's name.
pub fn program<R: Files + Threads + Sync, I: Read + Drop, O: Write + Drop, E: Write + Drop>(
    rt: &R,
    alloc: Global,
    words: &[String],
    input: I,
    output: O,
    errors: E,
) -> u8 {
    match obey(rt, alloc, words, input, output) {
        Ok(()) => 0,
        Err(failure) => refuse(errors, failure),
    }
}
