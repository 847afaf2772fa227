//! Runs scripts: each worker is a caller of one table, and works in a thread of its own.
//!
//! Proved: what is written belongs to the script. Each command is refused, or its answer is that of
//! a plain map in one interleaving of the workers, and the pairs at the end are those of that map.
//! What is refused for want of room had grounds between what its worker did before it and after it.
//! What is busy met, at each of its last misses, another worker that held the stripe. A run that
//! finds no memory has written nothing, and one whose sink failed a prefix of such a text.
#![tactic(auto)]

mod calls;
mod gate;
mod job;
mod runner;
mod worker;

pub use gate::{Gate, OpenGate};
pub use runner::{RunFault, run};

// What a caller of `run` needs of the format.
pub use ck_format::{
    Answer, Command, Failed, FromRead, IntoWrite, Keys, Script, ScriptFault, Setting, Sink, Source,
    Version, What, Work, law_of_scripts, make_script, number_of, read_script,
};
