//! Plays transcripts: makes the calls that they ask for on tables of numbers, and prints each line
//! with its answer. A transcript that has the answers is printed as it is, so `tests/calls/run`
//! compares what is printed with what was read.
//!
//! A line `> CALL NUMBERS` makes a call by the table under session, and `> HANDLE CALL NUMBERS` by
//! a handle, which are numbered from 1. A line `# TEXT` and an empty one are printed as they are,
//! and any other is an answer. `> table S POWER MAX CALLERS TURNS ROUNDS MIN_LOAD` opens a table;
//! `default` and `for_keys KEYS CALLERS` open one by settings of the library, and print them. `lock`,
//! `keys`, `room`, `around`, `around_two` and `threads` begin a block, which the line `> end` ends.
#![tactic(auto)]

mod answer;
mod line;
mod watch;

// The calls, each once.
mod calls;
mod closures;
mod several;
mod size;

// The same of locked tables and keys.
mod locked_calls;
mod locked_keys_calls;

// What lines are for, each for itself or in blocks.
mod around;
mod drains;
mod lists;
mod messages;
mod session;
mod sessions;
mod stage;
mod threads;

use anyhow::Result;
use line::Line;
use std::io;

fn main(rt: HostRuntime) -> Result<()> {
    let alloc = rt.alloc();
    let text = io::read_to_string(alloc, rt.stdin())?;
    let lines: Vec<Line> = text.lines().filter_map(Line::of).collect(alloc)?;
    stage::play(&rt, alloc, &lines)
}
