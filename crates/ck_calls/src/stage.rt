//! What the lines of a transcript are for: tables are opened and their handles play, each line for
//! itself or a block of lines at once.
use crate::answer::print;
use crate::calls::{self, NumHandle};
use crate::line::Line;
use crate::messages;
use crate::watch::Watch;
use anyhow::{Context, Result};
use cuckoo_map::{Handle, NumKey, Settings};
use std::alloc::Global;
use std::io;
use std::thread::Threads;

/// The handles of a table, where they aren't lent.
#[derive(Drop)]
pub struct Stage {
    handles: Vec<Option<NumHandle>>,
}

impl Stage {
    fn new(alloc: Global) -> Stage {
        Stage {
            handles: Vec::new(alloc),
        }
    }

    /// Opens a table by the settings of the line.
    fn open(&mut self, rt: &impl Print, alloc: Global, line: &Line) -> Result<()> {
        let settings = settings_of(line);
        if line.call != "table" {
            print_settings(rt, settings)?;
        }
        match Handle::<NumKey, u64>::open(alloc, settings) {
            Ok(handles) => self.handles = handles.into_iter().map(Some).collect(alloc)?,
            Err(fault) => println!(rt; "refused: {fault}")?,
        }
        Ok(())
    }

    /// The place of a handle.
    pub fn place(&mut self, who: usize) -> Result<&mut Option<NumHandle>> {
        let at = who.checked_sub(1).context("no handle is named")?;
        self.handles.get_mut(at).context("there is no such handle")
    }

    /// The allocator of its lists.
    pub fn alloc(&self) -> Global {
        *self.handles.allocator()
    }

    /// Takes a handle out of its place.
    pub fn lend(&mut self, who: usize) -> Result<NumHandle> {
        self.place(who)?.take().context("that handle is lent")
    }

    /// Makes the call of a handle.
    fn call(&mut self, rt: &impl Print, line: &Line) -> Result<()> {
        if line.call == "drain" {
            return self.drain(rt, line.who);
        }
        let handle = self.place(line.who)?;
        let handle = handle.as_mut().context("that handle is lent")?;
        let watch = Watch::new();
        let answer = calls::answer(handle, line, &watch).context("no such call")?;
        print(rt, answer, &watch)?;
        Ok(())
    }

    /// Plays the line and, where it begins a block, the lines of the block, which are the first of the
    /// rest. Says how many of the rest that are.
    fn play<R: Print + Threads + Sync>(
        &mut self,
        rt: &R,
        alloc: Global,
        line: &Line,
        rest: &[Line],
    ) -> Result<usize> {
        let inner = block(rest);
        match line.call {
            "lock" | "keys" | "room" => {
                self.play_session(rt, alloc, line, inner)?;
                println!(rt; "{END}")?;
            }
            "around" | "around_two" => self.around(rt, line, inner)?,
            "threads" => self.play_in_threads(rt, alloc, line, inner)?,
            _ => {
                self.play_alone(rt, alloc, line)?;
                return Ok(0);
            }
        }
        Ok(inner.len() + 1)
    }

    /// Plays a line that begins no block.
    fn play_alone(&mut self, rt: &impl Print, alloc: Global, line: &Line) -> Result<()> {
        match line.call {
            "" => Ok(()),
            "table" | "default" | "for_keys" => self.open(rt, alloc, line),
            "meet" => messages::meet(rt, alloc, line),
            _ => self.call(rt, line),
        }
    }

    /// Plays a line by the handle that it names, in a block of another handle's.
    pub fn play_other(&mut self, rt: &impl Print, line: &Line) -> Result<()> {
        match line.call {
            "" => Ok(()),
            "lock" | "keys" | "room" => self.try_session(rt, line),
            _ => self.call(rt, line),
        }
    }
}

/// The settings that the line names.
fn settings_of(line: &Line) -> Settings {
    match line.call {
        "default" => Settings::DEFAULT,
        "for_keys" => Settings::for_keys(line.numbers[0], line.small(1)),
        _ => Settings {
            s: line.small(0),
            power: line.small(1),
            max: line.small(2),
            callers: line.small(3),
            turns: line.small(4),
            rounds: line.small(5),
            min_load: line.small(6),
        },
    }
}

/// Prints settings as a line names them.
fn print_settings(rt: &impl Print, settings: Settings) -> io::Result<()> {
    let Settings {
        s,
        power,
        max,
        callers,
        turns,
        rounds,
        min_load,
    } = settings;
    println!(rt; "{s} {power} {max} {callers} {turns} {rounds} {min_load}")
}

/// The line that ends a block.
pub const END: &str = "> end";

/// The lines before the one that ends a block.
fn block<'l, 'a>(lines: &'l [Line<'a>]) -> &'l [Line<'a>] {
    let end = lines.iter().position(|line| line.text == END);
    &lines[..end.unwrap_or(lines.len())]
}

/// Plays all lines.
pub fn play<R: Print + Threads + Sync>(rt: &R, alloc: Global, lines: &[Line]) -> Result<()> {
    let mut stage = Stage::new(alloc);
    let mut next = 0;
    for (i, line) in lines.iter().enumerate() {
        if i >= next {
            println!(rt; "{}", line.text)?;
            let played = stage.play(rt, alloc, line, &lines[i + 1..])?;
            next = i.saturating_add(1).saturating_add(played);
        }
    }
    Ok(())
}
