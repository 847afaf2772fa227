//! Blocks of lines that handles play at once, each in a thread of its own.
use crate::answer::{Answer, print};
use crate::calls::{self, NumHandle};
use crate::line::Line;
use crate::stage::{END, Stage};
use crate::watch::Watch;
use anyhow::Result;
use std::alloc::Global;
use std::thread::{self, Threads};

/// A handle, and its first answer that was a refusal.
#[derive(Drop)]
struct Played {
    handle: NumHandle,
    refused: Option<Answer>,
}

/// Makes the calls of the lines that name this handle or none, and gives the first refusal.
fn play_once(handle: &mut NumHandle, number: usize, lines: &[Line]) -> Option<Answer> {
    let mut refused = None;
    for line in lines {
        if line.who == 0 || line.who == number {
            let answer = calls::answer(handle, line, &Watch::new());
            refused = refused.or(answer.filter(|answer| answer.is_refusal()));
        }
    }
    refused
}

/// Plays the lines so often.
fn play_often(number: usize, handle: NumHandle, lines: &[Line], times: u64) -> Played {
    let (mut handle, mut refused) = (handle, None);
    for _ in 0..times {
        refused = refused.or(play_once(&mut handle, number, lines));
    }
    Played { handle, refused }
}

fn print_all(rt: &impl Print, lines: &[Line]) -> Result<()> {
    for line in lines {
        println!(rt; "{}", line.text)?;
    }
    println!(rt; "{END}")?;
    Ok(())
}

impl Stage {
    /// Lets the first handles, as many as the line says, play the lines at once so often. Of the
    /// answers it prints each handle's first refusal.
    pub fn play_in_threads<R: Print + Threads + Sync>(
        &mut self,
        rt: &R,
        alloc: Global,
        line: &Line,
        lines: &[Line],
    ) -> Result<()> {
        print_all(rt, lines)?;
        let (many, times) = (line.numbers[0] as usize, line.numbers[1]);
        let jobs = self.lend_first(alloc, many)?;
        let play = |(number, handle): (usize, NumHandle)| play_often(number, handle, lines, times);
        self.take_back(rt, thread::map_vec(rt, jobs, &play)?)
    }

    /// Takes so many handles out of their places, each with its number.
    fn lend_first(&mut self, alloc: Global, many: usize) -> Result<Vec<(usize, NumHandle)>> {
        let mut jobs = Vec::new(alloc);
        for number in 1..=many {
            jobs.push((number, self.lend(number)?))?;
        }
        Ok(jobs)
    }

    /// Puts the first handles back, and prints the first refusal of each.
    fn take_back(&mut self, rt: &impl Print, back: Vec<Played>) -> Result<()> {
        for (i, played) in back.into_iter().enumerate() {
            *self.place(i + 1)? = Some(played.handle);
            if let Some(refused) = played.refused {
                print(rt, refused, &Watch::new())?;
            }
        }
        Ok(())
    }
}
