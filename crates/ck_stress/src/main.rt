//! Threads that do all that they can to one table at once, and a count of what it lost.
//!
//! `ck_stress SECONDS [THREADS [SEED]]` makes a round a second, each with a table of its own that
//! grows from a few buckets, and says after each what was done. The first wrong answer ends it, with
//! status 1 and all that is needed to see it again. With no word it makes one short round.
#![tactic(auto)]

mod audit;
mod calls;
mod model;
mod notes;
mod round;
mod several;
mod tally;

use crate::round::{Plan, Stop, run_round};
use crate::tally::Tally;
use std::alloc::Global;
use std::process::ExitCode;
use std::rt::Clock;
use std::thread::Threads;
use std::{env, io};

const USAGE: &str = "ck_stress SECONDS [THREADS [SEED]]: up to 86400 seconds and 64 threads";

/// The number of a word, from 1 to the most; nothing where it isn't one.
fn number_of(word: &str, most: u64) -> Option<u64> {
    let number = word.parse().ok()?;
    (1 <= number && number <= most).then_some(number)
}

/// What the words ask for; nothing where they are no such numbers.
fn plan_of(words: &[String]) -> Option<(u64, Plan)> {
    let short = Plan {
        threads: 4,
        seed: 1,
        stop: Stop::AfterCalls(2000),
    };
    let [seconds, more @ ..] = words else {
        return Some((1, short));
    };
    let seconds = number_of(seconds, 86_400)?;
    let (threads, seed) = match more {
        [] => (4, 1),
        [threads] => (number_of(threads, 64)?, 1),
        [threads, seed] => (number_of(threads, 64)?, seed.parse().ok()?),
        _ => return None,
    };
    let plan = Plan {
        threads: u32::try_from(threads).ok()?,
        seed,
        stop: Stop::AfterSecond,
    };
    Some((seconds, plan))
}

/// Makes the rounds, and says whether all answers were right.
fn run<R: Threads + Clock + Print + Sync>(
    rt: &R,
    alloc: Global,
    rounds: u64,
    plan: Plan,
) -> io::Result<bool> {
    let mut all = Tally::none();
    for round in 0..rounds {
        let plan = Plan {
            seed: plan.seed.wrapping_add(round),
            ..plan
        };
        match run_round(rt, alloc, plan)? {
            Ok(tally) => {
                if plan.stop == Stop::AfterSecond {
                    tally.print(rt, "second", round.saturating_add(1))?;
                }
                all.add(tally);
            }
            Err(wrong) => {
                wrong.print(rt, plan.seed)?;
                return Ok(false);
            }
        }
    }
    if plan.stop == Stop::AfterSecond {
        all.print(rt, "all of seed", plan.seed)?;
    }
    println!(rt; "nothing was lost, doubled or wrong")?;
    Ok(true)
}

fn main(rt: HostRuntime) -> io::Result<ExitCode> {
    let words = env::args(&rt)?.skip(1).collect::<Vec<String>>(rt.alloc())?;
    let Some((rounds, plan)) = plan_of(words.as_slice()) else {
        eprintln!(rt; "{USAGE}")?;
        return Ok(ExitCode::from(2));
    };
    if run(&rt, rt.alloc(), rounds, plan)? {
        Ok(ExitCode::SUCCESS)
    } else {
        Ok(ExitCode::FAILURE)
    }
}
