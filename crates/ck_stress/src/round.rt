//! A round: a new table, threads that call it, and a last look at what it has.

use crate::audit::{audit, check_end};
use crate::calls::{NumHandle, Worker};
use crate::model::{ACCOUNTS, FUND, PURSES, account, purse};
use crate::notes::{Notes, Wrong};
use crate::several::exchange;
use crate::tally::Tally;
use cuckoo_map::{Handle, NumKey, Settings};
use std::alloc::Global;
use std::io;
use std::rt::Clock;
use std::thread::{self, Threads};
use std::time::Instant;

/// When the threads of a round end.
#[derive(Clone, Copy, PartialEq, Eq)]
pub enum Stop {
    AfterCalls(u64),
    AfterSecond,
}

/// How a round goes.
#[derive(Clone, Copy)]
pub struct Plan {
    pub threads: u32,
    pub seed: u64,
    pub stop: Stop,
}

/// A table that grows from two buckets on, in one to sixteen stripes, and whose calls are soon
/// busy, or at the first try. Each thread has two handles, and the last look has one.
fn settings(plan: Plan) -> Settings {
    let turns = match plan.seed % 4 {
        0 => 1,
        1 => 300,
        2 => 20,
        _ => 100_000,
    };
    let s = plan.seed % 5;
    Settings {
        s: s as u32,
        power: s.max(1) as u32,
        max: 16,
        callers: plan.threads.saturating_mul(2).saturating_add(1),
        turns,
        rounds: 4,
        min_load: 5,
    }
}

/// So many calls a thread makes between two looks at the clock, and between two sessions.
const CALLS: u64 = 1024;

/// When the threads of a round began, and when they end.
#[derive(Clone, Copy)]
struct Shift {
    start: Instant,
    stop: Stop,
}

impl Shift {
    /// Whether a thread goes on after so many calls.
    fn goes_on(self, rt: &impl Clock, calls: u64) -> bool {
        match self.stop {
            Stop::AfterCalls(most) => calls < most,
            Stop::AfterSecond => match self.start.elapsed(rt) {
                Ok(time) => time.as_millis() < 1000,
                Err(_) => false,
            },
        }
    }
}

/// Makes the calls of a block, and sessions on two keys among them.
fn make_calls(worker: Worker) -> Worker {
    let mut worker = worker;
    for call in 0..CALLS {
        worker.make_call();
        if call % 32 == 0 {
            worker = exchange(worker);
        }
    }
    worker
}

/// Makes the calls of a thread.
fn work(rt: &impl Clock, shift: Shift, worker: Worker) -> Worker {
    let mut worker = worker;
    for block in 0..u64::MAX / CALLS {
        if worker.notes.wrong.is_some() || !shift.goes_on(rt, block * CALLS) {
            return worker;
        }
        worker = audit(make_calls(worker));
    }
    worker
}

/// Opens the accounts and the purses, and says whether it could.
fn fund(handle: &mut NumHandle) -> bool {
    (0..ACCOUNTS).all(|i| handle.insert(NumKey(account(i)), FUND).is_ok())
        && (0..PURSES).all(|i| handle.insert(NumKey(purse(i)), FUND).is_ok())
}

/// A worker for each two handles.
fn hire(alloc: Global, seed: u64, handles: Vec<NumHandle>) -> io::Result<Vec<Worker>> {
    let mut workers = Vec::new(alloc);
    let mut waiting = None;
    let mut thread = 0u32;
    for handle in handles {
        match waiting.take() {
            None => waiting = Some(handle),
            Some(second) => {
                let notes = Notes::new(alloc, seed, thread)?;
                workers.push(Worker {
                    handle,
                    second,
                    notes,
                })?;
                thread = thread.saturating_add(1);
            }
        }
    }
    Ok(workers)
}

/// What all did in a round, or what was wrong in it.
pub type Outcome = io::Result<Result<Tally, Wrong>>;

/// What all did, where nothing was wrong.
fn sum_of(notes: &Notes, workers: &[Worker]) -> Result<Tally, Wrong> {
    let mut tally = notes.tally;
    for worker in workers {
        if let Some(wrong) = worker.notes.wrong {
            return Err(wrong);
        }
        tally.add(worker.notes.tally);
    }
    match notes.wrong {
        Some(wrong) => Err(wrong),
        None => Ok(tally),
    }
}

/// The last look, when no thread is in a call: what all did, or what is wrong.
fn look_at_end(alloc: Global, auditor: NumHandle, workers: &[Worker]) -> Outcome {
    let mut auditor = auditor;
    let mut notes = Notes::new(alloc, 0, u32::MAX)?;
    notes.tally.power = auditor.power().unwrap_or(0);
    let Ok(locked) = auditor.lock() else {
        return Err(io::ErrorKind::ResourceBusy.into());
    };
    check_end(&mut notes, &locked, workers);
    locked.unlock();
    Ok(sum_of(&notes, workers))
}

/// The handles of a new table, and one more for the last look, once the accounts are open.
fn open(alloc: Global, plan: Plan) -> io::Result<(NumHandle, Vec<NumHandle>)> {
    let opened = Handle::<NumKey, u64>::open(alloc, settings(plan));
    let Ok(mut handles) = opened else {
        return Err(io::ErrorKind::OutOfMemory.into());
    };
    let Some(mut auditor) = handles.pop() else {
        return Err(io::ErrorKind::InvalidInput.into());
    };
    if fund(&mut auditor) {
        Ok((auditor, handles))
    } else {
        Err(io::ErrorKind::OutOfMemory.into())
    }
}

/// Makes a round, and says what was done in it, or what was wrong.
pub fn run_round<R: Threads + Clock + Sync>(rt: &R, alloc: Global, plan: Plan) -> Outcome {
    let (auditor, handles) = open(alloc, plan)?;
    let workers = hire(alloc, plan.seed, handles)?;
    let shift = Shift {
        start: Instant::now(rt)?,
        stop: plan.stop,
    };
    let workers = thread::map_vec(rt, workers, &|worker| work(rt, shift, worker))?;
    look_at_end(alloc, auditor, &workers)
}
