//! Sessions that see one moment of the whole table.
use crate::calls::Worker;
use crate::model::{ACCOUNTS, COUNTERS, FUND, OWN, PURSES, counter, is_own, own};
use crate::notes::Notes;
use cuckoo_map::{LockedHandle, NumKey};

pub type Locked = LockedHandle<NumKey, u64>;

/// What all accounts have.
fn total(locked: &Locked) -> u64 {
    let mut sum = 0u64;
    for (key, value) in locked {
        if key.0 < ACCOUNTS {
            sum = sum.saturating_add(*value);
        }
    }
    sum
}

/// Whether a value is one of those that a sweep takes away.
fn is_swept(value: u64) -> bool {
    value % 8 == 5
}

/// Takes some of the thread's keys away, by `retain`.
fn sweep(notes: &mut Notes, locked: &mut Locked) {
    let thread = notes.model.thread;
    locked.retain(|key: &NumKey, value: &u64| !is_own(thread, key.0) || !is_swept(*value));
    for i in 0..OWN {
        let value = notes.model.get(i);
        notes.model.set(i, value.filter(|value| !is_swept(*value)));
    }
}

/// What the key of this number is bound to.
fn value_of(locked: &Locked, number: u64) -> Option<u64> {
    locked.find(&NumKey(number)).copied()
}

/// Whether all keys of the thread are as it knows them, and no money is lost.
fn check_locked(notes: &mut Notes, locked: &Locked) {
    notes.tally.sessions = notes.tally.sessions.saturating_add(1);
    let sum = total(locked);
    notes.check("sum of all accounts", 0, Some(sum), Some(ACCOUNTS * FUND));
    for i in 0..OWN {
        let number = own(notes.model.thread, i);
        let want = notes.model.get(i);
        notes.check("key in a session", number, value_of(locked, number), want);
    }
}

/// Looks at all that the thread knows, with the table locked.
pub fn audit(worker: Worker) -> Worker {
    let Worker {
        handle,
        second,
        mut notes,
    } = worker;
    let handle = match handle.lock() {
        Ok(mut locked) => {
            check_locked(&mut notes, &locked);
            sweep(&mut notes, &mut locked);
            check_locked(&mut notes, &locked);
            locked.unlock_caller()
        }
        Err(refused) => {
            notes.busy();
            refused.caller
        }
    };
    Worker {
        handle,
        second,
        notes,
    }
}

/// How many keys are bound, as the threads know it: their own, the accounts, the purses, and each
/// counter that was raised.
fn bound(workers: &[Worker]) -> u64 {
    let mut bound = ACCOUNTS + PURSES;
    for worker in workers {
        bound = bound.saturating_add(worker.notes.model.bound());
    }
    for i in 0..COUNTERS {
        bound = bound.saturating_add(u64::from(raised(workers, i) > 0));
    }
    bound
}

/// How often all threads raised a counter.
fn raised(workers: &[Worker], i: u64) -> u64 {
    let mut raised = 0u64;
    for worker in workers {
        raised = raised.saturating_add(worker.notes.model.raised(i));
    }
    raised
}

/// Whether the table has what all threads know together, and no more.
pub fn check_end(notes: &mut Notes, locked: &Locked, workers: &[Worker]) {
    notes.check(
        "number of keys",
        0,
        Some(locked.len()),
        Some(bound(workers)),
    );
    for i in 0..COUNTERS {
        let number = counter(i);
        let got = value_of(locked, number).unwrap_or(0);
        let want = raised(workers, i);
        notes.check("sum of a counter", number, Some(got), Some(want));
    }
}
