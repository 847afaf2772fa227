//! Calls on several keys at once.
use crate::calls::{NumHandle, Worker};
use crate::model::{FUND, OWN, PURSES, own, purse};
use crate::notes::Notes;
use cuckoo_map::{NumKey, Renamed};

/// Moves the amount from each of two purses to the third, where they have it.
fn collect(purses: &mut [u64], amount: u64) {
    let [from, other, to] = purses else {
        return;
    };
    let twice = amount.saturating_mul(2);
    let left = (from.checked_sub(amount), other.checked_sub(amount));
    if let ((Some(less), Some(fewer)), Some(more)) = (left, to.checked_add(twice)) {
        *from = less;
        *other = fewer;
        *to = more;
    }
}

impl Worker {
    /// All purses at one moment: none of them is ever unbound, and nothing of their sum is lost.
    pub fn look_at_purses(&mut self) {
        let [a, b, c, d] = [0, 1, 2, 3].map(|i: u64| NumKey(purse(i)));
        match self.handle.find_all([&a, &b, &c, &d]) {
            Ok(values) => {
                let sum = values.iter().fold(0u64, |sum: u64, value| {
                    sum.saturating_add(value.unwrap_or(u64::MAX))
                });
                self.notes
                    .check("sum of a look", purse(0), Some(sum), Some(PURSES * FUND));
            }
            Err(_) => self.notes.busy(),
        }
    }

    /// Moves money from two purses to a third. All are bound.
    pub fn collect(&mut self) {
        let first = self.notes.model.below(PURSES);
        let amount = self.notes.model.below(50);
        let [from, other, to] = [0, 1, 2].map(|i: u64| NumKey(purse(first.wrapping_add(i))));
        let moved = |purses: &mut [u64]| collect(purses, amount);
        match self.handle.update_all([&from, &other, &to], moved) {
            Ok(before) => {
                let bound = before.iter().all(|value: &Option<u64>| value.is_some());
                self.notes.check_bool("update_all", from.0, bound, true);
            }
            Err(_) => self.notes.busy(),
        }
    }
}

/// Two keys of the thread, by their numbers.
#[derive(Clone, Copy)]
struct Two {
    i: u64,
    j: u64,
}

// Locks two keys, and exchanges their values; where one alone is bound, it is unbound.
fn exchange_keys(
    handle: NumHandle,
    notes: &mut Notes,
    two: Two,
    a: &NumKey,
    b: &NumKey,
) -> NumHandle {
    let keys = [a, b];
    let mut locked = match handle.lock_keys(&keys) {
        Ok(locked) => locked,
        Err(refused) => {
            notes.busy();
            return refused.caller;
        }
    };
    let (left, right) = (notes.model.get(two.i), notes.model.get(two.j));
    notes.check("find of a locked key", two.i, locked.find(a), left);
    match (left, right) {
        (Some(v), Some(w)) => {
            notes.check("update of a locked key", two.i, locked.update(a, w), left);
            notes.check("update of a locked key", two.j, locked.update(b, v), right);
        }
        _ => {
            notes.check("erase of a locked key", two.i, locked.erase(a), left);
            notes.check("erase of a locked key", two.j, locked.erase(b), right);
        }
    }
    let both = left.is_some() && right.is_some();
    notes.model.set(two.i, right.filter(|_| both));
    notes.model.set(two.j, left.filter(|_| both));
    locked.unlock()
}

// Two keys of the thread's own.
fn two_own(notes: &mut Notes) -> Two {
    let i = notes.model.below(OWN);
    let other = notes.model.below(OWN - 1);
    let j = i.wrapping_add(1).wrapping_add(other) % OWN;
    Two { i, j }
}

// What a rename comes to where the keys had these values.
fn renamed(left: Option<u64>, right: Option<u64>) -> Renamed {
    match (left, right) {
        (None, _) => Renamed::Unbound,
        (Some(_), None) => Renamed::Done,
        (Some(_), Some(_)) => Renamed::Occupied,
    }
}

impl Worker {
    fn rename_own(&mut self, two: Two, from: &NumKey, to: NumKey) {
        let Two { i, j } = two;
        let (left, right) = (self.notes.model.get(i), self.notes.model.get(j));
        let number = to.0;
        match self.handle.rename(from, to) {
            Ok(came) => {
                let is_right = came == renamed(left, right);
                self.notes.check_bool("rename", number, is_right, true);
                if came == Renamed::Done {
                    self.notes.model.set(i, None);
                    self.notes.model.set(j, left);
                }
            }
            Err(back) => self.notes.not_renamed(back, number),
        }
    }

    /// Renames a key of the thread's own to another one.
    pub fn rename(&mut self) {
        let two = two_own(&mut self.notes);
        let thread = self.notes.model.thread;
        let (from, to) = (NumKey(own(thread, two.i)), NumKey(own(thread, two.j)));
        self.rename_own(two, &from, to);
    }
}

/// Exchanges the values of two keys of the thread's own, in a session on them.
pub fn exchange(worker: Worker) -> Worker {
    let Worker {
        handle,
        second,
        mut notes,
    } = worker;
    let two = two_own(&mut notes);
    let thread = notes.model.thread;
    let (a, b) = (NumKey(own(thread, two.i)), NumKey(own(thread, two.j)));
    let handle = exchange_keys(handle, &mut notes, two, &a, &b);
    Worker {
        handle,
        second,
        notes,
    }
}
