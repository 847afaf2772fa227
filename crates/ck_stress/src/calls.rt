//! The calls of a thread, each compared with what the thread knows.
use crate::model::{ACCOUNTS, COUNTERS, OWN, account, counter, own};
use crate::notes::Notes;
use cuckoo_map::{Handle, NumKey, Uprased};

pub type NumHandle = Handle<NumKey, u64>;

/// A thread's two handles, and its notes.
#[derive(Drop)]
pub struct Worker {
    pub handle: NumHandle,
    /// It makes calls while the other is in one.
    pub second: NumHandle,
    pub notes: Notes,
}

impl Worker {
    fn find(&mut self, key: NumKey, want: Option<u64>) {
        let number = key.0;
        match self.handle.find(&key) {
            Ok(got) => self.notes.check("find", number, got, want),
            Err(_) => self.notes.busy(),
        }
    }

    fn insert(&mut self, i: u64, key: NumKey, value: u64, want: Option<u64>) {
        let number = key.0;
        match self.handle.insert(key, value) {
            Ok(fresh) => {
                self.notes
                    .check_bool("insert", number, fresh, want.is_none());
                self.notes.model.set(i, want.or(Some(value)));
            }
            Err(refused) => self.notes.refused(refused, number, value),
        }
    }

    fn assign(&mut self, i: u64, key: NumKey, value: u64, want: Option<u64>) {
        let number = key.0;
        match self.handle.insert_or_assign(key, value) {
            Ok(old) => {
                self.notes.check("insert_or_assign", number, old, want);
                self.notes.model.set(i, Some(value));
            }
            Err(refused) => self.notes.refused(refused, number, value),
        }
    }

    fn update(&mut self, i: u64, key: NumKey, value: u64, want: Option<u64>) {
        let number = key.0;
        match self.handle.update(&key, value) {
            Ok(old) => {
                self.notes.check("update", number, old, want);
                self.notes.model.set(i, want.map(|_| value));
            }
            Err((back, _)) => {
                self.notes
                    .check("value that comes back", number, Some(back), Some(value));
                self.notes.busy();
            }
        }
    }

    fn erase(&mut self, i: u64, key: NumKey, want: Option<u64>) {
        let number = key.0;
        match self.handle.erase(&key) {
            Ok(old) => {
                self.notes.check("erase", number, old, want);
                self.notes.model.set(i, None);
            }
            Err(_) => self.notes.busy(),
        }
    }

    // Halves an even value, and erases an odd one.
    fn uprase(&mut self, i: u64, key: NumKey, value: u64, want: Option<u64>) {
        let number = key.0;
        let halved = |old: u64| if old % 2 == 0 { Some(old / 2) } else { None };
        match self.handle.uprase(key, halved, value) {
            Ok(did) => {
                let right = match want.map(halved) {
                    None => Uprased::New,
                    Some(Some(_)) => Uprased::Changed,
                    Some(None) => Uprased::Erased,
                };
                self.notes.check_bool("uprase", number, did == right, true);
                self.notes.model.set(i, want.map_or(Some(value), halved));
            }
            Err(refused) => self.notes.refused(refused, number, value),
        }
    }

    // Halves an even value, and leaves an odd one.
    fn replace_if(&mut self, i: u64, key: NumKey, want: Option<u64>) {
        let number = key.0;
        let halved = |old: &u64| if *old % 2 == 0 { Some(*old / 2) } else { None };
        let right = want.map(|old| halved(&old).is_some());
        match self.handle.replace_if(&key, halved) {
            Ok(did) => {
                self.notes.check_if_bound("replace_if", number, did, right);
                if right == Some(true) {
                    self.notes.model.set(i, want.map(|old| old / 2));
                }
            }
            Err(_) => self.notes.busy(),
        }
    }

    // A call on a key of the thread's own.
    fn call_own(&mut self, kind: u64) {
        let i = self.notes.model.below(OWN);
        let value = self.notes.model.below(u64::MAX);
        let key = NumKey(own(self.notes.model.thread, i));
        let want = self.notes.model.get(i);
        match kind {
            0 | 1 => self.find(key, want),
            2 | 3 | 4 | 5 => self.insert(i, key, value, want),
            6 => self.assign(i, key, value, want),
            7 => self.update(i, key, value, want),
            8 => self.replace_if(i, key, want),
            9 => self.erase(i, key, want),
            _ => self.uprase(i, key, value, want),
        }
    }

    // Moves money between two accounts that all threads share.
    fn transfer(&mut self) {
        let from = account(self.notes.model.below(ACCOUNTS));
        let to = account(self.notes.model.below(ACCOUNTS));
        let amount = self.notes.model.below(50);
        if from == to {
            return;
        }
        let moved = |less: u64, more: u64| {
            if amount <= less && amount <= u64::MAX - more {
                (less - amount, more + amount)
            } else {
                (less, more)
            }
        };
        match self.handle.update_two(&NumKey(from), &NumKey(to), moved) {
            Ok(both) => self.notes.check_bool("update_two", from, both, true),
            Err(_) => self.notes.busy(),
        }
    }

    // Raises a counter that all threads share.
    fn raise(&mut self) {
        let i = self.notes.model.below(COUNTERS);
        let number = counter(i);
        let add = |count: u64| count.saturating_add(1);
        match self.handle.upsert(NumKey(number), add, 1) {
            Ok(_) => {
                self.notes.check("counter", number, None, None);
                self.notes.model.raise(i);
            }
            Err(refused) => self.notes.refused(refused, number, 1),
        }
    }

    // The same by the second handle, while the first is in a call on an account.
    fn raise_within(&mut self) {
        let at = account(self.notes.model.below(ACCOUNTS));
        let i = self.notes.model.below(COUNTERS);
        let second = &mut self.second;
        let mut raised = false;
        let around = |value: u64| {
            let fresh = second.upsert(NumKey(counter(i)), |count| count.saturating_add(1), 1);
            raised = fresh.is_ok();
            value
        };
        match self.handle.update_fn(&NumKey(at), around) {
            Ok(bound) => self
                .notes
                .check_bool("update_fn around a call", at, bound, true),
            Err(_) => self.notes.busy(),
        }
        if raised {
            self.notes.model.raise(i);
        }
    }

    /// Makes a call of any kind but a session.
    pub fn make_call(&mut self) {
        let kind = self.notes.model.below(19);
        match kind {
            12 | 13 => self.transfer(),
            14 => self.raise(),
            15 => self.raise_within(),
            16 => self.look_at_purses(),
            17 => self.collect(),
            18 => self.rename(),
            _ => self.call_own(kind),
        }
    }
}
