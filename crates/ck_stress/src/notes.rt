//! What a thread knows, what it did, and the first answer that was wrong.
use crate::model::Model;
use crate::tally::Tally;
use cuckoo_map::{NotRenamed, NumKey, Refused, RoomFault, Why};
use std::alloc::{AllocError, Global};
use std::io;

/// An answer that no legal history has.
#[derive(Clone, Copy)]
pub struct Wrong {
    what: &'static str,
    thread: u32,
    call: u64,
    key: u64,
    got: Option<u64>,
    want: Option<u64>,
}

impl Wrong {
    /// Prints all that is needed to see it again.
    pub fn print(&self, rt: &impl Print, seed: u64) -> io::Result<()> {
        let Wrong {
            what,
            thread,
            call,
            key,
            got,
            want,
        } = *self;
        println!(rt; "WRONG: {what}, key {key}: {got:?} where {want:?} is right")?;
        println!(rt; "  seed {seed}, thread {thread}, its call {call}")
    }
}

#[derive(Drop)]
pub struct Notes {
    pub model: Model,
    pub tally: Tally,
    pub wrong: Option<Wrong>,
}

impl Notes {
    /// Those of a thread that begins.
    pub fn new(alloc: Global, seed: u64, thread: u32) -> Result<Notes, AllocError> {
        Ok(Notes {
            model: Model::new(alloc, seed, thread)?,
            tally: Tally::none(),
            wrong: None,
        })
    }

    /// Counts an answer, and notes the first that isn't as wanted.
    pub fn check(&mut self, what: &'static str, key: u64, got: Option<u64>, want: Option<u64>) {
        self.tally.calls = self.tally.calls.saturating_add(1);
        if got != want && self.wrong.is_none() {
            self.wrong = Some(Wrong {
                what,
                thread: self.model.thread,
                call: self.tally.calls,
                key,
                got,
                want,
            });
        }
    }

    pub fn check_bool(&mut self, what: &'static str, key: u64, got: bool, want: bool) {
        self.check(what, key, Some(u64::from(got)), Some(u64::from(want)));
    }

    /// The same of an answer that there is for a bound key alone.
    pub fn check_if_bound(
        &mut self,
        what: &'static str,
        key: u64,
        got: Option<bool>,
        want: Option<bool>,
    ) {
        self.check(what, key, got.map(u64::from), want.map(u64::from));
    }

    /// Counts a call that was refused as busy.
    pub fn busy(&mut self) {
        self.tally.busy = self.tally.busy.saturating_add(1);
    }

    /// Counts a refused insertion of this key and value. Both come back.
    pub fn refused(&mut self, refused: Refused<NumKey, u64>, key: u64, value: u64) {
        self.check(
            "value that comes back",
            key,
            Some(refused.value),
            Some(value),
        );
        self.check("key that comes back", key, Some(refused.key.0), Some(key));
        self.count(refused.why);
    }

    /// Counts a refused rename to this key, which comes back.
    pub fn not_renamed(&mut self, back: NotRenamed<NumKey>, key: u64) {
        let back_key = Some(back.key.0);
        self.check("new key that comes back", key, back_key, Some(key));
        match back.why {
            RoomFault::Room(why) => self.count(why),
            RoomFault::Keys(_) => self.busy(),
        }
    }

    // Counts an entry that was refused.
    fn count(&mut self, why: Why) {
        let tally = &mut self.tally;
        let count = match why {
            Why::Busy(_) => &mut tally.busy,
            Why::Memory => &mut tally.memory,
            Why::Full => &mut tally.full,
            Why::LoadTooLow => &mut tally.load_too_low,
        };
        *count = count.saturating_add(1);
    }
}
