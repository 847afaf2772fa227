//! What a thread knows of its own keys, which no other thread calls.
use rand_core::Rng;
use rand_pcg::Lcg64Xsh32;
use std::alloc::{AllocError, Global};

/// How many keys a thread has of its own.
pub const OWN: u64 = 1500;

/// How many accounts all threads share, and what each begins with.
pub const ACCOUNTS: u64 = 12;

pub const FUND: u64 = 1_000_000;

/// How many counters all threads share.
pub const COUNTERS: u64 = 5;

/// How many purses all threads share, which are looked at together.
pub const PURSES: u64 = 4;

/// The key of account number `i`.
pub fn account(i: u64) -> u64 {
    i % ACCOUNTS
}

/// The key of counter number `i`.
pub fn counter(i: u64) -> u64 {
    ACCOUNTS + i % COUNTERS
}

/// The key of purse number `i`.
pub fn purse(i: u64) -> u64 {
    ACCOUNTS + COUNTERS + i % PURSES
}

/// Key number `i` of a thread. Those of one thread lie among those of the others.
pub fn own(thread: u32, i: u64) -> u64 {
    let number = (i % OWN) * 64 + u64::from(thread) % 64;
    number * 32 + 31
}

/// Whether it is a key of the thread.
pub fn is_own(thread: u32, key: u64) -> bool {
    key % 32 == 31 && key / 32 % 64 == u64::from(thread) % 64
}

/// The values of a thread's keys, and how often it raised each counter.
#[derive(Drop)]
pub struct Model {
    pub thread: u32,
    pub random: Lcg64Xsh32,
    values: Vec<Option<u64>>,
    raised: Vec<u64>,
}

impl Model {
    pub fn new(alloc: Global, seed: u64, thread: u32) -> Result<Model, AllocError> {
        let stream = u64::from(thread);
        Ok(Model {
            thread,
            random: Lcg64Xsh32::new(seed, stream),
            values: Vec::from_elem(alloc, None, OWN as usize)?,
            raised: Vec::from_elem(alloc, 0, COUNTERS as usize)?,
        })
    }

    /// A number below `n`.
    pub fn below(&mut self, n: u64) -> u64 {
        self.random.next_u64().checked_rem(n).unwrap_or(0)
    }

    /// What key number `i` is bound to.
    pub fn get(&self, i: u64) -> Option<u64> {
        self.values.get(i as usize).copied().flatten()
    }

    pub fn set(&mut self, i: u64, value: Option<u64>) {
        if let Some(old) = self.values.get_mut(i as usize) {
            *old = value;
        }
    }

    /// How many of the keys are bound.
    pub fn bound(&self) -> u64 {
        let mut bound = 0u64;
        for value in &self.values {
            bound = bound.saturating_add(u64::from(value.is_some()));
        }
        bound
    }

    /// Notes that the thread raised counter number `i`.
    pub fn raise(&mut self, i: u64) {
        if let Some(raised) = self.raised.get_mut(i as usize) {
            *raised = raised.saturating_add(1);
        }
    }

    /// How often it raised counter number `i`.
    pub fn raised(&self, i: u64) -> u64 {
        self.raised.get(i as usize).copied().unwrap_or(0)
    }
}
