//! How often closures are called.
use std::sync::atomic::{AtomicU64, Ordering};

/// Counts the calls of the closures of one line.
#[derive(Drop)]
pub struct Watch {
    calls: AtomicU64,
}

impl Watch {
    pub fn new() -> Self {
        Watch {
            calls: AtomicU64::new(0),
        }
    }

    /// What a closure answers when it is called.
    pub fn note<T>(&self, answer: T) -> T {
        self.calls.fetch_add(1, Ordering::SeqCst);
        answer
    }

    pub fn calls(&self) -> u64 {
        self.calls.load(Ordering::SeqCst)
    }
}
