//! How much was done.
use std::io;

/// Answered calls, refused ones by their reason, sessions, and the power at the end.
#[derive(Clone, Copy)]
pub struct Tally {
    pub calls: u64,
    pub busy: u64,
    pub memory: u64,
    pub full: u64,
    pub load_too_low: u64,
    pub sessions: u64,
    pub power: u32,
}

impl Tally {
    pub fn none() -> Tally {
        Tally {
            calls: 0,
            busy: 0,
            memory: 0,
            full: 0,
            load_too_low: 0,
            sessions: 0,
            power: 0,
        }
    }

    /// Adds another one.
    pub fn add(&mut self, other: Tally) {
        self.calls = self.calls.saturating_add(other.calls);
        self.busy = self.busy.saturating_add(other.busy);
        self.memory = self.memory.saturating_add(other.memory);
        self.full = self.full.saturating_add(other.full);
        self.load_too_low = self.load_too_low.saturating_add(other.load_too_low);
        self.sessions = self.sessions.saturating_add(other.sessions);
        self.power = self.power.max(other.power);
    }

    pub fn print(&self, rt: &impl Print, what: &str, number: u64) -> io::Result<()> {
        let Tally {
            calls,
            busy,
            memory,
            full,
            load_too_low,
            sessions,
            power,
        } = *self;
        println!(rt;
            "{what} {number}: {calls} calls, {sessions} sessions, grown to power {power}, refused {busy} as busy, {memory} for want of memory, {full} as full, {load_too_low} as too empty to grow"
        )
    }
}
