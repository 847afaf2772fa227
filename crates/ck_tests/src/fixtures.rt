//! What the tests share.
use cuckoo_map::Settings;
use std::process::Abort;
use std::sync::atomic::{AtomicU64, Ordering};

/// Keys `b` times this have partial 0 and the bucket 0 at each power up to 40, so they all have the
/// same two buckets.
pub const APART: u64 = 282_574_488_338_432;

/// Four stripes of a bucket each, for one handle. The table stays so.
pub const FOUR_BUCKETS: Settings = Settings {
    s: 2,
    power: 2,
    max: 2,
    callers: 1,
    turns: 1,
    rounds: 4,
    min_load: 5,
};

/// Four stripes of four buckets each, for so many handles.
pub fn sixteen_buckets(callers: u32) -> Settings {
    Settings {
        s: 2,
        power: 4,
        max: 20,
        callers,
        turns: u32::MAX,
        rounds: 4,
        min_load: 5,
    }
}

/// The handle of a table of one.
pub fn only<T: Drop>(rt: &impl Abort, handles: Vec<T>) -> T {
    let mut handles = handles;
    handles.pop().expect(rt, "one handle")
}

/// The handles of a table of two.
pub fn two<T: Drop>(rt: &impl Abort, handles: Vec<T>) -> (T, T) {
    let mut handles = handles;
    let first = handles.pop().expect(rt, "two handles");
    (first, only(rt, handles))
}

/// Adds one, and gives what there was before.
pub fn count(counter: &AtomicU64) -> u64 {
    counter.fetch_add(1, Ordering::SeqCst)
}

/// What a counter has come to.
pub fn read(counter: &AtomicU64) -> u64 {
    counter.load(Ordering::SeqCst)
}
