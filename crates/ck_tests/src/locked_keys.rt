//! Two threads lock the same keys again and again, one of them in the opposite order.
use crate::fixtures::{count, read, sixteen_buckets, two};
use cuckoo_map::{Handle, NumKey, Settings};
use std::alloc::Global;
use std::process::Abort;
use std::sync::atomic::AtomicU64;
use std::test::Fail;
use std::thread::{self, Threads};

type NumHandle = Handle<NumKey, u64>;

/// How many sessions a thread makes.
const SESSIONS: u64 = 1000;

/// Adds one to the first and the last of eight keys, in one session, and says whether they had the
/// same value.
fn add_one(handle: NumHandle, keys: [NumKey; 8]) -> Option<(NumHandle, bool)> {
    let [a, b, c, d, e, f, g, h] = keys;
    let keys = [&a, &b, &c, &d, &e, &f, &g, &h];
    let mut locked = handle.lock_keys(&keys).ok()?;
    let first = locked.modify(&a, |n: u64| (n.saturating_add(1), n));
    let last = locked.modify(&h, |n: u64| (n.saturating_add(1), n));
    Some((locked.unlock(), first == last))
}

/// Binds the first key and the last to 0, where they are unbound, and says whether it could.
fn begin(handle: &mut NumHandle) -> bool {
    handle.insert(NumKey(0), 0).is_ok() && handle.insert(NumKey(7), 0).is_ok()
}

/// Makes the sessions of a thread, and counts those that found two values.
fn add(numbers: [u64; 8], handle: NumHandle, wrong: &AtomicU64) -> Option<NumHandle> {
    let mut handle = handle;
    if !begin(&mut handle) {
        return None;
    }
    for _ in 0..SESSIONS {
        let (back, alike) = add_one(handle, numbers.map(NumKey))?;
        if !alike {
            count(wrong);
        }
        handle = back;
    }
    Some(handle)
}

/// Whether the sessions of both threads were counted.
fn has_all(handle: &mut NumHandle) -> bool {
    let all = Some(2 * SESSIONS);
    handle.find_all([&NumKey(0), &NumKey(7)]) == Ok([all, all])
}

/// Lets two threads make sessions on the same keys, and says whether all were counted.
fn add_twice<R: Threads + Sync>(
    rt: &R,
    first: NumHandle,
    second: NumHandle,
    wrong: &AtomicU64,
) -> bool {
    let (one, other) = thread::join(
        rt,
        || add([0, 1, 2, 3, 4, 5, 6, 7], first, wrong),
        || add([7, 6, 5, 4, 3, 2, 1, 0], second, wrong),
    );
    match one {
        Some(mut handle) => other.is_some() && has_all(&mut handle),
        None => false,
    }
}

/// No session is refused, lost, or amid another one.
fn check<R: Threads + Abort + Sync>(rt: &R, alloc: Global, settings: Settings) -> Result<(), Fail> {
    let (first, second) = two(rt, Handle::open(alloc, settings)?);
    let wrong = AtomicU64::new(0);
    assert!(rt; add_twice(rt, first, second, &wrong) && read(&wrong) == 0);
    Ok(())
}

/// Whether the keys share four stripes, or have more.
#[test]
fn two_threads_lock_the_same_keys_in_opposite_order(rt: HostRuntime) -> Result<(), Fail> {
    let few = sixteen_buckets(2);
    let many = Settings {
        s: 6,
        power: 6,
        ..few
    };
    check(&rt, rt.alloc(), few)?;
    check(&rt, rt.alloc(), many)
}
