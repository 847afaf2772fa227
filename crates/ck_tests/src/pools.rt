//! Threads that borrow handles of a pool.

use crate::fixtures::sixteen_buckets;
use cuckoo_map::{AllLent, Handle, NumKey, Pool};
use std::alloc::Global;
use std::process::Abort;
use std::sync::Wait;
use std::test::Fail;
use std::thread;
use std::thread::Threads;

type NumHandle = Handle<NumKey, u64>;

type NumPool = Pool<NumHandle>;

/// How many threads borrow handles.
const THREADS: u64 = 16;

/// How many keys they have.
const KEYS: u64 = 5;

/// How often each of them adds one.
const CALLS: u64 = 300;

/// Adds one to the key by whichever handle is free, once there is one.
fn add<R: Wait>(rt: &R, pool: &NumPool, key: u64) -> bool {
    for _ in rt.forever() {
        match pool.lend() {
            Ok(mut handle) => {
                let added = handle.upsert(NumKey(key), |count| count.saturating_add(1), 1);
                return added.is_ok();
            }
            Err(AllLent) => thread::yield_now(),
        }
    }
    unreachable!()
}

/// What a thread does.
fn work<R: Wait>(rt: &R, pool: &NumPool, thread: u64) -> bool {
    for _ in 0..CALLS {
        if !add(rt, pool, thread % KEYS) {
            return false;
        }
    }
    true
}

/// The sums of five keys, where there are just five.
fn sums_of(pairs: &[(NumKey, u64)]) -> Option<[u64; 5]> {
    match pairs {
        [a, b, c, d, e] => Some([a.1, b.1, c.1, d.1, e.1]),
        _ => None,
    }
}

/// What was added to each key, where the handle could drain them.
fn drained(alloc: Global, handle: NumHandle) -> Option<[u64; 5]> {
    match handle.drain(alloc) {
        Ok((_, pairs)) => sums_of(&pairs),
        Err(_) => None,
    }
}

/// Runs all threads over the pool.
fn run<R: Threads + Wait + Sync>(rt: &R, alloc: Global, pool: &NumPool) -> Result<bool, Fail> {
    let jobs: Vec<u64> = (0..THREADS).collect(alloc)?;
    let done = thread::map_vec(rt, jobs, &|thread: u64| work(rt, pool, thread))?;
    Ok(done.iter().all(|added| *added))
}

/// More threads than handles add to a few keys, and no addition and no handle is lost.
#[test]
fn more_threads_than_handles(rt: HostRuntime) -> Result<(), Fail> {
    let alloc = rt.alloc();
    let pool = Pool::new(alloc, Handle::open(alloc, sixteen_buckets(4))?)?;
    let added = run(&rt, alloc, &pool)?;
    let mut handles = pool.into_vec(alloc)?;
    let count = handles.len();
    let handle = handles.pop().expect(&rt, "a handle");
    // Four threads add to one key, and three to each other one.
    let sums = Some([1200, 900, 900, 900, 900]);
    assert!(rt; added && count == 4 && drained(alloc, handle) == sums);
    Ok(())
}

/// Whether the only handle is lent to one at a time, with what the one before did by it.
fn is_lent_in_turn(rt: &impl Abort, pool: &NumPool) -> bool {
    let mut first = pool.lend().expect(rt, "a handle");
    let is_lent = pool.lend().is_err();
    let is_bound = first.insert(NumKey(5), 50).is_ok();
    drop(first);
    let mut second = pool.lend().expect(rt, "the handle that came back");
    is_lent && is_bound && second.find(&NumKey(5)) == Ok(Some(50))
}

/// While its only handle is lent, a pool lends none; then it lends it again.
#[test]
fn one_handle(rt: HostRuntime) -> Result<(), Fail> {
    let alloc = rt.alloc();
    let pool: NumPool = Pool::new(alloc, Handle::open(alloc, sixteen_buckets(1))?)?;
    assert!(rt; pool.len() == 1 && is_lent_in_turn(&rt, &pool));
    Ok(())
}

/// A pool of any type gives its items back in their order.
#[test]
fn items_in_their_order(rt: HostRuntime) -> Result<(), Fail> {
    let alloc = rt.alloc();
    let pool = Pool::new(alloc, vec![in alloc; 1u64, 2, 3]?)?;
    let items = pool.into_vec(alloc)?;
    assert!(rt; items.as_slice() == [1, 2, 3].as_slice());
    Ok(())
}

/// Lends three items, and the second again, once it came back. Gives their numbers, and whether there
/// was no other to lend each time.
fn lend_all(rt: &impl Abort, pool: &Pool<u64>) -> ([u64; 4], bool) {
    let first = pool.lend().expect(rt, "the first of three");
    let second = pool.lend().expect(rt, "the second of three");
    let third = pool.lend().expect(rt, "the third of three");
    let is_empty = pool.lend().is_err();
    let (a, b, c) = (*first, *second, *third);
    drop(second);
    let again = pool.lend().expect(rt, "the item that came back");
    ([a, b, c, *again], is_empty && pool.lend().is_err())
}

/// All items are lent at a time, each to one borrower, and then none; one that came back is lent
/// again.
#[test]
fn all_items_at_a_time(rt: HostRuntime) -> Result<(), Fail> {
    let alloc = rt.alloc();
    let pool = Pool::new(alloc, vec![in alloc; 1u64, 2, 3]?)?;
    let ([a, b, c, again], is_empty) = lend_all(&rt, &pool);
    assert!(rt; a != b && b != c && c != a && again == b && is_empty);
    Ok(())
}
