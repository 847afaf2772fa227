//! A search for a displacement path that a doubling overtakes: the insertion tries again under the
//! stripes of its key, and takes no others.
//!
//! Of four stripes, key 258 has stripe 2 alone, and key 16 has stripes 0 and 1. Both buckets of key
//! 16 are full at power 2, and have room at power 3. Its insertion hashes it as it begins, and again
//! as it begins to make room, when it holds no stripe. There it waits until another thread has
//! doubled the table and holds stripe 2, so that it can't take all.
use crate::fixtures::two;
use crate::watched::{WAITING, Watch, WatchedKey};
use cuckoo_map::{Handle, Settings};
use std::process::Abort;
use std::sync::atomic::Ordering;
use std::test::Fail;
use std::thread;
use std::thread::Threads;

type WatchedHandle<'w> = Handle<WatchedKey<'w>, u64>;

/// Inserts the key that waits, and says whether it was bound anew.
fn insert_meanwhile<'w>(mut handle: WatchedHandle<'w>, watch: &'w Watch) -> bool {
    let key = WatchedKey {
        number: WAITING,
        watch,
    };
    let inserted = handle.insert(key, 9);
    watch.inserted.store(1, Ordering::SeqCst);
    inserted.is_ok_and(|fresh| fresh)
}

/// Doubles the table once the key is hashed for the second time, and then holds stripe 2 until the
/// insertion has come back. Says whether it could.
fn double_meanwhile<'w>(mut handle: WatchedHandle<'w>, watch: &'w Watch) -> bool {
    watch.wait_for(&watch.waited, 2);
    let grown = handle.rehash(3);
    let around = |value: u64| {
        watch.doubled.store(1, Ordering::SeqCst);
        watch.wait_for(&watch.inserted, 1);
        value
    };
    let key = WatchedKey { number: 258, watch };
    let held = handle.update_fn(&key, around);
    grown == Ok(true) && held == Ok(true)
}

/// Binds keys until both buckets of the one that waits are full.
fn fill<'w>(rt: &impl Abort, handle: &mut WatchedHandle<'w>, watch: &'w Watch) {
    for number in [258, 0, 4, 8, 12, 1, 5, 9, 13] {
        let bound = handle.insert(WatchedKey { number, watch }, 0);
        assert!(rt; bound.is_ok_and(|fresh| fresh), "key {number}");
    }
}

/// The first handle doubles the table while the second inserts the key that waits.
fn meet<'w, R: Threads + Abort + Sync>(rt: &R, watch: &'w Watch, handles: Vec<WatchedHandle<'w>>) {
    let (mut first, second) = two(rt, handles);
    fill(rt, &mut first, watch);
    let (inserted, doubled) = thread::join(
        rt,
        || insert_meanwhile(second, watch),
        || double_meanwhile(first, watch),
    );
    assert!(rt;
        inserted,
        "the table has room for the key without all stripes"
    );
    assert!(rt; doubled, "nobody else holds a stripe meanwhile");
    let gave_up = watch.gave_up.load(Ordering::SeqCst);
    assert!(rt; gave_up == 0, "the threads met");
}

#[test]
fn a_doubling_overtakes_a_search(rt: HostRuntime) -> Result<(), Fail> {
    let watch = Watch::new();
    let settings = Settings {
        s: 2,
        power: 2,
        max: 20,
        callers: 2,
        turns: 8,
        rounds: 4,
        min_load: 5,
    };
    let handles = Handle::<WatchedKey<'_>, u64>::open(rt.alloc(), settings)?;
    meet(&rt, &watch, handles);
    Ok(())
}
