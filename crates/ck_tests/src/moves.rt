//! What moves entries. A move hashes their keys.
use crate::fixtures::{only, read};
use crate::watched::{Watch, WatchedKey};
use cuckoo_map::{Handle, Settings};
use std::process::Abort;
use std::test::Fail;

type WatchedHandle<'w> = Handle<WatchedKey<'w>, u64>;

/// A table of 64 buckets, each of them a stripe.
const SETTINGS: Settings = Settings {
    s: 6,
    power: 6,
    max: 20,
    callers: 1,
    turns: 8,
    rounds: 4,
    min_load: 5,
};

/// Binds the key, and says how often keys were hashed for that.
fn bind<'w>(rt: &impl Abort, handle: &mut WatchedHandle<'w>, number: u64, watch: &'w Watch) -> u64 {
    let before = read(&watch.hashed);
    let bound = handle.insert(WatchedKey { number, watch }, 0);
    assert!(rt; bound.is_ok_and(|fresh| fresh), "key {number}");
    read(&watch.hashed).saturating_sub(before)
}

/// Binds 300 keys, each of which moves few.
fn double<'w>(rt: &impl Abort, handle: &mut WatchedHandle<'w>, watch: &'w Watch) {
    for number in 100..400 {
        let hashed = bind(rt, handle, number, watch);
        assert!(rt; hashed < 32, "key {number}: {hashed}");
    }
    assert!(rt; handle.power() == Ok(7));
}

/// A doubling moves the entries of the stripes of its key, and leaves those of the others.
#[test]
fn a_doubling_moves_few_entries(rt: HostRuntime) -> Result<(), Fail> {
    let watch = Watch::new();
    let handles = Handle::<WatchedKey<'_>, u64>::open(rt.alloc(), SETTINGS)?;
    double(&rt, &mut only(&rt, handles), &watch);
    Ok(())
}

/// Binds 100 keys, and makes calls that move none.
fn look<'w>(rt: &impl Abort, handle: &mut WatchedHandle<'w>, watch: &'w Watch) {
    for number in 100..200 {
        bind(rt, handle, number, watch);
    }
    let before = read(&watch.hashed);
    assert!(rt; handle.rehash(7) == Ok(true));
    assert!(rt; handle.len() == Ok(100));
    assert!(rt; handle.is_empty() == Ok(false));
    assert!(rt; handle.reserve(500) == Ok(false));
    assert!(rt; handle.capacity() == Ok(512));
    assert!(rt; read(&watch.hashed) == before);
}

/// A doubling moves nothing where the last one has nothing left to move, nor do calls that take all
/// stripes and look at no key.
#[test]
fn calls_on_the_whole_table_move_nothing(rt: HostRuntime) -> Result<(), Fail> {
    let watch = Watch::new();
    let handles = Handle::<WatchedKey<'_>, u64>::open(rt.alloc(), SETTINGS)?;
    look(&rt, &mut only(&rt, handles), &watch);
    Ok(())
}
