//! Each value and each closure is dropped once, whichever call takes it. No contract counts drops.
use crate::fixtures::{APART, FOUR_BUCKETS, count, only, read};
use cuckoo_map::{Handle, NumKey};
use std::alloc::Global;
use std::process::Abort;
use std::sync::Arc;
use std::sync::atomic::AtomicU64;
use std::test::Fail;

/// How many values were dropped.
type Drops = Arc<AtomicU64>;

/// A value whose drop is counted.
struct Counted {
    drops: Drops,
}

impl Drop for Counted {
    fn drop(self) {
        let Counted { drops } = self;
        let _before = count(&drops);
    }
}

impl Counted {
    fn new(rt: &impl Abort, drops: &Drops) -> Counted {
        match Arc::try_clone(drops) {
            Ok(drops) => Counted { drops },
            Err(_) => panic!(rt; "no further counter"),
        }
    }
}

type CountedHandle = Handle<NumKey, Counted>;

/// Binds eight keys in steps of `APART`, and says whether that could be done.
fn bind_eight(rt: &impl Abort, handle: &mut CountedHandle, drops: &Drops) -> bool {
    (1..=8u64).all(|i| {
        let bound = handle.insert(NumKey(i * APART), Counted::new(rt, drops));
        bound.is_ok()
    })
}

/// A handle of a table that has room for these eight keys, and has bound them.
fn handle_of(rt: &impl Abort, alloc: Global, drops: &Drops) -> Result<CountedHandle, Fail> {
    let mut handle = only(rt, Handle::open(alloc, FOUR_BUCKETS)?);
    let is_full = bind_eight(rt, &mut handle, drops);
    assert!(rt; is_full);
    Ok(handle)
}

/// A counter of drops.
fn no_drops(alloc: Global) -> Result<Drops, Fail> {
    Ok(Arc::new(alloc, AtomicU64::new(0))?)
}

/// Erases two keys. Counts the drops before and after what the first call gave is dropped, and after
/// the second one.
fn erase_two(rt: &impl Abort, handle: &mut CountedHandle, drops: &Drops) -> [u64; 3] {
    let erased = handle.erase(&NumKey(APART));
    let before = read(drops);
    drop(erased);
    let after = read(drops);
    let gone = handle.erase_fn(&NumKey(2 * APART), |_value| true);
    assert!(rt; gone == Ok(Some(true)));
    [before, after, read(drops)]
}

/// What a call takes out is dropped by whoever gets it, or by the call where nobody does.
#[test]
fn taken_out(rt: HostRuntime) -> Result<(), Fail> {
    let drops = no_drops(rt.alloc())?;
    let mut handle = handle_of(&rt, rt.alloc(), &drops)?;
    assert!(rt; erase_two(&rt, &mut handle, &drops) == [0, 1, 2]);
    Ok(())
}

/// Replaces the value of a key twice. Counts the drops before and after what each call gave is
/// dropped.
fn replace_two(rt: &impl Abort, handle: &mut CountedHandle, drops: &Drops) -> [u64; 4] {
    let assigned = handle.insert_or_assign(NumKey(APART), Counted::new(rt, drops));
    let before = read(drops);
    drop(assigned);
    let after = read(drops);
    let updated = handle.update(&NumKey(APART), Counted::new(rt, drops));
    let before_second = read(drops);
    drop(updated);
    [before, after, before_second, read(drops)]
}

/// What is replaced comes back.
#[test]
fn replaced(rt: HostRuntime) -> Result<(), Fail> {
    let drops = no_drops(rt.alloc())?;
    let mut handle = handle_of(&rt, rt.alloc(), &drops)?;
    assert!(rt; replace_two(&rt, &mut handle, &drops) == [0, 1, 1, 2]);
    Ok(())
}

/// Inserts a value and what a closure owns for a key that is bound. Counts the drops after each.
fn insert_in_vain(rt: &impl Abort, handle: &mut CountedHandle, drops: &Drops) -> [u64; 2] {
    let bound = handle.insert(NumKey(APART), Counted::new(rt, drops));
    let after = read(drops);
    let value = Counted::new(rt, drops);
    let bound_by = handle.insert_with(NumKey(APART), move || value);
    let all = read(drops);
    assert!(rt; matches!(bound, Ok(false)) && matches!(bound_by, Ok(false)));
    [after, all]
}

/// A value or a closure that a call doesn't take for its key is dropped by the call.
#[test]
fn not_taken(rt: HostRuntime) -> Result<(), Fail> {
    let drops = no_drops(rt.alloc())?;
    let mut handle = handle_of(&rt, rt.alloc(), &drops)?;
    assert!(rt; insert_in_vain(&rt, &mut handle, &drops) == [1, 2]);
    Ok(())
}

/// Inserts a value and what a closure owns for a key that has no room. Counts the drops before and
/// after what each call gave is dropped.
fn insert_without_room(rt: &impl Abort, handle: &mut CountedHandle, drops: &Drops) -> [u64; 4] {
    let refused = handle.insert(NumKey(9 * APART), Counted::new(rt, drops));
    let before = read(drops);
    drop(refused);
    let after = read(drops);
    let value = Counted::new(rt, drops);
    let refused = handle.insert_with(NumKey(9 * APART), move || value);
    let before_second = read(drops);
    drop(refused);
    [before, after, before_second, read(drops)]
}

/// A refused insertion hands back its value or its closure.
#[test]
fn refused(rt: HostRuntime) -> Result<(), Fail> {
    let drops = no_drops(rt.alloc())?;
    let mut handle = handle_of(&rt, rt.alloc(), &drops)?;
    assert!(rt; insert_without_room(&rt, &mut handle, &drops) == [0, 1, 1, 2]);
    Ok(())
}

/// Counts the drops after a locked table has retained five of eight keys, and after it was cleared.
fn retain_and_clear(handle: CountedHandle, drops: &Drops) -> Option<[u64; 2]> {
    let mut locked = handle.lock().ok()?;
    locked.retain(|key, _value| key.0 > 3 * APART);
    let retained = read(drops);
    locked.clear();
    let cleared = read(drops);
    locked.unlock();
    Some([retained, cleared])
}

/// A locked table drops what it doesn't retain, and what it is cleared of.
#[test]
fn locked(rt: HostRuntime) -> Result<(), Fail> {
    let drops = no_drops(rt.alloc())?;
    let handle = handle_of(&rt, rt.alloc(), &drops)?;
    assert!(rt; retain_and_clear(handle, &drops) == Some([3, 8]));
    Ok(())
}

/// A table that ends drops what it still binds.
#[test]
fn ended(rt: HostRuntime) -> Result<(), Fail> {
    let drops = no_drops(rt.alloc())?;
    let handle = handle_of(&rt, rt.alloc(), &drops)?;
    drop(handle);
    assert!(rt; read(&drops) == 8);
    Ok(())
}
