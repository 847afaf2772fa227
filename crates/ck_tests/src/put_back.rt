//! A key of a locked table is erased, and put back where another one has no room.
use crate::fixtures::{APART, FOUR_BUCKETS, only};
use cuckoo_map::{Handle, LockedHandle, NumKey};
use std::process::Abort;
use std::test::Fail;

/// The key whose value counts the tries.
const TRIES: u64 = 2;

/// Gives the value of one key to another, if that has room, and says whether it has. Else the key
/// keeps it: that it can be put back is proved.
fn give(locked: &mut LockedHandle<NumKey, u64>, from: u64, to: u64) -> bool {
    let Some(value) = locked.erase(&NumKey(from)) else {
        return false;
    };
    locked.update_fn(&NumKey(TRIES), |tries| tries.saturating_add(1));
    let Err(refused) = locked.insert(NumKey(to), value) else {
        return true;
    };
    let Ok(_) = locked.insert(NumKey(from), refused.value) else {
        unreachable!()
    };
    false
}

/// Binds eight keys of the same two buckets to their numbers, and gives the value of one of other
/// buckets to a ninth. Then the ninth has no value, the one its own, and the try was counted.
fn give_to_ninth(handle: &mut LockedHandle<NumKey, u64>) -> [Option<u64>; 3] {
    for number in 1..=8 {
        let _ = handle.insert(NumKey(number * APART), number);
    }
    let _ = handle.insert(NumKey(3), 30);
    let _ = handle.insert(NumKey(TRIES), 0);
    let _ = give(handle, 3, 9 * APART);
    [
        handle.find(&NumKey(3)).copied(),
        handle.find(&NumKey(9 * APART)).copied(),
        handle.find(&NumKey(TRIES)).copied(),
    ]
}

#[test]
fn put_back(rt: HostRuntime) -> Result<(), Fail> {
    let handle = only(&rt, Handle::open(rt.alloc(), FOUR_BUCKETS)?);
    match handle.lock() {
        Ok(mut locked) => {
            let values = give_to_ninth(&mut locked);
            locked.unlock();
            assert!(rt; values == [Some(30), None, Some(1)]);
        }
        Err(_) => panic!(rt; "a stripe is held"),
    }
    Ok(())
}
