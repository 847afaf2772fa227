//! What refusals say. No contract speaks of texts.
use cuckoo_map::{
    AllLent, Busy, DrainFault, Fault, GrowFault, KeyFault, KeysNotLocked, KeysRefused,
    KeysWithoutRoom, NoCallers, NoList, NoPool, NoSlot, NotClosed, NotDrained, NotLocked,
    NotRenamed, NumKey, OpenFault, OutOfRange, Pool, Refused, RoomFault, Why,
};
use std::alloc::Global;
use std::fmt::Display;
use std::process::Abort;

const HELD: &str = "stripe 7 was held in all tries: try again, or open with more turns";

const TWICE: &str = "the key at position 2 is named twice";

const FULL: &str =
    "no room for the key in a table of the greatest size: open it with a greater max";

const LOAD_TOO_LOW: &str =
    "no room for the key, and too few slots are taken to grow: see MixedKey, min_load";

const NO_MEMORY_TO_GROW: &str = "no room for the key, and no memory for the table to grow";

const OVER_MAX: &str = "the table may not have so many buckets: open it with a greater max";

const MAX: &str = "a setting is not in its range: max may be 1 to 26";

const TOO_LONG: &str = "the key has more than 64 bytes";

const ALL_LENT: &str = "all items of the pool are lent: try again, or make it of more";

/// Fails unless the refusal reads so.
fn check(rt: &impl Abort, alloc: Global, refusal: &impl Display, wanted: &str) {
    let text = format!(in alloc; "{refusal}").expect(rt, "memory for a text");
    assert!(rt; text.as_str() == wanted, "{text}");
}

/// Fails unless each of these reads as the text behind it.
fn check_all<T: Display>(rt: &impl Abort, alloc: Global, rows: &[(T, &str)]) {
    for (refusal, wanted) in rows {
        check(rt, alloc, refusal, wanted);
    }
}

/// Of calls on keys.
#[test]
fn keys(rt: HostRuntime) {
    let alloc = rt.alloc();
    check_all(&rt, alloc, &[(Busy(7), HELD)]);
    let insertions = [
        (Why::Busy(7), HELD),
        (Why::Memory, NO_MEMORY_TO_GROW),
        (Why::Full, FULL),
        (Why::LoadTooLow, LOAD_TOO_LOW),
    ];
    check_all(&rt, alloc, &insertions);
    let several = [(KeysRefused::Busy(7), HELD), (KeysRefused::Twice(2), TWICE)];
    check_all(&rt, alloc, &several);
    let with_room = [
        (RoomFault::Keys(KeysRefused::Twice(2)), TWICE),
        (RoomFault::Room(Why::Full), FULL),
    ];
    check_all(&rt, alloc, &with_room);
    let texts = [
        (KeyFault::TooLong, TOO_LONG),
        (KeyFault::Memory, "no memory for the key"),
    ];
    check_all(&rt, alloc, &texts);
}

/// Of calls on the whole table, and of a pool.
#[test]
fn tables(rt: HostRuntime) {
    let alloc = rt.alloc();
    let openings = [
        (OpenFault::Settings(OutOfRange::Max), MAX),
        (OpenFault::Memory, "no memory for the table"),
    ];
    check_all(&rt, alloc, &openings);
    let growths = [
        (GrowFault::Busy(7), HELD),
        (GrowFault::Memory, "no memory for the table to grow"),
        (GrowFault::OverMax, OVER_MAX),
    ];
    check_all(&rt, alloc, &growths);
    let drains = [
        (DrainFault::Busy(7), HELD),
        (DrainFault::Memory, "no memory for the pairs of the table"),
    ];
    check_all(&rt, alloc, &drains);
    check_all(&rt, alloc, &[(AllLent, ALL_LENT)]);
}

/// The one error of all refusals reads as they do.
#[test]
fn faults(rt: HostRuntime) {
    let rows = [
        (Fault::Settings(OutOfRange::Max), MAX),
        (Fault::Busy(7), HELD),
        (Fault::Memory, "no memory"),
        (Fault::Full, FULL),
        (Fault::LoadTooLow, LOAD_TOO_LOW),
        (Fault::OverMax, OVER_MAX),
        (Fault::TooLong, TOO_LONG),
        (Fault::Twice(2), TWICE),
        (
            Fault::NoSlot,
            "no free slot for the key among its stripes: insert it unlocked, or lock it with room",
        ),
        (Fault::AllLent, ALL_LENT),
    ];
    check_all(&rt, rt.alloc(), &rows);
}

/// What gives something back says why.
#[test]
fn given_back(rt: HostRuntime) {
    let alloc = rt.alloc();
    let refused = Refused {
        key: 1,
        value: 2,
        why: Why::Full,
    };
    check(&rt, alloc, &refused, FULL);
    let back = NotRenamed {
        key: 1,
        why: RoomFault::Room(Why::Full),
    };
    check(&rt, alloc, &back, FULL);
    let back = NoSlot { key: 1, value: 2 };
    check(
        &rt,
        alloc,
        &back,
        "no free slot for the key among its stripes: unlock the keys, and insert it",
    );
    let back = NotLocked {
        caller: 1,
        busy: Busy(7),
    };
    check(&rt, alloc, &back, HELD);
    let back = NotDrained {
        caller: 1,
        why: DrainFault::Busy(7),
    };
    check(&rt, alloc, &back, HELD);
    let back = NotClosed::<u64, NumKey, u64> {
        caller: 1,
        others: Vec::new(alloc),
        why: DrainFault::Busy(7),
    };
    check(&rt, alloc, &back, HELD);
    let back = KeysNotLocked {
        caller: 1,
        why: KeysRefused::Twice(2),
    };
    check(&rt, alloc, &back, TWICE);
    let back = KeysWithoutRoom {
        caller: 1,
        why: RoomFault::Room(Why::Full),
    };
    check(&rt, alloc, &back, FULL);
}

/// Where a list or a pool has no memory, what was to be in it comes back.
#[test]
fn no_memory(rt: HostRuntime) {
    let alloc = rt.alloc();
    let back = NoPool {
        items: Vec::<u64>::new(alloc),
    };
    check(&rt, alloc, &back, "no memory for the pool");
    let pool = Pool::new(alloc, Vec::<u64>::new(alloc)).expect(&rt, "memory for a pool");
    check(
        &rt,
        alloc,
        &NoList { pool },
        "no memory for the list of what the pool lends",
    );
    let back = NoCallers::<NumKey, u64> {
        passes: Vec::new(alloc),
    };
    check(&rt, alloc, &back, "no memory for the callers");
}
