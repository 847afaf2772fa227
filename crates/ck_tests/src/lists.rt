//! Tables whose values own memory, are large, and are none.
use crate::fixtures::{only, sixteen_buckets};
use cuckoo_map::{Handle, NumKey};
use std::alloc::{AllocError, Global};
use std::process::Abort;
use std::test::Fail;

type ListHandle = Handle<NumKey, Vec<u64>>;

/// Pushes the number to the list of the key, and says whether it had none. Where there is no memory
/// for a longer list, the key keeps the one that it has.
fn push(alloc: Global, handle: &mut ListHandle, key: u64, number: u64) -> Result<bool, Fail> {
    let push = |mut list: Vec<u64>| match list.push(number) {
        Ok(()) => Ok(list),
        Err(_) => Err((list, AllocError)),
    };
    let first = vec![in alloc; number]?;
    let pushed = handle.try_upsert(NumKey(key), push, first)?;
    Ok(pushed?)
}

/// Whether the list of the key has these numbers.
fn has(handle: &mut ListHandle, key: u64, numbers: &[u64]) -> bool {
    handle.find_fn(&NumKey(key), |list: &Vec<u64>| list.as_slice() == numbers) == Ok(Some(true))
}

/// Whether the first push makes a list, and the second one pushes to it.
fn is_pushed_to(alloc: Global, handle: &mut ListHandle) -> Result<bool, Fail> {
    let is_fresh = push(alloc, handle, 5, 50)?;
    let is_fresh_again = push(alloc, handle, 5, 51)?;
    Ok(is_fresh && !is_fresh_again && has(handle, 5, &[50, 51]))
}

#[test]
fn a_list_is_pushed_to(rt: HostRuntime) -> Result<(), Fail> {
    let mut handle = only(&rt, Handle::open(rt.alloc(), sixteen_buckets(1))?);
    assert!(rt; is_pushed_to(rt.alloc(), &mut handle)?);
    Ok(())
}

/// A value of a kilobyte.
type Page = [u64; 128];

/// How many pages are bound. The table has 64 slots at first.
const PAGES: u64 = 100;

/// Binds a page of its number to each key.
fn bind_pages(rt: &impl Abort, handle: &mut Handle<NumKey, Page>) {
    for number in 0..PAGES {
        let bound = handle.insert(NumKey(number), [number; 128]);
        assert!(rt; bound.is_ok_and(|fresh| fresh), "page {number}");
    }
}

/// Finds each page, and erases it.
fn take_pages(rt: &impl Abort, handle: &mut Handle<NumKey, Page>) {
    for number in 0..PAGES {
        let key = NumKey(number);
        let page = Ok(Some([number; 128]));
        assert!(rt; handle.find(&key) == page, "page {number}");
        assert!(rt; handle.erase(&key) == page, "page {number}");
    }
}

/// Large values are bound, found where a doubling brought them, and erased.
#[test]
fn pages(rt: HostRuntime) -> Result<(), Fail> {
    let mut handle = only(&rt, Handle::open(rt.alloc(), sixteen_buckets(1))?);
    bind_pages(&rt, &mut handle);
    let power = handle.power();
    take_pages(&rt, &mut handle);
    let is_empty = handle.is_empty();
    assert!(rt; power == Ok(5) && is_empty == Ok(true));
    Ok(())
}

/// A value of 64 kilobytes.
type Book = [u64; 8192];

/// Whether the last number of the book is this.
fn ends_with(handle: &mut Handle<NumKey, Book>, key: u64, number: u64) -> bool {
    let ends = |book: &Book| book[8191] == number;
    handle.find_fn(&NumKey(key), ends) == Ok(Some(true))
}

fn bind_book(handle: &mut Handle<NumKey, Book>, key: u64, number: u64) -> bool {
    let bound = handle.insert(NumKey(key), [number; 8192]);
    bound.is_ok_and(|fresh| fresh)
}

/// Whether two books are bound, and found after a doubling.
fn keeps_books(handle: &mut Handle<NumKey, Book>) -> bool {
    bind_book(handle, 1, 10)
        && bind_book(handle, 2, 20)
        && handle.rehash(5) == Ok(true)
        && ends_with(handle, 1, 10)
        && ends_with(handle, 2, 20)
}

#[test]
fn books(rt: HostRuntime) -> Result<(), Fail> {
    let mut handle = only(&rt, Handle::open(rt.alloc(), sixteen_buckets(1))?);
    assert!(rt; keeps_books(&mut handle));
    Ok(())
}

/// Whether a key is bound once, found, and erased.
fn is_set(handle: &mut Handle<NumKey, ()>) -> bool {
    handle.insert(NumKey(1), ()).is_ok_and(|fresh| fresh)
        && handle.insert(NumKey(1), ()).is_ok_and(|fresh| !fresh)
        && handle.contains(&NumKey(1)) == Ok(true)
        && handle.erase(&NumKey(1)) == Ok(Some(()))
        && handle.contains(&NumKey(1)) == Ok(false)
}

/// A table whose values are nothing is a set.
#[test]
fn a_set(rt: HostRuntime) -> Result<(), Fail> {
    let mut handle = only(&rt, Handle::open(rt.alloc(), sixteen_buckets(1))?);
    assert!(rt; is_set(&mut handle));
    Ok(())
}
