//! Keys that calls name by what they are: texts, pairs of numbers, and numbers with texts.
use crate::fixtures::{only, sixteen_buckets};
use cuckoo_map::{Handle, NumTextKey, PairKey, TextKey};
use std::test::Fail;

/// Binds the text `ab`, and says whether just that is found and erased.
fn finds_text(handle: &mut Handle<TextKey, u64>, key: TextKey) -> bool {
    handle.insert(key, 1).is_ok()
        && handle.find("ab") == Ok(Some(1))
        && handle.find(b"\xff".as_slice()) == Ok(None)
        && handle.find_all(["ba", "ab"]) == Ok([None, Some(1)])
        && handle.erase(b"ab".as_slice()) == Ok(Some(1))
}

#[test]
fn texts_are_found_by_their_bytes(rt: HostRuntime) -> Result<(), Fail> {
    let key = TextKey::new(rt.alloc(), b"ab")?;
    let mut handle = only(&rt, Handle::open(rt.alloc(), sixteen_buckets(1))?);
    assert!(rt; finds_text(&mut handle, key));
    Ok(())
}

/// Binds two pairs, and says whether just these are found.
fn finds_pairs(handle: &mut Handle<PairKey, u64>) -> bool {
    handle.insert(PairKey(1, 2), 12).is_ok()
        && handle.insert(PairKey(2, 1), 21).is_ok()
        && handle.find(&PairKey(1, 2)) == Ok(Some(12))
        && handle.find(&PairKey(1, 1)) == Ok(None)
        && handle.erase(&PairKey(2, 1)) == Ok(Some(21))
}

#[test]
fn pairs_differ_in_either_number(rt: HostRuntime) -> Result<(), Fail> {
    let mut handle = only(&rt, Handle::open(rt.alloc(), sixteen_buckets(1))?);
    assert!(rt; finds_pairs(&mut handle));
    Ok(())
}

/// Binds 7 with the text `ab`, and says whether just that is found and erased.
fn finds_both(handle: &mut Handle<NumTextKey, u64>, key: NumTextKey) -> bool {
    handle.insert(key, 1).is_ok()
        && handle.find((7, "ab")) == Ok(Some(1))
        && handle.find((8, "ab")) == Ok(None)
        && handle.find((7, b"\xff".as_slice())) == Ok(None)
        && handle.erase((7, b"ab".as_slice())) == Ok(Some(1))
}

#[test]
fn numbers_with_texts_are_found_by_both(rt: HostRuntime) -> Result<(), Fail> {
    let key = NumTextKey::new(rt.alloc(), 7, b"ab")?;
    let mut handle = only(&rt, Handle::open(rt.alloc(), sixteen_buckets(1))?);
    assert!(rt; finds_both(&mut handle, key));
    Ok(())
}
