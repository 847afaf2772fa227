//! Hashes, buckets and stripes that were worked out by hand, and what a text key may be.
ghost use Rattle.std.specs.Prelude.{◌≤◌};

use ck_key::{
    KeyFault, MixedKey, NumKey, NumTextKey, PairKey, Query, TableKey, TextKey, alternate, index,
    partial, stripes_of,
};
use std::alloc::Global;
use std::process::Abort;
use std::test::Fail;

/// What a key must give: its buckets are the first and the alternate one.
#[derive(Clone, Copy, PartialEq)]
struct Row {
    hash: u64,
    partial: u8,
    at_power_two: (u64, u64),
    at_power_three: (u64, u64),
    /// The two stripes of 2^1.
    stripes: (u32, u32),
}

fn row_of(
    hash: u64,
    partial: u8,
    at_power_two: (u64, u64),
    at_power_three: (u64, u64),
    stripes: (u32, u32),
) -> Row {
    Row {
        hash,
        partial,
        at_power_two,
        at_power_three,
        stripes,
    }
}

fn buckets(p: u32, t: u8, h: u64) -> (u64, u64)
    requires { p ≤ 26 }
{
    let first = index(p, h);
    (first, alternate(p, t, first))
}

/// The hash, by the trait.
fn hash_of<K: TableKey>(key: &K) -> u64 {
    key.hash64()
}

/// The hash, by a query.
fn hash_asked<K: TableKey, Q: Query<K>>(query: Q) -> u64 {
    query.hash64()
}

/// What the key of this hash gives.
fn found(hash: u64) -> Row {
    let partial = partial(hash);
    Row {
        hash,
        partial,
        at_power_two: buckets(2, partial, hash),
        at_power_three: buckets(3, partial, hash),
        stripes: stripes_of(1, hash),
    }
}

fn check(rt: &impl Abort, hash: u64, row: &Row) {
    assert!(rt; found(hash) == *row);
}

#[test]
fn number_keys(rt: HostRuntime) {
    for (number, row) in [
        (0u64, row_of(0, 0, (0, 1), (0, 5), (0, 1))),
        (1, row_of(1, 1, (1, 3), (1, 3), (1, 1))),
        (2, row_of(2, 2, (2, 1), (2, 5), (0, 1))),
        (3, row_of(3, 3, (3, 3), (3, 7), (1, 1))),
        (7, row_of(7, 7, (3, 3), (7, 7), (1, 1))),
        (258, row_of(258, 3, (2, 2), (2, 6), (0, 0))),
        (u64::MAX, row_of(u64::MAX, 0, (3, 2), (7, 2), (0, 1))),
    ] {
        check(&rt, hash_of(&NumKey(number)), &row);
    }
}

#[test]
fn mixed_keys(rt: HostRuntime) {
    for (number, hash) in [
        (0u64, 0u64),
        (1, 0x4c8b_acd9_c4be_f5b7),
        (5, 0xf9a2_2804_4af7_be86),
        (1 << 20, 0x991e_5035_960a_1bbd),
        (1 << 63, 0x8d42_f629_0d42_f629),
        (u64::MAX, 0x6a42_0d1a_c8f9_48db),
    ] {
        assert!(rt; hash_of(&MixedKey(number)) == hash);
    }
}

#[test]
fn pair_keys(rt: HostRuntime) {
    for (first, second, hash) in [
        (1u64, 0u64, 0xbdf1_a1ba_6e11_6348u64),
        (0, 1, 0x4c8b_acd9_c4be_f5b7),
        (7, 20_000, 0x5da9_e722_f1bf_ee5e),
        (20_000, 7, 0xd474_bf26_fb76_fc46),
        (1 << 40, 1 << 20, 0xa601_c599_f999_9320),
        (u64::MAX, u64::MAX, 0x6c33_b01e_5ff4_9557),
    ] {
        assert!(rt; hash_of(&PairKey(first, second)) == hash);
    }
    assert!(rt; PairKey(1, 9) < PairKey(2, 0));
    assert!(rt; PairKey(1, 8) < PairKey(1, 9));
}

static NUMBER_TEXTS: [(u64, &str, u64); 4] = [
    (1, "", 0x1598_49df_c130_8249),
    (0, "a", 0xbd1d_ba3e_2c6c_7a65),
    (7, "foobar", 0xa124_121f_8beb_e2eb),
    (u64::MAX, "a", 0xe866_1799_75b0_a0d7),
];

/// The hash of the key, by itself and by each query.
fn hashes(alloc: Global, number: u64, text: &str) -> Result<[u64; 3], KeyFault> {
    let key = NumTextKey::new(alloc, number, text.as_bytes())?;
    Ok([
        hash_of(&key),
        hash_asked::<NumTextKey, _>((number, text)),
        hash_asked::<NumTextKey, _>((number, text.as_bytes())),
    ])
}

#[test]
fn number_text_keys(rt: HostRuntime) -> Result<(), Fail> {
    for (number, text, hash) in &NUMBER_TEXTS {
        assert!(rt; hashes(rt.alloc(), *number, *text)? == [*hash; 3]);
    }
    Ok(())
}

#[test]
fn text_keys(rt: HostRuntime) -> Result<(), Fail> {
    for (text, row) in [
        (
            "",
            row_of(0xcbf2_9ce4_8422_2325, 225, (1, 3), (5, 7), (1, 1)),
        ),
        (
            "a",
            row_of(0xaf63_dc4c_8601_ec8c, 187, (0, 0), (4, 0), (0, 0)),
        ),
        (
            "foobar",
            row_of(0x8594_4171_f739_67e8, 96, (0, 1), (0, 5), (0, 1)),
        ),
    ] {
        let key = TextKey::new(rt.alloc(), text.as_bytes())?;
        check(&rt, hash_of(&key), &row);
        assert!(rt; hash_asked::<TextKey, _>(&key) == row.hash);
        assert!(rt; hash_asked::<TextKey, _>(text) == row.hash);
        assert!(rt; hash_asked::<TextKey, _>(text.as_bytes()) == row.hash);
    }
    Ok(())
}

/// Powers, and the other bucket of an entry of bucket 0 and partial 0, which shows the factor
/// alone.
const FACTORS: [(u32, u64); 12] = [
    (1, 1),
    (2, 1),
    (3, 5),
    (4, 5),
    (5, 21),
    (6, 21),
    (7, 21),
    (8, 149),
    (9, 405),
    (10, 405),
    (12, 2453),
    (16, 59797),
];

#[test]
fn spread(rt: HostRuntime) {
    for (p, want) in FACTORS {
        assert!(rt; p <= 26);
        assert!(rt; alternate(p, 0, 0) == want, "at power {p}");
    }
}

static LONG: [u8; 65] = [b'x'; 65];

/// Whether the key of 64 bytes has them, and is as its copy.
fn is_longest_kept(alloc: Global) -> Result<bool, Fail> {
    let longest = TextKey::new(alloc, &LONG[..64])?;
    let copy = longest.clone()?;
    Ok(longest.as_bytes() == &LONG[..64] && copy == longest)
}

/// A text of 65 bytes is no key, and one of 64 is.
#[test]
fn longest_text_key(rt: HostRuntime) -> Result<(), Fail> {
    let fault = TextKey::new(rt.alloc(), &LONG).err();
    assert!(rt; fault == Some(KeyFault::TooLong));
    assert!(rt; is_longest_kept(rt.alloc())?);
    Ok(())
}

/// The same with a number.
fn is_longest_kept_with(alloc: Global, number: u64) -> Result<bool, Fail> {
    let longest = NumTextKey::new(alloc, number, &LONG[..64])?;
    let copy = longest.clone()?;
    let is_kept = longest.number() == number && longest.as_bytes() == &LONG[..64];
    Ok(is_kept && copy == longest)
}

#[test]
fn longest_number_text_key(rt: HostRuntime) -> Result<(), Fail> {
    let fault = NumTextKey::new(rt.alloc(), 7, &LONG).err();
    assert!(rt; fault == Some(KeyFault::TooLong));
    assert!(rt; is_longest_kept_with(rt.alloc(), 7)?);
    Ok(())
}

/// Whether the first key comes before the second.
fn is_before(alloc: Global, first: (u64, &str), second: (u64, &str)) -> Result<bool, KeyFault> {
    let first = NumTextKey::new(alloc, first.0, first.1.as_bytes())?;
    let second = NumTextKey::new(alloc, second.0, second.1.as_bytes())?;
    Ok(first < second)
}

/// The number comes before the text.
#[test]
fn number_text_keys_in_order(rt: HostRuntime) -> Result<(), Fail> {
    assert!(rt; is_before(rt.alloc(), (7, "w"), (7, "x"))?);
    assert!(rt; is_before(rt.alloc(), (7, "x"), (8, ""))?);
    Ok(())
}

static TEXTS: [&[u8]; 5] = [b"b", b"\xff", b"ab", b"", b"a"];

static IN_ORDER: [&[u8]; 5] = [b"", b"a", b"ab", b"b", b"\xff"];

fn keys_of(alloc: Global, texts: &[&[u8]]) -> Result<Vec<TextKey>, Fail> {
    let mut keys = Vec::new(alloc);
    for text in texts {
        keys.push(TextKey::new(alloc, *text)?)?;
    }
    Ok(keys)
}

fn sort(keys: &mut Vec<TextKey>) {
    keys.sort_unstable();
}

/// Whether these are the keys of the texts, in their order.
fn are(keys: &[TextKey], texts: &[&[u8]]) -> bool {
    keys.len() == texts.len()
        && (0..texts.len()).all(|i| keys.get(i).map(|key| key.as_bytes()) == texts.get(i).copied())
}

#[test]
fn texts(rt: HostRuntime) -> Result<(), Fail> {
    let mut keys = keys_of(rt.alloc(), &TEXTS)?;
    sort(&mut keys);
    assert!(rt; are(&keys, &IN_ORDER));
    Ok(())
}
