//! Looking for a key, and for room for it.
ghost use Rattle.std.specs.Prelude.{◌≡◌, ◌≤◌, ◌<◌, ◌%◌, ◌^◌, IfSome, IfNone, length, map};
ghost use Rattle.ck_model.specs.Paths.{partial_in};
ghost use Rattle.ck_key.specs.Hashes.{IsHashOf};
ghost use Rattle.ck_stripe.specs.Stripes.{stripe_at, bucket_at, IsInReach};
ghost use Rattle.ck_stripe.specs.Tables.{AreHeld, HasStripe};
ghost use Rattle.ck_section.specs.Places.{HasBoth, IsPlaceOf, IsSlotOf, IsNowhere, AreFull, IsNext};
ghost use Rattle.ck_section.specs.Entries.{IsOccupied};

use crate::place::{HeldBucket, KeyPlace};
use ck_key::{KeyHash, Query, TableKey};
use ck_stripe::{Held, HeldSlot, Stripe, one_stripe};

/// Where a key, whose hash the caller has at hand, may be among the held stripes of a table of 2^s.
#[inline(always)]
#[tactic(auto, unfolding(ck_model::specs::Arithmetic::second_of))]
pub fn key_place<K: TableKey + Drop, V: Drop, Q: Query<K>, H: Held<Stripe<K, V>>>(
    held: &mut H,
    s: u32,
    _key: Q,
    hash: KeyHash,
) -> KeyPlace
    requires held { AreHeld s (H.stripes held.old) }
    requires hash { IsHashOf K.hash (Q.name _key) hash }
    requires owned { HasBoth K.hash s (H.stripes held.old) (Q.name _key) }
    ensures place { IsPlaceOf K.hash (H.stripes held.old) (Q.name _key) result }
    ensures s { result.s ≡ s }
    ensures same { H.stripes held.new ≡ H.stripes held.old }
    ensures stays { H.stays held.old held.new }
{
    let KeyHash { hash, partial } = hash;
    let power = one_stripe::power(held, 0);
    let first = ck_key::index(power, hash);
    let alternate = ck_key::alternate(power, partial, first);
    KeyPlace {
        s,
        partial,
        first: HeldBucket {
            index: one_stripe::position(held, (first % (1 << s)) as u32),
            bucket: first,
        },
        alternate: HeldBucket {
            index: one_stripe::position(held, (alternate % (1 << s)) as u32),
            bucket: alternate,
        },
    }
}

/// The partials in a bucket of the held stripes of a table of 2^s.
pub fn sketch<K: TableKey + Drop, V: Drop, H: Held<Stripe<K, V>>>(
    held: &mut H,
    s: u32,
    b: u64,
) -> [Option<u8>; 4]
    requires held { AreHeld s (H.stripes held.old) }
    requires below { b < 2 ^ (stripe_at (H.stripes held.old) 0).content.power }
    requires owned { HasStripe (H.stripes held.old) (b % 2 ^ s) }
    ensures value { (i : _) × IsInReach (H.stripes held.old) i b
        × (result ≡ map (partial_in K.hash) (bucket_at (H.stripes held.old) i b)) }
    ensures same { H.stripes held.new ≡ H.stripes held.old }
    ensures stays { H.stays held.old held.new }
{
    let i = bucket_index(held, s, b);
    one_stripe::sketch(held, i, b)
}

// The position of the stripe of bucket `b`, in a table of 2^s stripes.
pub(crate) fn bucket_index<K: TableKey + Drop, V: Drop, H: Held<Stripe<K, V>>>(
    held: &mut H,
    s: u32,
    b: u64,
) -> usize
    requires s { s ≤ 10 }
    requires owned { HasStripe (H.stripes held.old) (b % 2 ^ s) }
    ensures inside { result < length (H.stripes held.old) }
    ensures number { (stripe_at (H.stripes held.old) result).number ≡ b % 2 ^ s }
    ensures same { H.stripes held.new ≡ H.stripes held.old }
    ensures stays { H.stays held.old held.new }
{
    one_stripe::position(held, (b % (1 << s)) as u32)
}

/// The slot of the key.
#[inline(always)]
pub(crate) fn find_slot<K: TableKey + Drop, V: Drop, Q: Query<K>, H: Held<Stripe<K, V>>>(
    held: &mut H,
    place: KeyPlace,
    key: Q,
) -> Option<HeldSlot>
    requires { IsPlaceOf K.hash (H.stripes held.old) (Q.name key) place }
    ensures occupied { IfSome result (IsOccupied K.hash (H.stripes held.old) (Q.name key)) }
    ensures nowhere { IfNone result (IsNowhere (H.stripes held.old) (Q.name key) place) }
    ensures same { H.stripes held.new ≡ H.stripes held.old }
    ensures stays { H.stays held.old held.new }
{
    let (first, alternate, partial) = (place.first, place.alternate, place.partial);
    if let Some(slot) = one_stripe::look(held, first.index, first.bucket, key, partial) {
        return Some(first.with_slot(slot));
    }
    if alternate.bucket == first.bucket {
        return None;
    }
    let slot = one_stripe::look(held, alternate.index, alternate.bucket, key, partial)?;
    Some(alternate.with_slot(slot))
}

/// The lowest free slot of the key's first bucket, else of its alternate one.
#[inline(always)]
pub(crate) fn find_free<K: TableKey + Drop, V: Drop, H: Held<Stripe<K, V>>>(
    held: &mut H,
    place: KeyPlace,
    key: &K,
) -> Option<HeldSlot>
    requires { IsPlaceOf K.hash (H.stripes held.old) (K.name key.now) place }
    ensures slot { IfSome result (IsSlotOf K.hash (H.stripes held.old) (K.name key.now)) }
    ensures next { IfSome result (IsNext (H.stripes held.old) place) }
    ensures full { IfNone result (AreFull (H.stripes held.old) place) }
    ensures same { H.stripes held.new ≡ H.stripes held.old }
    ensures stays { H.stays held.old held.new }
{
    let (first, alternate) = (place.first, place.alternate);
    if let Some(slot) = one_stripe::free(held, first.index, first.bucket) {
        return Some(first.with_slot(slot));
    }
    if alternate.bucket == first.bucket {
        return None;
    }
    let slot = one_stripe::free(held, alternate.index, alternate.bucket)?;
    Some(alternate.with_slot(slot))
}
