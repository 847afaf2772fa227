//! Whether each of several keys has room, however they are bound and unbound meanwhile.
ghost use Rattle.std.specs.Prelude.{◌≡◌, ◌≢◌, ◌⊎◌, ◌↔◌, ℕ, ◌+◌, ◌*◌, ◌≤◌, List, [], ◌∷◌, IsTrue, is_some, length, map};
ghost use Rattle.std.specs.Bool.{OnTrue, OnFalse};
ghost use Rattle.std.specs.List.{list_any};
ghost use Rattle.std.specs.FinMap.{find};
ghost use Rattle.ck_model.specs.Arithmetic.{partial_of};
ghost use Rattle.ck_model.specs.Promise.{Name, name_cmp};
ghost use Rattle.ck_model.specs.Numbered.{IsIn};
ghost use Rattle.ck_model.specs.Slots.{taken_in};
ghost use Rattle.ck_model.specs.Contents.{layout, Lawful};
ghost use Rattle.ck_stripe.specs.Stripes.{bucket_at, contents_of, IsInReach};
ghost use Rattle.ck_stripe.specs.Tables.{AreHeld};
ghost use Rattle.ck_section.specs.Places.{HasBoth};
ghost use Rattle.ck_section.specs.HeldBuckets.{numbers_of, AreInReach, pairs_there};
ghost use Rattle.ck_section.specs.RoomForAll.{HasRoomForAll, HaveRoomForAll, HasSlots, AreSomeOf, coming, may_come};

use crate::look::key_place;
use crate::place::{HeldBucket, KeyPlace};
use ck_key::{KeyHash, Query, TableKey};
use ck_stripe::{Held, Stripe, one_stripe};

/// Whether one bucket of each key, or both together, have a free slot for each of the keys that may
/// come there. The stripes of the keys are held, of a table of 2^s.
pub fn has_room_for_all<K: TableKey + Drop, V: Drop, Q: Query<K>, H: Held<Stripe<K, V>>>(
    held: &mut H,
    s: u32,
    keys: &[Q],
) -> bool
    requires held { AreHeld s (H.stripes held.old) }
    requires owned { (q : Name) → IsIn q (map Q.name keys.now)
        → HasBoth K.hash s (H.stripes held.old) q }
    ensures room { OnTrue result
        (HaveRoomForAll K.hash s (H.stripes held.old) (map Q.name keys.now)) }
    ensures no_room { OnFalse result ((max : ℕ)
        → Lawful (layout K.hash s max) (contents_of (H.stripes held.old))
        → ¬ (HasRoomForAll (layout K.hash s max) (contents_of (H.stripes held.old))
        (map Q.name keys.now))) }
    ensures same { H.stripes held.new ≡ H.stripes held.old }
    ensures stays { H.stays held.old held.new }
{
    for i in 0..keys.len() {
        if !has_slots(held, s, keys, keys[i]) {
            return false;
        }
    }
    true
}

// Whether one bucket of the key, or both together, have a free slot for each of the keys that may
// come there.
fn has_slots<K: TableKey + Drop, V: Drop, Q: Query<K>, H: Held<Stripe<K, V>>>(
    held: &mut H,
    s: u32,
    keys: &[Q],
    key: Q,
) -> bool
    requires held { AreHeld s (H.stripes held.old) }
    requires owned { (q : Name) → IsIn q (map Q.name keys.now)
        → HasBoth K.hash s (H.stripes held.old) q }
    requires own { HasBoth K.hash s (H.stripes held.old) (Q.name key) }
    ensures slots { (max : ℕ) → Lawful (layout K.hash s max) (contents_of (H.stripes held.old))
        → (IsTrue result ↔ ((bs : List ℕ)
        × AreSomeOf (layout K.hash s max) (contents_of (H.stripes held.old)) (Q.name key) bs
        × HasSlots (layout K.hash s max) (contents_of (H.stripes held.old)) (map Q.name keys.now)
        bs)) }
    ensures same { H.stripes held.new ≡ H.stripes held.old }
    ensures stays { H.stays held.old held.new }
{
    let place = key_place(held, s, key, KeyHash::of::<K, Q>(key));
    has_slots_in_one(held, s, keys, place) || has_slots_in_both(held, s, keys, place)
}

// Whether one of the two buckets of a key has a free slot for each of the keys that may come there.
fn has_slots_in_one<K: TableKey + Drop, V: Drop, Q: Query<K>, H: Held<Stripe<K, V>>>(
    held: &mut H,
    s: u32,
    keys: &[Q],
    place: KeyPlace,
) -> bool
    requires held { AreHeld s (H.stripes held.old) }
    requires owned { (q : Name) → IsIn q (map Q.name keys.now)
        → HasBoth K.hash s (H.stripes held.old) q }
    requires first { IsInReach (H.stripes held.old) place.first.index place.first.bucket }
    requires alternate { IsInReach (H.stripes held.old) place.alternate.index
        place.alternate.bucket }
    ensures slots { (max : ℕ) → Lawful (layout K.hash s max) (contents_of (H.stripes held.old))
        → (IsTrue result ↔ (HasSlots (layout K.hash s max) (contents_of (H.stripes held.old))
        (map Q.name keys.now) (place.first.bucket ∷ [])
        ⊎ HasSlots (layout K.hash s max) (contents_of (H.stripes held.old))
        (map Q.name keys.now) (place.alternate.bucket ∷ []))) }
    ensures same { H.stripes held.new ≡ H.stripes held.old }
    ensures stays { H.stays held.old held.new }
{
    has_slots_in(held, s, keys, &[place.first]) || has_slots_in(held, s, keys, &[place.alternate])
}

// Whether the two buckets of a key are two, and have together a free slot for each of the keys that
// may come there.
fn has_slots_in_both<K: TableKey + Drop, V: Drop, Q: Query<K>, H: Held<Stripe<K, V>>>(
    held: &mut H,
    s: u32,
    keys: &[Q],
    place: KeyPlace,
) -> bool
    requires held { AreHeld s (H.stripes held.old) }
    requires owned { (q : Name) → IsIn q (map Q.name keys.now)
        → HasBoth K.hash s (H.stripes held.old) q }
    requires first { IsInReach (H.stripes held.old) place.first.index place.first.bucket }
    requires alternate { IsInReach (H.stripes held.old) place.alternate.index
        place.alternate.bucket }
    ensures slots { (max : ℕ) → Lawful (layout K.hash s max) (contents_of (H.stripes held.old))
        → (IsTrue result ↔ ((place.first.bucket ≢ place.alternate.bucket)
        × HasSlots (layout K.hash s max) (contents_of (H.stripes held.old)) (map Q.name keys.now)
        (place.first.bucket ∷ place.alternate.bucket ∷ []))) }
    ensures same { H.stripes held.new ≡ H.stripes held.old }
    ensures stays { H.stays held.old held.new }
{
    place.first.bucket != place.alternate.bucket
        && has_slots_in(held, s, keys, &[place.first, place.alternate])
}

// Whether the buckets have a free slot for each of the keys that may come there.
fn has_slots_in<K: TableKey + Drop, V: Drop, Q: Query<K>, H: Held<Stripe<K, V>>>(
    held: &mut H,
    s: u32,
    keys: &[Q],
    at: &[HeldBucket],
) -> bool
    requires held { AreHeld s (H.stripes held.old) }
    requires owned { (q : Name) → IsIn q (map Q.name keys.now)
        → HasBoth K.hash s (H.stripes held.old) q }
    requires reach { AreInReach (H.stripes held.old) at.now }
    requires few { length at.now ≤ 2 }
    ensures slots { (max : ℕ) → Lawful (layout K.hash s max) (contents_of (H.stripes held.old))
        → (IsTrue result ↔ HasSlots (layout K.hash s max) (contents_of (H.stripes held.old))
        (map Q.name keys.now) (numbers_of at.now)) }
    ensures same { H.stripes held.new ≡ H.stripes held.old }
    ensures stays { H.stays held.old held.new }
{
    let free = free_slots(held, at);
    count_coming(held, s, keys, at) <= free
}

// How many slots of the buckets are free.
fn free_slots<K: TableKey + Drop, V: Drop, H: Held<Stripe<K, V>>>(
    held: &mut H,
    at: &[HeldBucket],
) -> usize
    requires reach { AreInReach (H.stripes held.old) at.now }
    requires few { length at.now ≤ 2 }
    ensures count { result + length (pairs_there (H.stripes held.old) at.now) ≡ 4 * length at.now }
    ensures same { H.stripes held.new ≡ H.stripes held.old }
    ensures stays { H.stays held.old held.new }
{
    let mut free = 0;
    for i in 0..at.len() {
        free += free_slots_in(held, at[i]);
    }
    free
}

// How many slots of the bucket are free.
fn free_slots_in<K: TableKey + Drop, V: Drop, H: Held<Stripe<K, V>>>(
    held: &mut H,
    at: HeldBucket,
) -> usize
    requires { IsInReach (H.stripes held.old) at.index at.bucket }
    ensures count { result + length (taken_in (bucket_at (H.stripes held.old) at.index at.bucket))
        ≡ 4 }
    ensures same { H.stripes held.new ≡ H.stripes held.old }
    ensures stays { H.stays held.old held.new }
{
    let partials = one_stripe::sketch(held, at.index, at.bucket);
    let mut free = 0;
    for i in 0..partials.len() {
        if partials[i].is_none() {
            free += 1;
        }
    }
    free
}

// How many of the keys may come to the buckets.
fn count_coming<K: TableKey + Drop, V: Drop, Q: Query<K>, H: Held<Stripe<K, V>>>(
    held: &mut H,
    s: u32,
    keys: &[Q],
    at: &[HeldBucket],
) -> usize
    requires held { AreHeld s (H.stripes held.old) }
    requires owned { (q : Name) → IsIn q (map Q.name keys.now)
        → HasBoth K.hash s (H.stripes held.old) q }
    requires reach { AreInReach (H.stripes held.old) at.now }
    ensures count { (max : ℕ) → Lawful (layout K.hash s max) (contents_of (H.stripes held.old))
        → result ≡ coming (layout K.hash s max) (contents_of (H.stripes held.old))
        (numbers_of at.now) (map Q.name keys.now) }
    ensures same { H.stripes held.new ≡ H.stripes held.old }
    ensures stays { H.stays held.old held.new }
{
    let mut count = 0;
    for i in 0..keys.len() {
        if can_come(held, s, keys[i], at) {
            count += 1;
        }
    }
    count
}

// Whether one of the buckets is one of the key's two and none of them has the key, so that it may
// come there.
fn can_come<K: TableKey + Drop, V: Drop, Q: Query<K>, H: Held<Stripe<K, V>>>(
    held: &mut H,
    s: u32,
    key: Q,
    at: &[HeldBucket],
) -> bool
    requires held { AreHeld s (H.stripes held.old) }
    requires owned { HasBoth K.hash s (H.stripes held.old) (Q.name key) }
    requires reach { AreInReach (H.stripes held.old) at.now }
    ensures may { (max : ℕ) → Lawful (layout K.hash s max) (contents_of (H.stripes held.old))
        → result ≡ may_come (layout K.hash s max) (contents_of (H.stripes held.old))
        (numbers_of at.now) (Q.name key) }
    ensures same { H.stripes held.new ≡ H.stripes held.old }
    ensures stays { H.stays held.old held.new }
{
    let place = key_place(held, s, key, KeyHash::of::<K, Q>(key));
    place.has_one_of(at) && !stands_in(held, at, key, place.partial)
}

// Whether one of the buckets has the key, of this partial.
fn stands_in<K: TableKey + Drop, V: Drop, Q: Query<K>, H: Held<Stripe<K, V>>>(
    held: &mut H,
    at: &[HeldBucket],
    key: Q,
    partial: u8,
) -> bool
    requires reach { AreInReach (H.stripes held.old) at.now }
    requires partial { partial ≡ partial_of (K.hash (Q.name key)) }
    ensures stands { result ≡ list_any (λ (b : HeldBucket). is_some (find name_cmp (Q.name key)
        (taken_in (bucket_at (H.stripes held.old) b.index b.bucket)))) at.now }
    ensures same { H.stripes held.new ≡ H.stripes held.old }
    ensures stays { H.stays held.old held.new }
{
    for i in 0..at.len() {
        let HeldBucket { index, bucket } = at[i];
        if one_stripe::look(held, index, bucket, key, partial).is_some() {
            return true;
        }
    }
    false
}
