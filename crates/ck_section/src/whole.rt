//! All stripes of a table, held as one slice: where a key may be among them, and how they are
//! cleared.
ghost use Rattle.std.specs.Prelude.{◌≡◌, ◌≤◌, ◌<◌, ◌^◌, ℕ, true, Some, IfSome, IfNone};
ghost use Rattle.std.specs.Option.{option_copied};
ghost use Rattle.ck_model.specs.declared.history.Act.TheVariants.{Find};
ghost use Rattle.ck_model.specs.declared.history.Reply.TheVariants.{Was};
ghost use Rattle.ck_model.specs.Arithmetic.{partial_of, second_of};
ghost use Rattle.ck_model.specs.Contents.{layout};
ghost use Rattle.ck_model.specs.Slots.{slot_at};
ghost use Rattle.ck_bucket.specs.Bucket.{LacksName};
ghost use Rattle.ck_stripe.specs.Stripe.{HasBucket, bucket_of};
ghost use Rattle.ck_section.specs.Calls.{effect, IsCall, ChangesContents};
ghost use Rattle.ck_section.specs.Places.{IsPlaceOf};
ghost use Rattle.ck_stripe.specs.Tables.{IsTable, AreSettled, AreAllHeld};
ghost use Rattle.ck_section.specs.Clearing.{ClearsBindings};

use crate::place::{HeldBucket, KeyPlace};
use ck_key::{Query, TableKey};
use ck_stripe::Stripe;

/// Where the key may be among all stripes of a table of 2^s.
pub fn key_place_in_all<K: TableKey + Drop, V: Drop, Q: Query<K>>(
    stripes: &[Stripe<K, V>],
    s: u32,
    key: Q,
) -> KeyPlace
    requires { AreAllHeld s stripes.now }
    ensures place { IsPlaceOf K.hash stripes.now (Q.name key) result }
    ensures s { result.s ≡ s }
{
    let hash = key.hash64();
    let partial = ck_key::partial(hash);
    let first = ck_key::index(s, hash) as usize;
    let alternate = second(s, partial, hash) as usize;
    KeyPlace {
        s,
        partial,
        first: HeldBucket {
            index: first,
            bucket: ck_key::index(stripes[first].power(), hash),
        },
        alternate: HeldBucket {
            index: alternate,
            bucket: second(stripes[alternate].power(), partial, hash),
        },
    }
}

/// The value of the key, which may be at this place among the stripes.
pub fn find_in_all<'s, K: TableKey + Drop, V: Drop, Q: Query<K>>(
    stripes: &'s [Stripe<K, V>],
    place: KeyPlace,
    key: Q,
) -> Option<&'s V>
    requires { IsPlaceOf K.hash stripes.now (Q.name key) place }
    ensures { IsCall (effect K.hash (λ stripes. stripes) place stripes.now stripes.now)
        (Q.name key) Find (Was (option_copied result)) }
{
    let (first, alternate, partial) = (place.first, place.alternate, place.partial);
    if let Some(value) = value_in(&stripes[first.index], first.bucket, key, partial) {
        return Some(value);
    }
    if alternate.bucket == first.bucket {
        return None;
    }
    value_in(&stripes[alternate.index], alternate.bucket, key, partial)
}

/// Drops all entries of all stripes of a table.
pub fn clear_all<K: TableKey + Drop, V: Drop>(stripes: &mut [Stripe<K, V>])
    requires settled { AreSettled stripes.old }
    ensures held { (s : ℕ) → IsTable s stripes.old → AreAllHeld s stripes.new }
    ensures cleared { (s max : ℕ) → IsTable s stripes.old
        → ClearsBindings (layout K.hash s max) stripes.old stripes.new }
    ensures changes { ChangesContents stripes.old stripes.new }
{
    for i in 0..stripes.len() {
        stripes[i].clear();
    }
}

// The value of the key in bucket `b` of the stripe.
fn value_in<'s, K: TableKey + Drop, V: Drop, Q: Query<K>>(
    stripe: &'s Stripe<K, V>,
    b: u64,
    key: Q,
    partial: u8,
) -> Option<&'s V>
    requires settled { stripe.now.settled ≡ true }
    requires own { HasBucket stripe.now b }
    requires partial { partial ≡ partial_of (K.hash (Q.name key)) }
    ensures found { IfSome result (λ value. (slot : ℕ) × (slot < 4)
        × (slot_at (bucket_of stripe.now b) slot ≡ Some (Q.name key, value.now))) }
    ensures absent { IfNone result (LacksName (bucket_of stripe.now b) (Q.name key)) }
{
    let slot = stripe.look(b, key, partial)?;
    Some(&stripe.pair(b, slot).1)
}

// The alternate bucket of the hash, whose partial this is, among 2^power.
#[tactic(auto, unfolding(ck_model::specs::Arithmetic::second_of))]
fn second(power: u32, partial: u8, hash: u64) -> u64
    requires power { power ≤ 26 }
    requires partial { partial ≡ partial_of hash }
    ensures value { result ≡ second_of power hash }
    ensures below { result < 2 ^ power }
{
    ck_key::alternate(power, partial, ck_key::index(power, hash))
}
