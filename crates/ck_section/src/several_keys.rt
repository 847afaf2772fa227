//! Calls on several keys at once.
ghost use Rattle.std.specs.Prelude.{◌≡◌, ℕ, Some, IsSome, All, length, map};
ghost use Rattle.std.specs.Bool.{OnTrue, OnFalse};
ghost use Rattle.std.specs.FinMap.{get};
ghost use Rattle.ck_model.specs.Promise.{Name, bound_in};
ghost use Rattle.ck_model.specs.Numbered.{IsIn};
ghost use Rattle.ck_model.specs.Contents.{layout, Lawful, bindings};
ghost use Rattle.ck_stripe.specs.Stripes.{contents_of};
ghost use Rattle.ck_stripe.specs.Tables.{AreHeld};
ghost use Rattle.ck_section.specs.Acts.{Finds};
ghost use Rattle.ck_section.specs.Calls.{effect, IsCall};
ghost use Rattle.ck_section.specs.Places.{HasBoth, IsPlaceOf};

use crate::look::key_place;
use crate::one_key::find;
use crate::place::KeyPlace;
use ck_key::{KeyHash, Query, TableKey};
use ck_stripe::{Held, Stripe};

/// Writes the value of each key, in their order, or `None` where it is unbound. The stripes of the
/// keys are held, of a table of 2^s.
#[inline(always)]
pub fn find_each<K: TableKey + Drop, V: Copy + Drop, Q: Query<K>, H: Held<Stripe<K, V>>>(
    held: &mut H,
    s: u32,
    keys: &[Q],
    values: &mut [Option<V>],
)
    requires held { AreHeld s (H.stripes held.old) }
    requires owned { (q : Name) → IsIn q (map Q.name keys.now)
        → HasBoth K.hash s (H.stripes held.old) q }
    requires as_many { length values.old ≡ length keys.now }
    ensures values { (max : ℕ) → Lawful (layout K.hash s max) (contents_of (H.stripes held.old))
        → values.new
        ≡ bound_in (bindings (contents_of (H.stripes held.old))) (map Q.name keys.now) }
    ensures same { H.stripes held.new ≡ H.stripes held.old }
    ensures stays { H.stays held.old held.new }
{
    for i in 0..keys.len() {
        values[i] = find_one(held, s, keys[i]);
    }
}

/// Writes the value of each key so, and says whether each is bound. Where one is not, it stops.
#[inline(always)]
pub fn find_bound<K: TableKey + Drop, V: Copy + Drop, Q: Query<K>, H: Held<Stripe<K, V>>>(
    held: &mut H,
    s: u32,
    keys: &[Q],
    values: &mut [V],
) -> bool
    requires held { AreHeld s (H.stripes held.old) }
    requires owned { (q : Name) → IsIn q (map Q.name keys.now)
        → HasBoth K.hash s (H.stripes held.old) q }
    requires as_many { length values.old ≡ length keys.now }
    ensures bound { OnTrue result ((max : ℕ)
        → Lawful (layout K.hash s max) (contents_of (H.stripes held.old))
        → bound_in (bindings (contents_of (H.stripes held.old))) (map Q.name keys.now)
        ≡ map Some values.new) }
    ensures unbound { OnFalse result ((max : ℕ)
        → Lawful (layout K.hash s max) (contents_of (H.stripes held.old))
        → ¬ (All IsSome
        (bound_in (bindings (contents_of (H.stripes held.old))) (map Q.name keys.now)))) }
    ensures same { H.stripes held.new ≡ H.stripes held.old }
    ensures stays { H.stays held.old held.new }
{
    for i in 0..keys.len() {
        let Some(value) = find_one(held, s, keys[i]) else {
            return false;
        };
        values[i] = value;
    }
    true
}

// The value of the key.
#[inline(always)]
fn find_one<K: TableKey + Drop, V: Copy + Drop, Q: Query<K>, H: Held<Stripe<K, V>>>(
    held: &mut H,
    s: u32,
    key: Q,
) -> Option<V>
    requires held { AreHeld s (H.stripes held.old) }
    requires owned { HasBoth K.hash s (H.stripes held.old) (Q.name key) }
    ensures value { (max : ℕ) → Lawful (layout K.hash s max) (contents_of (H.stripes held.old))
        → result ≡ get (bindings (contents_of (H.stripes held.old))) (Q.name key) }
    ensures same { H.stripes held.new ≡ H.stripes held.old }
    ensures stays { H.stays held.old held.new }
{
    let place = key_place(held, s, key, KeyHash::of::<K, Q>(key));
    find_copy(held, place, key)
}

// The value of the key, which may be at this place.
#[inline(always)]
fn find_copy<K: TableKey + Drop, V: Copy + Drop, Q: Query<K>, H: Held<Stripe<K, V>>>(
    held: &mut H,
    place: KeyPlace,
    key: Q,
) -> Option<V>
    requires { IsPlaceOf K.hash (H.stripes held.old) (Q.name key) place }
    ensures call { Finds
        (IsCall (effect K.hash H.stripes place held.old held.new) (Q.name key)) result }
    ensures same { H.stripes held.new ≡ H.stripes held.old }
    ensures stays { H.stays held.old held.new }
{
    let (value, _) = find(held, place, key, |value: &V| *value);
    value
}
