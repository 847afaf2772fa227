//! Calls on two keys at once.
ghost use Rattle.std.specs.Prelude.{◌≡◌, ◌≢◌, ◌⊎◌, ◌<◌, None, IfSome, IfNone, IfOk, IfErr, MatchResult};
ghost use Rattle.std.specs.Bool.{OnFalse};
ghost use Rattle.ck_stripe.specs.HeldSlots.{slot_in};
ghost use Rattle.ck_stripe.specs.Stripes.{IsInReach};
ghost use Rattle.ck_section.specs.Acts.{ChangesTwo};
ghost use Rattle.ck_section.specs.Places.{IsPlaceOf, IsSlotOf, AreFull};
ghost use Rattle.ck_section.specs.Calls.{effect, IsWithoutRoom, ChangesContents};
ghost use Rattle.ck_section.specs.TwoNames.{IsChangeOfTwo, FindsBound, RenamesTo, OnUnchanged};

use crate::look::{find_free, find_slot};
use crate::place::KeyPlace;
use ck_key::{Query, TableKey};
use ck_stripe::{Held, HeldSlot, Stripe, one_stripe};

/// What a rename came to.
#[derive(Clone, Copy, Debug, PartialEq, Eq)]
pub enum Renamed {
    /// The value went from the one key, which is unbound now, to the other, which was unbound.
    Done,
    /// The key that was to be renamed is unbound. Nothing changed.
    Unbound,
    /// Both keys are bound. Nothing changed.
    Occupied,
}

/// Binds two different keys to what the closure makes of their two values, in order, and says
/// whether both were bound. Where one was not, nothing changes and the closure is not called.
pub fn update_two<
    K: TableKey + Drop,
    V: Drop,
    Q: Query<K>,
    H: Held<Stripe<K, V>>,
    F: FnOnce(V, V) -> (V, V),
>(held: &mut H, a: Q, place_a: KeyPlace, b: Q, place_b: KeyPlace, f: F) -> bool
where
    F: Drop,
    requires first { IsPlaceOf K.hash (H.stripes held.old) (Q.name a) place_a }
    requires second { IsPlaceOf K.hash (H.stripes held.old) (Q.name b) place_b }
    requires different { Q.name a ≢ Q.name b }
    requires call { F.IsAlwaysCallable f }
    ensures call { ChangesTwo (F.post f)
        (IsChangeOfTwo (effect K.hash H.stripes place_a held.old held.new) (Q.name a) (Q.name b))
        result }
    ensures same { OnFalse result (H.stripes held.new ≡ H.stripes held.old) }
    ensures rest { ChangesContents (H.stripes held.old) (H.stripes held.new) }
    ensures stays { H.stays held.old held.new }
{
    let Some(at_a) = find_slot(held, place_a, a) else {
        return false;
    };
    let Some(at_b) = find_slot(held, place_b, b) else {
        return false;
    };
    let (key_a, value_a) = one_stripe::remove(held, at_a);
    let (key_b, value_b) = one_stripe::remove(held, at_b);
    let (value_a, value_b) = f(value_a, value_b);
    one_stripe::put(held, at_a, place_a.partial, key_a, value_a);
    one_stripe::put(held, at_b, place_b.partial, key_b, value_b);
    true
}

/// Unbinds `from` and binds `to`, a different key that is unbound, to the value that it had. Where
/// `to` has no free slot, nothing changes and the key comes back; the slot that `from` leaves is
/// free for it.
pub fn rename<K: TableKey + Drop, V: Drop, Q: Query<K>, H: Held<Stripe<K, V>>>(
    held: &mut H,
    from: Q,
    from_place: KeyPlace,
    to: K,
    to_place: KeyPlace,
) -> Result<Renamed, K>
    requires first { IsPlaceOf K.hash (H.stripes held.old) (Q.name from) from_place }
    requires second { IsPlaceOf K.hash (H.stripes held.old) (K.name to) to_place }
    requires different { Q.name from ≢ K.name to }
    ensures call { IfOk result
        (RenamesTo (effect K.hash H.stripes to_place held.old held.new) (Q.name from) (K.name to)) }
    ensures full { IfErr result (λ back. (back ≡ to)
        × IsWithoutRoom K.hash to_place.s (H.stripes held.old) (K.name to)) }
    ensures bound { IfErr result (λ _. FindsBound
        (effect K.hash H.stripes to_place held.old held.new) (Q.name from)) }
    ensures same { MatchResult result
        (λ renamed. OnUnchanged renamed (H.stripes held.new ≡ H.stripes held.old))
        (λ _. H.stripes held.new ≡ H.stripes held.old) }
    ensures rest { ChangesContents (H.stripes held.old) (H.stripes held.new) }
    ensures stays { H.stays held.old held.new }
{
    let Some(at) = find_slot(held, from_place, from) else {
        return Ok(Renamed::Unbound);
    };
    if find_slot(held, to_place, &to).is_some() {
        return Ok(Renamed::Occupied);
    }
    let Some(free) = slot_for(held, to_place, &to, at) else {
        return Err(to);
    };
    let (_, value) = one_stripe::remove(held, at);
    one_stripe::put(held, free, to_place.partial, to, value);
    Ok(Renamed::Done)
}

// A free slot for the key; else the slot `at`, which is to be freed, where it is in a bucket of the
// key.
fn slot_for<K: TableKey + Drop, V: Drop, H: Held<Stripe<K, V>>>(
    held: &mut H,
    place: KeyPlace,
    key: &K,
    at: HeldSlot,
) -> Option<HeldSlot>
    requires place { IsPlaceOf K.hash (H.stripes held.old) (K.name key.now) place }
    requires reach { IsInReach (H.stripes held.old) at.index at.bucket }
    requires below { at.slot < 4 }
    ensures slot { IfSome result (IsSlotOf K.hash (H.stripes held.old) (K.name key.now)) }
    ensures free { IfSome result
        (λ found. (slot_in (H.stripes held.old) found ≡ None) ⊎ (found ≡ at)) }
    ensures full { IfNone result (AreFull (H.stripes held.old) place) }
    ensures same { H.stripes held.new ≡ H.stripes held.old }
    ensures stays { H.stays held.old held.new }
{
    if let Some(free) = find_free(held, place, key) {
        return Some(free);
    }
    let (first, alternate) = (place.first, place.alternate);
    if at.index == first.index && at.bucket == first.bucket {
        return Some(at);
    }
    if at.index == alternate.index && at.bucket == alternate.bucket {
        return Some(at);
    }
    None
}
