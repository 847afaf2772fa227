//! Calls on one key, whose two buckets are held, but those that may bind it. Each looks into a bucket
//! once, and compares keys of one partial alone.
ghost use Rattle.std.specs.Prelude.{◌≡◌, false, Some, None, Ok, Err, IfSome, IfNone, OnSome, IfOk, IfErr, OnErr, MatchBool, MatchResult, if◌then◌else◌};
ghost use Rattle.std.specs.Bool.{OnFalse};
ghost use Rattle.std.specs.Fn.{FnOnceReturnsAt};
ghost use Rattle.ck_model.specs.declared.history.Act.{Act};
ghost use Rattle.ck_model.specs.declared.history.Reply.{Reply};
ghost use Rattle.ck_model.specs.declared.history.Act.TheVariants.{Find, Change, Erase};
ghost use Rattle.ck_model.specs.declared.history.Reply.TheVariants.{Was, Done, Absent};
ghost use Rattle.ck_model.specs.Promise.{Answers};
ghost use Rattle.ck_section.specs.Places.{IsPlaceOf};
ghost use Rattle.ck_section.specs.Entries.{IsOccupied, IsVacant};
ghost use Rattle.ck_section.specs.Calls.{effect, IsCall, IsWithRoom, KeepsFree, ChangesContents};
ghost use Rattle.ck_section.specs.Acts.{Updates, Erases, Changes};
ghost use Rattle.ck_section.specs.RoomForAll.{KeepsOthers};

use crate::look::find_slot;
use crate::place::KeyPlace;
use ck_key::{Query, TableKey};
use ck_stripe::{Held, HeldSlot, Stripe, one_stripe};

/// What the closure answers for the value of the key. Where the key is unbound, the closure is not
/// called and comes back.
#[inline(always)]
pub fn find<K: TableKey + Drop, V: Drop, Q: Query<K>, H: Held<Stripe<K, V>>, R, F: FnOnce(&V) -> R>(
    held: &mut H,
    place: KeyPlace,
    key: Q,
    f: F,
) -> (Option<R>, Option<F>)
    requires place { IsPlaceOf K.hash (H.stripes held.old) (Q.name key) place }
    requires call { F.IsAlwaysCallable f }
    ensures bound { IfSome result.0 (λ r. (v : V) × FnOnceReturnsAt F.FnOnce f v r
        × IsCall (effect K.hash H.stripes place held.old held.new) (Q.name key)
        Find (Was (Some v))) }
    ensures unbound { IfNone result.0 ((result.1 ≡ Some f)
        × IsCall (effect K.hash H.stripes place held.old held.new) (Q.name key)
        Find (Was None)) }
    ensures same { H.stripes held.new ≡ H.stripes held.old }
    ensures stays { H.stays held.old held.new }
{
    // A pair, since a `Result` would cost the look-up of a number some instructions.
    let at = match find_slot(held, place, key) {
        Some(at) => at,
        None => return (None, Some(f)),
    };
    (Some(one_stripe::read(held, at, f)), None)
}

/// Binds a bound key to another value, and gives the one that it had; `None` where the key is
/// unbound, and then it stays so and the value is dropped.
pub fn update<K: TableKey + Drop, V: Drop, Q: Query<K>, H: Held<Stripe<K, V>>>(
    held: &mut H,
    place: KeyPlace,
    key: Q,
    value: V,
) -> Option<V>
    requires { IsPlaceOf K.hash (H.stripes held.old) (Q.name key) place }
    ensures call { Updates value
        (IsCall (effect K.hash H.stripes place held.old held.new) (Q.name key)) result }
    ensures same { IfNone result (H.stripes held.new ≡ H.stripes held.old) }
    ensures rest { ChangesContents (H.stripes held.old) (H.stripes held.new) }
    ensures others { KeepsOthers (Q.name key) (H.stripes held.old) (H.stripes held.new) }
    ensures free { KeepsFree (H.stripes held.old) (H.stripes held.new) }
    ensures stays { H.stays held.old held.new }
{
    let at = find_slot(held, place, key)?;
    Some(one_stripe::replace(held, at, value))
}

/// Unbinds the key, and gives the value that it had, whose slot is free then; `None` where it is
/// unbound.
pub fn erase<K: TableKey + Drop, V: Drop, Q: Query<K>, H: Held<Stripe<K, V>>>(
    held: &mut H,
    place: KeyPlace,
    key: Q,
) -> Option<V>
    requires { IsPlaceOf K.hash (H.stripes held.old) (Q.name key) place }
    ensures call { Erases
        (IsCall (effect K.hash H.stripes place held.old held.new) (Q.name key)) result }
    ensures same { IfNone result (H.stripes held.new ≡ H.stripes held.old) }
    ensures rest { ChangesContents (H.stripes held.old) (H.stripes held.new) }
    ensures others { KeepsOthers (Q.name key) (H.stripes held.old) (H.stripes held.new) }
    ensures free { KeepsFree (H.stripes held.old) (H.stripes held.new) }
    ensures room { OnSome result (IsWithRoom K.hash place.s (H.stripes held.new) (Q.name key)) }
    ensures stays { H.stays held.old held.new }
{
    let at = find_slot(held, place, key)?;
    let (_, value) = one_stripe::remove(held, at);
    Some(value)
}

/// Unbinds a bound key where the closure answers true for its value, and gives what the closure
/// answers. Where the key is unbound, the closure is not called and comes back.
pub fn erase_fn<
    K: TableKey + Drop,
    V: Drop,
    Q: Query<K>,
    H: Held<Stripe<K, V>>,
    F: FnOnce(&V) -> bool,
>(held: &mut H, place: KeyPlace, key: Q, f: F) -> Result<bool, F>
    requires place { IsPlaceOf K.hash (H.stripes held.old) (Q.name key) place }
    requires call { F.IsAlwaysCallable f }
    ensures bound { IfOk result (λ gone. (v : V) × FnOnceReturnsAt F.FnOnce f v gone
        × IsCall (effect K.hash H.stripes place held.old held.new) (Q.name key)
        (if gone then Erase else Find) (Was (Some v))) }
    ensures same { IfOk result
        (λ gone. OnFalse gone (H.stripes held.new ≡ H.stripes held.old)) }
    ensures unbound { IfErr result (λ back. (back ≡ f)
        × IsCall (effect K.hash H.stripes place held.old held.new) (Q.name key)
        Find (Was None) × (H.stripes held.new ≡ H.stripes held.old)) }
    ensures rest { ChangesContents (H.stripes held.old) (H.stripes held.new) }
    ensures stays { H.stays held.old held.new }
{
    let Some(at) = find_slot(held, place, key) else {
        return Err(f);
    };
    if !one_stripe::read(held, at, f) {
        return Ok(false);
    }
    one_stripe::remove(held, at);
    Ok(true)
}

/// Binds a bound key to what the closure makes of its value, and says whether it was bound. Where
/// it was not, the closure is not called.
pub fn update_fn<
    K: TableKey + Drop,
    V: Drop,
    Q: Query<K>,
    H: Held<Stripe<K, V>>,
    F: FnOnce(V) -> V,
>(held: &mut H, place: KeyPlace, key: Q, f: F) -> bool
where
    F: Drop,
    requires place { IsPlaceOf K.hash (H.stripes held.old) (Q.name key) place }
    requires call { F.IsAlwaysCallable f }
    ensures call { Changes (F.post f)
        (IsCall (effect K.hash H.stripes place held.old held.new) (Q.name key)) result }
    ensures same { OnFalse result (H.stripes held.new ≡ H.stripes held.old) }
    ensures rest { ChangesContents (H.stripes held.old) (H.stripes held.new) }
    ensures others { KeepsOthers (Q.name key) (H.stripes held.old) (H.stripes held.new) }
    ensures free { KeepsFree (H.stripes held.old) (H.stripes held.new) }
    ensures stays { H.stays held.old held.new }
{
    let Some(at) = find_slot(held, place, key) else {
        return false;
    };
    one_stripe::change(held, at, f);
    true
}

/// Binds a bound key to what the closure makes of its value, where it makes one, and says whether
/// it did. Where the key is unbound, the closure is not called and comes back.
pub fn replace_if<
    K: TableKey + Drop,
    V: Drop,
    Q: Query<K>,
    H: Held<Stripe<K, V>>,
    F: FnOnce(&V) -> Option<V>,
>(held: &mut H, place: KeyPlace, key: Q, f: F) -> Result<bool, F>
    requires place { IsPlaceOf K.hash (H.stripes held.old) (Q.name key) place }
    requires call { F.IsAlwaysCallable f }
    ensures bound { IfOk result (λ replaced. (v : V) × MatchBool replaced
        ((w : V) × FnOnceReturnsAt F.FnOnce f v (Some w)
        × IsCall (effect K.hash H.stripes place held.old held.new) (Q.name key)
        Change (Done v w))
        (FnOnceReturnsAt F.FnOnce f v None
        × IsCall (effect K.hash H.stripes place held.old held.new) (Q.name key)
        Find (Was (Some v)))) }
    ensures unbound { IfErr result (λ back. (back ≡ f)
        × IsCall (effect K.hash H.stripes place held.old held.new) (Q.name key)
        Find (Was None)) }
    ensures same { MatchResult result
        (λ replaced. OnFalse replaced (H.stripes held.new ≡ H.stripes held.old))
        (λ _. H.stripes held.new ≡ H.stripes held.old) }
    ensures rest { ChangesContents (H.stripes held.old) (H.stripes held.new) }
    ensures free { KeepsFree (H.stripes held.old) (H.stripes held.new) }
    ensures stays { H.stays held.old held.new }
{
    let at = match find_slot(held, place, key) {
        Some(at) => at,
        None => return Err(f),
    };
    match one_stripe::read(held, at, f) {
        Some(value) => {
            one_stripe::replace(held, at, value);
            Ok(true)
        }
        None => Ok(false),
    }
}

/// Binds a bound key to the value that the closure makes of its value, and gives what the closure
/// answers. Where the key is unbound, the closure is not called and comes back.
pub fn modify<
    K: TableKey + Drop,
    V: Drop,
    Q: Query<K>,
    H: Held<Stripe<K, V>>,
    R,
    F: FnOnce(V) -> (V, R),
>(held: &mut H, place: KeyPlace, key: Q, f: F) -> Result<R, F>
    requires place { IsPlaceOf K.hash (H.stripes held.old) (Q.name key) place }
    requires call { F.IsAlwaysCallable f }
    ensures bound { IfOk result (λ answer. (v w : V) × F.post f v (w, answer)
        × IsCall (effect K.hash H.stripes place held.old held.new) (Q.name key)
        Change (Done v w)) }
    ensures unbound { IfErr result (λ back. (back ≡ f)
        × IsCall (effect K.hash H.stripes place held.old held.new) (Q.name key)
        Change Absent) }
    ensures same { OnErr result (H.stripes held.new ≡ H.stripes held.old) }
    ensures rest { ChangesContents (H.stripes held.old) (H.stripes held.new) }
    ensures others { KeepsOthers (Q.name key) (H.stripes held.old) (H.stripes held.new) }
    ensures free { KeepsFree (H.stripes held.old) (H.stripes held.new) }
    ensures stays { H.stays held.old held.new }
{
    let at = match find_slot(held, place, key) {
        Some(at) => at,
        None => return Err(f),
    };
    Ok(modify_entry(held, place, at, key, f))
}

// Puts an unbound key into the slot of its entry.
pub(crate) fn fill<K: TableKey + Drop, V: Drop, H: Held<Stripe<K, V>>>(
    held: &mut H,
    place: KeyPlace,
    at: HeldSlot,
    key: K,
    value: V,
)
    requires place { IsPlaceOf K.hash (H.stripes held.old) (K.name key) place }
    requires vacant { IsVacant K.hash (H.stripes held.old) (K.name key) place at }
    ensures call { (act : Act V) (reply : Reply V) → Answers act None reply (Some value)
        → IsCall (effect K.hash H.stripes place held.old held.new) (K.name key) act reply }
    ensures rest { ChangesContents (H.stripes held.old) (H.stripes held.new) }
    ensures others { KeepsOthers (K.name key) (H.stripes held.old) (H.stripes held.new) }
    ensures stays { H.stays held.old held.new }
{
    let partial = place.partial;
    one_stripe::put(held, at, partial, key, value);
}

// Takes the value of a bound key out of its slot, puts back what the closure makes of it, and gives
// what the closure answers.
#[inline(always)]
pub(crate) fn modify_entry<
    K: TableKey + Drop,
    V: Drop,
    Q: Query<K>,
    H: Held<Stripe<K, V>>,
    R,
    F: FnOnce(V) -> (V, R),
>(held: &mut H, place: KeyPlace, at: HeldSlot, _key: Q, f: F) -> R
    requires place { IsPlaceOf K.hash (H.stripes held.old) (Q.name _key) place }
    requires occupied { IsOccupied K.hash (H.stripes held.old) (Q.name _key) at }
    requires call { F.IsAlwaysCallable f }
    ensures bound { (v w : V) × F.post f v (w, result)
        × ((act : Act V) (reply : Reply V) → Answers act (Some v) reply (Some w)
        → IsCall (effect K.hash H.stripes place held.old held.new) (Q.name _key) act reply) }
    ensures rest { ChangesContents (H.stripes held.old) (H.stripes held.new) }
    ensures others { KeepsOthers (Q.name _key) (H.stripes held.old) (H.stripes held.new) }
    ensures free { KeepsFree (H.stripes held.old) (H.stripes held.new) }
    ensures stays { H.stays held.old held.new }
{
    let (own, old) = one_stripe::remove(held, at);
    let (value, answer) = f(old);
    one_stripe::put(held, at, place.partial, own, value);
    answer
}

// The same with a closure that may fail: it puts back the value that the closure gives back, and
// gives its error.
#[inline(always)]
pub(crate) fn try_modify_entry<
    K: TableKey + Drop,
    V: Drop,
    Q: Query<K>,
    H: Held<Stripe<K, V>>,
    E,
    F: FnOnce(V) -> Result<V, (V, E)>,
>(held: &mut H, place: KeyPlace, at: HeldSlot, key: Q, f: F) -> Result<(), E>
    requires place { IsPlaceOf K.hash (H.stripes held.old) (Q.name key) place }
    requires occupied { IsOccupied K.hash (H.stripes held.old) (Q.name key) at }
    requires call { F.IsAlwaysCallable f }
    ensures bound { (v w : V)
        × MatchResult result (λ _. F.post f v (Ok w)) (λ e. F.post f v (Err (w, e)))
        × ((act : Act V) (reply : Reply V) → Answers act (Some v) reply (Some w)
        → IsCall (effect K.hash H.stripes place held.old held.new) (Q.name key) act reply) }
    ensures rest { ChangesContents (H.stripes held.old) (H.stripes held.new) }
    ensures others { KeepsOthers (Q.name key) (H.stripes held.old) (H.stripes held.new) }
    ensures stays { H.stays held.old held.new }
{
    let change = |value: V| value_and_outcome(f(value));
    modify_entry(held, place, at, key, change)
}

/// The value that a closure gave back, whether it succeeded or failed, and the error of a failure.
#[inline(always)]
pub fn value_and_outcome<V, E>(ended: Result<V, (V, E)>) -> (V, Result<(), E>)
    ensures { MatchResult result.1 (λ _. ended ≡ Ok result.0) (λ e. ended ≡ Err (result.0, e)) }
{
    match ended {
        Ok(value) => (value, Ok(())),
        Err((value, error)) => (value, Err(error)),
    }
}

// What the closure answers for the value of a bound key, which has this slot.
#[inline(always)]
pub(crate) fn read_entry<K: TableKey + Drop, V: Drop, H: Held<Stripe<K, V>>, R, F: FnOnce(&V) -> R>(
    held: &mut H,
    _place: KeyPlace,
    at: HeldSlot,
    _key: &K,
    f: F,
) -> R
    requires place { IsPlaceOf K.hash (H.stripes held.old) (K.name _key.now) _place }
    requires occupied { IsOccupied K.hash (H.stripes held.old) (K.name _key.now) at }
    requires call { F.IsAlwaysCallable f }
    ensures bound { (v : V) × FnOnceReturnsAt F.FnOnce f v result
        × IsCall (effect K.hash H.stripes _place held.old held.new) (K.name _key.now)
        Find (Was (Some v)) }
    ensures same { H.stripes held.new ≡ H.stripes held.old }
    ensures stays { H.stays held.old held.new }
{
    one_stripe::read(held, at, f)
}
