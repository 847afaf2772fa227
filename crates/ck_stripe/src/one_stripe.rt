//! Calls on one of the stripes that a call holds.
ghost use Rattle.std.specs.Prelude.{◌≡◌, ◌<◌, ◌+◌, ◌-◌, true, Some, None, IsSome, IfSome, IfNone, OnOk, OnErr, length, map, slice_set};
ghost use Rattle.std.specs.Bool.{OnTrue};
ghost use Rattle.std.specs.Fn.{FnOnceReturnsAt};
ghost use Rattle.ck_model.specs.Arithmetic.{partial_of};
ghost use Rattle.ck_model.specs.Slots.{slot_at, IsFull};
ghost use Rattle.ck_model.specs.Paths.{partial_in};
ghost use Rattle.ck_bucket.specs.Bucket.{HasName, LacksName};
ghost use Rattle.ck_stripe.specs.Doubling.{SendsEach};
ghost use Rattle.ck_stripe.specs.Stripe.{HasBucket, bucket_of, IsWellFormed, IsReserved, shrunk, reserved};
ghost use Rattle.ck_stripe.specs.Stripes.{stripe_at, bucket_at, len_at, doubled, IsInReach};
ghost use Rattle.ck_stripe.specs.Reading.{ReadsSlot};
ghost use Rattle.ck_stripe.specs.Tables.{HasStripe};
ghost use Rattle.ck_stripe.specs.HeldSlots.{at, slot_in, set_slot, IsLowest};

use crate::emptied::Emptied;
use crate::grower::Grower;
use crate::held::Held;
use crate::held_slot::HeldSlot;
use crate::stripe::Stripe;
use ck_key::{Query, TableKey};
use std::alloc::AllocError;

/// The position of the stripe of this number.
pub fn position<K: TableKey + Drop, V: Drop, H: Held<Stripe<K, V>>>(
    held: &mut H,
    wanted: u32,
) -> usize
    requires { HasStripe (H.stripes held.old) wanted }
    ensures inside { result < length (H.stripes held.old) }
    ensures number { (stripe_at (H.stripes held.old) result).number ≡ wanted }
    ensures same { H.stripes held.new ≡ H.stripes held.old }
    ensures stays { H.stays held.old held.new }
{
    // One or two are held for one key. Which of two it is is a matter of chance, so no branch asks
    // for it.
    if held.count() <= 2 {
        return (held.number(0) != wanted) as usize;
    }
    let mut found = 0;
    for i in 0..held.count() {
        if held.number(i) == wanted {
            found = i;
        }
    }
    found
}

/// The power of stripe `i`.
#[inline(always)]
pub fn power<K: TableKey + Drop, V: Drop, H: Held<Stripe<K, V>>>(held: &mut H, i: usize) -> u32
    requires { i < length (H.stripes held.old) }
    ensures value { result ≡ (stripe_at (H.stripes held.old) i).content.power }
    ensures same { H.stripes held.new ≡ H.stripes held.old }
    ensures stays { H.stays held.old held.new }
{
    held.visit(i, |stripe: &mut Stripe<K, V>| stripe.power())
}

/// Whether no doubling is left of stripe `i`.
#[inline(always)]
pub fn is_settled<K: TableKey + Drop, V: Drop, H: Held<Stripe<K, V>>>(
    held: &mut H,
    i: usize,
) -> bool
    requires { i < length (H.stripes held.old) }
    ensures value { result ≡ (stripe_at (H.stripes held.old) i).settled }
    ensures same { H.stripes held.new ≡ H.stripes held.old }
    ensures stays { H.stays held.old held.new }
{
    held.visit(i, |stripe: &mut Stripe<K, V>| stripe.settled())
}

/// Whether nothing is left of a doubling of stripe `i`.
#[inline(always)]
pub fn is_clear<K: TableKey + Drop, V: Drop, H: Held<Stripe<K, V>>>(held: &mut H, i: usize) -> bool
    requires { i < length (H.stripes held.old) }
    ensures settled { OnTrue result ((stripe_at (H.stripes held.old) i).settled ≡ true) }
    ensures same { H.stripes held.new ≡ H.stripes held.old }
    ensures stays { H.stays held.old held.new }
{
    held.visit(i, |stripe: &mut Stripe<K, V>| stripe.is_clear())
}

/// Takes out the rows of stripe `i` that a doubling has emptied, if it has such.
pub fn take_emptied<K: TableKey + Drop, V: Drop, H: Held<Stripe<K, V>>>(
    held: &mut H,
    i: usize,
) -> Option<Emptied<K, V>>
    requires { i < length (H.stripes held.old) }
    ensures same { H.stripes held.new ≡ H.stripes held.old }
    ensures stays { H.stays held.old held.new }
{
    held.visit(i, |stripe: &mut Stripe<K, V>| stripe.take_emptied())
}

/// The number of entries of stripe `i`.
pub fn len<K: TableKey + Drop, V: Drop, H: Held<Stripe<K, V>>>(held: &mut H, i: usize) -> u64
    requires { i < length (H.stripes held.old) }
    ensures value { result ≡ len_at (H.stripes held.old) i }
    ensures formed { IsWellFormed (stripe_at (H.stripes held.old) i) }
    ensures same { H.stripes held.new ≡ H.stripes held.old }
    ensures stays { H.stays held.old held.new }
{
    held.visit(i, |stripe: &mut Stripe<K, V>| stripe.len())
}

/// The slot of the key in bucket `b` of stripe `i`. `partial` is that of the key.
#[inline(always)]
pub fn look<K: TableKey + Drop, V: Drop, Q: Query<K>, H: Held<Stripe<K, V>>>(
    held: &mut H,
    i: usize,
    b: u64,
    key: Q,
    partial: u8,
) -> Option<usize>
    requires reach { IsInReach (H.stripes held.old) i b }
    requires partial { partial ≡ partial_of (K.hash (Q.name key)) }
    ensures below { IfSome result (λ slot. slot < 4) }
    ensures found { IfSome result
        (HasName (bucket_at (H.stripes held.old) i b) (Q.name key)) }
    ensures absent { IfNone result
        (LacksName (bucket_at (H.stripes held.old) i b) (Q.name key)) }
    ensures same { H.stripes held.new ≡ H.stripes held.old }
    ensures stays { H.stays held.old held.new }
{
    held.visit_bucket(
        i,
        b,
        |stripe: &mut Stripe<K, V>| look_in(stripe, b, key, partial),
    )
}

/// The lowest free slot of bucket `b` of stripe `i`.
#[inline(always)]
pub fn free<K: TableKey + Drop, V: Drop, H: Held<Stripe<K, V>>>(
    held: &mut H,
    i: usize,
    b: u64,
) -> Option<usize>
    requires reach { IsInReach (H.stripes held.old) i b }
    ensures below { IfSome result (λ slot. slot < 4) }
    ensures found { IfSome result (λ slot. slot_in (H.stripes held.old) (at i b slot) ≡ None) }
    ensures lowest { IfSome result (λ slot. IsLowest (H.stripes held.old) (at i b slot)) }
    ensures full { IfNone result (IsFull (bucket_at (H.stripes held.old) i b)) }
    ensures same { H.stripes held.new ≡ H.stripes held.old }
    ensures stays { H.stays held.old held.new }
{
    held.visit_bucket(i, b, |stripe: &mut Stripe<K, V>| stripe.free(b))
}

/// The partials in bucket `b` of stripe `i`.
pub fn sketch<K: TableKey + Drop, V: Drop, H: Held<Stripe<K, V>>>(
    held: &mut H,
    i: usize,
    b: u64,
) -> [Option<u8>; 4]
    requires reach { IsInReach (H.stripes held.old) i b }
    ensures value { result ≡ map (partial_in K.hash) (bucket_at (H.stripes held.old) i b) }
    ensures four { length (bucket_at (H.stripes held.old) i b) ≡ 4 }
    ensures same { H.stripes held.new ≡ H.stripes held.old }
    ensures stays { H.stays held.old held.new }
{
    held.visit_bucket(
        i,
        b,
        |stripe: &mut Stripe<K, V>| -> [Option<u8>; 4]
            requires settled { stripe.old.settled ≡ true }
            requires own { HasBucket stripe.old b }
            ensures value { result ≡ map (partial_in K.hash) (bucket_of stripe.old b) }
            ensures same { stripe.new ≡ stripe.old }
        { stripe.sketch(b) },
    )
}

/// Calls the closure on the value in a slot.
#[inline(always)]
pub fn read<K: TableKey + Drop, V: Drop, H: Held<Stripe<K, V>>, R, F: FnOnce(&V) -> R>(
    held: &mut H,
    at: HeldSlot,
    f: F,
) -> R
    requires reach { IsInReach (H.stripes held.old) at.index at.bucket }
    requires below { at.slot < 4 }
    requires full { IsSome (slot_in (H.stripes held.old) at) }
    requires call { F.IsAlwaysCallable f }
    ensures read { (n : _) (v : V) → slot_in (H.stripes held.old) at ≡ Some (n, v)
        → FnOnceReturnsAt F.FnOnce f v result }
    ensures same { H.stripes held.new ≡ H.stripes held.old }
    ensures stays { H.stays held.old held.new }
{
    held.visit_bucket(
        at.index,
        at.bucket,
        |stripe: &mut Stripe<K, V>| read_in(stripe, at.bucket, at.slot, f),
    )
}

/// Puts a key and its value into a free slot. `partial` is that of the key.
#[inline(always)]
pub fn put<K: TableKey + Drop, V: Drop, H: Held<Stripe<K, V>>>(
    held: &mut H,
    at: HeldSlot,
    partial: u8,
    key: K,
    value: V,
)
    requires reach { IsInReach (H.stripes held.old) at.index at.bucket }
    requires below { at.slot < 4 }
    requires free { slot_in (H.stripes held.old) at ≡ None }
    requires partial { partial ≡ partial_of (K.hash (K.name key)) }
    ensures content { H.stripes held.new ≡ set_slot (H.stripes held.old) at
        (Some (K.name key, value)) (len_at (H.stripes held.old) at.index + 1) }
    ensures stays { H.stays held.old held.new }
{
    held.visit_bucket(
        at.index,
        at.bucket,
        |stripe: &mut Stripe<K, V>| stripe.put(at.bucket, at.slot, partial, key, value),
    );
}

/// Frees a slot, and gives what was in it.
#[inline(always)]
pub fn remove<K: TableKey + Drop, V: Drop, H: Held<Stripe<K, V>>>(
    held: &mut H,
    at: HeldSlot,
) -> (K, V)
    requires reach { IsInReach (H.stripes held.old) at.index at.bucket }
    requires below { at.slot < 4 }
    requires full { IsSome (slot_in (H.stripes held.old) at) }
    ensures entry { slot_in (H.stripes held.old) at
        ≡ Some (K.name result.0, result.1) }
    ensures content { H.stripes held.new ≡ set_slot (H.stripes held.old) at
        None (len_at (H.stripes held.old) at.index - 1) }
    ensures stays { H.stays held.old held.new }
{
    held.visit_bucket(
        at.index,
        at.bucket,
        |stripe: &mut Stripe<K, V>| stripe.remove(at.bucket, at.slot),
    )
}

/// Puts another value beside the key in a slot, and gives the old one.
#[inline(always)]
pub fn replace<K: TableKey + Drop, V: Drop, H: Held<Stripe<K, V>>>(
    held: &mut H,
    at: HeldSlot,
    value: V,
) -> V
    requires reach { IsInReach (H.stripes held.old) at.index at.bucket }
    requires below { at.slot < 4 }
    requires full { IsSome (slot_in (H.stripes held.old) at) }
    ensures content { (n : _) (v : V) → slot_in (H.stripes held.old) at ≡ Some (n, v)
        → (result ≡ v) × (H.stripes held.new ≡ set_slot (H.stripes held.old) at
        (Some (n, value)) (len_at (H.stripes held.old) at.index)) }
    ensures stays { H.stays held.old held.new }
{
    held.visit_bucket(
        at.index,
        at.bucket,
        |stripe: &mut Stripe<K, V>| stripe.replace(at.bucket, at.slot, value),
    )
}

/// Makes of the value in a slot what the closure makes of it, in its place.
#[inline(always)]
pub fn change<K: TableKey + Drop, V: Drop, H: Held<Stripe<K, V>>, F: FnOnce(V) -> V>(
    held: &mut H,
    at: HeldSlot,
    f: F,
)
    requires reach { IsInReach (H.stripes held.old) at.index at.bucket }
    requires below { at.slot < 4 }
    requires full { IsSome (slot_in (H.stripes held.old) at) }
    requires call { F.IsAlwaysCallable f }
    ensures content { (n : _) (v : V) → slot_in (H.stripes held.old) at ≡ Some (n, v)
        → (w : V) × F.post f v w × (H.stripes held.new ≡ set_slot (H.stripes held.old) at
        (Some (n, w)) (len_at (H.stripes held.old) at.index)) }
    ensures stays { H.stays held.old held.new }
{
    held.visit_bucket(
        at.index,
        at.bucket,
        |stripe: &mut Stripe<K, V>| stripe.change(at.bucket, at.slot, f),
    );
}

/// Carries out a doubling of stripe `i`; a settled one stays as it is.
pub fn settle<K: TableKey + Drop, V: Drop, H: Held<Stripe<K, V>>>(held: &mut H, i: usize)
    requires { i < length (H.stripes held.old) }
    ensures settled { H.stripes held.new ≡ slice_set (H.stripes held.old) i
        (record (stripe_at (H.stripes held.old) i) { settled = true }) }
    ensures stays { H.stays held.old held.new }
{
    held.visit(i, |stripe: &mut Stripe<K, V>| stripe.settle());
}

/// Takes the memory for a doubling of stripe `i`, from what the grower has if there is some for it,
/// else by one request at most. A refused request leaves all as it was.
pub fn reserve_double<K: TableKey + Drop, V: Drop, H: Held<Stripe<K, V>>>(
    held: &mut H,
    i: usize,
    grower: &mut Grower<K, V>,
) -> Result<(), AllocError>
    requires inside { i < length (H.stripes held.old) }
    requires settled { (stripe_at (H.stripes held.old) i).settled ≡ true }
    ensures ok { OnOk result (H.stripes held.new ≡ slice_set (H.stripes held.old) i
        (reserved (stripe_at (H.stripes held.old) i))) }
    ensures kept { OnErr result (H.stripes held.new ≡ H.stripes held.old) }
    ensures stays { H.stays held.old held.new }
{
    held.visit(i, |stripe: &mut Stripe<K, V>| stripe.reserve_double(grower))
}

/// Gives back the memory that stripe `i` reserved for a doubling.
pub fn shrink_to_fit<K: TableKey + Drop, V: Drop, H: Held<Stripe<K, V>>>(held: &mut H, i: usize)
    requires inside { i < length (H.stripes held.old) }
    requires settled { (stripe_at (H.stripes held.old) i).settled ≡ true }
    ensures shrunk { H.stripes held.new ≡ slice_set (H.stripes held.old) i
        (shrunk (stripe_at (H.stripes held.old) i)) }
    ensures stays { H.stays held.old held.new }
{
    held.visit(i, |stripe: &mut Stripe<K, V>| stripe.shrink_to_fit());
}

/// Raises the power of stripe `i` by one, and leaves it to be settled.
pub fn double<K: TableKey + Drop, V: Drop, H: Held<Stripe<K, V>>>(held: &mut H, i: usize)
    requires inside { i < length (H.stripes held.old) }
    requires settled { (stripe_at (H.stripes held.old) i).settled ≡ true }
    requires reserved { IsReserved (stripe_at (H.stripes held.old) i) }
    requires power { (stripe_at (H.stripes held.old) i).content.power < 26 }
    ensures doubled { H.stripes held.new ≡ slice_set (H.stripes held.old) i
        (doubled K.hash (stripe_at (H.stripes held.old) i)) }
    ensures sends { SendsEach K.hash (stripe_at (H.stripes held.old) i).s
        (stripe_at (H.stripes held.old) i).number (stripe_at (H.stripes held.old) i).content
        (stripe_at (H.stripes held.new) i).content }
    ensures stays { H.stays held.old held.new }
{
    held.visit(i, |stripe: &mut Stripe<K, V>| stripe.double());
}

// A look into a bucket, which borrows nothing of the stripe afterwards.
#[inline(always)]
fn look_in<K: TableKey + Drop, V: Drop, Q: Query<K>>(
    stripe: &Stripe<K, V>,
    b: u64,
    key: Q,
    partial: u8,
) -> Option<usize>
    requires settled { stripe.now.settled ≡ true }
    requires own { HasBucket stripe.now b }
    requires partial { partial ≡ partial_of (K.hash (Q.name key)) }
    ensures below { IfSome result (λ slot. slot < 4) }
    ensures found { IfSome result (HasName (bucket_of stripe.now b) (Q.name key)) }
    ensures absent { IfNone result (LacksName (bucket_of stripe.now b) (Q.name key)) }
{
    stripe.look(b, key, partial)
}

// What the closure makes of the value in a slot.
fn read_in<K: TableKey + Drop, V: Drop, R, F: FnOnce(&V) -> R>(
    stripe: &Stripe<K, V>,
    b: u64,
    slot: usize,
    f: F,
) -> R
    requires settled { stripe.now.settled ≡ true }
    requires own { HasBucket stripe.now b }
    requires below { slot < 4 }
    requires slot_full { IsSome (slot_at (bucket_of stripe.now b) slot) }
    requires call { F.IsAlwaysCallable f }
    ensures { ReadsSlot F.FnOnce f (slot_at (bucket_of stripe.now b) slot) result }
{
    f(&stripe.pair(b, slot).1)
}
