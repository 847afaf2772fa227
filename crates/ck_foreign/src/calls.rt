//! What each call does through a handle, once for all types of keys.
ghost use Rattle.std.specs.Prelude.{◌≡◌, ◌<◌, ◌≤◌, ℕ, Bool, Option, None, Result, nat_eq, length, map};
ghost use Rattle.ck_section.specs.Acts.{Finds, FindsBound, Inserts, Assigns, Upserts, Modifies, ErasesBy, Erases};
ghost use Rattle.ck_section.specs.declared.two_keys.Renamed.{Renamed};
ghost use Rattle.ck_refusal.specs.declared.refusal.Busy.{Busy};
ghost use Rattle.ck_refusal.specs.declared.refusal.GrowFault.{GrowFault};
ghost use Rattle.ck_refusal.specs.declared.refusal.KeysRefused.{KeysRefused};
ghost use Rattle.ck_refusal.specs.declared.refusal.NotRenamed.{NotRenamed};
ghost use Rattle.ck_refusal.specs.declared.refusal.Refused.{Refused};
ghost use Rattle.cuckoo_map.specs.Callers.{CallerState, QueryLeaves, InsertionLeaves, KeysLeave};
ghost use Rattle.cuckoo_map.specs.Renames.{RenameLeaves};
ghost use Rattle.cuckoo_map.specs.SeveralKeys.{FindsAll};
ghost use Rattle.ck_foreign.specs.declared.code.Code.TheVariants as codes;
ghost use Rattle.ck_foreign.specs.Codes.{TellsBound, TellsValue, TellsFresh, TellsOld, TellsSeen, TellsMatch, TellsCount, TellsGrown, TellsDone, TellsRenamed};
ghost use Rattle.ck_foreign.specs.Handles.{Calls, AddsTo, Replaces, Swaps, CountLeaves, CapacityLeaves, GrowthLeaves};

use crate::code::Code;
use ck_owned::{Holds, put, take};
use cuckoo_map::{Busy, GrowFault, Handle, NotRenamed, Query, Refused, Renamed, TableKey};
use std::alloc::Global;

/// The value of the key.
#[inline(always)]
pub fn find<K: TableKey + Drop, P: Holds<Handle<K, u64>>, Q: Query<K>>(
    alloc: Global,
    place: &mut P,
    key: Q,
    value: &mut u64,
) -> Code
    ensures called { Calls (λ c d. (r : Result (Option ℕ) Busy)
        × QueryLeaves Finds K.hash (Q.name key) r c d × TellsValue r result value.old value.new)
        (P.held place.old) (P.held place.new) result }
    ensures same { P.held place.old ≡ None → value.new ≡ value.old }
{
    let Some(handle) = take(place, alloc) else {
        return Code::Closed;
    };
    let mut handle = handle;
    let found = handle.find(key);
    put(place, alloc, handle);
    told(found, value)
}

/// The code of a look-up or an erasure, whose value goes to its place.
#[inline(always)]
pub fn told(found: Result<Option<u64>, Busy>, value: &mut u64) -> Code
    ensures { TellsValue found result value.old value.new }
{
    match found {
        Ok(Some(v)) => {
            *value = v;
            Code::Done
        }
        Ok(None) => Code::Absent,
        Err(_) => Code::Busy,
    }
}

/// Whether the key is bound.
#[inline(always)]
pub fn contains<K: TableKey + Drop, P: Holds<Handle<K, u64>>, Q: Query<K>>(
    alloc: Global,
    place: &mut P,
    key: Q,
) -> Code
    ensures called { Calls (λ c d. (r : Result Bool Busy)
        × QueryLeaves FindsBound K.hash (Q.name key) r c d × TellsBound r result)
        (P.held place.old) (P.held place.new) result }
{
    let Some(handle) = take(place, alloc) else {
        return Code::Closed;
    };
    let mut handle = handle;
    let bound = handle.contains(key);
    put(place, alloc, handle);
    match bound {
        Ok(true) => Code::Done,
        Ok(false) => Code::Absent,
        Err(_) => Code::Busy,
    }
}

/// Binds the key to the value where it is unbound.
#[inline(always)]
pub fn insert<K: TableKey + Drop, P: Holds<Handle<K, u64>>>(
    alloc: Global,
    place: &mut P,
    key: K,
    value: u64,
) -> Code
    ensures called { Calls (λ c d. (r : Result Bool (Refused K ℕ))
        × InsertionLeaves (Inserts value) K.hash (K.name key) key value r c d
        × TellsFresh r result)
        (P.held place.old) (P.held place.new) result }
{
    let Some(handle) = take(place, alloc) else {
        return Code::Closed;
    };
    let mut handle = handle;
    let fresh = handle.insert(key, value);
    put(place, alloc, handle);
    fresh_code(fresh)
}

/// The code of an insertion that says whether the key was unbound.
#[inline(always)]
pub fn fresh_code<K: Drop>(fresh: Result<bool, Refused<K, u64>>) -> Code
    ensures { TellsFresh fresh result }
{
    match fresh {
        Ok(true) => Code::Done,
        Ok(false) => Code::Present,
        Err(refused) => Code::of_why(refused.why),
    }
}

/// Binds the key to the value, and tells the value that it had.
#[inline(always)]
pub fn assign<K: TableKey + Drop, P: Holds<Handle<K, u64>>>(
    alloc: Global,
    place: &mut P,
    key: K,
    value: u64,
    old: &mut u64,
) -> Code
    ensures called { Calls (λ c d. (r : Result (Option ℕ) (Refused K ℕ))
        × InsertionLeaves (Assigns value) K.hash (K.name key) key value r c d
        × TellsOld r result old.old old.new)
        (P.held place.old) (P.held place.new) result }
    ensures same { P.held place.old ≡ None → old.new ≡ old.old }
{
    let Some(handle) = take(place, alloc) else {
        return Code::Closed;
    };
    let mut handle = handle;
    let assigned = handle.insert_or_assign(key, value);
    put(place, alloc, handle);
    match assigned {
        Ok(None) => Code::Done,
        Ok(Some(v)) => {
            *old = v;
            Code::Present
        }
        Err(refused) => Code::of_why(refused.why),
    }
}

/// Adds to the value of the key, up to the greatest number; an unbound key is bound to what is
/// added.
#[inline(always)]
pub fn add<K: TableKey + Drop, P: Holds<Handle<K, u64>>>(
    alloc: Global,
    place: &mut P,
    key: K,
    more: u64,
) -> Code
    ensures called { Calls (λ c d. (r : Result Bool (Refused K ℕ))
        × InsertionLeaves (Upserts (AddsTo more) more) K.hash (K.name key) key more r c d
        × TellsFresh r result)
        (P.held place.old) (P.held place.new) result }
{
    let Some(handle) = take(place, alloc) else {
        return Code::Closed;
    };
    let mut handle = handle;
    let fresh = handle.upsert(key, |value: u64| value.saturating_add(more), more);
    put(place, alloc, handle);
    fresh_code(fresh)
}

/// Binds a bound key to the value, and tells the one that it had.
#[inline(always)]
pub fn update<K: TableKey + Drop, P: Holds<Handle<K, u64>>, Q: Query<K>>(
    alloc: Global,
    place: &mut P,
    key: Q,
    value: u64,
    old: &mut u64,
) -> Code
    ensures called { Calls (λ c d. (r : Result (Option ℕ) Busy)
        × QueryLeaves (Modifies (Replaces value)) K.hash (Q.name key) r c d
        × TellsValue r result old.old old.new)
        (P.held place.old) (P.held place.new) result }
    ensures same { P.held place.old ≡ None → old.new ≡ old.old }
{
    let Some(handle) = take(place, alloc) else {
        return Code::Closed;
    };
    let mut handle = handle;
    let was = handle.modify(key, |old: u64| (value, old));
    put(place, alloc, handle);
    match was {
        Ok(Some(v)) => {
            *old = v;
            Code::Done
        }
        Ok(None) => Code::Absent,
        Err(_) => Code::Busy,
    }
}

/// Binds a key that is bound to `from` to `to` in its place, and tells the value that it had.
#[inline(always)]
pub fn swap_if<K: TableKey + Drop, P: Holds<Handle<K, u64>>, Q: Query<K>>(
    alloc: Global,
    place: &mut P,
    key: Q,
    from: u64,
    to: u64,
    seen: &mut u64,
) -> Code
    ensures called { Calls (λ c d. (r : Result (Option ℕ) Busy)
        × QueryLeaves (Modifies (Swaps from to)) K.hash (Q.name key) r c d
        × TellsSeen from r result seen.old seen.new)
        (P.held place.old) (P.held place.new) result }
    ensures same { P.held place.old ≡ None → seen.new ≡ seen.old }
{
    let Some(handle) = take(place, alloc) else {
        return Code::Closed;
    };
    let mut handle = handle;
    let had = handle.modify(
        key,
        |value: u64| (if value == from { to } else { value }, value),
    );
    put(place, alloc, handle);
    match had {
        Ok(Some(value)) => {
            *seen = value;
            if value == from {
                Code::Done
            } else {
                Code::Different
            }
        }
        Ok(None) => Code::Absent,
        Err(_) => Code::Busy,
    }
}

/// Unbinds the key, and tells the value that it had.
#[inline(always)]
pub fn erase<K: TableKey + Drop, P: Holds<Handle<K, u64>>, Q: Query<K>>(
    alloc: Global,
    place: &mut P,
    key: Q,
    value: &mut u64,
) -> Code
    ensures called { Calls (λ c d. (r : Result (Option ℕ) Busy)
        × QueryLeaves Erases K.hash (Q.name key) r c d
        × TellsValue r result value.old value.new)
        (P.held place.old) (P.held place.new) result }
    ensures same { P.held place.old ≡ None → value.new ≡ value.old }
{
    let Some(handle) = take(place, alloc) else {
        return Code::Closed;
    };
    let mut handle = handle;
    let erased = handle.erase(key);
    put(place, alloc, handle);
    told(erased, value)
}

/// Unbinds a key that is bound to this value.
#[inline(always)]
pub fn erase_if<K: TableKey + Drop, P: Holds<Handle<K, u64>>, Q: Query<K>>(
    alloc: Global,
    place: &mut P,
    key: Q,
    value: u64,
) -> Code
    ensures called { Calls (λ c d. (r : Result (Option Bool) Busy)
        × QueryLeaves (ErasesBy (λ v gone. gone ≡ nat_eq v value)) K.hash (Q.name key) r c d
        × TellsMatch r result)
        (P.held place.old) (P.held place.new) result }
{
    let Some(handle) = take(place, alloc) else {
        return Code::Closed;
    };
    let mut handle = handle;
    let erased = handle.erase_fn(key, |v: &u64| *v == value);
    put(place, alloc, handle);
    match erased {
        Ok(Some(true)) => Code::Done,
        Ok(Some(false)) => Code::Different,
        Ok(None) => Code::Absent,
        Err(_) => Code::Busy,
    }
}

/// Gives the value of a key to another one, which is unbound, and unbinds the first.
pub fn rename<K: TableKey + Drop, P: Holds<Handle<K, u64>>>(
    alloc: Global,
    place: &mut P,
    from: &K,
    to: K,
) -> Code
    ensures called { Calls (λ c d. (r : Result Renamed (NotRenamed K))
        × RenameLeaves K.hash (K.name from.now) (K.name to) to r c d × TellsRenamed r result)
        (P.held place.old) (P.held place.new) result }
{
    let Some(handle) = take(place, alloc) else {
        return Code::Closed;
    };
    let mut handle = handle;
    let renamed = handle.rename(from, to);
    put(place, alloc, handle);
    renamed_code(renamed)
}

// The code of a rename.
fn renamed_code<K: Drop>(renamed: Result<Renamed, NotRenamed<K>>) -> Code
    ensures { TellsRenamed renamed result }
{
    match renamed {
        Ok(Renamed::Done) => Code::Done,
        Ok(Renamed::Unbound) => Code::Absent,
        Ok(Renamed::Occupied) => Code::Present,
        Err(back) => Code::of_rename(back.why),
    }
}

/// How many keys are bound.
pub fn len<K: TableKey + Drop, P: Holds<Handle<K, u64>>>(
    alloc: Global,
    place: &mut P,
    count: &mut u64,
) -> Code
    ensures called { Calls (λ c d. (r : Result ℕ Busy) × CountLeaves r c d
        × TellsCount r result count.old count.new)
        (P.held place.old) (P.held place.new) result }
    ensures same { P.held place.old ≡ None → count.new ≡ count.old }
{
    let Some(handle) = take(place, alloc) else {
        return Code::Closed;
    };
    let mut handle = handle;
    let len = handle.len();
    put(place, alloc, handle);
    counted(len, count)
}

// The code of a count, which goes to its place.
fn counted(len: Result<u64, Busy>, count: &mut u64) -> Code
    ensures { TellsCount len result count.old count.new }
{
    match len {
        Ok(n) => {
            *count = n;
            Code::Done
        }
        Err(_) => Code::Busy,
    }
}

/// How many slots the table has.
pub fn capacity<K: TableKey + Drop, P: Holds<Handle<K, u64>>>(
    alloc: Global,
    place: &mut P,
    slots: &mut u64,
) -> Code
    ensures called { Calls (λ c d. (r : Result ℕ Busy) × CapacityLeaves r c d
        × TellsCount r result slots.old slots.new)
        (P.held place.old) (P.held place.new) result }
    ensures same { P.held place.old ≡ None → slots.new ≡ slots.old }
{
    let Some(handle) = take(place, alloc) else {
        return Code::Closed;
    };
    let mut handle = handle;
    let capacity = handle.capacity();
    put(place, alloc, handle);
    counted(capacity, slots)
}

/// Doubles the table until it has so many slots.
pub fn reserve<K: TableKey + Drop, P: Holds<Handle<K, u64>>>(
    alloc: Global,
    place: &mut P,
    slots: u64,
) -> Code
    ensures called { Calls (λ c d. (r : Result Bool GrowFault) × GrowthLeaves slots r c d
        × TellsGrown r result)
        (P.held place.old) (P.held place.new) result }
{
    let Some(handle) = take(place, alloc) else {
        return Code::Closed;
    };
    let mut handle = handle;
    let grown = handle.reserve(slots);
    put(place, alloc, handle);
    grown_code(grown)
}

// The code of growing.
fn grown_code(grown: Result<bool, GrowFault>) -> Code
    ensures { TellsGrown grown result }
{
    match grown {
        Ok(true) => Code::Done,
        Ok(false) => Code::Enough,
        Err(fault) => Code::of_fault(fault),
    }
}

/// The values of the keys, all at one moment.
pub fn find_all<K: TableKey + Drop, P: Holds<Handle<K, u64>>, Q: Query<K>>(
    alloc: Global,
    place: &mut P,
    keys: &[Q],
    values: &mut [Option<u64>],
) -> Code
    requires some { 0 < length keys.now }
    requires few { length keys.now ≤ 8 }
    requires as_many { length values.old ≡ length keys.now }
    ensures called { Calls (λ c d. (r : Result (Unit {0}) KeysRefused)
        × KeysLeave (λ _. FindsAll values.new) K.hash (map Q.name keys.now) r c d
        × TellsDone r result)
        (P.held place.old) (P.held place.new) result }
{
    let Some(handle) = take(place, alloc) else {
        return Code::Closed;
    };
    let mut handle = handle;
    let found = handle.find_all_into(keys, values);
    put(place, alloc, handle);
    match found {
        Ok(()) => Code::Done,
        Err(why) => Code::of_keys(why),
    }
}
