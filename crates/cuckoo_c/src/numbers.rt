//! The calls on tables whose keys are numbers, as C makes them.
ghost use Rattle.std.specs.Prelude.{◌≡◌, ◌≢◌, ◌≤◌, ◌∷◌, [], ℕ, Bool, Option, Result, All, length, map, nat_eq};
ghost use Rattle.std.specs.declared.option.Option.TheVariants.{None};
ghost use Rattle.ck_key.specs.Hashes.{mixed_hash};
ghost use Rattle.ck_section.specs.Acts.{Finds, FindsBound, Inserts, Assigns, Upserts, Modifies, ErasesBy, Erases};
ghost use Rattle.ck_section.specs.declared.two_keys.Renamed.{Renamed};
ghost use Rattle.ck_refusal.specs.declared.refusal.Busy.{Busy};
ghost use Rattle.ck_refusal.specs.declared.refusal.GrowFault.{GrowFault};
ghost use Rattle.ck_refusal.specs.declared.refusal.NotRenamed.{NotRenamed};
ghost use Rattle.ck_refusal.specs.declared.refusal.Refused.{Refused};
ghost use Rattle.cuckoo_map.specs.Callers.{QueryLeaves, InsertionLeaves, Drains};
ghost use Rattle.cuckoo_map.specs.Renames.{RenameLeaves};
ghost use Rattle.ck_foreign.specs.declared.keys.NumberKey.{NumberKey};
ghost use Rattle.ck_foreign.specs.declared.code.Code.TheVariants as codes;
ghost use Rattle.ck_foreign.specs.Several.{CallsOnFew, FindsEntries, ChangesKeys, swapped, moved};
ghost use Rattle.ck_foreign.specs.Codes.{Numbered, TellsBound, TellsValue, TellsFresh, TellsOld, TellsSeen, TellsMatch, TellsCount, TellsGrown, TellsRenamed};
ghost use Rattle.ck_foreign.specs.contracts.keys.NumberKeyOrd.TheImpl.{ghosts as number_ord};
ghost use Rattle.ck_foreign.specs.contracts.keys.NumberKeyTableKey.TheImpl.{ghosts as number_key};
ghost use Rattle.ck_foreign.specs.Pairs.{TakesNextAt, TakesSomeAt, TellsPair, shown_pair};
ghost use Rattle.ck_foreign.specs.Openings.{ClearLeaves, TellsCleared, Exports, ListsAt};
ghost use Rattle.ck_foreign.specs.Sessions.{LocksAt, UnlocksAt, OnLocked, FindsLocked, InsertsLocked, AssignsLocked, ErasesLocked, CountsLocked, ClearsLocked, ListsLocked};
ghost use Rattle.ck_foreign.specs.NewTables.{IsFor, Opens, settings_of};
ghost use Rattle.ck_foreign.specs.Handles.{Calls, AddsTo, Replaces, Swaps, CountLeaves, CapacityLeaves, GrowthLeaves};

use ck_foreign::code::Code;
use ck_foreign::handles::CuckooHandle;
use ck_foreign::keys::NumberKey;
use ck_foreign::locked_places::CuckooLocked;
use ck_foreign::opening::{self, settings_for};
use ck_foreign::pair_places::CuckooPairs;
use ck_foreign::pairs::{CuckooPair, take_next, take_some};
use ck_foreign::settings::CuckooSettings;
use ck_foreign::several::{CuckooChange, CuckooEntry, CuckooPart};
use ck_foreign::{calls, locked, sessions, several};
use ck_owned::take;
use std::alloc::Global;

/// A new table for about so many keys, with a handle in each of the places, which are closed.
#[unsafe(no_mangle)]
pub extern "C" fn cuckoo_open(
    alloc: Global,
    keys: u64,
    turns: u32,
    handles: &mut [CuckooHandle],
) -> i32
    ensures length { length handles.new ≡ length handles.old }
    ensures opens { Numbered result (Opens (λ set. (length handles.old ≤ 1024 → set.callers ≡ length handles.old)
        × (set.turns ≡ turns) × IsFor keys set)
        (length handles.old) (All (λ h. h.held ≡ None) handles.old)
        (map (λ h. h.held) handles.old) (map (λ h. h.held) handles.new)) }
{
    let settings = settings_for(keys, handles.len(), turns);
    opening::open(alloc, settings, handles).number()
}

/// The same with every setting.
#[unsafe(no_mangle)]
pub extern "C" fn cuckoo_open_with(
    alloc: Global,
    settings: &CuckooSettings,
    handles: &mut [CuckooHandle],
) -> i32
    ensures length { length handles.new ≡ length handles.old }
    ensures opens { Numbered result (Opens (λ set. set ≡ settings_of settings.now)
        (length handles.old) (All (λ h. h.held ≡ None) handles.old)
        (map (λ h. h.held) handles.old) (map (λ h. h.held) handles.new)) }
{
    opening::open(alloc, settings.settings(), handles).number()
}

/// Closes a handle. The table ends with its last one.
#[unsafe(no_mangle)]
pub extern "C" fn cuckoo_close(alloc: Global, handle: &mut CuckooHandle)
    ensures { handle.new.held ≡ None }
{
    opening::close(alloc, handle);
}

/// The value of the key.
#[unsafe(no_mangle)]
pub extern "C" fn cuckoo_find(
    alloc: Global,
    handle: &mut CuckooHandle,
    key: u64,
    value: &mut u64,
) -> i32
    ensures called { Numbered result (λ code. Calls (λ c d. (r : Result (Option ℕ) Busy)
        × QueryLeaves Finds mixed_hash (key ∷ []) r c d × TellsValue r code value.old value.new)
        handle.old.held handle.new.held code) }
    ensures same { handle.old.held ≡ None → value.new ≡ value.old }
{
    calls::find(alloc, handle, &NumberKey(key), value).number()
}

/// Whether the key is bound.
#[unsafe(no_mangle)]
pub extern "C" fn cuckoo_contains(alloc: Global, handle: &mut CuckooHandle, key: u64) -> i32
    ensures { Numbered result (λ code. Calls (λ c d. (r : Result Bool Busy)
        × QueryLeaves FindsBound mixed_hash (key ∷ []) r c d × TellsBound r code)
        handle.old.held handle.new.held code) }
{
    calls::contains(alloc, handle, &NumberKey(key)).number()
}

/// Binds an unbound key.
#[unsafe(no_mangle)]
pub extern "C" fn cuckoo_insert(
    alloc: Global,
    handle: &mut CuckooHandle,
    key: u64,
    value: u64,
) -> i32
    ensures { Numbered result (λ code. Calls (λ c d. (r : Result Bool (Refused NumberKey ℕ))
        × InsertionLeaves (Inserts value) mixed_hash (key ∷ []) (record { 0 = key }) value r c d
        × TellsFresh r code)
        handle.old.held handle.new.held code) }
{
    calls::insert(alloc, handle, NumberKey(key), value).number()
}

/// Binds the key, and tells the value that it had.
#[unsafe(no_mangle)]
pub extern "C" fn cuckoo_assign(
    alloc: Global,
    handle: &mut CuckooHandle,
    key: u64,
    value: u64,
    old: &mut u64,
) -> i32
    ensures called { Numbered result (λ code. Calls (λ c d. (r : Result (Option ℕ) (Refused NumberKey ℕ))
        × InsertionLeaves (Assigns value) mixed_hash (key ∷ []) (record { 0 = key }) value r c d
        × TellsOld r code old.old old.new)
        handle.old.held handle.new.held code) }
    ensures same { handle.old.held ≡ None → old.new ≡ old.old }
{
    calls::assign(alloc, handle, NumberKey(key), value, old).number()
}

/// Adds to the value of the key, up to the greatest number; an unbound key is bound to `more`.
#[unsafe(no_mangle)]
pub extern "C" fn cuckoo_add(alloc: Global, handle: &mut CuckooHandle, key: u64, more: u64) -> i32
    ensures { Numbered result (λ code. Calls (λ c d. (r : Result Bool (Refused NumberKey ℕ))
        × InsertionLeaves (Upserts (AddsTo more) more) mixed_hash (key ∷ []) (record { 0 = key }) more r c d
        × TellsFresh r code)
        handle.old.held handle.new.held code) }
{
    calls::add(alloc, handle, NumberKey(key), more).number()
}

/// Binds a bound key, and tells the value that it had.
#[unsafe(no_mangle)]
pub extern "C" fn cuckoo_update(
    alloc: Global,
    handle: &mut CuckooHandle,
    key: u64,
    value: u64,
    old: &mut u64,
) -> i32
    ensures called { Numbered result (λ code. Calls (λ c d. (r : Result (Option ℕ) Busy)
        × QueryLeaves (Modifies (Replaces value)) mixed_hash (key ∷ []) r c d
        × TellsValue r code old.old old.new)
        handle.old.held handle.new.held code) }
    ensures same { handle.old.held ≡ None → old.new ≡ old.old }
{
    calls::update(alloc, handle, &NumberKey(key), value, old).number()
}

/// Compare and set: binds a key that is bound to `from` to `to`.
#[unsafe(no_mangle)]
pub extern "C" fn cuckoo_swap_if(
    alloc: Global,
    handle: &mut CuckooHandle,
    key: u64,
    from: u64,
    to: u64,
    seen: &mut u64,
) -> i32
    ensures called { Numbered result (λ code. Calls (λ c d. (r : Result (Option ℕ) Busy)
        × QueryLeaves (Modifies (Swaps from to)) mixed_hash (key ∷ []) r c d
        × TellsSeen from r code seen.old seen.new)
        handle.old.held handle.new.held code) }
    ensures same { handle.old.held ≡ None → seen.new ≡ seen.old }
{
    calls::swap_if(alloc, handle, &NumberKey(key), from, to, seen).number()
}

/// Unbinds the key, and tells the value that it had.
#[unsafe(no_mangle)]
pub extern "C" fn cuckoo_erase(
    alloc: Global,
    handle: &mut CuckooHandle,
    key: u64,
    value: &mut u64,
) -> i32
    ensures called { Numbered result (λ code. Calls (λ c d. (r : Result (Option ℕ) Busy)
        × QueryLeaves Erases mixed_hash (key ∷ []) r c d × TellsValue r code value.old value.new)
        handle.old.held handle.new.held code) }
    ensures same { handle.old.held ≡ None → value.new ≡ value.old }
{
    calls::erase(alloc, handle, &NumberKey(key), value).number()
}

/// Unbinds a key that is bound to this value.
#[unsafe(no_mangle)]
pub extern "C" fn cuckoo_erase_if(
    alloc: Global,
    handle: &mut CuckooHandle,
    key: u64,
    value: u64,
) -> i32
    ensures { Numbered result (λ code. Calls (λ c d. (r : Result (Option Bool) Busy)
        × QueryLeaves (ErasesBy (λ v gone. gone ≡ nat_eq v value)) mixed_hash (key ∷ []) r c d
        × TellsMatch r code)
        handle.old.held handle.new.held code) }
{
    calls::erase_if(alloc, handle, &NumberKey(key), value).number()
}

/// The values of up to eight different keys, all at one moment.
#[unsafe(no_mangle)]
pub extern "C" fn cuckoo_find_all(
    alloc: Global,
    handle: &mut CuckooHandle,
    entries: &mut [CuckooEntry],
) -> i32
    ensures length { length entries.new ≡ length entries.old }
    ensures called { Numbered result (λ code. CallsOnFew (length entries.old)
        (FindsEntries entries.old entries.new code) handle.old.held handle.new.held code
        × (code ≢ codes.Done → entries.new ≡ entries.old)) }
{
    several::find_all(alloc, handle, entries).number()
}

/// Binds up to eight different keys to new values, all at one moment, where each is bound to the
/// one that is expected.
#[unsafe(no_mangle)]
pub extern "C" fn cuckoo_set_if_all(
    alloc: Global,
    handle: &mut CuckooHandle,
    changes: &[CuckooChange],
) -> i32
    ensures { Numbered result (λ code. CallsOnFew (length changes.now)
        (ChangesKeys swapped (map (λ c. c.key ∷ []) changes.now) changes.now codes.Different code)
        handle.old.held handle.new.held code) }
{
    several::change_all(alloc, handle, changes, Code::Different).number()
}

/// Takes from the values of up to eight different keys and adds to them, all at one moment, where
/// there is enough of each.
#[unsafe(no_mangle)]
pub extern "C" fn cuckoo_move(alloc: Global, handle: &mut CuckooHandle, parts: &[CuckooPart]) -> i32
    ensures { Numbered result (λ code. CallsOnFew (length parts.now)
        (ChangesKeys moved (map (λ p. p.key ∷ []) parts.now) parts.now codes.Short code)
        handle.old.held handle.new.held code) }
{
    several::change_all(alloc, handle, parts, Code::Short).number()
}

/// Gives the value of a key to another one, which is unbound, and unbinds the first.
#[unsafe(no_mangle)]
pub extern "C" fn cuckoo_rename(alloc: Global, handle: &mut CuckooHandle, from: u64, to: u64) -> i32
    ensures { Numbered result (λ code. Calls (λ c d. (r : Result Renamed (NotRenamed NumberKey))
        × RenameLeaves mixed_hash (from ∷ []) (to ∷ []) (record { 0 = to }) r c d
        × TellsRenamed r code)
        handle.old.held handle.new.held code) }
{
    calls::rename(alloc, handle, &NumberKey(from), NumberKey(to)).number()
}

/// How many keys are bound.
#[unsafe(no_mangle)]
pub extern "C" fn cuckoo_len(alloc: Global, handle: &mut CuckooHandle, count: &mut u64) -> i32
    ensures called { Numbered result (λ code. Calls (λ c d. (r : Result ℕ Busy) × CountLeaves r c d
        × TellsCount r code count.old count.new)
        handle.old.held handle.new.held code) }
    ensures same { handle.old.held ≡ None → count.new ≡ count.old }
{
    calls::len(alloc, handle, count).number()
}

/// How many slots the table has.
#[unsafe(no_mangle)]
pub extern "C" fn cuckoo_capacity(alloc: Global, handle: &mut CuckooHandle, slots: &mut u64) -> i32
    ensures called { Numbered result (λ code. Calls (λ c d. (r : Result ℕ Busy) × CapacityLeaves r c d
        × TellsCount r code slots.old slots.new)
        handle.old.held handle.new.held code) }
    ensures same { handle.old.held ≡ None → slots.new ≡ slots.old }
{
    calls::capacity(alloc, handle, slots).number()
}

/// Makes the table grow until it has so many slots.
#[unsafe(no_mangle)]
pub extern "C" fn cuckoo_reserve(alloc: Global, handle: &mut CuckooHandle, slots: u64) -> i32
    ensures { Numbered result (λ code. Calls (λ c d. (r : Result Bool GrowFault) × GrowthLeaves slots r c d
        × TellsGrown r code)
        handle.old.held handle.new.held code) }
{
    calls::reserve(alloc, handle, slots).number()
}

/// Unbinds all keys, at one moment.
#[unsafe(no_mangle)]
pub extern "C" fn cuckoo_clear(alloc: Global, handle: &mut CuckooHandle) -> i32
    ensures { Numbered result (λ code. Calls (λ c d. (r : Result (Unit {0}) Busy)
        × ClearLeaves r c d × TellsCleared r code) handle.old.held handle.new.held code) }
{
    sessions::clear(alloc, handle).number()
}

/// All pairs at one moment, in rising order of the keys.
#[unsafe(no_mangle)]
pub extern "C" fn cuckoo_export(
    alloc: Global,
    handle: &mut CuckooHandle,
    pairs: &mut CuckooPairs,
) -> i32
    ensures called { Numbered result (λ code. Calls (λ c d. ListsAt
        (Exports number_key.name number_ord.cmp) pairs.old.held pairs.new.held c d code)
        handle.old.held handle.new.held code) }
    ensures same { handle.old.held ≡ None → pairs.new.held ≡ pairs.old.held }
{
    sessions::export(alloc, handle, pairs).number()
}

/// The same, and unbinds all keys at that moment.
#[unsafe(no_mangle)]
pub extern "C" fn cuckoo_drain(
    alloc: Global,
    handle: &mut CuckooHandle,
    pairs: &mut CuckooPairs,
) -> i32
    ensures called { Numbered result (λ code. Calls (λ c d. ListsAt
        (Drains number_key.name number_ord.cmp) pairs.old.held pairs.new.held c d code)
        handle.old.held handle.new.held code) }
    ensures same { handle.old.held ≡ None → pairs.new.held ≡ pairs.old.held }
{
    sessions::drain(alloc, handle, pairs).number()
}

/// Frees the pairs.
#[unsafe(no_mangle)]
pub extern "C" fn cuckoo_pairs_close(alloc: Global, pairs: &mut CuckooPairs)
    ensures { pairs.new.held ≡ None }
{
    drop(take(pairs, alloc));
}

/// The next pair.
#[unsafe(no_mangle)]
pub extern "C" fn cuckoo_pairs_next(
    alloc: Global,
    pairs: &mut CuckooPairs,
    key: &mut u64,
    value: &mut u64,
) -> i32
    ensures { Numbered result (λ code. (r : Option (NumberKey × ℕ))
        × TakesNextAt r pairs.old.held pairs.new.held
        × TellsPair r code key.old value.old key.new value.new) }
{
    match take_next(alloc, pairs) {
        Some((number, bound)) => {
            *key = number.0;
            *value = bound;
            Code::Done.number()
        }
        None => Code::Absent.number(),
    }
}

/// The next pairs, as many as there are places for, in their order.
#[unsafe(no_mangle)]
pub extern "C" fn cuckoo_pairs_take(
    alloc: Global,
    pairs: &mut CuckooPairs,
    into: &mut [CuckooPair],
    taken: &mut u64,
) -> i32
    ensures length { length into.new ≡ length into.old }
    ensures taken { Numbered result (TakesSomeAt shown_pair pairs.old.held pairs.new.held
        into.old into.new taken.new) }
{
    take_some(alloc, pairs, into, taken).number()
}

/// Locks the table by the handle, which is in the locked table until it is unlocked.
#[unsafe(no_mangle)]
pub extern "C" fn cuckoo_lock(
    alloc: Global,
    handle: &mut CuckooHandle,
    locked: &mut CuckooLocked,
) -> i32
    ensures { Numbered result (LocksAt handle.old.held handle.new.held
        locked.old.held locked.new.held) }
{
    locked::lock(alloc, handle, locked).number()
}

/// Unlocks the table. All that was done to it is one entry, and the handle comes to this place.
#[unsafe(no_mangle)]
pub extern "C" fn cuckoo_unlock(
    alloc: Global,
    locked: &mut CuckooLocked,
    handle: &mut CuckooHandle,
) -> i32
    ensures { Numbered result (UnlocksAt locked.old.held locked.new.held
        handle.old.held handle.new.held) }
{
    locked::unlock(alloc, locked, handle).number()
}

/// Unlocks the table, and closes the handle.
#[unsafe(no_mangle)]
pub extern "C" fn cuckoo_locked_close(alloc: Global, locked: &mut CuckooLocked)
    ensures { locked.new.held ≡ None }
{
    opening::close(alloc, locked);
}

/// The value of the key in the locked table.
#[unsafe(no_mangle)]
pub extern "C" fn cuckoo_locked_find(
    alloc: Global,
    locked: &mut CuckooLocked,
    key: u64,
    value: &mut u64,
) -> i32
    ensures called { Numbered result (λ code. OnLocked
        (FindsLocked (key ∷ []) code value.old value.new) locked.old.held locked.new.held code) }
    ensures same { locked.old.held ≡ None → value.new ≡ value.old }
{
    locked::find(alloc, locked, &NumberKey(key), value).number()
}

/// Binds an unbound key in the locked table.
#[unsafe(no_mangle)]
pub extern "C" fn cuckoo_locked_insert(
    alloc: Global,
    locked: &mut CuckooLocked,
    key: u64,
    value: u64,
) -> i32
    ensures { Numbered result (λ code. OnLocked
        (InsertsLocked {K = NumberKey} mixed_hash (key ∷ []) (record { 0 = key }) value code)
        locked.old.held locked.new.held code) }
{
    locked::insert(alloc, locked, NumberKey(key), value).number()
}

/// Binds the key in the locked table, and tells the value that it had.
#[unsafe(no_mangle)]
pub extern "C" fn cuckoo_locked_assign(
    alloc: Global,
    locked: &mut CuckooLocked,
    key: u64,
    value: u64,
    old: &mut u64,
) -> i32
    ensures called { Numbered result (λ code. OnLocked
        (AssignsLocked {K = NumberKey} mixed_hash (key ∷ []) (record { 0 = key }) value code
        old.old old.new)
        locked.old.held locked.new.held code) }
    ensures same { locked.old.held ≡ None → old.new ≡ old.old }
{
    locked::assign(alloc, locked, NumberKey(key), value, old).number()
}

/// Unbinds the key in the locked table, and tells the value that it had.
#[unsafe(no_mangle)]
pub extern "C" fn cuckoo_locked_erase(
    alloc: Global,
    locked: &mut CuckooLocked,
    key: u64,
    value: &mut u64,
) -> i32
    ensures called { Numbered result (λ code. OnLocked
        (ErasesLocked (key ∷ []) code value.old value.new) locked.old.held locked.new.held code) }
    ensures same { locked.old.held ≡ None → value.new ≡ value.old }
{
    locked::erase(alloc, locked, &NumberKey(key), value).number()
}

/// How many keys are bound in the locked table.
#[unsafe(no_mangle)]
pub extern "C" fn cuckoo_locked_len(
    alloc: Global,
    locked: &mut CuckooLocked,
    count: &mut u64,
) -> i32
    ensures called { Numbered result (λ code. OnLocked (CountsLocked code count.new)
        locked.old.held locked.new.held code) }
    ensures same { locked.old.held ≡ None → count.new ≡ count.old }
{
    locked::len(alloc, locked, count).number()
}

/// Unbinds all keys of the locked table.
#[unsafe(no_mangle)]
pub extern "C" fn cuckoo_locked_clear(alloc: Global, locked: &mut CuckooLocked) -> i32
    ensures { Numbered result (λ code. OnLocked (ClearsLocked code)
        locked.old.held locked.new.held code) }
{
    locked::clear(alloc, locked).number()
}

/// All pairs of the locked table, in rising order of the keys.
#[unsafe(no_mangle)]
pub extern "C" fn cuckoo_locked_export(
    alloc: Global,
    locked: &mut CuckooLocked,
    pairs: &mut CuckooPairs,
) -> i32
    ensures called { Numbered result (λ code. OnLocked
        (ListsLocked number_key.name number_ord.cmp pairs.old.held pairs.new.held code)
        locked.old.held locked.new.held code) }
    ensures same { locked.old.held ≡ None → pairs.new.held ≡ pairs.old.held }
{
    locked::export(alloc, locked, pairs).number()
}
