//! The calls on tables whose keys are texts, as C makes them.
ghost use Rattle.std.specs.Prelude.{◌≡◌, ◌⊎◌, ◌≤◌, ◌<◌, ℕ, Bool, Option, Result, IfOk, IfErr, MatchBool, All, length, map, nat_eq, nat_lt};
ghost use Rattle.std.specs.declared.option.Option.TheVariants.{None};
ghost use Rattle.ck_key.specs.Hashes.{text_hash};
ghost use Rattle.ck_section.specs.Acts.{Finds, FindsBound, Inserts, Assigns, Upserts, Modifies, ErasesBy, Erases};
ghost use Rattle.ck_section.specs.declared.two_keys.Renamed.{Renamed};
ghost use Rattle.ck_refusal.specs.declared.refusal.Busy.{Busy};
ghost use Rattle.ck_refusal.specs.declared.refusal.GrowFault.{GrowFault};
ghost use Rattle.ck_refusal.specs.declared.refusal.NotRenamed.{NotRenamed};
ghost use Rattle.ck_refusal.specs.declared.refusal.Refused.{Refused};
ghost use Rattle.cuckoo_map.specs.Callers.{QueryLeaves, InsertionLeaves, Drains};
ghost use Rattle.cuckoo_map.specs.Renames.{RenameLeaves};
ghost use Rattle.ck_foreign.specs.declared.keys.BytesKey.{BytesKey};
ghost use Rattle.ck_foreign.specs.declared.code.Code.TheVariants as codes;
ghost use Rattle.ck_foreign.specs.Codes.{number_of, Numbered, TellsBound, TellsValue, TellsFresh, TellsOld, TellsSeen, TellsMatch, TellsCount, TellsGrown, TellsRenamed};
ghost use Rattle.ck_foreign.specs.contracts.keys.BytesKeyOrd.TheImpl.{ghosts as text_ord};
ghost use Rattle.ck_foreign.specs.contracts.keys.BytesKeyTableKey.TheImpl.{ghosts as text_key};
ghost use Rattle.ck_foreign.specs.Pairs.{TakesNextAt, TakesSomeAt, TellsTextPair, shown_text_pair};
ghost use Rattle.ck_foreign.specs.Openings.{ClearLeaves, TellsCleared, Exports, ListsAt};
ghost use Rattle.ck_foreign.specs.Sessions.{LocksAt, UnlocksAt, OnLocked, FindsLocked, InsertsLocked, AssignsLocked, ErasesLocked, CountsLocked, ClearsLocked, ListsLocked};
ghost use Rattle.ck_foreign.specs.NewTables.{IsFor, Opens, settings_of};
ghost use Rattle.ck_foreign.specs.Handles.{Calls, CallsWithMemory, AddsTo, Replaces, Swaps, CountLeaves, CapacityLeaves, GrowthLeaves};

use ck_foreign::code::Code;
use ck_foreign::handles::CuckooTextHandle;
use ck_foreign::keys::{Bytes, BytesKey};
use ck_foreign::locked_places::CuckooTextLocked;
use ck_foreign::opening::{self, settings_for};
use ck_foreign::pair_places::CuckooTextPairs;
use ck_foreign::pairs::{CuckooTextPair, take_next, take_some};
use ck_foreign::settings::CuckooSettings;
use ck_foreign::{calls, locked, sessions};
use ck_owned::take;
use cuckoo_map::{KeyFault, TextKey};
use std::alloc::Global;

/// A key has at most so many bytes.
const MOST: usize = 64;

// The key of these bytes, or why there is none.
fn key_of(alloc: Global, bytes: &[u8]) -> Result<BytesKey, Code>
    ensures ok { IfOk result (λ key. (length bytes.now ≤ 64) × (key.0 ≡ bytes.now)) }
    ensures fault { IfErr result (λ code. MatchBool (nat_lt 64 (length bytes.now))
        (code ≡ codes.TooLong) (code ≡ codes.Memory)) }
{
    match TextKey::new(alloc, bytes) {
        Ok(key) => Ok(BytesKey(key)),
        Err(KeyFault::TooLong) => Err(Code::TooLong),
        Err(KeyFault::Memory) => Err(Code::Memory),
    }
}

/// A new table for about so many keys, with a handle in each of the places, which are closed.
#[unsafe(no_mangle)]
pub extern "C" fn cuckoo_text_open(
    alloc: Global,
    keys: u64,
    turns: u32,
    handles: &mut [CuckooTextHandle],
) -> i32
    ensures length { length handles.new ≡ length handles.old }
    ensures opens { Numbered result (Opens (λ set. (length handles.old ≤ 1024 → set.callers ≡ length handles.old)
        × (set.turns ≡ turns) × IsFor keys set)
        (length handles.old) (All (λ h. h.held ≡ None) handles.old)
        (map (λ h. h.held) handles.old) (map (λ h. h.held) handles.new)) }
{
    let settings = settings_for(keys, handles.len(), turns);
    opening::open(alloc, settings, handles).number()
}

/// The same with every setting.
#[unsafe(no_mangle)]
pub extern "C" fn cuckoo_text_open_with(
    alloc: Global,
    settings: &CuckooSettings,
    handles: &mut [CuckooTextHandle],
) -> i32
    ensures length { length handles.new ≡ length handles.old }
    ensures opens { Numbered result (Opens (λ set. set ≡ settings_of settings.now)
        (length handles.old) (All (λ h. h.held ≡ None) handles.old)
        (map (λ h. h.held) handles.old) (map (λ h. h.held) handles.new)) }
{
    opening::open(alloc, settings.settings(), handles).number()
}

/// Closes a handle. The table ends with its last one.
#[unsafe(no_mangle)]
pub extern "C" fn cuckoo_text_close(alloc: Global, handle: &mut CuckooTextHandle)
    ensures { handle.new.held ≡ None }
{
    opening::close(alloc, handle);
}

/// The value of the key.
#[unsafe(no_mangle)]
pub extern "C" fn cuckoo_text_find(
    alloc: Global,
    handle: &mut CuckooTextHandle,
    key: &[u8],
    value: &mut u64,
) -> i32
    ensures called { length key.now ≤ 64 → Numbered result (λ code. Calls (λ c d. (r : Result (Option ℕ) Busy)
        × QueryLeaves Finds text_hash key.now r c d × TellsValue r code value.old value.new)
        handle.old.held handle.new.held code) }
    ensures too_long { 64 < length key.now → (result ≡ number_of codes.TooLong)
        × (handle.new.held ≡ handle.old.held) × (value.new ≡ value.old) }
    ensures same { handle.old.held ≡ None → value.new ≡ value.old }
{
    if key.len() > MOST {
        return Code::TooLong.number();
    }
    calls::find(alloc, handle, Bytes(key), value).number()
}

/// Whether the key is bound.
#[unsafe(no_mangle)]
pub extern "C" fn cuckoo_text_contains(
    alloc: Global,
    handle: &mut CuckooTextHandle,
    key: &[u8],
) -> i32
    ensures called { length key.now ≤ 64 → Numbered result (λ code. Calls (λ c d. (r : Result Bool Busy)
        × QueryLeaves FindsBound text_hash key.now r c d × TellsBound r code)
        handle.old.held handle.new.held code) }
    ensures too_long { 64 < length key.now → (result ≡ number_of codes.TooLong)
        × (handle.new.held ≡ handle.old.held) }
{
    if key.len() > MOST {
        return Code::TooLong.number();
    }
    calls::contains(alloc, handle, Bytes(key)).number()
}

/// Binds an unbound key.
#[unsafe(no_mangle)]
pub extern "C" fn cuckoo_text_insert(
    alloc: Global,
    handle: &mut CuckooTextHandle,
    key: &[u8],
    value: u64,
) -> i32
    ensures called { length key.now ≤ 64 → Numbered result (λ code. CallsWithMemory (λ c d. (r : Result Bool (Refused BytesKey ℕ))
        × InsertionLeaves (Inserts value) text_hash key.now (record { 0 = key.now }) value r c d
        × TellsFresh r code)
        handle.old.held handle.new.held code) }
    ensures too_long { 64 < length key.now → (result ≡ number_of codes.TooLong)
        × (handle.new.held ≡ handle.old.held) }
{
    match key_of(alloc, key) {
        Ok(key) => calls::insert(alloc, handle, key, value).number(),
        Err(code) => code.number(),
    }
}

/// Binds the key, and tells the value that it had.
#[unsafe(no_mangle)]
pub extern "C" fn cuckoo_text_assign(
    alloc: Global,
    handle: &mut CuckooTextHandle,
    key: &[u8],
    value: u64,
    old: &mut u64,
) -> i32
    ensures called { length key.now ≤ 64 → Numbered result (λ code. Calls (λ c d. (r : Result (Option ℕ) (Refused BytesKey ℕ))
        × InsertionLeaves (Assigns value) text_hash key.now (record { 0 = key.now }) value r c d
        × TellsOld r code old.old old.new)
        handle.old.held handle.new.held code
        ⊎ (handle.new.held ≡ handle.old.held) × (code ≡ codes.Memory) × (old.new ≡ old.old)) }
    ensures too_long { 64 < length key.now → (result ≡ number_of codes.TooLong)
        × (handle.new.held ≡ handle.old.held) × (old.new ≡ old.old) }
    ensures same { handle.old.held ≡ None → old.new ≡ old.old }
{
    match key_of(alloc, key) {
        Ok(key) => calls::assign(alloc, handle, key, value, old).number(),
        Err(code) => code.number(),
    }
}

/// Adds to the value of the key, up to the greatest number; an unbound key is bound to `more`.
#[unsafe(no_mangle)]
pub extern "C" fn cuckoo_text_add(
    alloc: Global,
    handle: &mut CuckooTextHandle,
    key: &[u8],
    more: u64,
) -> i32
    ensures called { length key.now ≤ 64 → Numbered result (λ code. CallsWithMemory (λ c d. (r : Result Bool (Refused BytesKey ℕ))
        × InsertionLeaves (Upserts (AddsTo more) more) text_hash key.now (record { 0 = key.now }) more r c d
        × TellsFresh r code)
        handle.old.held handle.new.held code) }
    ensures too_long { 64 < length key.now → (result ≡ number_of codes.TooLong)
        × (handle.new.held ≡ handle.old.held) }
{
    match key_of(alloc, key) {
        Ok(key) => calls::add(alloc, handle, key, more).number(),
        Err(code) => code.number(),
    }
}

/// Binds a bound key, and tells the value that it had.
#[unsafe(no_mangle)]
pub extern "C" fn cuckoo_text_update(
    alloc: Global,
    handle: &mut CuckooTextHandle,
    key: &[u8],
    value: u64,
    old: &mut u64,
) -> i32
    ensures called { length key.now ≤ 64 → Numbered result (λ code. Calls (λ c d. (r : Result (Option ℕ) Busy)
        × QueryLeaves (Modifies (Replaces value)) text_hash key.now r c d
        × TellsValue r code old.old old.new)
        handle.old.held handle.new.held code) }
    ensures too_long { 64 < length key.now → (result ≡ number_of codes.TooLong)
        × (handle.new.held ≡ handle.old.held) × (old.new ≡ old.old) }
    ensures same { handle.old.held ≡ None → old.new ≡ old.old }
{
    if key.len() > MOST {
        return Code::TooLong.number();
    }
    calls::update(alloc, handle, Bytes(key), value, old).number()
}

/// Compare and set: binds a key that is bound to `from` to `to`.
#[unsafe(no_mangle)]
pub extern "C" fn cuckoo_text_swap_if(
    alloc: Global,
    handle: &mut CuckooTextHandle,
    key: &[u8],
    from: u64,
    to: u64,
    seen: &mut u64,
) -> i32
    ensures called { length key.now ≤ 64 → Numbered result (λ code. Calls (λ c d. (r : Result (Option ℕ) Busy)
        × QueryLeaves (Modifies (Swaps from to)) text_hash key.now r c d
        × TellsSeen from r code seen.old seen.new)
        handle.old.held handle.new.held code) }
    ensures too_long { 64 < length key.now → (result ≡ number_of codes.TooLong)
        × (handle.new.held ≡ handle.old.held) × (seen.new ≡ seen.old) }
    ensures same { handle.old.held ≡ None → seen.new ≡ seen.old }
{
    if key.len() > MOST {
        return Code::TooLong.number();
    }
    calls::swap_if(alloc, handle, Bytes(key), from, to, seen).number()
}

/// Unbinds the key, and tells the value that it had.
#[unsafe(no_mangle)]
pub extern "C" fn cuckoo_text_erase(
    alloc: Global,
    handle: &mut CuckooTextHandle,
    key: &[u8],
    value: &mut u64,
) -> i32
    ensures called { length key.now ≤ 64 → Numbered result (λ code. Calls (λ c d. (r : Result (Option ℕ) Busy)
        × QueryLeaves Erases text_hash key.now r c d × TellsValue r code value.old value.new)
        handle.old.held handle.new.held code) }
    ensures too_long { 64 < length key.now → (result ≡ number_of codes.TooLong)
        × (handle.new.held ≡ handle.old.held) × (value.new ≡ value.old) }
    ensures same { handle.old.held ≡ None → value.new ≡ value.old }
{
    if key.len() > MOST {
        return Code::TooLong.number();
    }
    calls::erase(alloc, handle, Bytes(key), value).number()
}

/// Unbinds a key that is bound to this value.
#[unsafe(no_mangle)]
pub extern "C" fn cuckoo_text_erase_if(
    alloc: Global,
    handle: &mut CuckooTextHandle,
    key: &[u8],
    value: u64,
) -> i32
    ensures called { length key.now ≤ 64 → Numbered result (λ code. Calls (λ c d. (r : Result (Option Bool) Busy)
        × QueryLeaves (ErasesBy (λ v gone. gone ≡ nat_eq v value)) text_hash key.now r c d
        × TellsMatch r code)
        handle.old.held handle.new.held code) }
    ensures too_long { 64 < length key.now → (result ≡ number_of codes.TooLong)
        × (handle.new.held ≡ handle.old.held) }
{
    if key.len() > MOST {
        return Code::TooLong.number();
    }
    calls::erase_if(alloc, handle, Bytes(key), value).number()
}

/// Gives the value of a key to another one, which is unbound, and unbinds the first.
#[unsafe(no_mangle)]
pub extern "C" fn cuckoo_text_rename(
    alloc: Global,
    handle: &mut CuckooTextHandle,
    from: &[u8],
    to: &[u8],
) -> i32
    ensures called { length from.now ≤ 64 → length to.now ≤ 64
        → Numbered result (λ code. CallsWithMemory (λ c d. (r : Result Renamed (NotRenamed BytesKey))
        × RenameLeaves text_hash from.now to.now (record { 0 = to.now }) r c d
        × TellsRenamed r code)
        handle.old.held handle.new.held code) }
    ensures too_long { (64 < length from.now) ⊎ (64 < length to.now)
        → (result ≡ number_of codes.TooLong) × (handle.new.held ≡ handle.old.held) }
{
    if from.len() > MOST || to.len() > MOST {
        return Code::TooLong.number();
    }
    match (key_of(alloc, from), key_of(alloc, to)) {
        (Ok(from), Ok(to)) => calls::rename(alloc, handle, &from, to).number(),
        _ => Code::Memory.number(),
    }
}

/// How many keys are bound.
#[unsafe(no_mangle)]
pub extern "C" fn cuckoo_text_len(
    alloc: Global,
    handle: &mut CuckooTextHandle,
    count: &mut u64,
) -> i32
    ensures called { Numbered result (λ code. Calls (λ c d. (r : Result ℕ Busy) × CountLeaves r c d
        × TellsCount r code count.old count.new)
        handle.old.held handle.new.held code) }
    ensures same { handle.old.held ≡ None → count.new ≡ count.old }
{
    calls::len(alloc, handle, count).number()
}

/// How many slots the table has.
#[unsafe(no_mangle)]
pub extern "C" fn cuckoo_text_capacity(
    alloc: Global,
    handle: &mut CuckooTextHandle,
    slots: &mut u64,
) -> i32
    ensures called { Numbered result (λ code. Calls (λ c d. (r : Result ℕ Busy) × CapacityLeaves r c d
        × TellsCount r code slots.old slots.new)
        handle.old.held handle.new.held code) }
    ensures same { handle.old.held ≡ None → slots.new ≡ slots.old }
{
    calls::capacity(alloc, handle, slots).number()
}

/// Makes the table grow until it has so many slots.
#[unsafe(no_mangle)]
pub extern "C" fn cuckoo_text_reserve(
    alloc: Global,
    handle: &mut CuckooTextHandle,
    slots: u64,
) -> i32
    ensures { Numbered result (λ code. Calls (λ c d. (r : Result Bool GrowFault) × GrowthLeaves slots r c d
        × TellsGrown r code)
        handle.old.held handle.new.held code) }
{
    calls::reserve(alloc, handle, slots).number()
}

/// Unbinds all keys, at one moment.
#[unsafe(no_mangle)]
pub extern "C" fn cuckoo_text_clear(alloc: Global, handle: &mut CuckooTextHandle) -> i32
    ensures { Numbered result (λ code. Calls (λ c d. (r : Result (Unit {0}) Busy)
        × ClearLeaves r c d × TellsCleared r code) handle.old.held handle.new.held code) }
{
    sessions::clear(alloc, handle).number()
}

/// All pairs at one moment, in rising order of the keys.
#[unsafe(no_mangle)]
pub extern "C" fn cuckoo_text_export(
    alloc: Global,
    handle: &mut CuckooTextHandle,
    pairs: &mut CuckooTextPairs,
) -> i32
    ensures called { Numbered result (λ code. Calls (λ c d. ListsAt
        (Exports text_key.name text_ord.cmp) pairs.old.held pairs.new.held c d code)
        handle.old.held handle.new.held code) }
    ensures same { handle.old.held ≡ None → pairs.new.held ≡ pairs.old.held }
{
    sessions::export(alloc, handle, pairs).number()
}

/// The same, and unbinds all keys at that moment.
#[unsafe(no_mangle)]
pub extern "C" fn cuckoo_text_drain(
    alloc: Global,
    handle: &mut CuckooTextHandle,
    pairs: &mut CuckooTextPairs,
) -> i32
    ensures called { Numbered result (λ code. Calls (λ c d. ListsAt
        (Drains text_key.name text_ord.cmp) pairs.old.held pairs.new.held c d code)
        handle.old.held handle.new.held code) }
    ensures same { handle.old.held ≡ None → pairs.new.held ≡ pairs.old.held }
{
    sessions::drain(alloc, handle, pairs).number()
}

/// Frees the pairs.
#[unsafe(no_mangle)]
pub extern "C" fn cuckoo_text_pairs_close(alloc: Global, pairs: &mut CuckooTextPairs)
    ensures { pairs.new.held ≡ None }
{
    drop(take(pairs, alloc));
}

/// The next pair: the bytes of its key, and their number. `key` has room for 64.
#[unsafe(no_mangle)]
pub extern "C" fn cuckoo_text_pairs_next(
    alloc: Global,
    pairs: &mut CuckooTextPairs,
    key: &mut [u8],
    count: &mut usize,
    value: &mut u64,
) -> i32
    ensures room { length key.new ≡ length key.old }
    ensures small { length key.old < 64 → (result ≡ number_of codes.TooLong)
        × (pairs.new.held ≡ pairs.old.held) × (key.new ≡ key.old) × (count.new ≡ count.old)
        × (value.new ≡ value.old) }
    ensures told { 64 ≤ length key.old → Numbered result (λ code. (r : Option (BytesKey × ℕ))
        × TakesNextAt r pairs.old.held pairs.new.held
        × TellsTextPair r code key.old count.old value.old key.new count.new value.new) }
{
    if key.len() < MOST {
        return Code::TooLong.number();
    }
    match take_next(alloc, pairs) {
        Some((text, bound)) => {
            let bytes = text.0.as_bytes();
            key[..bytes.len()].copy_from_slice(bytes);
            *count = bytes.len();
            *value = bound;
            Code::Done.number()
        }
        None => Code::Absent.number(),
    }
}

/// The next pairs, as many as there are places for, in their order.
#[unsafe(no_mangle)]
pub extern "C" fn cuckoo_text_pairs_take(
    alloc: Global,
    pairs: &mut CuckooTextPairs,
    into: &mut [CuckooTextPair],
    taken: &mut u64,
) -> i32
    ensures length { length into.new ≡ length into.old }
    ensures taken { Numbered result (TakesSomeAt shown_text_pair pairs.old.held pairs.new.held
        into.old into.new taken.new) }
{
    take_some(alloc, pairs, into, taken).number()
}

/// Locks the table by the handle, which is in the locked table until it is unlocked.
#[unsafe(no_mangle)]
pub extern "C" fn cuckoo_text_lock(
    alloc: Global,
    handle: &mut CuckooTextHandle,
    locked: &mut CuckooTextLocked,
) -> i32
    ensures { Numbered result (LocksAt handle.old.held handle.new.held
        locked.old.held locked.new.held) }
{
    locked::lock(alloc, handle, locked).number()
}

/// Unlocks the table. All that was done to it is one entry, and the handle comes to this place.
#[unsafe(no_mangle)]
pub extern "C" fn cuckoo_text_unlock(
    alloc: Global,
    locked: &mut CuckooTextLocked,
    handle: &mut CuckooTextHandle,
) -> i32
    ensures { Numbered result (UnlocksAt locked.old.held locked.new.held
        handle.old.held handle.new.held) }
{
    locked::unlock(alloc, locked, handle).number()
}

/// Unlocks the table, and closes the handle.
#[unsafe(no_mangle)]
pub extern "C" fn cuckoo_text_locked_close(alloc: Global, locked: &mut CuckooTextLocked)
    ensures { locked.new.held ≡ None }
{
    opening::close(alloc, locked);
}

/// The value of the key in the locked table.
#[unsafe(no_mangle)]
pub extern "C" fn cuckoo_text_locked_find(
    alloc: Global,
    locked: &mut CuckooTextLocked,
    key: &[u8],
    value: &mut u64,
) -> i32
    ensures called { length key.now ≤ 64 → Numbered result (λ code. OnLocked
        (FindsLocked key.now code value.old value.new) locked.old.held locked.new.held code) }
    ensures too_long { 64 < length key.now → (result ≡ number_of codes.TooLong)
        × (locked.new.held ≡ locked.old.held) × (value.new ≡ value.old) }
    ensures same { locked.old.held ≡ None → value.new ≡ value.old }
{
    if key.len() > MOST {
        return Code::TooLong.number();
    }
    locked::find(alloc, locked, Bytes(key), value).number()
}

/// Binds an unbound key in the locked table.
#[unsafe(no_mangle)]
pub extern "C" fn cuckoo_text_locked_insert(
    alloc: Global,
    locked: &mut CuckooTextLocked,
    key: &[u8],
    value: u64,
) -> i32
    ensures called { length key.now ≤ 64 → Numbered result (λ code. OnLocked
        (InsertsLocked {K = BytesKey} text_hash key.now (record { 0 = key.now }) value code)
        locked.old.held locked.new.held code
        ⊎ (locked.new.held ≡ locked.old.held) × (code ≡ codes.Memory)) }
    ensures too_long { 64 < length key.now → (result ≡ number_of codes.TooLong)
        × (locked.new.held ≡ locked.old.held) }
{
    match key_of(alloc, key) {
        Ok(key) => locked::insert(alloc, locked, key, value).number(),
        Err(code) => code.number(),
    }
}

/// Binds the key in the locked table, and tells the value that it had.
#[unsafe(no_mangle)]
pub extern "C" fn cuckoo_text_locked_assign(
    alloc: Global,
    locked: &mut CuckooTextLocked,
    key: &[u8],
    value: u64,
    old: &mut u64,
) -> i32
    ensures called { length key.now ≤ 64 → Numbered result (λ code. OnLocked
        (AssignsLocked {K = BytesKey} text_hash key.now (record { 0 = key.now }) value code
        old.old old.new)
        locked.old.held locked.new.held code
        ⊎ (locked.new.held ≡ locked.old.held) × (code ≡ codes.Memory) × (old.new ≡ old.old)) }
    ensures too_long { 64 < length key.now → (result ≡ number_of codes.TooLong)
        × (locked.new.held ≡ locked.old.held) × (old.new ≡ old.old) }
    ensures same { locked.old.held ≡ None → old.new ≡ old.old }
{
    match key_of(alloc, key) {
        Ok(key) => locked::assign(alloc, locked, key, value, old).number(),
        Err(code) => code.number(),
    }
}

/// Unbinds the key in the locked table, and tells the value that it had.
#[unsafe(no_mangle)]
pub extern "C" fn cuckoo_text_locked_erase(
    alloc: Global,
    locked: &mut CuckooTextLocked,
    key: &[u8],
    value: &mut u64,
) -> i32
    ensures called { length key.now ≤ 64 → Numbered result (λ code. OnLocked
        (ErasesLocked key.now code value.old value.new) locked.old.held locked.new.held code) }
    ensures too_long { 64 < length key.now → (result ≡ number_of codes.TooLong)
        × (locked.new.held ≡ locked.old.held) × (value.new ≡ value.old) }
    ensures same { locked.old.held ≡ None → value.new ≡ value.old }
{
    if key.len() > MOST {
        return Code::TooLong.number();
    }
    locked::erase(alloc, locked, Bytes(key), value).number()
}

/// How many keys are bound in the locked table.
#[unsafe(no_mangle)]
pub extern "C" fn cuckoo_text_locked_len(
    alloc: Global,
    locked: &mut CuckooTextLocked,
    count: &mut u64,
) -> i32
    ensures called { Numbered result (λ code. OnLocked (CountsLocked code count.new)
        locked.old.held locked.new.held code) }
    ensures same { locked.old.held ≡ None → count.new ≡ count.old }
{
    locked::len(alloc, locked, count).number()
}

/// Unbinds all keys of the locked table.
#[unsafe(no_mangle)]
pub extern "C" fn cuckoo_text_locked_clear(alloc: Global, locked: &mut CuckooTextLocked) -> i32
    ensures { Numbered result (λ code. OnLocked (ClearsLocked code)
        locked.old.held locked.new.held code) }
{
    locked::clear(alloc, locked).number()
}

/// All pairs of the locked table, in rising order of the keys.
#[unsafe(no_mangle)]
pub extern "C" fn cuckoo_text_locked_export(
    alloc: Global,
    locked: &mut CuckooTextLocked,
    pairs: &mut CuckooTextPairs,
) -> i32
    ensures called { Numbered result (λ code. OnLocked
        (ListsLocked text_key.name text_ord.cmp pairs.old.held pairs.new.held code)
        locked.old.held locked.new.held code) }
    ensures same { locked.old.held ≡ None → pairs.new.held ≡ pairs.old.held }
{
    locked::export(alloc, locked, pairs).number()
}
