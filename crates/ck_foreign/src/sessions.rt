//! What is done to the whole table through a handle, once for all types of keys. A lock takes the
//! handle by value, so it leaves its box for that; the box is kept, so that no memory is needed to
//! put the handle back.
ghost use Rattle.std.specs.Prelude.{◌≡◌, Result, Option, Some, None, MatchResult};
ghost use Rattle.ck_refusal.specs.declared.refusal.Busy.{Busy};
ghost use Rattle.cuckoo_map.specs.Callers.{Drains};
ghost use Rattle.ck_foreign.specs.Handles.{Calls};
ghost use Rattle.ck_foreign.specs.Openings.{ClearLeaves, TellsCleared, Exports, ListLeaves, ListsAt, TellsList, TellsNoPlace, TellsNoSession};

use crate::code::Code;
use crate::pairs::Pairs;
use ck_owned::{Holds, put, take};
use core::mem::replace_with;
use cuckoo_map::{Busy, DrainFault, Handle, NotDrained, NotLocked, TableKey};
use std::alloc::Global;

/// Unbinds all keys.
pub fn clear<K: TableKey + Drop, P: Holds<Handle<K, u64>>>(alloc: Global, place: &mut P) -> Code
    ensures { Calls (λ c d. (r : Result (Unit {0}) Busy) × ClearLeaves r c d
        × TellsCleared r result)
        (P.held place.old) (P.held place.new) result }
{
    let Some(handle) = take(place, alloc) else {
        return Code::Closed;
    };
    let mut handle = handle;
    let cleared = replace_with(&mut *handle, (), clear_by);
    put(place, alloc, handle);
    cleared_code(cleared)
}

// Unbinds all keys by this handle, in one session.
fn clear_by<K: TableKey + Drop>(
    handle: Handle<K, u64>,
    (): (),
) -> (Handle<K, u64>, Result<(), Busy>)
    ensures { ClearLeaves result.1 handle result.0 }
{
    match handle.lock() {
        Ok(locked) => {
            let mut locked = locked;
            locked.clear();
            (locked.unlock_caller(), Ok(()))
        }
        Err(NotLocked { caller, busy }) => (caller, Err(busy)),
    }
}

// The code of a clearing.
fn cleared_code(cleared: Result<(), Busy>) -> Code
    ensures { TellsCleared cleared result }
{
    match cleared {
        Ok(()) => Code::Done,
        Err(_) => Code::Busy,
    }
}

/// Gives all pairs, in rising order of the keys, to the place of a list, which has none.
pub fn export<K: TableKey + Clone + Drop, P: Holds<Handle<K, u64>>, L: Holds<Pairs<K>>>(
    alloc: Global,
    place: &mut P,
    list: &mut L,
) -> Code
    requires { (x y : K) → K.is_clone x y → y ≡ x }
    ensures called { Calls (λ c d. ListsAt (Exports K.name K.cmp)
        (L.held list.old) (L.held list.new) c d result)
        (P.held place.old) (P.held place.new) result }
    ensures same { P.held place.old ≡ None → L.held list.new ≡ L.held list.old }
{
    match take_both(alloc, place, list) {
        Ok((handle, room)) => {
            let mut handle = handle;
            let exported = replace_with(&mut *handle, alloc, export_by);
            put(place, alloc, handle);
            list_code(alloc, list, room, exported)
        }
        Err(code) => code,
    }
}

// The pairs by this handle, in one session.
fn export_by<K: TableKey + Clone + Drop>(
    handle: Handle<K, u64>,
    alloc: Global,
) -> (Handle<K, u64>, Result<Pairs<K>, DrainFault>)
    requires { (x y : K) → K.is_clone x y → y ≡ x }
    ensures { ListLeaves (Exports K.name K.cmp) result.1 handle result.0 }
{
    match handle.lock() {
        Ok(locked) => {
            let exported = locked.export(alloc);
            let handle = locked.unlock_caller();
            match exported {
                Ok(pairs) => (handle, Ok(Pairs::of(pairs))),
                Err(_) => (handle, Err(DrainFault::Memory)),
            }
        }
        Err(NotLocked { caller, busy }) => (caller, Err(DrainFault::Busy(busy.0))),
    }
}

/// Unbinds all keys, and gives all pairs, in rising order of the keys, to the place of a list, which
/// has none.
pub fn drain<K: TableKey + Drop, P: Holds<Handle<K, u64>>, L: Holds<Pairs<K>>>(
    alloc: Global,
    place: &mut P,
    list: &mut L,
) -> Code
    ensures called { Calls (λ c d. ListsAt (Drains K.name K.cmp)
        (L.held list.old) (L.held list.new) c d result)
        (P.held place.old) (P.held place.new) result }
    ensures same { P.held place.old ≡ None → L.held list.new ≡ L.held list.old }
{
    match take_both(alloc, place, list) {
        Ok((handle, room)) => {
            let mut handle = handle;
            let drained = replace_with(&mut *handle, alloc, drain_by);
            put(place, alloc, handle);
            list_code(alloc, list, room, drained)
        }
        Err(code) => code,
    }
}

// Unbinds all keys by this handle, in one session, and gives the pairs.
fn drain_by<K: TableKey + Drop>(
    handle: Handle<K, u64>,
    alloc: Global,
) -> (Handle<K, u64>, Result<Pairs<K>, DrainFault>)
    ensures { ListLeaves (Drains K.name K.cmp) result.1 handle result.0 }
{
    match handle.drain(alloc) {
        Ok((handle, pairs)) => (handle, Ok(Pairs::of(pairs))),
        Err(NotDrained { caller, why }) => (caller, Err(why)),
    }
}

// The handle of the place, and a box for the list that is to come to its place.
fn take_both<T: Drop, P: Holds<T>, K: Drop, L: Holds<Pairs<K>>>(
    alloc: Global,
    place: &mut P,
    list: &mut L,
) -> Result<(Box<T, Global>, Box<Pairs<K>, Global>), Code>
    ensures list { L.held list.new ≡ L.held list.old }
    ensures taken { MatchResult result
        (λ both. (P.held place.old ≡ Some both.0.value) × (P.held place.new ≡ None)
        × (L.held list.old ≡ None))
        (λ code. (P.held place.new ≡ P.held place.old)
        × TellsNoSession (P.held place.old) (L.held list.old) code) }
{
    let Some(handle) = take(place, alloc) else {
        return Err(Code::Closed);
    };
    match room_for(alloc, list) {
        Ok(room) => Ok((handle, room)),
        Err(code) => {
            put(place, alloc, handle);
            Err(code)
        }
    }
}

/// A box for a list that is to come to the place. It is had before the table is locked, so that no
/// pairs that were taken out are lost for want of memory.
pub fn room_for<K: Drop, L: Holds<Pairs<K>>>(
    alloc: Global,
    list: &mut L,
) -> Result<Box<Pairs<K>, Global>, Code>
    ensures kept { L.held list.new ≡ L.held list.old }
    ensures told { MatchResult result (λ _. L.held list.old ≡ None)
        (TellsNoPlace (L.held list.old)) }
{
    if let Some(pairs) = take(list, alloc) {
        put(list, alloc, pairs);
        return Err(Code::Open);
    }
    match Box::new(alloc, Pairs::of(Vec::new(alloc))) {
        Ok(room) => Ok(room),
        Err(_) => Err(Code::Memory),
    }
}

// The code of an export or a drain, whose pairs go to their place in this box.
fn list_code<K: Drop, L: Holds<Pairs<K>>>(
    alloc: Global,
    list: &mut L,
    room: Box<Pairs<K>, Global>,
    pairs: Result<Pairs<K>, DrainFault>,
) -> Code
    ensures { TellsList pairs result (L.held list.old) (L.held list.new) }
{
    match pairs {
        Ok(pairs) => {
            let mut room = room;
            *room = pairs;
            put(list, alloc, room);
            Code::Done
        }
        Err(DrainFault::Busy(_)) => Code::Busy,
        Err(DrainFault::Memory) => Code::Memory,
    }
}
