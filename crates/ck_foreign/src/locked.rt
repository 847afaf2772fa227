//! What is done to a locked table, once for all types of keys. Its handle is in it meanwhile, so the
//! handle's place is closed. The block of the handle's box is kept, so that no memory is needed to
//! put the handle back.
ghost use Rattle.std.specs.Prelude.{◌≡◌, Some, None, OnErr, IfOk};
ghost use Rattle.std.specs.FinMap.{get, len};
ghost use Rattle.ck_model.specs.declared.history.Reply.TheVariants.{Closed};
ghost use Rattle.ck_model.specs.Listing.{ListsInOrder};
ghost use Rattle.ck_section.specs.Acts.{Inserts, Assigns, Erases};
ghost use Rattle.cuckoo_map.specs.Callers.{IsSameCaller, Replies};
ghost use Rattle.cuckoo_map.specs.Locking.{map_of, session_call, HasChanged, EndsSession, EndsNotes, Clears, LockedInsertionLeaves};
ghost use Rattle.ck_foreign.specs.declared.code.Code.TheVariants as codes;
ghost use Rattle.ck_foreign.specs.Codes.{TellsOld};
ghost use Rattle.ck_foreign.specs.Sessions.{LocksAt, UnlocksAt, OnLocked, FindsLocked, InsertsLocked, AssignsLocked, ErasesLocked, CountsLocked, ClearsLocked, ListsLocked};

use crate::calls::{fresh_code, told};
use crate::code::Code;
use crate::opening::is_open;
use crate::pairs::Pairs;
use crate::sessions::room_for;
use ck_owned::{Holds, Space, put, put_in, take, take_out};
use cuckoo_map::{Handle, LockedHandle, NotLocked, Query, Refused, TableKey};
use std::alloc::{AllocError, Global};
use std::marker::Model;

/// A locked table, with the block in which its handle was. Contracts see the table. Dropped, it
/// unlocks the table, and the handle ends.
pub struct Session<K: TableKey> {
    locked: LockedHandle<K, u64>,
    home: Space<Handle<K, u64>>,
    alloc: Global,
}

impl<K: TableKey> Model for Session<K> {
    ghost use Rattle.std.specs.Prelude.{ℕ};
    ghost use Rattle.cuckoo_map.specs.Locking.{LockedState};

    ghost Value = { LockedState ℕ };

    ghost view = { λ s. s.locked };
}

impl<K: TableKey + Drop> Drop for Session<K> {
    fn drop(self) {
        let Session {
            locked,
            home,
            alloc,
        } = self;
        drop(locked.unlock_caller());
        home.free(alloc);
    }
}

impl<K: TableKey + Drop> Session<K> {
    // Unlocks the table, and gives its handle with the block in which that was.
    fn unlock(self) -> (Handle<K, u64>, Space<Handle<K, u64>>)
        ensures same { IsSameCaller self.caller result.0 }
        ensures answered { Replies (session_call self) self.caller result.0 Closed }
        ensures follows { EndsSession self result.0.client }
        ensures notes { EndsNotes self result.0 }
    {
        let Session {
            locked,
            home,
            alloc: _,
        } = self;
        (locked.unlock_caller(), home)
    }

    // The value of the key.
    fn find<Q: Query<K>>(&self, key: Q) -> Option<u64>
        ensures { result ≡ get (map_of self.now) (Q.name key) }
    {
        self.locked.find(key).copied()
    }

    // Binds the key to the value where it is unbound.
    fn insert(&mut self, key: K, value: u64) -> Result<bool, Refused<K, u64>>
        ensures { LockedInsertionLeaves (Inserts value)
            K.hash (K.name key) key value result self.old self.new }
    {
        self.locked.insert(key, value)
    }

    // Binds the key to the value, and gives the one that it had.
    fn assign(&mut self, key: K, value: u64) -> Result<Option<u64>, Refused<K, u64>>
        ensures { LockedInsertionLeaves (Assigns value)
            K.hash (K.name key) key value result self.old self.new }
    {
        self.locked.insert_or_assign(key, value)
    }

    // Unbinds the key, and gives the value that it had.
    fn erase<Q: Query<K>>(&mut self, key: Q) -> Option<u64>
        ensures { Erases (HasChanged (Q.name key) self.old self.new) result }
    {
        self.locked.erase(key)
    }

    // How many keys are bound.
    fn len(&self) -> u64
        ensures { result ≡ len (map_of self.now) }
    {
        self.locked.len()
    }

    // Unbinds all keys.
    fn clear(&mut self)
        ensures { Clears self.old self.new }
    {
        self.locked.clear();
    }
}

impl<K: TableKey + Clone + Drop> Session<K> {
    // All pairs, in rising order of the keys.
    fn export(&self, alloc: Global) -> Result<Pairs<K>, AllocError>
        requires { (x y : K) → K.is_clone x y → y ≡ x }
        ensures { IfOk result (λ pairs. ListsInOrder K.name K.cmp pairs (map_of self.now)) }
    {
        Ok(Pairs::of(self.locked.export(alloc)?))
    }
}

/// Locks the table by the handle of the place. The locked table goes to its own place, which has
/// none.
pub fn lock<K: TableKey + Drop, P: Holds<Handle<K, u64>>, L: Holds<Session<K>>>(
    alloc: Global,
    place: &mut P,
    locked: &mut L,
) -> Code
    ensures { LocksAt (P.held place.old) (P.held place.new)
        (L.held locked.old) (L.held locked.new) result }
{
    let Some((handle, home)) = take_out(place, alloc) else {
        return Code::Closed;
    };
    if is_open(alloc, locked) {
        put_in(place, alloc, home, handle);
        return Code::Open;
    }
    let Some(room) = Space::new(alloc) else {
        put_in(place, alloc, home, handle);
        return Code::Memory;
    };
    match handle.lock() {
        Ok(table) => {
            let session = Session {
                locked: table,
                home,
                alloc,
            };
            put_in(locked, alloc, room, session);
            Code::Done
        }
        Err(NotLocked { caller, .. }) => {
            put_in(place, alloc, home, caller);
            room.free(alloc);
            Code::Busy
        }
    }
}

/// Unlocks the table of the place. Its handle goes to a place of handles, which is closed.
pub fn unlock<K: TableKey + Drop, P: Holds<Handle<K, u64>>, L: Holds<Session<K>>>(
    alloc: Global,
    locked: &mut L,
    place: &mut P,
) -> Code
    ensures { UnlocksAt (L.held locked.old) (L.held locked.new)
        (P.held place.old) (P.held place.new) result }
{
    let Some((session, room)) = take_out(locked, alloc) else {
        return Code::Closed;
    };
    if is_open(alloc, place) {
        put_in(locked, alloc, room, session);
        return Code::Open;
    }
    let (handle, home) = session.unlock();
    put_in(place, alloc, home, handle);
    room.free(alloc);
    Code::Done
}

/// The value of the key.
pub fn find<K: TableKey + Drop, L: Holds<Session<K>>, Q: Query<K>>(
    alloc: Global,
    place: &mut L,
    key: Q,
    value: &mut u64,
) -> Code
    ensures called { OnLocked (FindsLocked (Q.name key) result value.old value.new)
        (L.held place.old) (L.held place.new) result }
    ensures same { L.held place.old ≡ None → value.new ≡ value.old }
{
    let Some(session) = take(place, alloc) else {
        return Code::Closed;
    };
    let found = session.find(key);
    put(place, alloc, session);
    told(Ok(found), value)
}

/// Binds the key to the value where it is unbound.
pub fn insert<K: TableKey + Drop, L: Holds<Session<K>>>(
    alloc: Global,
    place: &mut L,
    key: K,
    value: u64,
) -> Code
    ensures { OnLocked (InsertsLocked K.hash (K.name key) key value result)
        (L.held place.old) (L.held place.new) result }
{
    let Some(session) = take(place, alloc) else {
        return Code::Closed;
    };
    let mut session = session;
    let fresh = session.insert(key, value);
    put(place, alloc, session);
    fresh_code(fresh)
}

/// Binds the key to the value, and tells the value that it had.
pub fn assign<K: TableKey + Drop, L: Holds<Session<K>>>(
    alloc: Global,
    place: &mut L,
    key: K,
    value: u64,
    old: &mut u64,
) -> Code
    ensures called { OnLocked (AssignsLocked K.hash (K.name key) key value result old.old old.new)
        (L.held place.old) (L.held place.new) result }
    ensures same { L.held place.old ≡ None → old.new ≡ old.old }
{
    let Some(session) = take(place, alloc) else {
        return Code::Closed;
    };
    let mut session = session;
    let assigned = session.assign(key, value);
    put(place, alloc, session);
    assigned_code(assigned, old)
}

// The code of an assignment, which tells the value that the key had.
fn assigned_code<K: Drop>(assigned: Result<Option<u64>, Refused<K, u64>>, old: &mut u64) -> Code
    ensures { TellsOld assigned result old.old old.new }
{
    match assigned {
        Ok(None) => Code::Done,
        Ok(Some(value)) => {
            *old = value;
            Code::Present
        }
        Err(refused) => Code::of_why(refused.why),
    }
}

/// Unbinds the key, and tells the value that it had.
pub fn erase<K: TableKey + Drop, L: Holds<Session<K>>, Q: Query<K>>(
    alloc: Global,
    place: &mut L,
    key: Q,
    value: &mut u64,
) -> Code
    ensures called { OnLocked (ErasesLocked (Q.name key) result value.old value.new)
        (L.held place.old) (L.held place.new) result }
    ensures same { L.held place.old ≡ None → value.new ≡ value.old }
{
    let Some(session) = take(place, alloc) else {
        return Code::Closed;
    };
    let mut session = session;
    let erased = session.erase(key);
    put(place, alloc, session);
    told(Ok(erased), value)
}

/// How many keys are bound.
pub fn len<K: TableKey + Drop, L: Holds<Session<K>>>(
    alloc: Global,
    place: &mut L,
    count: &mut u64,
) -> Code
    ensures called { OnLocked (CountsLocked result count.new)
        (L.held place.old) (L.held place.new) result }
    ensures same { L.held place.old ≡ None → count.new ≡ count.old }
{
    let Some(session) = take(place, alloc) else {
        return Code::Closed;
    };
    *count = session.len();
    put(place, alloc, session);
    Code::Done
}

/// Unbinds all keys.
pub fn clear<K: TableKey + Drop, L: Holds<Session<K>>>(alloc: Global, place: &mut L) -> Code
    ensures { OnLocked (ClearsLocked result) (L.held place.old) (L.held place.new) result }
{
    let Some(session) = take(place, alloc) else {
        return Code::Closed;
    };
    let mut session = session;
    session.clear();
    put(place, alloc, session);
    Code::Done
}

/// Gives all pairs, in rising order of the keys, to the place of a list, which has none. The table
/// stays locked.
pub fn export<K: TableKey + Clone + Drop, L: Holds<Session<K>>, P: Holds<Pairs<K>>>(
    alloc: Global,
    place: &mut L,
    list: &mut P,
) -> Code
    requires { (x y : K) → K.is_clone x y → y ≡ x }
    ensures called { OnLocked (ListsLocked K.name K.cmp (P.held list.old) (P.held list.new) result)
        (L.held place.old) (L.held place.new) result }
    ensures same { L.held place.old ≡ None → P.held list.new ≡ P.held list.old }
{
    let Some(session) = take(place, alloc) else {
        return Code::Closed;
    };
    let code = match room_for(alloc, list) {
        Ok(room) => listed(alloc, list, room, session.export(alloc)),
        Err(code) => code,
    };
    put(place, alloc, session);
    code
}

// The code of an export, whose pairs go to their place in this box.
fn listed<K: Drop, P: Holds<Pairs<K>>>(
    alloc: Global,
    list: &mut P,
    room: Box<Pairs<K>, Global>,
    pairs: Result<Pairs<K>, AllocError>,
) -> Code
    ensures ok { IfOk pairs (λ pairs. (P.held list.new ≡ Some pairs) × (result ≡ codes.Done)) }
    ensures err { OnErr pairs ((P.held list.new ≡ P.held list.old) × (result ≡ codes.Memory)) }
{
    let Ok(pairs) = pairs else {
        return Code::Memory;
    };
    let mut room = room;
    *room = pairs;
    put(list, alloc, room);
    Code::Done
}
