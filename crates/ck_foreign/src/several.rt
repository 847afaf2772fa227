//! Calls on several keys that are numbers, at one moment.
ghost use Rattle.std.specs.Prelude.{◌≡◌, ◌≢◌, ◌∷◌, [], ℕ, ◌<◌, ◌≤◌, Bool, Option, Result, IsSome, All, length, map};
ghost use Rattle.std.specs.Bool.{OnTrue, OnFalse};
ghost use Rattle.ck_key.specs.Hashes.{mixed_hash};
ghost use Rattle.ck_refusal.specs.declared.refusal.KeysRefused.{KeysRefused};
ghost use Rattle.cuckoo_map.specs.Callers.{KeysLeave};
ghost use Rattle.cuckoo_map.specs.SeveralKeys.{ModifiesAll};
ghost use Rattle.ck_foreign.specs.Codes.{TellsChange};
ghost use Rattle.ck_foreign.specs.Handles.{Calls};
ghost use Rattle.ck_foreign.specs.Several.{CallsOnFew, FindsEntries, ChangesKeys, ChangesEach, ShowsEach, showing, changed_by, swapped, moved};
ghost use Rattle.ck_foreign.specs.declared.code.Code.TheVariants as codes;

use crate::calls;
use crate::code::Code;
use crate::handles::CuckooHandle;
use crate::keys::NumberKey;
use ck_owned::{put, take};
use cuckoo_map::{Query, TableKey};
use std::alloc::Global;

/// A key, and what was found of it.
#[repr(C)]
#[derive(Clone, Copy)]
pub struct CuckooEntry {
    pub key: u64,
    /// Its value, where it is bound.
    pub value: u64,
    /// 1 where it is bound, and else 0.
    pub bound: u64,
}

/// A key, the value that is expected of it, and its new one.
#[repr(C)]
#[derive(Clone, Copy)]
pub struct CuckooChange {
    pub key: u64,
    pub from: u64,
    pub to: u64,
}

/// A key, what is taken from its value, and what is put to it.
#[repr(C)]
#[derive(Clone, Copy)]
pub struct CuckooPart {
    pub key: u64,
    pub take: u64,
    pub put: u64,
}

// What is to be done to the value of a key.
pub trait Change: Query<NumberKey> {
    ghost made: { Self → ℕ → Option ℕ };

    // The value that this one becomes; `None` where it may not become one.
    fn changed(&self, value: u64) -> Option<u64>
        ensures { result ≡ made self.now value };
}

impl Change for CuckooChange {
    ghost made = { swapped };

    fn changed(&self, value: u64) -> Option<u64> {
        (value == self.from).then_some(self.to)
    }
}

impl Change for CuckooPart {
    ghost made = { moved };

    fn changed(&self, value: u64) -> Option<u64> {
        value.checked_sub(self.take)?.checked_add(self.put)
    }
}

impl Query<NumberKey> for CuckooEntry {
    ghost name = { λ q. q.key ∷ [] };

    fn hash64(&self) -> u64 {
        NumberKey(self.key).hash64()
    }

    fn is_name_of(&self, key: &NumberKey) -> bool {
        key.0 == self.key
    }

    fn is_same_name(&self, other: &CuckooEntry) -> bool {
        self.key == other.key
    }
}

impl Query<NumberKey> for CuckooChange {
    ghost name = { λ q. q.key ∷ [] };

    fn hash64(&self) -> u64 {
        NumberKey(self.key).hash64()
    }

    fn is_name_of(&self, key: &NumberKey) -> bool {
        key.0 == self.key
    }

    fn is_same_name(&self, other: &CuckooChange) -> bool {
        self.key == other.key
    }
}

impl Query<NumberKey> for CuckooPart {
    ghost name = { λ q. q.key ∷ [] };

    fn hash64(&self) -> u64 {
        NumberKey(self.key).hash64()
    }

    fn is_name_of(&self, key: &NumberKey) -> bool {
        key.0 == self.key
    }

    fn is_same_name(&self, other: &CuckooPart) -> bool {
        self.key == other.key
    }
}

/// The values of the keys.
pub fn find_all(alloc: Global, handle: &mut CuckooHandle, entries: &mut [CuckooEntry]) -> Code
    ensures length { length entries.new ≡ length entries.old }
    ensures called { CallsOnFew (length entries.old) (FindsEntries entries.old entries.new result)
        handle.old.held handle.new.held result }
    ensures kept { result ≢ codes.Done → entries.new ≡ entries.old }
{
    if !is_few(entries.len()) {
        return Code::Count;
    }
    let mut values = [None; 8];
    let values = &mut values[..entries.len()];
    let code = calls::find_all(alloc, handle, entries, values);
    if code == Code::Done {
        show_each(values, entries);
    }
    code
}

// Whether a call may be on so many keys.
fn is_few(count: usize) -> bool
    ensures few { OnTrue result ((0 < count) × (count ≤ 8)) }
    ensures many { OnFalse result (¬ ((0 < count) × (count ≤ 8))) }
{
    0 < count && count <= 8
}

// Writes the values where their keys stand.
fn show_each(values: &[Option<u64>], entries: &mut [CuckooEntry])
    requires { length values.now ≡ length entries.old }
    ensures length { length entries.new ≡ length entries.old }
    ensures shown { ShowsEach values.now entries.old entries.new }
{
    for i in 0..entries.len() {
        entries[i] = shown(entries[i], values[i]);
    }
}

// The entry of a key with this value.
fn shown(entry: CuckooEntry, value: Option<u64>) -> CuckooEntry
    ensures { result ≡ showing value entry }
{
    match value {
        Some(value) => CuckooEntry {
            value,
            bound: 1,
            ..entry
        },
        None => CuckooEntry { bound: 0, ..entry },
    }
}

/// Changes the value of each key, where each may be changed so. Else it answers `declined`.
pub fn change_all<C: Change>(
    alloc: Global,
    handle: &mut CuckooHandle,
    changes: &[C],
    declined: Code,
) -> Code
    ensures { CallsOnFew (length changes.now)
        (ChangesKeys C.made (map C.Query.name changes.now) changes.now declined result)
        handle.old.held handle.new.held result }
{
    if !is_few(changes.len()) {
        return Code::Count;
    }
    let mut values = [0; 8];
    change_values(
        alloc,
        handle,
        changes,
        &mut values[..changes.len()],
        declined,
    )
}

// The same for so few of them, whose values go through these places.
fn change_values<C: Change>(
    alloc: Global,
    place: &mut CuckooHandle,
    changes: &[C],
    values: &mut [u64],
    declined: Code,
) -> Code
    requires some { 0 < length changes.now }
    requires few { length changes.now ≤ 8 }
    requires as_many { length values.old ≡ length changes.now }
    ensures { Calls (λ c d. (r : Result (Option Bool) KeysRefused)
        × KeysLeave (ModifiesAll (ChangesEach C.made changes.now) values.new)
        mixed_hash (map C.Query.name changes.now) r c d × TellsChange declined r result)
        place.old.held place.new.held result }
{
    let Some(handle) = take(place, alloc) else {
        return Code::Closed;
    };
    let mut handle = handle;
    let change = |values: &mut [u64]| change_each(values, changes);
    let changed = handle.modify_all(changes, values, change);
    put(place, alloc, handle);
    match changed {
        Ok(Some(true)) => Code::Done,
        Ok(Some(false)) => declined,
        Ok(None) => Code::Absent,
        Err(why) => Code::of_keys(why),
    }
}

// Changes each value, where each may be changed so, and says whether it did.
fn change_each<C: Change>(values: &mut [u64], changes: &[C]) -> bool
    ensures { ChangesEach C.made changes.now values.old result values.new }
{
    if !may_change(values, changes) {
        return false;
    }
    for i in 0..values.len() {
        if let Some(value) = changes[i].changed(values[i]) {
            values[i] = value;
        }
    }
    true
}

// Whether each value may be changed so.
fn may_change<C: Change>(values: &[u64], changes: &[C]) -> bool
    ensures all { OnTrue result (All IsSome (changed_by C.made changes.now values.now)) }
    ensures not_all { OnFalse result
        (¬ (All IsSome (changed_by C.made changes.now values.now))) }
{
    if values.len() != changes.len() {
        return false;
    }
    for i in 0..values.len() {
        if changes[i].changed(values[i]).is_none() {
            return false;
        }
    }
    true
}
