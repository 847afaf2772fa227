//! The whole table under one caller.
ghost use Rattle.std.specs.Prelude.{◌≡◌, ◌≤◌, ◌^◌, length, IfOk, IfErr, nat_eq, is_some};
ghost use Rattle.std.specs.Option.{option_copied};
ghost use Rattle.std.specs.FinMap.{get, len};
ghost use Rattle.ck_model.specs.declared.history.Reply.TheVariants.{Closed};
ghost use Rattle.ck_model.specs.Promise.{Replied};
ghost use Rattle.ck_model.specs.Listing.{ListsInOrder};
ghost use Rattle.ck_model.specs.Ranges.{AreInRange};
ghost use Rattle.ck_bucket.specs.Bucket.{ClonesAreEqual};
ghost use Rattle.ck_section.specs.Places.{IsPlaceOf};
ghost use Rattle.ck_core.specs.State.{client_of, found_held};
ghost use Rattle.ck_core.specs.Trace.{missed_in};
ghost use Rattle.ck_words.specs.Retries.{FindsAmong};
ghost use Rattle.ck_words.specs.Closing.{IsCaller};
ghost use Rattle.cuckoo_map.specs.Refusals.{IsStripeIn, IsBusyAmong};
ghost use Rattle.cuckoo_map.specs.Callers.{caller_of, IsSameCaller};
ghost use Rattle.cuckoo_map.specs.Locking.{map_of, locked_of, session_call, IsLocked, EndsSession, EndsNotes, HasLocked, Lists};

use crate::caller::CallerOn;
use crate::table::Table;
use crate::table_ref::TableRef;
use ck_key::{Query, TableKey};
use ck_model::settings::Settings;
use ck_refusal::Busy;
use ck_section::{Iter, KeyPlace, export, find_in_all, key_place_in_all};
use ck_stripe::Stripe;
use ck_words::{Pass, Whole, guard};
use std::alloc::{AllocError, Global};
use std::marker::Model;

mod changes;
mod growth;
mod insertions;
mod pairs;

pub(crate) use insertions::make_in;

/// A table under one caller: its calls find every stripe free, and no other caller is in a call.
/// Until it is unlocked, all others find the stripes held. It can't be dropped, so a program that
/// doesn't unlock it doesn't compile.
///
/// What is done to it is one entry of its caller, a session, from the map as it was when the table
/// was locked to the map when it is unlocked. Contracts see the caller, what all stripes contained
/// when it locked the table, and the stripes as they are.
///
/// Its calls are as those of a [`Caller`](crate::Caller) are, and are never refused as busy. An
/// insertion may be refused as `Memory`, `Full` or `LoadTooLow`, and doubles the table only where no
/// displacement makes room; the table stays locked. Of the other calls only `rehash` and `reserve`
/// change the number of buckets.
pub struct LockedOn<T: TableRef<K, V>, K: TableKey, V> {
    pub(crate) table: T,
    pub(crate) whole: Whole<K, V>,
}

/// A table under a caller that borrows it.
pub type LockedTable<'t, K, V> = LockedOn<&'t Table<K, V>, K, V>;

impl<T: TableRef<K, V>, K: TableKey, V> Model for LockedOn<T, K, V> {
    ghost use Rattle.cuckoo_map.specs.Locking.{LockedState, IsLocked, locked_of};

    ghost Value = { LockedState V };

    ghost view = { λ l. locked_of (T.state l.table) l.whole };

    ghost invariant = { λ l. IsLocked K.hash (T.state l.table) l.whole };
}

impl<K: TableKey + Drop, V: Drop> Table<K, V> {
    /// `Caller::lock`, by a pass, which comes back where it is refused.
    pub fn lock_table<'t>(
        &'t self,
        pass: Pass<K, V>,
    ) -> Result<LockedTable<'t, K, V>, (Pass<K, V>, Busy)>
        requires { IsCaller self.now pass }
        ensures locked { IfOk result (HasLocked self.now pass) }
        ensures caller { IfErr result (λ back. IsCaller self.now back.0) }
        ensures busy { IfErr result (λ back. IsBusyAmong (IsStripeIn self.now.settings)
            self.now.settings back.1.0 pass back.0) }
        ensures found { IfErr result (λ back.
            FindsAmong (IsStripeIn self.now.settings) pass back.0) }
    {
        let whole = self.lock_whole(pass)?;
        Ok(LockedOn { table: self, whole })
    }

    // All stripes of the table, which the pass takes, out of their slots.
    pub(crate) fn lock_whole(&self, pass: Pass<K, V>) -> Result<Whole<K, V>, (Pass<K, V>, Busy)>
        requires { IsCaller self.now pass }
        ensures locked { IfOk result (λ whole. IsLocked K.hash self.now whole
            × HasLocked self.now pass (locked_of self.now whole)) }
        ensures caller { IfErr result (λ back. IsCaller self.now back.0) }
        ensures busy { IfErr result (λ back. IsBusyAmong (IsStripeIn self.now.settings)
            self.now.settings back.1.0 pass back.0) }
        ensures found { IfErr result (λ back.
            FindsAmong (IsStripeIn self.now.settings) pass back.0) }
    {
        let mut pass = pass;
        match self.lock_all(&mut pass) {
            Ok(()) => {
                self.words.settle_whole(&mut pass);
                Ok(self.words.lift(pass))
            }
            Err(busy) => Err((pass, busy)),
        }
    }
}

impl<T: TableRef<K, V> + Drop, K: TableKey + Drop, V: Drop> LockedOn<T, K, V> {
    /// The value of the key; `None` where the key is unbound.
    pub fn find<Q: Query<K>>(&self, key: Q) -> Option<&V>
        ensures { option_copied result ≡ get (map_of self.now) (Q.name key) }
    {
        find_in_all(stripes_of(&self.whole), self.key_place(key), key)
    }

    /// Whether the key is bound.
    pub fn contains<Q: Query<K>>(&self, key: Q) -> bool
        ensures { result ≡ is_some (get (map_of self.now) (Q.name key)) }
    {
        self.find(key).is_some()
    }

    // Where the key may be among the stripes.
    pub(crate) fn key_place<Q: Query<K>>(&self, key: Q) -> KeyPlace
        ensures place { IsPlaceOf K.hash self.now.stripes (Q.name key) result }
        ensures s { result.s ≡ self.now.caller.table.settings.s }
    {
        key_place_in_all(stripes_of(&self.whole), self.settings().s, key)
    }

    // The settings of the table.
    pub(crate) fn settings(&self) -> Settings
        ensures value { result ≡ self.now.caller.table.settings }
        ensures range { AreInRange result }
    {
        self.table.table().words.settings()
    }

    /// How many keys are bound.
    pub fn len(&self) -> u64
        ensures { result ≡ len (map_of self.now) }
    {
        ck_stripe::entries(stripes_of(&self.whole)) as u64
    }

    /// Whether no key is bound.
    pub fn is_empty(&self) -> bool
        ensures { result ≡ nat_eq (len (map_of self.now)) 0 }
    {
        self.len() == 0
    }

    /// All keys with their values, each once, in no particular order. It takes no memory.
    ///
    /// ```
    /// let mut sum: u64 = 0;
    /// for (_, value) in locked.iter() {
    ///     sum = sum.wrapping_add(*value);
    /// }
    /// ```
    pub fn iter(&self) -> Iter<'_, K, V>
        ensures pairs { Lists result (map_of self.now) }
        ensures few { length result ≤ 2 ^ 38 }
    {
        Iter::new(stripes_of(&self.whole))
    }

    /// Unlocks the table, by which all that was done to it becomes one entry of the history. No
    /// other stands between what was seen when the table was locked and this one.
    pub fn unlock(self) -> Pass<K, V>
        ensures caller { IsCaller self.caller.table result }
        ensures same { IsSameCaller self.caller (caller_of self.caller.table result) }
        ensures answered { Replied (session_call self) Closed
            self.caller.client (client_of result.view) }
        ensures follows { EndsSession self (client_of result.view) }
        ensures notes { EndsNotes self (caller_of self.caller.table result) }
        ensures found { found_held result.view ≡ missed_in self.caller.notes.steps }
    {
        self.unlock_caller().into_pass()
    }

    /// Is `unlock`, and gives the caller. By the type, its pass is one of this table, also where
    /// functions had the locked table in between.
    ///
    /// ```
    /// let mut locked = caller.lock()?;
    /// sweep(&mut locked);
    /// let mut caller = locked.unlock_caller();
    /// ```
    pub fn unlock_caller(self) -> CallerOn<T, K, V>
        ensures same { IsSameCaller self.caller result }
        ensures answered { Replied (session_call self) Closed
            self.caller.client result.client }
        ensures follows { EndsSession self result.client }
        ensures notes { EndsNotes self result }
        ensures found { missed_in result.notes.steps ≡ missed_in self.caller.notes.steps }
    {
        let LockedOn { table, whole } = self;
        let words = &table.table().words;
        let mut pass = words.lower(whole);
        let mut guard = guard!(words, &mut pass, words.all());
        guard.commit_session();
        CallerOn { table, pass }
    }
}

impl<T: TableRef<K, V> + Drop, K: TableKey + Clone + Drop, V: Clone + Drop> LockedOn<T, K, V> {
    /// Clones of all keys with their values, in rising order of the keys. Refused for want of
    /// memory, it leaves the table locked and as it was.
    pub fn export(&self, alloc: Global) -> Result<Vec<(K, V)>, AllocError>
        requires keys { ClonesAreEqual K.is_clone }
        requires values { ClonesAreEqual V.is_clone }
        ensures pairs { IfOk result (λ pairs.
            ListsInOrder K.name K.cmp pairs.items (map_of self.now)) }
    {
        export(alloc, stripes_of(&self.whole))
    }
}

impl<'a, T: TableRef<K, V> + Drop, K: TableKey + Drop, V: Drop> IntoIterator
    for &'a LockedOn<T, K, V> {
    type Item = (&'a K, &'a V);

    type IntoIter = Iter<'a, K, V>;

    ghost into_iter_gives = { λ locked it. Lists it (map_of locked.now) × (length it ≤ 2 ^ 38) };

    fn into_iter(self) -> Iter<'a, K, V> {
        self.iter()
    }
}

// The stripes, in rising order of their numbers.
pub(crate) fn stripes_of<K: TableKey + Drop, V: Drop>(whole: &Whole<K, V>) -> &[Stripe<K, V>]
    ensures { result.now ≡ whole.now.stripes }
{
    whole.stripes.as_slice()
}
