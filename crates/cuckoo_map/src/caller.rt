//! A caller: how it has the table, and a pass of its own.
ghost use Rattle.std.specs.Prelude.{◌≡◌, ◌≢◌, ◌*◌, ◌^◌, ◌<◌, ◌≤◌, ◌∷◌, ◌++◌, [], ℕ, All, length, map, OnOk, OnErr, IfOk, IfErr, MatchResult, nat_eq};
ghost use Rattle.std.specs.Fn.{FnOnceReturnsAt, FnOnceReturnsAtMut};
ghost use Rattle.ck_model.specs.declared.history.Call.TheVariants.{ChangeTwo};
ghost use Rattle.ck_model.specs.Promise.{Map};
ghost use Rattle.ck_model.specs.Listing.{ListsInOrder};
ghost use Rattle.ck_words.specs.Closing.{IsCaller, Closes};

use crate::locked::LockedOn;
use crate::locked_keys::LockedKeysOn;
use crate::no_callers::NoCallers;
use crate::not_closed::{NotClosed, why_not_closed};
use crate::table::Table;
use crate::table_ref::TableRef;
use ck_key::{Query, TableKey};
use ck_refusal::{
    Busy, DrainFault, GrowFault, KeysNotLocked, KeysRefused, KeysWithoutRoom, NotDrained,
    NotLocked, NotRenamed, Refused, Why,
};
use ck_section::{Renamed, Uprased};
use ck_words::{Message, Pass, StillOpen};
use std::alloc::Global;
use std::marker::Model;

/// A caller has a table, and a pass of it for its calls. A [`Caller`] borrows the table, and a
/// [`Handle`](crate::Handle) shares it with others. The type tells that the pass is one of this
/// table, and in no call. A caller may go to another thread, and can't be cloned. Contracts see the
/// table, what a client sees, and notes of what else the caller was told, found and said.
///
/// A call is refused as [`Busy`] where it finds a stripe held in as many tries in a row as the
/// settings allow. It has then changed nothing, unless it is an insertion. An answer of `None` says
/// that the key is unbound and nothing changed; from `insert_or_assign`, that the key was unbound.
/// A closure runs while the stripes of its keys are held. A closure that is not called, and a value
/// that is not used, are dropped, unless a refusal hands them back. Where keys are texts, a text is
/// a query for its key in all calls that bind no new key.
///
/// # Insertions
///
/// The calls from `insert` to `get_or_insert_with` may bind an unbound key. Where both buckets of
/// the key are full, other entries are displaced to make room. Where that is of no avail, the table
/// doubles, under all stripes. Neither changes a binding. A closure without a parameter makes the
/// value of an unbound key; it is not called for a bound one.
///
/// An insertion is refused as `Busy`, or where no displacement makes room and the table doesn't
/// grow: as `Full` at its greatest power, as `LoadTooLow` where too few slots are taken, or as
/// `Memory`. It then changes no binding, though the table may have grown. It hands back the key
/// with the value, or with the closures that were to make one, which were not called.
pub struct CallerOn<T: TableRef<K, V>, K: TableKey, V> {
    pub(crate) table: T,
    pub(crate) pass: Pass<K, V>,
}

/// A caller that borrows its table.
pub type Caller<'t, K, V> = CallerOn<&'t Table<K, V>, K, V>;

impl<T: TableRef<K, V>, K: TableKey, V> Model for CallerOn<T, K, V> {
    ghost use Rattle.ck_words.specs.Closing.{IsCaller};
    ghost use Rattle.cuckoo_map.specs.Callers.{CallerState, caller_of};

    ghost Value = { CallerState V };

    ghost view = { λ c. caller_of (T.state c.table) c.pass };

    ghost invariant = { λ c. IsCaller (T.state c.table) c.pass };
}

// Written out, so that it is proved here, and not in each program that drops a caller.
impl<T: TableRef<K, V> + Drop, K: TableKey + Drop, V: Drop> Drop for CallerOn<T, K, V> {
    fn drop(self) {
        let CallerOn { table, pass } = self;
        drop(table);
        drop(pass);
    }
}

impl<K: TableKey + Drop, V: Drop> Table<K, V> {
    ghost use Rattle.cuckoo_map.specs.Callers.{caller_of, callers_of};

    /// The caller that makes its calls by this pass.
    pub fn caller<'t>(&'t self, pass: Pass<K, V>) -> Caller<'t, K, V>
        requires { IsCaller self.now pass }
        ensures { result ≡ caller_of self.now pass }
    {
        CallerOn { table: self, pass }
    }

    /// A caller for each pass, in their order. Without memory for the list, the passes come back.
    pub fn callers<'t>(
        &'t self,
        alloc: Global,
        passes: Vec<Pass<K, V>>,
    ) -> Result<Vec<Caller<'t, K, V>>, NoCallers<K, V>>
        requires { All (IsCaller self.now) passes.items }
        ensures callers { IfOk result (λ callers.
            callers.items ≡ callers_of self.now passes.items) }
        ensures back { IfErr result (λ back. back.passes ≡ passes) }
    {
        let Ok(mut callers) = Vec::with_capacity(alloc, passes.len()) else {
            return Err(NoCallers { passes });
        };
        for pass in passes {
            callers.push_reserved(self.caller(pass));
        }
        Ok(callers)
    }
}

impl<'t, K: TableKey + Drop, V: Drop> Caller<'t, K, V> {
    /// The table.
    pub fn table(&self) -> &'t Table<K, V>
        ensures { result.now ≡ self.now.table }
    {
        self.table
    }
}

impl<T: TableRef<K, V> + Drop, K: TableKey + Drop, V: Drop> CallerOn<T, K, V> {
    ghost use Rattle.ck_section.specs.Acts.{Finds, FindsBound, FindsBy, Inserts, InsertsBy, FindsOrInserts};
    ghost use Rattle.ck_section.specs.Acts.{Assigns, Upserts, Uprases, TriesUpsert, TriesUpsertWith, Updates, Modifies, Changes};
    ghost use Rattle.ck_section.specs.Acts.{ReplacesIf, TriesChange, Erases, ErasesBy, ChangesTwo};
    ghost use Rattle.cuckoo_map.specs.Callers.{pass_of, IsSameCaller, Replies, RepliesOn, KeepsNotes, StaysAsIs, StaysButDoublings, MeetsCaller, HearsMessage, message_of_caller, Drains, IsNotDrained, AreOthers, IsNotClosed, FindsHeldOfAny};
    ghost use Rattle.cuckoo_map.specs.Callers.{QueryLeaves, InsertionLeaves, KeysLeave, Counts, GrowsTo, GrowsFor, IsBusyOn};
    ghost use Rattle.cuckoo_map.specs.Callers.{IsBusyOnSome, IsBusyOnAny, IsBusyOnTwo, FindsHeldOwn};
    ghost use Rattle.cuckoo_map.specs.Callers.{FindsHeldOfTwo, FindsHeldAmong, FindsHeldOfAny};
    ghost use Rattle.cuckoo_map.specs.SeveralKeys.{FindsAll, ChangesAll, ModifiesAll, SetsIf};
    ghost use Rattle.cuckoo_map.specs.Renames.{RenameLeaves, RoomLeaves};
    ghost use Rattle.cuckoo_map.specs.Locking.{HasLocked};

    /// The pass. With the passes of all other callers it ends the table.
    pub fn into_pass(self) -> Pass<K, V>
        ensures caller { IsCaller self.table result }
        ensures pass { result ≡ pass_of self }
    {
        let CallerOn { table: _, pass } = self;
        pass
    }

    /// The value of the key; `None` where it is unbound.
    ///
    /// ```
    /// let value: Option<u64> = caller.find(&NumKey(5))?;
    /// ```
    #[inline(always)]
    pub fn find<Q: Query<K>>(&mut self, key: Q) -> Result<Option<V>, Busy>
    where
        V: Copy,
        ensures { QueryLeaves Finds K.hash (Q.name key) result self.old self.new }
    {
        self.table.table().find(&mut self.pass, key)
    }

    /// What the closure answers for the value of the key; `None` where it is unbound.
    ///
    /// ```
    /// let half: Option<u64> = caller.find_fn(&NumKey(5), |value: &u64| *value / 2)?;
    /// ```
    #[inline(always)]
    pub fn find_fn<Q: Query<K>, R, F: FnOnce(&V) -> R + Drop>(
        &mut self,
        key: Q,
        f: F,
    ) -> Result<Option<R>, Busy>
        requires call { F.IsAlwaysCallable f }
        ensures { QueryLeaves (FindsBy (FnOnceReturnsAt F.FnOnce f))
            K.hash (Q.name key) result self.old self.new }
    {
        self.table.table().find_fn(&mut self.pass, key, f)
    }

    /// Whether the key is bound.
    ///
    /// ```
    /// let bound: bool = caller.contains("word")?;
    /// ```
    #[inline(always)]
    pub fn contains<Q: Query<K>>(&mut self, key: Q) -> Result<bool, Busy>
        ensures { QueryLeaves FindsBound K.hash (Q.name key) result self.old self.new }
    {
        self.table.table().contains(&mut self.pass, key)
    }

    /// Binds the key to the value only where it is unbound, and says whether it was.
    ///
    /// ```
    /// match caller.insert(NumKey(5), 50) {
    ///     Ok(fresh) => println!(rt; "{}", if fresh { "new" } else { "old" })?,
    ///     Err(refused) => println!(rt; "{} comes back: {refused}", refused.value)?,
    /// }
    /// ```
    #[inline(always)]
    pub fn insert(&mut self, key: K, value: V) -> Result<bool, Refused<K, V>>
        ensures { InsertionLeaves (Inserts value)
            K.hash (K.name key) key value result self.old self.new }
    {
        self.table.table().insert(&mut self.pass, key, value)
    }

    /// Binds the key to the value, and gives the value that it had; `None` where it was unbound.
    ///
    /// ```
    /// let old: Option<u64> = caller.insert_or_assign(NumKey(5), 51)?;
    /// ```
    #[inline(always)]
    pub fn insert_or_assign(&mut self, key: K, value: V) -> Result<Option<V>, Refused<K, V>>
        ensures { InsertionLeaves (Assigns value)
            K.hash (K.name key) key value result self.old self.new }
    {
        self.table
            .table()
            .insert_or_assign(&mut self.pass, key, value)
    }

    /// Binds an unbound key to the value, and a bound one to what the closure makes of its value.
    /// It says whether the key was unbound.
    ///
    /// ```
    /// let fresh = caller.upsert(NumKey(word), |count| count.saturating_add(1), 1)?;
    /// ```
    #[inline(always)]
    pub fn upsert<F: FnOnce(V) -> V + Drop>(
        &mut self,
        key: K,
        f: F,
        value: V,
    ) -> Result<bool, Refused<K, V>>
        requires call { F.IsAlwaysCallable f }
        ensures { InsertionLeaves (Upserts (F.post f) value)
            K.hash (K.name key) key value result self.old self.new }
    {
        self.table.table().upsert(&mut self.pass, key, f, value)
    }

    /// Binds an unbound key to the value, and answers `Ok(true)`. A bound key is bound to what the
    /// closure gives back for its value; the answer is `Ok(false)`, or the closure's error. It is
    /// for values that own memory: a closure that fails and gives back what it got changes nothing.
    ///
    /// ```
    /// // Where there is no memory for one more number, the key keeps its list.
    /// let push = |mut list: Vec<u64>| match list.push(51) {
    ///     Ok(()) => Ok(list),
    ///     Err(refused) => Err((list, refused.value)),
    /// };
    /// let first: Vec<u64> = vec![in alloc; 51]?;
    /// let pushed: Result<bool, u64> = caller.try_upsert(NumKey(5), push, first)?;
    /// ```
    #[inline(always)]
    pub fn try_upsert<E, F: FnOnce(V) -> Result<V, (V, E)> + Drop>(
        &mut self,
        key: K,
        f: F,
        value: V,
    ) -> Result<Result<bool, E>, Refused<K, V>>
        requires call { F.IsAlwaysCallable f }
        ensures { InsertionLeaves (TriesUpsert (F.post f) value)
            K.hash (K.name key) key value result self.old self.new }
    {
        self.table.table().try_upsert(&mut self.pass, key, f, value)
    }

    /// Is `try_upsert`, but binds an unbound key to what `f` makes of the value that `make` makes.
    /// Where `f` fails for it, the key stays unbound, and the value that `f` gives back is dropped.
    ///
    /// ```
    /// let take = |left: u64| if 0 < left { Ok(left - 1) } else { Err((left, left)) };
    /// let taken: Result<bool, u64> = caller.try_upsert_with(NumKey(5), || 50, take)?;
    /// ```
    #[inline(always)]
    pub fn try_upsert_with<E, G: FnOnce() -> V + Drop, F: FnOnce(V) -> Result<V, (V, E)> + Drop>(
        &mut self,
        key: K,
        make: G,
        f: F,
    ) -> Result<Result<bool, E>, Refused<K, (G, F)>>
        requires call { G.IsAlwaysCallable make × F.IsAlwaysCallable f }
        ensures { InsertionLeaves (TriesUpsertWith (G.post make) (F.post f))
            K.hash (K.name key) key (make, f) result self.old self.new }
    {
        self.table
            .table()
            .try_upsert_with(&mut self.pass, key, make, f)
    }

    /// Binds an unbound key to what the closure makes, and says whether it was unbound.
    ///
    /// ```
    /// let fresh: bool = caller.insert_with(NumKey(5), || 50)?;
    /// ```
    #[inline(always)]
    pub fn insert_with<F: FnOnce() -> V + Drop>(
        &mut self,
        key: K,
        f: F,
    ) -> Result<bool, Refused<K, F>>
        requires call { F.IsAlwaysCallable f }
        ensures { InsertionLeaves (InsertsBy (F.post f))
            K.hash (K.name key) key f result self.old self.new }
    {
        self.table.table().insert_with(&mut self.pass, key, f)
    }

    /// Is `upsert`, but unbinds a bound key where the closure makes nothing of its value.
    ///
    /// ```
    /// match caller.uprase(NumKey(5), |left| left.checked_sub(1), 50)? {
    ///     Uprased::New => println!(rt; "from 50 on")?,
    ///     Uprased::Changed => println!(rt; "one less")?,
    ///     Uprased::Erased => println!(rt; "none was left")?,
    /// }
    /// ```
    #[inline(always)]
    pub fn uprase<F: FnOnce(V) -> Option<V> + Drop>(
        &mut self,
        key: K,
        f: F,
        value: V,
    ) -> Result<Uprased, Refused<K, V>>
        requires call { F.IsAlwaysCallable f }
        ensures { InsertionLeaves (Uprases (F.post f) value)
            K.hash (K.name key) key value result self.old self.new }
    {
        self.table.table().uprase(&mut self.pass, key, f, value)
    }

    /// The value of the key. An unbound key is first bound to what the closure makes.
    ///
    /// ```
    /// let value: u64 = caller.get_or_insert_with(NumKey(5), || 50)?;
    /// ```
    #[inline(always)]
    pub fn get_or_insert_with<F: FnOnce() -> V + Drop>(
        &mut self,
        key: K,
        f: F,
    ) -> Result<V, Refused<K, F>>
    where
        V: Copy,
        requires call { F.IsAlwaysCallable f }
        ensures { InsertionLeaves (FindsOrInserts (F.post f))
            K.hash (K.name key) key f result self.old self.new }
    {
        self.table
            .table()
            .get_or_insert_with(&mut self.pass, key, f)
    }

    /// Binds a bound key to the value, and gives the one it had. Refused, it hands the value back.
    ///
    /// ```
    /// if let Err((value, busy)) = caller.update(&NumKey(5), 52) {
    ///     println!(rt; "{value} comes back: {busy}")?;
    /// }
    /// ```
    #[inline(always)]
    pub fn update<Q: Query<K>>(&mut self, key: Q, value: V) -> Result<Option<V>, (V, Busy)>
        ensures same { IsSameCaller self.old self.new }
        ensures answered { IfOk result (Updates value (RepliesOn (Q.name key) self.old self.new)) }
        ensures notes { OnOk result (KeepsNotes self.old self.new) }
        ensures back { IfErr result (λ back. back.0 ≡ value) }
        ensures busy { IfErr result (λ back.
            IsBusyOn K.hash (Q.name key) self.old self.new back.1) }
        ensures found { FindsHeldOwn K.hash (Q.name key) self.old self.new }
    {
        self.table.table().update(&mut self.pass, key, value)
    }

    /// Binds a bound key to what the closure makes of its value, and says whether the key is bound.
    ///
    /// ```
    /// let bound = caller.update_fn(&NumKey(5), |value| value / 2)?;
    /// ```
    #[inline(always)]
    pub fn update_fn<Q: Query<K>, F: FnOnce(V) -> V + Drop>(
        &mut self,
        key: Q,
        f: F,
    ) -> Result<bool, Busy>
        requires call { F.IsAlwaysCallable f }
        ensures { QueryLeaves (Changes (F.post f)) K.hash (Q.name key) result self.old self.new }
    {
        self.table.table().update_fn(&mut self.pass, key, f)
    }

    /// Binds a bound key to what the closure makes of its value, and gives what it answers besides.
    ///
    /// ```
    /// // The next number of a counter that is bound.
    /// let number: Option<u64> = caller.modify(&NumKey(5), |n: u64| (n.wrapping_add(1), n))?;
    /// ```
    #[inline(always)]
    pub fn modify<Q: Query<K>, R, F: FnOnce(V) -> (V, R) + Drop>(
        &mut self,
        key: Q,
        f: F,
    ) -> Result<Option<R>, Busy>
        requires call { F.IsAlwaysCallable f }
        ensures { QueryLeaves (Modifies (F.post f)) K.hash (Q.name key) result self.old self.new }
    {
        self.table.table().modify(&mut self.pass, key, f)
    }

    /// Binds two different bound keys to what the closure makes of their values, and says whether
    /// both are bound; where one is not, nothing changes. It is one step of the map: nobody sees
    /// the one key changed and the other not.
    ///
    /// ```
    /// let paid = caller.update_two(&payer, &payee, |a, b| {
    ///     if 0 < a && b < u64::MAX { (a - 1, b + 1) } else { (a, b) }
    /// })?;
    /// ```
    #[inline(always)]
    pub fn update_two<Q: Query<K>, F: FnOnce(V, V) -> (V, V) + Drop>(
        &mut self,
        a: Q,
        b: Q,
        f: F,
    ) -> Result<bool, Busy>
        requires different { Q.name a ≢ Q.name b }
        requires call { F.IsAlwaysCallable f }
        ensures same { IsSameCaller self.old self.new }
        ensures answered { IfOk result (
            ChangesTwo (F.post f)
            (Replies (ChangeTwo (Q.name a) (Q.name b)) self.old self.new)) }
        ensures notes { OnOk result (KeepsNotes self.old self.new) }
        ensures busy { IfErr result (
            IsBusyOnTwo K.hash (Q.name a) (Q.name b) self.old self.new) }
        ensures found { FindsHeldOfTwo K.hash (Q.name a) (Q.name b) self.old self.new }
    {
        self.table.table().update_two(&mut self.pass, a, b, f)
    }

    /// The values of up to eight different keys, in their order, all of one moment; `None` where
    /// one is unbound. It is one step of the map. A key that stands twice is refused as `Twice`.
    ///
    /// ```
    /// let [left, right] = caller.find_all([&NumKey(1), &NumKey(2)])?;
    /// ```
    pub fn find_all<Q: Query<K>, const N: usize>(
        &mut self,
        keys: [Q; N],
    ) -> Result<[Option<V>; N], KeysRefused>
    where
        V: Copy,
        requires some { 0 < N }
        requires few { N ≤ 8 }
        ensures { KeysLeave FindsAll K.hash (map Q.name keys) result self.old self.new }
    {
        let mut values = [None; N];
        self.table
            .table()
            .find_all(&mut self.pass, &keys, &mut values)?;
        Ok(values)
    }

    /// Gives the values of up to eight different keys, as `find_all` does, and where all are bound
    /// lets the closure change them, in their order. It is one step of the map. A key that stands
    /// twice is refused as `Twice`.
    ///
    /// ```
    /// // Takes one each from two accounts, where they have it.
    /// let keys = [&NumKey(1), &NumKey(2), &NumKey(3)];
    /// let before: [Option<u64>; 3] = caller.update_all(keys, |values: &mut [u64]| match values {
    ///     [a, b, c] if 0 < *a && 0 < *b && *c < u64::MAX - 1 => {
    ///         *a -= 1;
    ///         *b -= 1;
    ///         *c += 2;
    ///     }
    ///     _ => (),
    /// })?;
    /// ```
    pub fn update_all<Q: Query<K>, F: FnOnce(&mut [V]) + Drop, const N: usize>(
        &mut self,
        keys: [Q; N],
        f: F,
    ) -> Result<[Option<V>; N], KeysRefused>
    where
        V: Copy,
        requires some { 0 < N }
        requires few { N ≤ 8 }
        requires call { F.IsAlwaysCallable f }
        ensures { KeysLeave (ChangesAll (λ old. FnOnceReturnsAtMut F.FnOnce f old tt)) K.hash
            (map Q.name keys) result self.old self.new }
    {
        self.table.table().update_all(&mut self.pass, &keys, f)
    }

    /// Binds `to`, a different key that is unbound, to the value of `from`, and unbinds `from`, in
    /// one step of the map: no other call finds both bound, or none. Where `from` is unbound or `to`
    /// is bound, it says so, and nothing changes. Where `to` has no free slot, room is made for it, as
    /// `insert` makes it. Refused, it gives `to` back, and no binding has changed.
    ///
    /// ```
    /// let renamed: Renamed = caller.rename(&NumKey(1), NumKey(2))?;
    /// ```
    pub fn rename(&mut self, from: &K, to: K) -> Result<Renamed, NotRenamed<K>>
        ensures { RenameLeaves K.hash (K.name from.now) (K.name to) to result self.old self.new }
    {
        self.table.table().rename(&mut self.pass, from, to)
    }

    /// Makes room for a key that is about to be bound, among locked keys say, as an insertion does.
    /// A bound key has it. No binding changes, and others may take it before.
    ///
    /// ```
    /// caller.make_room(&NumKey(1))?;
    /// ```
    pub fn make_room(&mut self, key: &K) -> Result<(), Why>
        ensures { RoomLeaves K.hash (K.name key.now) result self.old self.new }
    {
        self.table.table().make_room_ahead(&mut self.pass, key)
    }

    /// `find_all` of as many keys as the program knows when it runs: writes their values. Refused, it
    /// leaves `values` as it was.
    ///
    /// ```
    /// let keys = [&NumKey(1), &NumKey(2), &NumKey(3)];
    /// let mut values: [Option<u64>; 3] = [None; 3];
    /// caller.find_all_into(&keys, &mut values)?;
    /// ```
    pub fn find_all_into<Q: Query<K>>(
        &mut self,
        keys: &[Q],
        values: &mut [Option<V>],
    ) -> Result<(), KeysRefused>
    where
        V: Copy,
        requires some { 0 < length keys.now }
        requires few { length keys.now ≤ 8 }
        requires as_many { length values.old ≡ length keys.now }
        ensures answered { KeysLeave (λ _. FindsAll values.new) K.hash
            (map Q.name keys.now) result self.old self.new }
        ensures kept { OnErr result (values.new ≡ values.old) }
    {
        self.table.table().find_all(&mut self.pass, keys, values)
    }

    /// Where all of up to eight different keys are bound, lets the closure change their values, in
    /// their order, and gives what it answers. What it leaves stands in `values` then. Where a key
    /// is unbound, the closure is not called, and any values may stand there. It is one step of the
    /// map. A key that stands twice is refused as `Twice`; refused, it leaves `values` as it was.
    ///
    /// ```
    /// // Takes one from each of these accounts, or from none.
    /// let keys = [&NumKey(1), &NumKey(2), &NumKey(3)];
    /// let mut values = [0; 3];
    /// let taken: Option<bool> = caller.modify_all(&keys, &mut values, |values: &mut [u64]| {
    ///     let enough = values.iter().all(|value: &u64| 0 < *value);
    ///     if enough {
    ///         for value in values.iter_mut() {
    ///             *value -= 1;
    ///         }
    ///     }
    ///     enough
    /// })?;
    /// ```
    pub fn modify_all<Q: Query<K>, R, F: FnOnce(&mut [V]) -> R + Drop>(
        &mut self,
        keys: &[Q],
        values: &mut [V],
        f: F,
    ) -> Result<Option<R>, KeysRefused>
    where
        V: Copy,
        requires some { 0 < length keys.now }
        requires few { length keys.now ≤ 8 }
        requires as_many { length values.old ≡ length keys.now }
        requires call { F.IsAlwaysCallable f }
        ensures answered { KeysLeave (ModifiesAll (FnOnceReturnsAtMut F.FnOnce f) values.new)
            K.hash (map Q.name keys.now) result self.old self.new }
        ensures kept { OnErr result (values.new ≡ values.old) }
    {
        self.table
            .table()
            .modify_all(&mut self.pass, keys, values, f)
    }

    /// Binds up to eight different keys to new values where each is bound to the one that is
    /// expected of it, and says whether it did. It is one step of the map. A key that stands twice
    /// is refused as `Twice`.
    ///
    /// ```
    /// let set: bool = caller.compare_and_set([&NumKey(1), &NumKey(2)], [10, 20], [11, 19])?;
    /// ```
    pub fn compare_and_set<Q: Query<K>, const N: usize>(
        &mut self,
        keys: [Q; N],
        expected: [V; N],
        new: [V; N],
    ) -> Result<bool, KeysRefused>
    where
        V: Copy + PartialEq,
        requires some { 0 < N }
        requires few { N ≤ 8 }
        ensures { KeysLeave (SetsIf V.eq expected new) K.hash
            (map Q.name keys) result self.old self.new }
    {
        self.table
            .table()
            .compare_and_set(&mut self.pass, &keys, &expected, &new)
    }

    /// Unbinds the key, and gives the value that it had; `None` where it was unbound.
    ///
    /// ```
    /// let value: Option<u64> = caller.erase(&NumKey(5))?;
    /// ```
    #[inline(always)]
    pub fn erase<Q: Query<K>>(&mut self, key: Q) -> Result<Option<V>, Busy>
        ensures { QueryLeaves Erases K.hash (Q.name key) result self.old self.new }
    {
        self.table.table().erase(&mut self.pass, key)
    }

    /// Unbinds the key where the closure answers true for its value; gives the closure's answer.
    ///
    /// ```
    /// let gone: Option<bool> = caller.erase_fn(&NumKey(5), |value: &u64| *value == 0)?;
    /// ```
    #[inline(always)]
    pub fn erase_fn<Q: Query<K>, F: FnOnce(&V) -> bool + Drop>(
        &mut self,
        key: Q,
        f: F,
    ) -> Result<Option<bool>, Busy>
        requires call { F.IsAlwaysCallable f }
        ensures { QueryLeaves (ErasesBy (FnOnceReturnsAt F.FnOnce f))
            K.hash (Q.name key) result self.old self.new }
    {
        self.table.table().erase_fn(&mut self.pass, key, f)
    }

    /// Binds a bound key to what the closure makes of its value; `Some(false)` where it makes none.
    ///
    /// ```
    /// let taken: Option<bool> = caller.replace_if(&NumKey(5), |left: &u64| left.checked_sub(1))?;
    /// ```
    #[inline(always)]
    pub fn replace_if<Q: Query<K>, F: FnOnce(&V) -> Option<V> + Drop>(
        &mut self,
        key: Q,
        f: F,
    ) -> Result<Option<bool>, Busy>
        requires call { F.IsAlwaysCallable f }
        ensures { QueryLeaves (ReplacesIf (FnOnceReturnsAt F.FnOnce f))
            K.hash (Q.name key) result self.old self.new }
    {
        self.table.table().replace_if(&mut self.pass, key, f)
    }

    /// Changes a bound key as `try_upsert` does; the answer is the closure's error, if it fails.
    ///
    /// ```
    /// let add = |n: u64| if n < 9 { Ok(n + 1) } else { Err((n, n)) };
    /// let added: Option<Result<(), u64>> = caller.try_update(&NumKey(5), add)?;
    /// ```
    #[inline(always)]
    pub fn try_update<Q: Query<K>, E, F: FnOnce(V) -> Result<V, (V, E)> + Drop>(
        &mut self,
        key: Q,
        f: F,
    ) -> Result<Option<Result<(), E>>, Busy>
        requires call { F.IsAlwaysCallable f }
        ensures { QueryLeaves (TriesChange (F.post f))
            K.hash (Q.name key) result self.old self.new }
    {
        self.table.table().try_update(&mut self.pass, key, f)
    }

    /// The power, as stripe 0 has it while this call holds it; the caller is then told of it. The
    /// table has 2^power buckets of four slots, or more by now.
    #[inline(always)]
    pub fn power(&mut self) -> Result<u32, Busy>
        ensures same { IsSameCaller self.old self.new }
        ensures stays { OnOk result (StaysAsIs self.old self.new) }
        ensures told { IfOk result (λ power. power ≡ self.new.notes.told) }
        ensures within { IfOk result (λ power. (self.old.table.settings.power ≤ power)
            × (power ≤ self.old.table.settings.max)) }
        ensures busy { IfErr result (IsBusyOnSome (λ t. t ≡ 0) self.old self.new) }
        ensures found { FindsHeldAmong (λ t. t ≡ 0) self.old self.new }
    {
        self.table.table().power(&mut self.pass)
    }

    /// How many slots the table has at the power that `power` gives; the caller is told of it too.
    ///
    /// ```
    /// let slots: u64 = caller.capacity()?;
    /// ```
    pub fn capacity(&mut self) -> Result<u64, Busy>
        ensures same { IsSameCaller self.old self.new }
        ensures stays { OnOk result (StaysAsIs self.old self.new) }
        ensures told { IfOk result (λ slots. slots ≡ 4 * 2 ^ self.new.notes.told) }
        ensures busy { IfErr result (IsBusyOnSome (λ t. t ≡ 0) self.old self.new) }
        ensures found { FindsHeldAmong (λ t. t ≡ 0) self.old self.new }
    {
        self.table.table().capacity(&mut self.pass)
    }

    /// How many keys are bound. It counts while it holds all stripes.
    pub fn len(&mut self) -> Result<u64, Busy>
        ensures same { IsSameCaller self.old self.new }
        ensures answered { IfOk result (Counts self.old self.new) }
        ensures notes { OnOk result (KeepsNotes self.old self.new) }
        ensures most { IfOk result (λ count. count ≤ 4 * 2 ^ self.old.table.settings.max) }
        ensures busy { IfErr result (IsBusyOnAny self.old self.new) }
        ensures found { FindsHeldOfAny self.old self.new }
    {
        self.table.table().len(&mut self.pass)
    }

    /// Whether no key is bound. It counts as `len` does.
    ///
    /// ```
    /// let empty: bool = caller.is_empty()?;
    /// ```
    pub fn is_empty(&mut self) -> Result<bool, Busy>
        ensures same { IsSameCaller self.old self.new }
        ensures answered { IfOk result (λ empty. (count : ℕ) × (empty ≡ nat_eq count 0)
            × Counts self.old self.new count) }
        ensures notes { OnOk result (KeepsNotes self.old self.new) }
        ensures busy { IfErr result (IsBusyOnAny self.old self.new) }
        ensures found { FindsHeldOfAny self.old self.new }
    {
        self.table.table().is_empty(&mut self.pass)
    }

    /// Doubles the table, at any load, until it has 2^power buckets, and says whether it had fewer.
    /// It holds all stripes meanwhile, and changes no binding. It is refused as `OverMax` exactly
    /// where `power` is above the greatest one that the table was opened with, and takes no stripe
    /// then. Refused for want of memory, it may have doubled the table some times.
    pub fn rehash(&mut self, power: u32) -> Result<bool, GrowFault>
        ensures same { IsSameCaller self.old self.new }
        ensures stays { StaysButDoublings self.old self.new }
        ensures rehashed { GrowsTo power result self.old self.new }
        ensures found { FindsHeldOfAny self.old self.new }
    {
        self.table.table().rehash(&mut self.pass, power)
    }

    /// Doubles the table until it has `n` slots, four in each bucket, and says whether it had
    /// fewer. It is `rehash` to the least power of at least 1 that is enough.
    ///
    /// ```
    /// match caller.reserve(1_000_000) {
    ///     Ok(grown) => println!(rt; "{}", if grown { "grown" } else { "large enough" })?,
    ///     Err(GrowFault::OverMax) => println!(rt; "the table may not have a million slots")?,
    ///     Err(fault) => println!(rt; "not now: {fault}")?,
    /// }
    /// ```
    pub fn reserve(&mut self, n: u64) -> Result<bool, GrowFault>
        ensures same { IsSameCaller self.old self.new }
        ensures stays { StaysButDoublings self.old self.new }
        ensures reserved { GrowsFor n result self.old self.new }
        ensures found { FindsHeldOfAny self.old self.new }
    {
        self.table.table().reserve(&mut self.pass, n)
    }

    /// Locks the table: takes all stripes, and carries out the doublings left of them. It takes no
    /// memory. Refused as busy, it gives the caller back, as `LockedOn::unlock_caller` does later.
    ///
    /// ```
    /// let mut locked = caller.lock()?;
    /// ```
    pub fn lock(self) -> Result<LockedOn<T, K, V>, NotLocked<CallerOn<T, K, V>>>
        ensures locked { IfOk result (HasLocked self.table (pass_of self)) }
        ensures same { IfErr result (λ back. IsSameCaller self back.caller) }
        ensures busy { IfErr result (λ back. IsBusyOnAny self back.caller back.busy) }
        ensures found { IfErr result (λ back. FindsHeldOfAny self back.caller) }
    {
        let CallerOn { table, pass } = self;
        match table.table().lock_whole(pass) {
            Ok(whole) => Ok(LockedOn { table, whole }),
            Err((pass, busy)) => {
                let caller = CallerOn { table, pass };
                Err(NotLocked { caller, busy })
            }
        }
    }

    /// What this caller has seen and was told, for another caller, on any thread, to hear.
    ///
    /// ```
    /// let message = teller.tell();
    /// auditor.hear(message);
    /// ```
    pub fn tell(&mut self) -> Message<K, V>
        ensures left { self.new ≡ self.old }
        ensures told { result ≡ message_of_caller self.old }
    {
        self.table.table().tell(&mut self.pass)
    }

    /// Hears what another caller of the table told: what each of the two had seen is then a
    /// beginning of what this one has seen, and what each had watched of the trace a beginning of
    /// what this one has watched. This one was told no lower power.
    pub fn hear(&mut self, message: Message<K, V>)
        requires { message.table ≡ self.old.table.table }
        ensures same { IsSameCaller self.old self.new }
        ensures heard { HearsMessage message self.old self.new }
    {
        self.table.table().hear(&mut self.pass, message);
    }

    /// The same of a message that stays, for others to hear.
    ///
    /// ```
    /// let mut message = teller.tell();
    /// auditor.hear_copy(&mut message);
    /// other.hear_copy(&mut message);
    /// ```
    pub fn hear_copy(&mut self, message: &mut Message<K, V>)
        requires { message.old.table ≡ self.old.table.table }
        ensures same { IsSameCaller self.old self.new }
        ensures heard { HearsMessage message.old self.old self.new }
        ensures left { message.new ≡ message.old }
    {
        self.table.table().hear_copy(&mut self.pass, message);
    }

    /// Tells the other caller of this table what this one has seen, and that one hears it.
    ///
    /// ```
    /// first.meet(&mut second);
    /// ```
    #[inline(always)]
    pub fn meet(&mut self, other: &mut CallerOn<T, K, V>)
        requires { self.old.table ≡ other.old.table }
        ensures left { self.new ≡ self.old }
        ensures same { IsSameCaller other.old other.new }
        ensures met { MeetsCaller self.old other.old other.new }
    {
        self.table.table().meet(&mut self.pass, &mut other.pass);
    }

    /// Unbinds all keys, and gives them with their values, in rising order of the keys. It locks
    /// the table for that, and is one entry of the history. Refused as busy or for want of memory,
    /// it changes no binding and gives the caller back.
    ///
    /// ```
    /// let (caller, pairs) = caller.drain(alloc)?;
    /// ```
    pub fn drain(
        self,
        alloc: Global,
    ) -> Result<(CallerOn<T, K, V>, Vec<(K, V)>), NotDrained<CallerOn<T, K, V>>>
        ensures same { MatchResult result
            (λ back. IsSameCaller self back.0)
            (λ back. IsSameCaller self back.caller) }
        ensures drained { IfOk result (λ back.
            Drains K.name K.cmp self back.0 back.1.items) }
        ensures refused { IfErr result (λ back. IsNotDrained self back.caller back.why) }
        ensures notes { MatchResult result
            (λ back. KeepsNotes self back.0)
            (λ back. back.why ≡ DrainFault.Memory → KeepsNotes self back.caller) }
        ensures found { MatchResult result
            (λ back. FindsHeldOfAny self back.0)
            (λ back. FindsHeldOfAny self back.caller) }
    {
        let mut locked = match self.lock() {
            Ok(locked) => locked,
            Err(NotLocked { caller, busy }) => {
                let why = DrainFault::Busy(busy.0);
                return Err(NotDrained { caller, why });
            }
        };
        let pairs = locked.drain(alloc);
        let caller = locked.unlock_caller();
        match pairs {
            Ok(pairs) => Ok((caller, pairs)),
            Err(_) => {
                let why = DrainFault::Memory;
                Err(NotDrained { caller, why })
            }
        }
    }

    /// Is [`Table::close`], by this caller: ends the table, given the passes of all its other
    /// callers. Refused as busy, or for want of memory for the list, it gives the caller and the
    /// passes back, with the same entries.
    ///
    /// ```
    /// let mut passes = Vec::with_capacity(alloc, handles.len())?;
    /// for handle in handles {
    ///     passes.push_reserved(handle.into_pass());
    /// }
    /// let pairs: Vec<(NumKey, u64)> = last.close_table(passes)?;
    /// ```
    pub fn close_table(
        self,
        others: Vec<Pass<K, V>>,
    ) -> Result<Vec<(K, V)>, NotClosed<CallerOn<T, K, V>, K, V>>
        requires { AreOthers self others.items }
        ensures pairs { IfOk result (λ pairs. (m : Map V)
            × Closes K.hash self.table.settings (others.items ++ pass_of self ∷ []) m
            × ListsInOrder K.name K.cmp pairs.items m) }
        ensures same { IfErr result (λ back. IsSameCaller self back.caller) }
        ensures stays { IfErr result (λ back. StaysAsIs self back.caller) }
        ensures refused { IfErr result (λ back. IsNotClosed self back.caller back.why) }
        ensures others { IfErr result (λ back. back.others ≡ others) }
        ensures again { IfErr result (λ back. AreOthers back.caller back.others.items) }
    {
        let CallerOn { table, pass } = self;
        match table.table().close_by(pass, others) {
            Ok(pairs) => Ok(pairs),
            Err(StillOpen { pass, others, held }) => {
                let caller = CallerOn { table, pass };
                let why = why_not_closed(held);
                Err(NotClosed {
                    caller,
                    others,
                    why,
                })
            }
        }
    }
}

impl<T: TableRef<K, V> + Drop, K: TableKey + Drop, V: Drop> CallerOn<T, K, V> {
    ghost use Rattle.std.specs.Prelude.{Bool};
    ghost use Rattle.cuckoo_map.specs.Callers.{caller_of, pass_of, IsSameCaller, IsRefusedOn, FindsHeldAmong};
    ghost use Rattle.cuckoo_map.specs.SeveralKeys.{IsStripeOfAny};
    ghost use Rattle.cuckoo_map.specs.LockedKeys.{HasLockedKeys, HasRoomForNames};
    ghost use Rattle.cuckoo_map.specs.RoomForKeys.{IsStripeTried, SeeksRoom, RefusesRoom, names_of};

    /// Locks up to eight different keys: takes their stripes, and carries out the doublings left of
    /// them. It takes no memory. Refused, it gives the caller back, as `LockedKeysOn::unlock` does
    /// later: as `Twice` where a key stands twice, else as `Busy`.
    ///
    /// ```
    /// let keys = [&NumKey(1), &NumKey(2)];
    /// let mut locked = caller.lock_keys(&keys)?;
    /// ```
    pub fn lock_keys<Q: Query<K>, const N: usize>(
        self,
        keys: &[Q; N],
    ) -> Result<LockedKeysOn<'_, T, K, V, Q>, KeysNotLocked<CallerOn<T, K, V>>>
        requires some { 0 < N }
        requires few { N ≤ 8 }
        ensures locked { IfOk result (HasLockedKeys
            (IsStripeOfAny K.hash self.table.settings (map Q.name keys.now)) (map Q.name keys.now)
            self) }
        ensures same { IfErr result (λ back. IsSameCaller self back.caller) }
        ensures refused { IfErr result (λ back.
            IsRefusedOn K.hash (map Q.name keys.now) self back.caller back.why) }
        ensures found { IfErr result (λ back. FindsHeldAmong
            (IsStripeOfAny K.hash self.table.settings (map Q.name keys.now)) self back.caller) }
    {
        let CallerOn { table, pass } = self;
        let mut pass = pass;
        match table.table().lock_different(&mut pass, keys) {
            Ok(stripes) => Ok(LockedKeysOn {
                table,
                pass,
                stripes,
                keys,
            }),
            Err(why) => {
                let caller = CallerOn { table, pass };
                Err(KeysNotLocked { caller, why })
            }
        }
    }

    /// `lock_keys`, once there is room for each of the keys: no insertion of one of them is refused
    /// until they are unlocked, whatever is bound and unbound before. If there is none, it is made for
    /// each key in turn, as `make_room` does. Where that is too little for all at once, since some of
    /// the keys share buckets or others took it, the table doubles, as for an insertion, and it is
    /// tried again. If there is room only now that all stripes are taken, all stay locked.
    ///
    /// Refused, it gives the caller back: as a call on these keys is, or as an insertion of one of
    /// them.
    ///
    /// ```
    /// let keys = [&NumKey(1), &NumKey(2)];
    /// let mut locked = caller.lock_keys_with_room(&keys)?;
    /// let _ = locked.insert(NumKey(1), 10);
    /// let _ = locked.insert(NumKey(2), 20);
    /// let mut caller = locked.unlock();
    /// ```
    pub fn lock_keys_with_room<'k>(
        self,
        keys: &'k [&'k K],
    ) -> Result<LockedKeysOn<'k, T, K, V, &'k K>, KeysWithoutRoom<CallerOn<T, K, V>>>
        requires some { 0 < length keys.now }
        requires few { length keys.now ≤ 8 }
        ensures locked { IfOk result (λ locked. (m : _) × (all : Bool)
            × SeeksRoom K.hash self.table.settings (names_of K.name keys.now) all (pass_of self) m
            × HasLockedKeys
            (IsStripeTried K.hash self.table.settings (names_of K.name keys.now) all)
            (names_of K.name keys.now) (caller_of self.table m) locked) }
        ensures room { IfOk result (HasRoomForNames K.hash) }
        ensures same { IfErr result (λ back. IsSameCaller self back.caller) }
        ensures refused { IfErr result (λ back. RefusesRoom K.hash self.table.settings
            (names_of K.name keys.now) (pass_of self) (pass_of back.caller) back.why) }
    {
        let CallerOn { table, pass } = self;
        let mut pass = pass;
        match table.table().lock_with_room(&mut pass, keys) {
            Ok(stripes) => Ok(LockedKeysOn {
                table,
                pass,
                stripes,
                keys,
            }),
            Err(why) => {
                let caller = CallerOn { table, pass };
                Err(KeysWithoutRoom { caller, why })
            }
        }
    }
}
