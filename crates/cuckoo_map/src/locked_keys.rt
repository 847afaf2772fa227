//! Some keys under one caller.
ghost use Rattle.std.specs.Prelude.{◌≡◌, ◌<◌, Some, None, IsOk, IfOk, IfErr, MatchOption, MatchBool, length, map, is_some};
ghost use Rattle.std.specs.Fn.{FnOnceReturnsAt};
ghost use Rattle.ck_model.specs.declared.history.Reply.TheVariants.{Closed};
ghost use Rattle.ck_model.specs.Promise.{Replied};
ghost use Rattle.ck_model.specs.Numbered.{IsIn};
ghost use Rattle.ck_core.specs.Trace.{missed_in};
ghost use Rattle.ck_section.specs.Acts.{Updates, Modifies, Changes, Erases, Inserts, Assigns, Upserts};
ghost use Rattle.cuckoo_map.specs.Callers.{IsSameCaller, KeepsNotes};
ghost use Rattle.cuckoo_map.specs.Insertions.{TellsOf};
ghost use Rattle.cuckoo_map.specs.LockedKeys.{ActsOn, value_of, keys_call, LacksSlot, HasRoomForNames, KeepsRoom, name_at};

use crate::caller::CallerOn;
use crate::locked::make_in;
use crate::table::Table;
use crate::table_ref::TableRef;
use ck_key::{KeyHash, Query, TableKey};
use ck_refusal::NoSlot;
use ck_section::{
    Insertion, erase, find, has_room_for_all, insertion, key_place, modify, update, update_fn,
};
use ck_words::{Pass, StripeSet, guard};
use std::marker::Model;

/// Up to eight keys under one caller: its calls find their stripes free, and no other caller is in
/// a call on one of these keys. Until they are unlocked, others find these stripes held. It can't be
/// dropped, so a program that doesn't unlock the keys doesn't compile.
///
/// What is done to them is one entry of its caller, a session on these keys, from what they were
/// bound to when they were locked to what they are bound to when they are unlocked. Contracts see
/// the names of the keys, the caller, what the stripes contained when they were locked, and the
/// stripes as they are.
///
/// Its calls are as some of a [`Caller`](crate::Caller) on one key are, are never refused as busy,
/// and take no memory. An insertion that finds no free slot is refused, and hands key and value
/// back; a slot that was emptied before is free for it. No entry is displaced, and the table doesn't
/// grow.
pub struct LockedKeysOn<'k, T: TableRef<K, V>, K: TableKey, V, Q: Query<K>> {
    pub(crate) table: T,
    pub(crate) pass: Pass<K, V>,
    pub(crate) stripes: StripeSet,
    pub(crate) keys: &'k [Q],
}

/// Keys under a caller that borrows its table.
pub type LockedKeys<'k, 't, K, V, Q> = LockedKeysOn<'k, &'t Table<K, V>, K, V, Q>;

impl<'k, T: TableRef<K, V>, K: TableKey, V, Q: Query<K>> Model for LockedKeysOn<'k, T, K, V, Q> {
    ghost use Rattle.std.specs.Prelude.{map};
    ghost use Rattle.cuckoo_map.specs.LockedKeys.{KeysState, HoldsKeys, keys_of};

    ghost Value = { KeysState V };

    ghost view = { λ l. keys_of (T.state l.table) (map Q.name l.keys.now) l.pass };

    ghost invariant = { λ l.
        HoldsKeys K.hash (T.state l.table) l.stripes (map Q.name l.keys.now) l.pass };
}

impl<T: TableRef<K, V> + Drop, K: TableKey + Drop, V: Drop, Q: Query<K>> LockedKeysOn<
    '_,
    T,
    K,
    V,
    Q,
> {
    /// The value of the key; `None` where the key is unbound.
    pub fn find<P: Query<K>>(&mut self, key: P) -> Option<V>
    where
        V: Copy,
        requires named { IsIn (P.name key) self.old.names }
        ensures value { result ≡ value_of self.old (P.name key) }
        ensures same { self.new ≡ self.old }
    {
        self.find_fn(key, |value: &V| *value)
    }

    /// Whether the key is bound.
    pub fn contains<P: Query<K>>(&mut self, key: P) -> bool
        requires named { IsIn (P.name key) self.old.names }
        ensures bound { result ≡ is_some (value_of self.old (P.name key)) }
        ensures same { self.new ≡ self.old }
    {
        self.find_fn(key, |_value: &V| ()).is_some()
    }

    /// `Caller::find_fn`.
    pub fn find_fn<P: Query<K>, R, F: FnOnce(&V) -> R + Drop>(&mut self, key: P, f: F) -> Option<R>
        requires named { IsIn (P.name key) self.old.names }
        requires call { F.IsAlwaysCallable f }
        ensures answered { MatchOption result
            (value_of self.old (P.name key) ≡ None)
            (λ r. (v : V) × (value_of self.old (P.name key) ≡ Some v)
            × FnOnceReturnsAt F.FnOnce f v r) }
        ensures same { self.new ≡ self.old }
    {
        let mut guard = guard!(&self.table.table().words, &mut self.pass, self.stripes);
        let place = key_place(&mut guard, self.stripes.s, key, KeyHash::of::<K, P>(key));
        let (found, _) = find(&mut guard, place, key, f);
        found
    }

    /// Whether each of the keys has room: one of its buckets, or both together, have a free slot for
    /// each of the keys that may come there. Then no insertion of one of them is refused until they
    /// are unlocked, whatever is bound and unbound before.
    pub fn has_room(&mut self) -> bool
        ensures room { MatchBool result (HasRoomForNames K.hash self.old)
            (¬ (HasRoomForNames K.hash self.old)) }
        ensures same { self.new ≡ self.old }
    {
        let mut guard = guard!(&self.table.table().words, &mut self.pass, self.stripes);
        has_room_for_all(&mut guard, self.stripes.s, self.keys)
    }

    /// `Caller::update`, which is never refused.
    pub fn update<P: Query<K>>(&mut self, key: P, value: V) -> Option<V>
        requires named { IsIn (P.name key) self.old.names }
        ensures names { self.new.names ≡ self.old.names }
        ensures room { KeepsRoom K.hash self.old self.new }
        ensures answered { Updates value (ActsOn (P.name key) self.old self.new) result }
    {
        let mut guard = guard!(&self.table.table().words, &mut self.pass, self.stripes);
        let place = key_place(&mut guard, self.stripes.s, key, KeyHash::of::<K, P>(key));
        update(&mut guard, place, key, value)
    }

    /// `Caller::update_fn`.
    pub fn update_fn<P: Query<K>, F: FnOnce(V) -> V + Drop>(&mut self, key: P, f: F) -> bool
        requires named { IsIn (P.name key) self.old.names }
        requires call { F.IsAlwaysCallable f }
        ensures names { self.new.names ≡ self.old.names }
        ensures room { KeepsRoom K.hash self.old self.new }
        ensures answered { Changes (F.post f) (ActsOn (P.name key) self.old self.new) result }
    {
        let mut guard = guard!(&self.table.table().words, &mut self.pass, self.stripes);
        let place = key_place(&mut guard, self.stripes.s, key, KeyHash::of::<K, P>(key));
        update_fn(&mut guard, place, key, f)
    }

    /// `Caller::modify`.
    pub fn modify<P: Query<K>, R, F: FnOnce(V) -> (V, R) + Drop>(
        &mut self,
        key: P,
        f: F,
    ) -> Option<R>
        requires named { IsIn (P.name key) self.old.names }
        requires call { F.IsAlwaysCallable f }
        ensures names { self.new.names ≡ self.old.names }
        ensures room { KeepsRoom K.hash self.old self.new }
        ensures answered { Modifies (F.post f) (ActsOn (P.name key) self.old self.new) result }
    {
        let mut guard = guard!(&self.table.table().words, &mut self.pass, self.stripes);
        let place = key_place(&mut guard, self.stripes.s, key, KeyHash::of::<K, P>(key));
        let answer = modify(&mut guard, place, key, f);
        answer.ok()
    }

    /// `Caller::erase`.
    pub fn erase<P: Query<K>>(&mut self, key: P) -> Option<V>
        requires named { IsIn (P.name key) self.old.names }
        ensures names { self.new.names ≡ self.old.names }
        ensures room { KeepsRoom K.hash self.old self.new }
        ensures answered { Erases (ActsOn (P.name key) self.old self.new) result }
    {
        let mut guard = guard!(&self.table.table().words, &mut self.pass, self.stripes);
        let place = key_place(&mut guard, self.stripes.s, key, KeyHash::of::<K, P>(key));
        erase(&mut guard, place, key)
    }

    /// `Caller::insert`, which is refused where both buckets of the key are full.
    pub fn insert(&mut self, key: K, value: V) -> Result<bool, NoSlot<K, V>>
        requires named { IsIn (K.name key) self.old.names }
        ensures names { self.new.names ≡ self.old.names }
        ensures room { KeepsRoom K.hash self.old self.new }
        ensures answered { IfOk result (Inserts value (ActsOn (K.name key) self.old self.new)) }
        ensures refused { IfErr result (LacksSlot K.hash (K.name key) key value self.old self.new) }
        ensures made { HasRoomForNames K.hash self.old → IsOk result }
    {
        self.make(key, value, insertion::Insert)
    }

    /// `Caller::insert_or_assign`, which is refused as `insert` is.
    pub fn insert_or_assign(&mut self, key: K, value: V) -> Result<Option<V>, NoSlot<K, V>>
        requires named { IsIn (K.name key) self.old.names }
        ensures names { self.new.names ≡ self.old.names }
        ensures room { KeepsRoom K.hash self.old self.new }
        ensures answered { IfOk result (Assigns value (ActsOn (K.name key) self.old self.new)) }
        ensures refused { IfErr result (LacksSlot K.hash (K.name key) key value self.old self.new) }
        ensures made { HasRoomForNames K.hash self.old → IsOk result }
    {
        self.make(key, value, insertion::Assign)
    }

    /// `Caller::upsert`, which is refused as `insert` is.
    pub fn upsert<F: FnOnce(V) -> V + Drop>(
        &mut self,
        key: K,
        f: F,
        value: V,
    ) -> Result<bool, NoSlot<K, V>>
        requires named { IsIn (K.name key) self.old.names }
        requires call { F.IsAlwaysCallable f }
        ensures names { self.new.names ≡ self.old.names }
        ensures room { KeepsRoom K.hash self.old self.new }
        ensures answered { IfOk result (Upserts (F.post f) value
            (ActsOn (K.name key) self.old self.new)) }
        ensures refused { IfErr result (LacksSlot K.hash (K.name key) key value self.old self.new) }
        ensures made { HasRoomForNames K.hash self.old → IsOk result }
    {
        self.make(key, value, insertion::Upsert(f))
    }

    /// `erase` of the key at this position.
    ///
    /// ```
    /// let keys = [&NumKey(1), &NumKey(2)];
    /// let mut locked = caller.lock_keys_with_room(&keys)?;
    /// if let Some(value) = locked.take(0) {
    ///     let _ = locked.put(1, value);
    /// }
    /// let mut caller = locked.unlock();
    /// ```
    pub fn take(&mut self, i: usize) -> Option<V>
        requires inside { i < length self.old.names }
        ensures names { self.new.names ≡ self.old.names }
        ensures room { KeepsRoom K.hash self.old self.new }
        ensures answered { Erases (ActsOn (name_at self.old i) self.old self.new) result }
    {
        let keys = self.keys;
        self.erase(keys[i])
    }

    // Makes the insertion of the entry of the key.
    fn make<I: Insertion<K, V>>(
        &mut self,
        key: K,
        value: I::Value,
        insertion: I,
    ) -> Result<I::Answer, NoSlot<K, I::Value>>
        requires named { IsIn (K.name key) self.old.names }
        requires call { I.can_make insertion value }
        ensures names { self.new.names ≡ self.old.names }
        ensures room { KeepsRoom K.hash self.old self.new }
        ensures answered { IfOk result (TellsOf (I.tells insertion value)
            (ActsOn (K.name key) self.old self.new)) }
        ensures refused { IfErr result (LacksSlot K.hash (K.name key) key value self.old self.new) }
        ensures made { HasRoomForNames K.hash self.old → IsOk result }
    {
        let mut guard = guard!(&self.table.table().words, &mut self.pass, self.stripes);
        let hash = KeyHash::of::<K, &K>(&key);
        let place = key_place(&mut guard, self.stripes.s, &key, hash);
        match make_in(&mut guard, place, key, value, insertion) {
            Ok(answer) => Ok(answer),
            Err((key, value, _)) => Err(NoSlot { key, value }),
        }
    }

    /// Unlocks the keys, by which all that was done to them becomes one entry of the history.
    ///
    /// ```
    /// let keys = [&NumKey(1), &NumKey(2)];
    /// let mut locked = caller.lock_keys(&keys)?;
    /// let taken: Option<u64> = locked.erase(&NumKey(1));
    /// if let Some(value) = taken {
    ///     locked.update(&NumKey(2), value);
    /// }
    /// let mut caller = locked.unlock();
    /// ```
    pub fn unlock(self) -> CallerOn<T, K, V>
        ensures same { IsSameCaller self.entry.session.caller result }
        ensures answered { Replied (keys_call self.entry) Closed
            self.entry.session.caller.client result.client }
        ensures notes { KeepsNotes self.entry.session.caller result }
        ensures found { missed_in result.notes.steps ≡ missed_in self.entry.session.caller.notes.steps }
    {
        let LockedKeysOn {
            table,
            pass,
            stripes,
            keys,
        } = self;
        let mut pass = pass;
        let mut guard = guard!(&table.table().words, &mut pass, stripes);
        guard.commit_session_on(keys);
        CallerOn { table, pass }
    }
}

impl<T: TableRef<K, V> + Drop, K: TableKey + Copy + Drop, V: Drop> LockedKeysOn<'_, T, K, V, &K> {
    /// `insert_or_assign` of the key at this position.
    pub fn put(&mut self, i: usize, value: V) -> Result<Option<V>, NoSlot<K, V>>
        requires inside { i < length self.old.names }
        ensures names { self.new.names ≡ self.old.names }
        ensures room { KeepsRoom K.hash self.old self.new }
        ensures answered { IfOk result (Assigns value
            (ActsOn (name_at self.old i) self.old self.new)) }
        ensures refused { IfErr result (λ back. (K.name back.key ≡ name_at self.old i)
            × LacksSlot K.hash (name_at self.old i) back.key value self.old self.new back) }
        ensures made { HasRoomForNames K.hash self.old → IsOk result }
    {
        let keys = self.keys;
        self.insert_or_assign(*keys[i], value)
    }
}
