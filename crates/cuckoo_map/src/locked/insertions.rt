//! Calls on a locked table that may bind an unbound key.
ghost use Rattle.std.specs.Prelude.{◌≡◌, OnOk, OnErr, IfOk, IfErr};
ghost use Rattle.ck_model.specs.Contents.{layout_of};
ghost use Rattle.ck_model.specs.Paths.{HasNoRoom};
ghost use Rattle.ck_stripe.specs.Stripes.{contents_of};
ghost use Rattle.ck_section.specs.Acts.{Inserts, Assigns, Upserts, InsertsBy, FindsOrInserts, Uprases, TriesUpsert, TriesUpsertWith};
ghost use Rattle.ck_section.specs.Places.{IsPlaceOf};
ghost use Rattle.ck_section.specs.Calls.{effect, IsCall, IsWithoutRoom, ChangesContents};
ghost use Rattle.ck_section.specs.RoomForAll.{KeepsOthers};
ghost use Rattle.ck_refusal.specs.Faults.{why_of};
ghost use Rattle.cuckoo_map.specs.Locking.{HasDoubledFor, LockedInsertionLeaves, KeepsMap, LacksRoom};
ghost use Rattle.cuckoo_map.specs.Insertions.{TellsOf};

use crate::locked::LockedOn;
use crate::table_ref::TableRef;
use ck_key::TableKey;
use ck_model::lack::Lack;
use ck_refusal::{Refused, Why};
use ck_section::{Insertion, KeyPlace, Uprased, find_entry, insertion};
use ck_stripe::{Held, Stripe};
use std::marker::PhantomData;

impl<T: TableRef<K, V> + Drop, K: TableKey + Drop, V: Drop> LockedOn<T, K, V> {
    /// `Caller::insert`.
    pub fn insert(&mut self, key: K, value: V) -> Result<bool, Refused<K, V>>
        ensures { LockedInsertionLeaves (Inserts value)
            K.hash (K.name key) key value result self.old self.new }
    {
        self.make(key, value, insertion::Insert)
    }

    /// `Caller::insert_or_assign`.
    pub fn insert_or_assign(&mut self, key: K, value: V) -> Result<Option<V>, Refused<K, V>>
        ensures { LockedInsertionLeaves (Assigns value)
            K.hash (K.name key) key value result self.old self.new }
    {
        self.make(key, value, insertion::Assign)
    }

    /// `Caller::upsert`.
    pub fn upsert<F: FnOnce(V) -> V + Drop>(
        &mut self,
        key: K,
        f: F,
        value: V,
    ) -> Result<bool, Refused<K, V>>
        requires call { F.IsAlwaysCallable f }
        ensures { LockedInsertionLeaves (Upserts (F.post f) value)
            K.hash (K.name key) key value result self.old self.new }
    {
        self.make(key, value, insertion::Upsert(f))
    }

    // Makes the insertion of the entry of the key.
    pub(crate) fn make<I: Insertion<K, V>>(
        &mut self,
        key: K,
        value: I::Value,
        insertion: I,
    ) -> Result<I::Answer, Refused<K, I::Value>>
        requires call { I.can_make insertion value }
        ensures { LockedInsertionLeaves (TellsOf (I.tells insertion value))
            K.hash (K.name key) key value result self.old self.new }
    {
        let place = self.key_place(&key);
        match make_in(&mut self.whole, place, key, value, insertion) {
            Ok(answer) => Ok(answer),
            Err((key, value, insertion)) => self.make_with_room(key, value, insertion),
        }
    }

    // The same, once room was made for the key.
    #[cold]
    #[inline(never)]
    fn make_with_room<I: Insertion<K, V>>(
        &mut self,
        key: K,
        value: I::Value,
        insertion: I,
    ) -> Result<I::Answer, Refused<K, I::Value>>
        requires call { I.can_make insertion value }
        ensures { LockedInsertionLeaves (TellsOf (I.tells insertion value))
            K.hash (K.name key) key value result self.old self.new }
    {
        if let Err(lack) = self.make_room(&key) {
            let why = Why::of(lack);
            return Err(Refused { key, value, why });
        }
        let place = self.key_place(&key);
        match make_in(&mut self.whole, place, key, value, insertion) {
            Ok(answer) => Ok(answer),
            Err(_) => unreachable!(),
        }
    }

    /// `Caller::insert_with`.
    pub fn insert_with<F: FnOnce() -> V + Drop>(
        &mut self,
        key: K,
        f: F,
    ) -> Result<bool, Refused<K, F>>
        requires call { F.IsAlwaysCallable f }
        ensures { LockedInsertionLeaves (InsertsBy (F.post f))
            K.hash (K.name key) key f result self.old self.new }
    {
        let back = self.make(key, f, insertion::InsertWith(PhantomData))?;
        Ok(back.is_none())
    }

    /// `Caller::get_or_insert_with`.
    pub fn get_or_insert_with<F: FnOnce() -> V + Drop>(
        &mut self,
        key: K,
        f: F,
    ) -> Result<V, Refused<K, F>>
    where
        V: Copy,
        requires call { F.IsAlwaysCallable f }
        ensures { LockedInsertionLeaves (FindsOrInserts (F.post f))
            K.hash (K.name key) key f result self.old self.new }
    {
        let (value, _) = self.make(key, f, insertion::GetOrInsertWith(PhantomData))?;
        Ok(value)
    }

    /// `Caller::uprase`.
    pub fn uprase<F: FnOnce(V) -> Option<V> + Drop>(
        &mut self,
        key: K,
        f: F,
        value: V,
    ) -> Result<Uprased, Refused<K, V>>
        requires call { F.IsAlwaysCallable f }
        ensures { LockedInsertionLeaves (Uprases (F.post f) value)
            K.hash (K.name key) key value result self.old self.new }
    {
        self.make(key, value, insertion::Uprase(f))
    }

    /// `Caller::try_upsert`.
    pub fn try_upsert<E, F: FnOnce(V) -> Result<V, (V, E)> + Drop>(
        &mut self,
        key: K,
        f: F,
        value: V,
    ) -> Result<Result<bool, E>, Refused<K, V>>
        requires call { F.IsAlwaysCallable f }
        ensures { LockedInsertionLeaves (TriesUpsert (F.post f) value)
            K.hash (K.name key) key value result self.old self.new }
    {
        self.make(key, value, insertion::TryUpsert(f))
    }

    /// `Caller::try_upsert_with`.
    pub fn try_upsert_with<E, G: FnOnce() -> V + Drop, F: FnOnce(V) -> Result<V, (V, E)> + Drop>(
        &mut self,
        key: K,
        make: G,
        f: F,
    ) -> Result<Result<bool, E>, Refused<K, (G, F)>>
        requires call { G.IsAlwaysCallable make × F.IsAlwaysCallable f }
        ensures { LockedInsertionLeaves (TriesUpsertWith (G.post make) (F.post f))
            K.hash (K.name key) key (make, f) result self.old self.new }
    {
        let insertion = insertion::TryUpsertWith(PhantomData);
        let (answer, _) = self.make(key, (make, f), insertion)?;
        Ok(answer)
    }

    // Makes room for the key: entries are displaced, and the table doubles only where that is not
    // enough.
    fn make_room(&mut self, key: &K) -> Result<(), Lack>
        ensures kept { KeepsMap self.old self.new }
        ensures room { OnOk result (¬ (HasNoRoom (layout_of K.hash self.new.caller.table.settings)
            (contents_of self.new.stripes) (K.name key.now))) }
        ensures refused { IfErr result (λ lack.
            LacksRoom K.hash (K.name key.now) (why_of lack) self.old self.new) }
        ensures grows { HasDoubledFor K.hash (K.name key.now) self.old self.new }
    {
        let settings = self.settings();
        self.table
            .table()
            .make_room_in(&mut self.whole, settings, key)
    }
}

// Makes the insertion of the entry of the key, which may be at this place. Where both its buckets
// are full, all that was passed comes back.
pub(crate) fn make_in<K: TableKey + Drop, V: Drop, I: Insertion<K, V>, H: Held<Stripe<K, V>>>(
    held: &mut H,
    place: KeyPlace,
    key: K,
    value: I::Value,
    insertion: I,
) -> Result<I::Answer, (K, I::Value, I)>
    requires place { IsPlaceOf K.hash (H.stripes held.old) (K.name key) place }
    requires call { I.can_make insertion value }
    ensures call { IfOk result (TellsOf (I.tells insertion value)
        (IsCall (effect K.hash H.stripes place held.old held.new) (K.name key))) }
    ensures full { IfErr result (λ back. (back.0 ≡ key) × (back.1 ≡ value) × (back.2 ≡ insertion)
        × IsWithoutRoom K.hash place.s (H.stripes held.old) (K.name key)) }
    ensures left { OnErr result (H.stripes held.new ≡ H.stripes held.old) }
    ensures rest { ChangesContents (H.stripes held.old) (H.stripes held.new) }
    ensures others { KeepsOthers (K.name key) (H.stripes held.old) (H.stripes held.new) }
    ensures stays { H.stays held.old held.new }
{
    match find_entry(held, place, &key) {
        Some(entry) => {
            let (answer, _) = insertion.make(held, place, entry, key, value);
            Ok(answer)
        }
        None => Err((key, value, insertion)),
    }
}
