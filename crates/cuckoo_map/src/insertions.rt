//! Calls that may bind an unbound key.
ghost use Rattle.std.specs.Prelude.{◌≤◌};
ghost use Rattle.ck_section.specs.Acts.{Inserts, InsertsBy, FindsOrInserts, Assigns, Upserts, Uprases, TriesUpsert, TriesUpsertWith};
ghost use Rattle.ck_words.specs.Closing.{IsCaller};
ghost use Rattle.ck_words.specs.Passes.{IsPassOf, IsUnchanged};
ghost use Rattle.ck_words.specs.StripeNumbers.{own_numbers};
ghost use Rattle.ck_words.specs.StripeSets.{list_of};
ghost use Rattle.ck_words.specs.Holding.{HasTakenAll, Misses};
ghost use Rattle.cuckoo_map.specs.Holding.{AreStripesOf};
ghost use Rattle.cuckoo_map.specs.Insertions.{HasFoundNoRoom, HasRoom, HasInserted, IsInserted, TellsOf};
ghost use Rattle.cuckoo_map.specs.Refusals.{FindsOwn, FindsOwnUnlessFull};

use crate::locking::KeyStripes;
use crate::room::Room;
use crate::table::Table;
use ck_key::TableKey;
use ck_refusal::{Refused, Why};
use ck_section::{Insertion, Uprased, insertion};
use ck_words::{Pass, guard};
use std::marker::PhantomData;
use std::snapshot::Snapshot;

impl<K: TableKey + Drop, V: Drop> Table<K, V> {
    /// `Caller::insert`, by a pass.
    pub fn insert(&self, pass: &mut Pass<K, V>, key: K, value: V) -> Result<bool, Refused<K, V>>
        requires caller { IsCaller self.now pass.old }
        ensures caller { IsCaller self.now pass.new }
        ensures inserted { HasInserted (Inserts value)
            K.hash self.now.settings (K.name key) key value result pass.old pass.new }
    {
        self.make(pass, key, value, insertion::Insert)
    }

    /// `Caller::insert_or_assign`, by a pass.
    pub fn insert_or_assign(
        &self,
        pass: &mut Pass<K, V>,
        key: K,
        value: V,
    ) -> Result<Option<V>, Refused<K, V>>
        requires caller { IsCaller self.now pass.old }
        ensures caller { IsCaller self.now pass.new }
        ensures inserted { HasInserted (Assigns value)
            K.hash self.now.settings (K.name key) key value result pass.old pass.new }
    {
        self.make(pass, key, value, insertion::Assign)
    }

    /// `Caller::upsert`, by a pass.
    pub fn upsert<F: FnOnce(V) -> V + Drop>(
        &self,
        pass: &mut Pass<K, V>,
        key: K,
        f: F,
        value: V,
    ) -> Result<bool, Refused<K, V>>
        requires caller { IsCaller self.now pass.old }
        requires call { F.IsAlwaysCallable f }
        ensures caller { IsCaller self.now pass.new }
        ensures inserted { HasInserted (Upserts (F.post f) value)
            K.hash self.now.settings (K.name key) key value result pass.old pass.new }
    {
        self.make(pass, key, value, insertion::Upsert(f))
    }

    /// `Caller::try_upsert`, by a pass.
    pub fn try_upsert<E, F: FnOnce(V) -> Result<V, (V, E)> + Drop>(
        &self,
        pass: &mut Pass<K, V>,
        key: K,
        f: F,
        value: V,
    ) -> Result<Result<bool, E>, Refused<K, V>>
        requires caller { IsCaller self.now pass.old }
        requires call { F.IsAlwaysCallable f }
        ensures caller { IsCaller self.now pass.new }
        ensures inserted { HasInserted (TriesUpsert (F.post f) value)
            K.hash self.now.settings (K.name key) key value result pass.old pass.new }
    {
        self.make(pass, key, value, insertion::TryUpsert(f))
    }

    /// `Caller::try_upsert_with`, by a pass.
    pub fn try_upsert_with<E, G: FnOnce() -> V + Drop, F: FnOnce(V) -> Result<V, (V, E)> + Drop>(
        &self,
        pass: &mut Pass<K, V>,
        key: K,
        make: G,
        f: F,
    ) -> Result<Result<bool, E>, Refused<K, (G, F)>>
        requires caller { IsCaller self.now pass.old }
        requires call { G.IsAlwaysCallable make × F.IsAlwaysCallable f }
        ensures caller { IsCaller self.now pass.new }
        ensures inserted { HasInserted (TriesUpsertWith (G.post make) (F.post f))
            K.hash self.now.settings (K.name key) key (make, f) result pass.old pass.new }
    {
        let insertion = insertion::TryUpsertWith(PhantomData);
        // A closure that was not called is dropped only here, when no stripe is held.
        let (answer, _) = self.make(pass, key, (make, f), insertion)?;
        Ok(answer)
    }

    /// `Caller::insert_with`, by a pass.
    pub fn insert_with<F: FnOnce() -> V + Drop>(
        &self,
        pass: &mut Pass<K, V>,
        key: K,
        f: F,
    ) -> Result<bool, Refused<K, F>>
        requires caller { IsCaller self.now pass.old }
        requires call { F.IsAlwaysCallable f }
        ensures caller { IsCaller self.now pass.new }
        ensures inserted { HasInserted (InsertsBy (F.post f))
            K.hash self.now.settings (K.name key) key f result pass.old pass.new }
    {
        let back = self.make(pass, key, f, insertion::InsertWith(PhantomData))?;
        // A closure that was not called is dropped only now, when no stripe is held.
        Ok(back.is_none())
    }

    /// `Caller::uprase`, by a pass.
    pub fn uprase<F: FnOnce(V) -> Option<V> + Drop>(
        &self,
        pass: &mut Pass<K, V>,
        key: K,
        f: F,
        value: V,
    ) -> Result<Uprased, Refused<K, V>>
        requires caller { IsCaller self.now pass.old }
        requires call { F.IsAlwaysCallable f }
        ensures caller { IsCaller self.now pass.new }
        ensures inserted { HasInserted (Uprases (F.post f) value)
            K.hash self.now.settings (K.name key) key value result pass.old pass.new }
    {
        self.make(pass, key, value, insertion::Uprase(f))
    }

    /// `Caller::get_or_insert_with`, by a pass.
    pub fn get_or_insert_with<F: FnOnce() -> V + Drop>(
        &self,
        pass: &mut Pass<K, V>,
        key: K,
        f: F,
    ) -> Result<V, Refused<K, F>>
    where
        V: Copy,
        requires caller { IsCaller self.now pass.old }
        requires call { F.IsAlwaysCallable f }
        ensures caller { IsCaller self.now pass.new }
        ensures inserted { HasInserted (FindsOrInserts (F.post f))
            K.hash self.now.settings (K.name key) key f result pass.old pass.new }
    {
        // A closure that was not called is dropped only here, when no stripe is held.
        let (value, _) = self.make(pass, key, f, insertion::GetOrInsertWith(PhantomData))?;
        Ok(value)
    }
}

impl<K: TableKey + Drop, V: Drop> Table<K, V> {
    // Makes the insertion of the entry of the key. What may wait, where a stripe is held or no
    // entry was found, is a call of its own, so that nothing of it is in the way of the others.
    #[inline(always)]
    fn make<I: Insertion<K, V>>(
        &self,
        pass: &mut Pass<K, V>,
        key: K,
        value: I::Value,
        insertion: I,
    ) -> Result<I::Answer, Refused<K, I::Value>>
        requires caller { IsCaller self.now pass.old }
        requires call { I.can_make insertion value }
        ensures caller { IsCaller self.now pass.new }
        ensures inserted { HasInserted (TellsOf (I.tells insertion value))
            K.hash self.now.settings (K.name key) key value result pass.old pass.new }
    {
        // Tested here: the call, which lets other threads run, is followed by a test of what they did.
        if pass.has_emptied() {
            pass.free_emptied();
        }
        let since = Snapshot::of(pass);
        let own = self.stripes_of_key(&key);
        match self.words.lock_now(pass, own.stripes) {
            Ok(()) => self.make_locked(pass, own, key, value, insertion, since),
            Err(missed) => self.make_missed(pass, missed, key, value, insertion, since),
        }
    }

    // The same where the stripe at position `missed` was found held. The answer of a call that isn't
    // inlined lies in memory that each call of the function around it clears first: here only a
    // call that comes so far does.
    #[inline(always)]
    fn make_missed<I: Insertion<K, V>>(
        &self,
        pass: &mut Pass<K, V>,
        missed: usize,
        key: K,
        value: I::Value,
        insertion: I,
        since: Snapshot<Pass<K, V>>,
    ) -> Result<I::Answer, Refused<K, I::Value>>
        requires since { IsCaller self.now since.value }
        requires own { IsPassOf self.now pass.old }
        requires unchanged { IsUnchanged pass.old }
        requires missed { Misses K.hash self.now
            (own_numbers self.now.settings.s (K.hash (K.name key))) missed since.value pass.old }
        requires call { I.can_make insertion value }
        ensures caller { IsCaller self.now pass.new }
        ensures inserted { HasInserted (TellsOf (I.tells insertion value))
            K.hash self.now.settings (K.name key) key value result since.value pass.new }
    {
        self.make_waiting(pass, missed, key, value, insertion, since)
    }

    // The same where the stripe at position `missed` was found held, and those before it were
    // taken. It computes the stripes anew, so that the call before it needs to keep nothing of
    // them. `since` is the pass as the call began.
    #[cold]
    #[inline(never)]
    fn make_waiting<I: Insertion<K, V>>(
        &self,
        pass: &mut Pass<K, V>,
        missed: usize,
        key: K,
        value: I::Value,
        insertion: I,
        since: Snapshot<Pass<K, V>>,
    ) -> Result<I::Answer, Refused<K, I::Value>>
        requires since { IsCaller self.now since.value }
        requires own { IsPassOf self.now pass.old }
        requires unchanged { IsUnchanged pass.old }
        requires missed { Misses K.hash self.now
            (own_numbers self.now.settings.s (K.hash (K.name key))) missed since.value pass.old }
        requires call { I.can_make insertion value }
        ensures caller { IsCaller self.now pass.new }
        ensures inserted { HasInserted (TellsOf (I.tells insertion value))
            K.hash self.now.settings (K.name key) key value result since.value pass.new }
    {
        let own = self.stripes_of_key(&key);
        match self.words.lock_later(pass, own.stripes, missed) {
            Ok(()) => self.make_locked(pass, own, key, value, insertion, since),
            Err(stripe) => {
                let why = Why::Busy(stripe);
                Err(Refused { key, value, why })
            }
        }
    }

    // The same for a key whose stripes were just taken.
    #[inline(always)]
    fn make_locked<I: Insertion<K, V>>(
        &self,
        pass: &mut Pass<K, V>,
        own: KeyStripes,
        key: K,
        value: I::Value,
        insertion: I,
        since: Snapshot<Pass<K, V>>,
    ) -> Result<I::Answer, Refused<K, I::Value>>
        requires since { IsCaller self.now since.value }
        requires key_stripes { AreStripesOf K.hash self.now.settings (K.name key) own }
        requires taken { HasTakenAll K.hash self.now (list_of own.stripes) since.value pass.old }
        requires call { I.can_make insertion value }
        ensures caller { IsCaller self.now pass.new }
        ensures inserted { HasInserted (TellsOf (I.tells insertion value))
            K.hash self.now.settings (K.name key) key value result since.value pass.new }
    {
        let spot = self.spot_in(pass, &key, own, true, &since);
        match self.find_room(pass, &key, spot, &since) {
            Ok(room) => Ok(self.make_in(pass, room, key, value, insertion, since)),
            Err(power) => self.make_full(pass, power, key, value, insertion, since),
        }
    }

    // The same for a key whose buckets are full; a function of its own for the same reason.
    #[inline(always)]
    fn make_full<I: Insertion<K, V>>(
        &self,
        pass: &mut Pass<K, V>,
        power: u32,
        key: K,
        value: I::Value,
        insertion: I,
        since: Snapshot<Pass<K, V>>,
    ) -> Result<I::Answer, Refused<K, I::Value>>
        requires since { IsCaller self.now since.value }
        requires caller { IsCaller self.now pass.old }
        requires full { HasFoundNoRoom (K.name key) since.value pass.old }
        requires power { (self.now.settings.s ≤ power) × (power ≤ 26) }
        requires found { FindsOwn K.hash self.now.settings (K.name key) since.value pass.old }
        requires call { I.can_make insertion value }
        ensures caller { IsCaller self.now pass.new }
        ensures inserted { HasInserted (TellsOf (I.tells insertion value))
            K.hash self.now.settings (K.name key) key value result since.value pass.new }
    {
        self.make_with_room(pass, power, key, value, insertion, since)
    }

    // The same for a key whose buckets are full, in a table of 2^power buckets, and whose stripes
    // were given back: it makes room.
    #[cold]
    #[inline(never)]
    fn make_with_room<I: Insertion<K, V>>(
        &self,
        pass: &mut Pass<K, V>,
        power: u32,
        key: K,
        value: I::Value,
        insertion: I,
        since: Snapshot<Pass<K, V>>,
    ) -> Result<I::Answer, Refused<K, I::Value>>
        requires since { IsCaller self.now since.value }
        requires caller { IsCaller self.now pass.old }
        requires full { HasFoundNoRoom (K.name key) since.value pass.old }
        requires power { (self.now.settings.s ≤ power) × (power ≤ 26) }
        requires found { FindsOwn K.hash self.now.settings (K.name key) since.value pass.old }
        requires call { I.can_make insertion value }
        ensures caller { IsCaller self.now pass.new }
        ensures inserted { HasInserted (TellsOf (I.tells insertion value))
            K.hash self.now.settings (K.name key) key value result since.value pass.new }
    {
        let mut preparation = self.unprepared();
        match self.make_room(pass, &key, power, &mut preparation) {
            Ok(made) => {
                let answer = self.make_in(pass, made, key, value, insertion, since);
                self.end_preparation(preparation);
                Ok(answer)
            }
            Err(why) => {
                self.end_in_vain(preparation, why);
                Err(Refused { key, value, why })
            }
        }
    }

    // The same for a key that has this entry among the stripes that its pass holds and gives back.
    #[inline(always)]
    fn make_in<I: Insertion<K, V>>(
        &self,
        pass: &mut Pass<K, V>,
        room: Room,
        key: K,
        value: I::Value,
        insertion: I,
        since: Snapshot<Pass<K, V>>,
    ) -> I::Answer
        requires since { IsCaller self.now since.value }
        requires own { IsPassOf self.now pass.old }
        requires room { HasRoom K.hash self.now.settings (K.name key) room since.value pass.old }
        requires found { FindsOwnUnlessFull K.hash self.now.settings (K.name key)
            since.value pass.old }
        requires call { I.can_make insertion value }
        ensures caller { IsCaller self.now pass.new }
        ensures answered { TellsOf (I.tells insertion value)
            (IsInserted K.hash self.now.settings (K.name key) since.value pass.new) result }
        ensures found { FindsOwnUnlessFull K.hash self.now.settings (K.name key)
            since.value pass.new }
    {
        let mut guard = guard!(&self.words, pass, room.spot.stripes);
        let (answer, said) = insertion.make(&mut guard, room.spot.place, room.entry, key, value);
        guard.commit(said);
        answer
    }
}
