//! Calls on several keys at once.
ghost use Rattle.std.specs.Prelude.{◌≡◌, ◌<◌, ◌≤◌, ℕ, List, [], ◌∷◌, Some, All, IsSome, OnOk, OnErr, IfOk, IfErr, IfSome, IfNone, MatchBool, length, map, take, get_or};
ghost use Rattle.std.specs.Fn.{FnOnceReturnsAtMut};
ghost use Rattle.std.specs.List.{AllZip};
ghost use Rattle.ck_key.specs.Hashes.{IsHashOf};
ghost use Rattle.ck_model.specs.Arithmetic.{partial_of};
ghost use Rattle.ck_model.specs.Promise.{Name};
ghost use Rattle.ck_model.specs.Numbered.{IsIn, AreDistinct};
ghost use Rattle.ck_words.specs.Passes.{IsPassOf, IsIdle};
ghost use Rattle.ck_words.specs.Retries.{FindsAmong};
ghost use Rattle.ck_words.specs.Closing.{IsCaller};
ghost use Rattle.cuckoo_map.specs.Refusals.{IsBusyAmong};
ghost use Rattle.cuckoo_map.specs.SeveralKeys.{IsStripeOfAny, HoldsNames, RefusesNames, StandsAgain, HasQueriedAll, FindsAll, ChangesAll, ModifiesAll, SetsIf, IsSameButStripes, IsUpdated, bound_to};
ghost use Rattle.cuckoo_map.specs.LockedKeys.{HoldsKeys};

use crate::table::Table;
use ck_key::{KeyHash, Query, TableKey};
use ck_refusal::{Busy, KeysRefused};
use ck_section::{find_bound, find_each, key_place, update};
use ck_words::{Pass, StripeSet, guard};

impl<K: TableKey + Drop, V: Drop> Table<K, V> {
    /// `Caller::find_all`, by a pass: it writes the values.
    pub fn find_all<Q: Query<K>>(
        &self,
        pass: &mut Pass<K, V>,
        keys: &[Q],
        values: &mut [Option<V>],
    ) -> Result<(), KeysRefused>
    where
        V: Copy,
        requires caller { IsCaller self.now pass.old }
        requires some { 0 < length keys.now }
        requires few { length keys.now ≤ 8 }
        requires as_many { length values.old ≡ length keys.now }
        ensures caller { IsCaller self.now pass.new }
        ensures looked { HasQueriedAll (λ _. FindsAll values.new) K.hash self.now.settings
            (map Q.name keys.now) result pass.old pass.new }
        ensures kept { OnErr result (values.new ≡ values.old) }
    {
        let stripes = self.lock_different(pass, keys)?;
        let mut guard = guard!(&self.words, pass, stripes);
        find_each(&mut guard, stripes.s, keys, values);
        guard.commit_session_on(keys);
        Ok(())
    }

    /// `Caller::update_all`, by a pass.
    pub fn update_all<Q: Query<K>, F: FnOnce(&mut [V]) + Drop, const N: usize>(
        &self,
        pass: &mut Pass<K, V>,
        keys: &[Q; N],
        f: F,
    ) -> Result<[Option<V>; N], KeysRefused>
    where
        V: Copy,
        requires caller { IsCaller self.now pass.old }
        requires some { 0 < N }
        requires few { N ≤ 8 }
        requires call { F.IsAlwaysCallable f }
        ensures caller { IsCaller self.now pass.new }
        ensures updated { HasQueriedAll (ChangesAll (λ old. FnOnceReturnsAtMut F.FnOnce f old tt))
            K.hash self.now.settings (map Q.name keys.now) result pass.old pass.new }
    {
        let stripes = self.lock_different(pass, keys)?;
        let (values, _not_called) = self.update_held(pass, stripes, keys, f);
        guard!(&self.words, pass, stripes).commit_session_on(keys);
        // A closure that was not called is dropped only now, when no stripe is held.
        Ok(values)
    }

    // Binds the keys, whose stripes are held, to what the closure makes of their values, where each
    // is bound, and gives the values that they had. Else the closure comes back.
    fn update_held<Q: Query<K>, F: FnOnce(&mut [V]), const N: usize>(
        &self,
        pass: &mut Pass<K, V>,
        stripes: StripeSet,
        keys: &[Q; N],
        f: F,
    ) -> ([Option<V>; N], Option<F>)
    where
        V: Copy,
        requires some { 0 < N }
        requires few { N ≤ 8 }
        requires held { HoldsKeys K.hash self.now stripes (map Q.name keys.now) pass.old }
        requires call { F.IsAlwaysCallable f }
        ensures held { HoldsKeys K.hash self.now stripes (map Q.name keys.now) pass.new }
        ensures stays { IsSameButStripes pass.old pass.new }
        ensures updated { ChangesAll (λ old. FnOnceReturnsAtMut F.FnOnce f old tt) result.0
            (bound_to (map Q.name keys.now) pass.old) (bound_to (map Q.name keys.now) pass.new) }
        ensures back { ¬ (All IsSome result.0) → result.1 ≡ Some f }
    {
        let mut values = [None; N];
        let mut guard = guard!(&self.words, pass, stripes);
        find_each(&mut guard, stripes.s, keys, &mut values);
        let Some(mut changed) = all_of(&values) else {
            return (values, Some(f));
        };
        self.change_each(pass, stripes, keys, &mut changed, f);
        (values, None)
    }

    /// `Caller::modify_all`, by a pass.
    pub fn modify_all<Q: Query<K>, R, F: FnOnce(&mut [V]) -> R + Drop>(
        &self,
        pass: &mut Pass<K, V>,
        keys: &[Q],
        values: &mut [V],
        f: F,
    ) -> Result<Option<R>, KeysRefused>
    where
        V: Copy,
        requires caller { IsCaller self.now pass.old }
        requires some { 0 < length keys.now }
        requires few { length keys.now ≤ 8 }
        requires as_many { length values.old ≡ length keys.now }
        requires call { F.IsAlwaysCallable f }
        ensures caller { IsCaller self.now pass.new }
        ensures modified { HasQueriedAll (ModifiesAll (FnOnceReturnsAtMut F.FnOnce f) values.new)
            K.hash self.now.settings (map Q.name keys.now) result pass.old pass.new }
        ensures kept { OnErr result (values.new ≡ values.old) }
    {
        let stripes = self.lock_different(pass, keys)?;
        let (answer, _not_called) = self.modify_held(pass, stripes, keys, values, f);
        guard!(&self.words, pass, stripes).commit_session_on(keys);
        // A closure that was not called is dropped only now, when no stripe is held.
        Ok(answer)
    }

    /// `Caller::compare_and_set`, by a pass.
    pub fn compare_and_set<Q: Query<K>, const N: usize>(
        &self,
        pass: &mut Pass<K, V>,
        keys: &[Q; N],
        expected: &[V; N],
        new: &[V; N],
    ) -> Result<bool, KeysRefused>
    where
        V: Copy + PartialEq,
        requires caller { IsCaller self.now pass.old }
        requires some { 0 < N }
        requires few { N ≤ 8 }
        ensures caller { IsCaller self.now pass.new }
        ensures set { HasQueriedAll (SetsIf V.eq expected.now new.now)
            K.hash self.now.settings (map Q.name keys.now) result pass.old pass.new }
    {
        let stripes = self.lock_different(pass, keys)?;
        let set = self.replace_held(pass, stripes, keys, expected, new);
        guard!(&self.words, pass, stripes).commit_session_on(keys);
        Ok(set)
    }

    // The same for keys whose stripes are held.
    fn replace_held<Q: Query<K>, const N: usize>(
        &self,
        pass: &mut Pass<K, V>,
        stripes: StripeSet,
        keys: &[Q; N],
        expected: &[V; N],
        new: &[V; N],
    ) -> bool
    where
        V: Copy + PartialEq,
        requires held { HoldsKeys K.hash self.now stripes (map Q.name keys.now) pass.old }
        ensures held { HoldsKeys K.hash self.now stripes (map Q.name keys.now) pass.new }
        ensures stays { IsSameButStripes pass.old pass.new }
        ensures set { SetsIf V.eq expected.now new.now result
            (bound_to (map Q.name keys.now) pass.old) (bound_to (map Q.name keys.now) pass.new) }
    {
        let mut values = *expected;
        let mut guard = guard!(&self.words, pass, stripes);
        if !find_bound(&mut guard, stripes.s, keys, &mut values) {
            return false;
        }
        if values != *expected {
            return false;
        }
        self.update_each(pass, stripes, keys, new);
        true
    }

    // `modify_all` for keys whose stripes are held. Where one is unbound, the closure comes back.
    fn modify_held<Q: Query<K>, R, F: FnOnce(&mut [V]) -> R>(
        &self,
        pass: &mut Pass<K, V>,
        stripes: StripeSet,
        keys: &[Q],
        values: &mut [V],
        f: F,
    ) -> (Option<R>, Option<F>)
    where
        V: Copy,
        requires as_many { length values.old ≡ length keys.now }
        requires held { HoldsKeys K.hash self.now stripes (map Q.name keys.now) pass.old }
        requires call { F.IsAlwaysCallable f }
        ensures held { HoldsKeys K.hash self.now stripes (map Q.name keys.now) pass.new }
        ensures stays { IsSameButStripes pass.old pass.new }
        ensures modified { ModifiesAll (FnOnceReturnsAtMut F.FnOnce f) values.new result.0
            (bound_to (map Q.name keys.now) pass.old) (bound_to (map Q.name keys.now) pass.new) }
        ensures back { IfNone result.0 (result.1 ≡ Some f) }
    {
        let mut guard = guard!(&self.words, pass, stripes);
        if !find_bound(&mut guard, stripes.s, keys, values) {
            return (None, Some(f));
        }
        let answer = self.change_each(pass, stripes, keys, values, f);
        (Some(answer), None)
    }

    // Lets the closure change the values of the keys, which are bound to them and whose stripes are
    // held, and binds the keys to what it leaves.
    fn change_each<Q: Query<K>, R, F: FnOnce(&mut [V]) -> R>(
        &self,
        pass: &mut Pass<K, V>,
        stripes: StripeSet,
        keys: &[Q],
        values: &mut [V],
        f: F,
    ) -> R
    where
        V: Copy,
        requires held { HoldsKeys K.hash self.now stripes (map Q.name keys.now) pass.old }
        requires bound { bound_to (map Q.name keys.now) pass.old ≡ map Some values.old }
        requires call { F.IsAlwaysCallable f }
        ensures held { HoldsKeys K.hash self.now stripes (map Q.name keys.now) pass.new }
        ensures stays { IsSameButStripes pass.old pass.new }
        ensures called { FnOnceReturnsAtMut F.FnOnce f values.old result values.new }
        ensures bound { bound_to (map Q.name keys.now) pass.new ≡ map Some values.new }
    {
        let answer = f(values);
        self.update_each(pass, stripes, keys, values);
        answer
    }

    // Binds the keys, which are bound and whose stripes are held, to these values.
    fn update_each<Q: Query<K>>(
        &self,
        pass: &mut Pass<K, V>,
        stripes: StripeSet,
        keys: &[Q],
        values: &[V],
    )
    where
        V: Copy,
        requires held { HoldsKeys K.hash self.now stripes (map Q.name keys.now) pass.old }
        requires as_many { length values.now ≡ length keys.now }
        requires bound { All IsSome (bound_to (map Q.name keys.now) pass.old) }
        ensures held { HoldsKeys K.hash self.now stripes (map Q.name keys.now) pass.new }
        ensures stays { IsSameButStripes pass.old pass.new }
        ensures bound { bound_to (map Q.name keys.now) pass.new ≡ map Some values.now }
    {
        for i in 0..keys.len() {
            self.update_one(pass, stripes, keys, i, values[i]);
        }
    }

    // Binds the key at this position to the value, where it is bound.
    fn update_one<Q: Query<K>>(
        &self,
        pass: &mut Pass<K, V>,
        stripes: StripeSet,
        keys: &[Q],
        i: usize,
        value: V,
    )
        requires held { HoldsKeys K.hash self.now stripes (map Q.name keys.now) pass.old }
        requires inside { i < length keys.now }
        ensures held { HoldsKeys K.hash self.now stripes (map Q.name keys.now) pass.new }
        ensures stays { IsSameButStripes pass.old pass.new }
        ensures updated { IsUpdated (get_or (map Q.name keys.now) i []) value pass.old pass.new }
    {
        let key = keys[i];
        let mut guard = guard!(&self.words, pass, stripes);
        let place = key_place(&mut guard, stripes.s, key, KeyHash::of::<K, Q>(key));
        let _old = update(&mut guard, place, key, value);
    }

    // Takes the stripes of these keys, where they are different, and carries out the doublings that
    // are left to be.
    #[inline(always)]
    pub(crate) fn lock_different<Q: Query<K>>(
        &self,
        pass: &mut Pass<K, V>,
        keys: &[Q],
    ) -> Result<StripeSet, KeysRefused>
        requires caller { IsCaller self.now pass.old }
        requires some { 0 < length keys.now }
        requires few { length keys.now ≤ 8 }
        ensures own { IsPassOf self.now pass.new }
        ensures different { OnOk result (AreDistinct (map Q.name keys.now)) }
        ensures held { IfOk result (λ stripes. HoldsNames K.hash self.now.settings
            (map Q.name keys.now) stripes pass.old pass.new) }
        ensures found { FindsAmong
            (IsStripeOfAny K.hash self.now.settings (map Q.name keys.now)) pass.old pass.new }
        ensures caller { OnErr result (IsCaller self.now pass.new) }
        ensures refused { IfErr result (RefusesNames K.hash self.now.settings
            (map Q.name keys.now) pass.old pass.new) }
    {
        if let Some(i) = repeated::<K, Q>(keys) {
            return Err(KeysRefused::Twice(i));
        }
        Ok(self.lock_each(pass, keys)?)
    }

    // Takes the stripes of the keys so.
    #[inline(always)]
    fn lock_each<Q: Query<K>>(&self, pass: &mut Pass<K, V>, keys: &[Q]) -> Result<StripeSet, Busy>
        requires caller { IsCaller self.now pass.old }
        requires some { 0 < length keys.now }
        requires few { length keys.now ≤ 8 }
        ensures own { IsPassOf self.now pass.new }
        ensures held { IfOk result (λ stripes. HoldsNames K.hash self.now.settings
            (map Q.name keys.now) stripes pass.old pass.new) }
        ensures found { FindsAmong
            (IsStripeOfAny K.hash self.now.settings (map Q.name keys.now)) pass.old pass.new }
        ensures idle { OnErr result (IsIdle pass.new) }
        ensures busy { IfErr result (λ busy. IsBusyAmong
            (IsStripeOfAny K.hash self.now.settings (map Q.name keys.now))
            self.now.settings busy.0 pass.old pass.new) }
    {
        let mut hashes = [KeyHash {
            hash: 0,
            partial: 0,
        }; 8];
        write_hashes::<K, Q>(keys, &mut hashes);
        self.lock_hashed(pass, &hashes[..keys.len()])
    }

    // Takes the stripes of both keys so.
    #[inline(always)]
    pub(crate) fn lock_two<Q: Query<K>>(
        &self,
        pass: &mut Pass<K, V>,
        a: Q,
        b: Q,
    ) -> Result<StripeSet, Busy>
        requires caller { IsCaller self.now pass.old }
        ensures own { IsPassOf self.now pass.new }
        ensures held { IfOk result (λ stripes. HoldsNames K.hash self.now.settings
            (Q.name a ∷ Q.name b ∷ []) stripes pass.old pass.new) }
        ensures found { FindsAmong
            (IsStripeOfAny K.hash self.now.settings (Q.name a ∷ Q.name b ∷ []))
            pass.old pass.new }
        ensures idle { OnErr result (IsIdle pass.new) }
        ensures busy { IfErr result (λ busy. IsBusyAmong
            (IsStripeOfAny K.hash self.now.settings (Q.name a ∷ Q.name b ∷ []))
            self.now.settings busy.0 pass.old pass.new) }
    {
        let hashes = [KeyHash::of::<K, Q>(a), KeyHash::of::<K, Q>(b)];
        self.lock_hashed(pass, &hashes)
    }

    // Takes the stripes of the keys of these hashes, and carries out the doublings that are left to
    // be.
    #[inline(always)]
    fn lock_hashed(&self, pass: &mut Pass<K, V>, hashes: &[KeyHash]) -> Result<StripeSet, Busy>
        requires caller { IsCaller self.now pass.old }
        requires some { 0 < length hashes.now }
        requires few { length hashes.now ≤ 8 }
        requires partials { All (λ h. h.partial ≡ partial_of h.hash) hashes.now }
        ensures own { IsPassOf self.now pass.new }
        ensures held { IfOk result (λ stripes. (qs : List Name)
            → AllZip (IsHashOf K.hash) qs hashes.now
            → HoldsNames K.hash self.now.settings qs stripes pass.old pass.new) }
        ensures found { (qs : List Name) → AllZip (IsHashOf K.hash) qs hashes.now
            → FindsAmong (IsStripeOfAny K.hash self.now.settings qs) pass.old pass.new }
        ensures idle { OnErr result (IsIdle pass.new) }
        ensures busy { IfErr result (λ busy. (qs : List Name)
            → AllZip (IsHashOf K.hash) qs hashes.now
            → IsBusyAmong (IsStripeOfAny K.hash self.now.settings qs) self.now.settings busy.0
            pass.old pass.new) }
    {
        let stripes = StripeSet::of_keys(self.words.settings().s, hashes);
        match self.words.lock(pass, stripes) {
            Ok(()) => Ok(stripes),
            Err(stripe) => Err(Busy(stripe)),
        }
    }
}

// Writes the hashes of up to eight keys, in their order. An array that came back would be copied.
fn write_hashes<K: TableKey, Q: Query<K>>(keys: &[Q], hashes: &mut [KeyHash; 8])
    requires { length keys.now ≤ 8 }
    ensures { AllZip (IsHashOf K.hash) (map Q.name keys.now)
        (take (length keys.now) hashes.new) }
{
    for i in 0..keys.len() {
        hashes[i] = KeyHash::of::<K, Q>(keys[i]);
    }
}

// The position of a key that stands again behind it.
fn repeated<K: TableKey, Q: Query<K>>(keys: &[Q]) -> Option<usize>
    ensures again { IfSome result (StandsAgain (map Q.name keys.now)) }
    ensures different { IfNone result (AreDistinct (map Q.name keys.now)) }
{
    for i in (0..keys.len()).rev() {
        if has_name::<K, Q>(&keys[i + 1..], keys[i]) {
            return Some(i);
        }
    }
    None
}

// Whether one of the keys has the name of this one.
fn has_name<K: TableKey, Q: Query<K>>(keys: &[Q], key: Q) -> bool
    ensures { MatchBool result (IsIn (Q.name key) (map Q.name keys.now))
        (¬ (IsIn (Q.name key) (map Q.name keys.now))) }
{
    for other in keys {
        if key.is_same_name(other) {
            return true;
        }
    }
    false
}

// The values, where there is one at each position.
fn all_of<V: Copy, const N: usize>(values: &[Option<V>; N]) -> Option<[V; N]>
    requires { 0 < N }
    ensures all { IfSome result (λ all. values.now ≡ map Some all) }
    ensures not_all { IfNone result (¬ (All IsSome values.now)) }
{
    let mut all = [values[0]?; N];
    for i in 0..N {
        all[i] = values[i]?;
    }
    Some(all)
}
