//! Calls that change or unbind a bound key.
ghost use Rattle.std.specs.Prelude.{◌≡◌, IfOk, IfErr, MatchResult, if◌then◌else◌};
ghost use Rattle.std.specs.Fn.{FnOnceReturnsAt};
ghost use Rattle.std.specs.Result.{result_ok};
ghost use Rattle.ck_model.specs.declared.history.Act.TheVariants.{Find};
ghost use Rattle.ck_model.specs.declared.history.Call.TheVariants.{On};
ghost use Rattle.ck_section.specs.Acts.{Updates, Modifies, Changes, Erases, ErasesBy, ReplacesIf, TriesChange};
ghost use Rattle.ck_words.specs.Answering.{IsAnsweredOn};
ghost use Rattle.ck_words.specs.Closing.{IsCaller};
ghost use Rattle.ck_model.specs.Commits.{call_of};
ghost use Rattle.cuckoo_map.specs.Refusals.{FindsOwn, IsBusyAt};
ghost use Rattle.cuckoo_map.specs.Queries.{HasQueried};

use crate::table::Table;
use ck_key::{Query, TableKey};
use ck_model::commit::Commit;
use ck_refusal::Busy;
use ck_section::{erase, erase_fn, modify, replace_if, update, update_fn, value_and_outcome};
use ck_words::{Pass, guard};
use std::snapshot::Snapshot;

impl<K: TableKey + Drop, V: Drop> Table<K, V> {
    /// `Caller::update`, by a pass.
    pub fn update<Q: Query<K>>(
        &self,
        pass: &mut Pass<K, V>,
        key: Q,
        value: V,
    ) -> Result<Option<V>, (V, Busy)>
        requires caller { IsCaller self.now pass.old }
        ensures caller { IsCaller self.now pass.new }
        ensures answered { IfOk result (Updates value (IsAnsweredOn (Q.name key) pass.old pass.new)) }
        ensures busy { IfErr result (λ back. (back.0 ≡ value)
            × IsBusyAt K.hash self.now.settings (Q.name key) back.1.0 pass.old pass.new) }
        ensures found { FindsOwn K.hash self.now.settings (Q.name key) pass.old pass.new }
    {
        let spot = match self.lock_key(pass, key) {
            Ok(spot) => spot,
            Err(busy) => return Err((value, busy)),
        };
        let said = Commit::Update(Snapshot::of(&key), Snapshot::of(&value));
        let mut guard = guard!(&self.words, pass, spot.stripes);
        let old = update(&mut guard, spot.place, key, value);
        guard.commit_query(said);
        Ok(old)
    }

    /// `Caller::update_fn`, by a pass.
    pub fn update_fn<Q: Query<K>, F: FnOnce(V) -> V + Drop>(
        &self,
        pass: &mut Pass<K, V>,
        key: Q,
        f: F,
    ) -> Result<bool, Busy>
        requires caller { IsCaller self.now pass.old }
        requires call { F.IsAlwaysCallable f }
        ensures caller { IsCaller self.now pass.new }
        ensures queried { HasQueried (Changes (F.post f))
            K.hash self.now.settings (Q.name key) result pass.old pass.new }
    {
        let spot = self.lock_key(pass, key)?;
        let mut guard = guard!(&self.words, pass, spot.stripes);
        let bound = update_fn(&mut guard, spot.place, key, f);
        guard.commit_query(Commit::Change(Snapshot::of(&key)));
        Ok(bound)
    }

    /// `Caller::modify`, by a pass.
    pub fn modify<Q: Query<K>, R, F: FnOnce(V) -> (V, R) + Drop>(
        &self,
        pass: &mut Pass<K, V>,
        key: Q,
        f: F,
    ) -> Result<Option<R>, Busy>
        requires caller { IsCaller self.now pass.old }
        requires call { F.IsAlwaysCallable f }
        ensures caller { IsCaller self.now pass.new }
        ensures queried { HasQueried (Modifies (F.post f))
            K.hash self.now.settings (Q.name key) result pass.old pass.new }
    {
        let spot = self.lock_key(pass, key)?;
        let mut guard = guard!(&self.words, pass, spot.stripes);
        let answer = modify(&mut guard, spot.place, key, f);
        let commit = Commit::Change(Snapshot::of(&key));
        guard.commit_query(commit);
        // A closure that was not called is dropped only now, when no stripe is held.
        Ok(answer.ok())
    }

    /// `Caller::erase`, by a pass.
    pub fn erase<Q: Query<K>>(&self, pass: &mut Pass<K, V>, key: Q) -> Result<Option<V>, Busy>
        requires caller { IsCaller self.now pass.old }
        ensures caller { IsCaller self.now pass.new }
        ensures queried { HasQueried Erases
            K.hash self.now.settings (Q.name key) result pass.old pass.new }
    {
        let since = Snapshot::of(pass);
        // As `lock_key` does. Behind a call of a function that may wait there is a test, so it is one
        // less where the stripes are taken at once.
        let own = self.stripes_of_key(key);
        if let Err(missed) = self.words.lock_now(pass, own.stripes) {
            self.lock_key_later(pass, key, own, missed, &since)?;
        }
        let spot = self.spot_in(pass, key, own, false, &since);
        let mut guard = guard!(&self.words, pass, spot.stripes);
        let value = erase(&mut guard, spot.place, key);
        guard.commit_query(Commit::Erase(Snapshot::of(&key)));
        Ok(value)
    }

    /// `Caller::erase_fn`, by a pass.
    pub fn erase_fn<Q: Query<K>, F: FnOnce(&V) -> bool + Drop>(
        &self,
        pass: &mut Pass<K, V>,
        key: Q,
        f: F,
    ) -> Result<Option<bool>, Busy>
        requires caller { IsCaller self.now pass.old }
        requires call { F.IsAlwaysCallable f }
        ensures caller { IsCaller self.now pass.new }
        ensures queried { HasQueried (ErasesBy (FnOnceReturnsAt F.FnOnce f))
            K.hash self.now.settings (Q.name key) result pass.old pass.new }
    {
        let gone = self.erase_bound(pass, key, f)?;
        Ok(gone.ok())
    }

    // What `erase_fn` does. Where the key is unbound, the closure comes back.
    #[inline(always)]
    fn erase_bound<Q: Query<K>, F: FnOnce(&V) -> bool>(
        &self,
        pass: &mut Pass<K, V>,
        key: Q,
        f: F,
    ) -> Result<Result<bool, F>, Busy>
    where
        requires caller { IsCaller self.now pass.old }
        requires call { F.IsAlwaysCallable f }
        ensures caller { IsCaller self.now pass.new }
        ensures queried { HasQueried (λ P answer. IfErr answer (λ back. back ≡ f)
            × ErasesBy (FnOnceReturnsAt F.FnOnce f) P (result_ok answer))
            K.hash self.now.settings (Q.name key) result pass.old pass.new }
    {
        let spot = self.lock_key(pass, key)?;
        let mut guard = guard!(&self.words, pass, spot.stripes);
        let gone = erase_fn(&mut guard, spot.place, key, f);
        let said = chosen::<K, Q, V, F>(&gone, key, Commit::Erase(Snapshot::of(&key)));
        guard.commit_query(said);
        Ok(gone)
    }

    /// `Caller::replace_if`, by a pass.
    pub fn replace_if<Q: Query<K>, F: FnOnce(&V) -> Option<V> + Drop>(
        &self,
        pass: &mut Pass<K, V>,
        key: Q,
        f: F,
    ) -> Result<Option<bool>, Busy>
        requires caller { IsCaller self.now pass.old }
        requires call { F.IsAlwaysCallable f }
        ensures caller { IsCaller self.now pass.new }
        ensures queried { HasQueried (ReplacesIf (FnOnceReturnsAt F.FnOnce f))
            K.hash self.now.settings (Q.name key) result pass.old pass.new }
    {
        let replaced = self.replace_bound(pass, key, f)?;
        Ok(replaced.ok())
    }

    // What `replace_if` does. Where the key is unbound, the closure comes back.
    #[inline(always)]
    fn replace_bound<Q: Query<K>, F: FnOnce(&V) -> Option<V>>(
        &self,
        pass: &mut Pass<K, V>,
        key: Q,
        f: F,
    ) -> Result<Result<bool, F>, Busy>
    where
        requires caller { IsCaller self.now pass.old }
        requires call { F.IsAlwaysCallable f }
        ensures caller { IsCaller self.now pass.new }
        ensures queried { HasQueried (λ P answer. IfErr answer (λ back. back ≡ f)
            × ReplacesIf (FnOnceReturnsAt F.FnOnce f) P (result_ok answer))
            K.hash self.now.settings (Q.name key) result pass.old pass.new }
    {
        let spot = self.lock_key(pass, key)?;
        let mut guard = guard!(&self.words, pass, spot.stripes);
        let replaced = replace_if(&mut guard, spot.place, key, f);
        let said = chosen::<K, Q, V, F>(&replaced, key, Commit::Change(Snapshot::of(&key)));
        guard.commit_query(said);
        Ok(replaced)
    }

    /// `Caller::try_update`, by a pass.
    pub fn try_update<Q: Query<K>, E, F: FnOnce(V) -> Result<V, (V, E)> + Drop>(
        &self,
        pass: &mut Pass<K, V>,
        key: Q,
        f: F,
    ) -> Result<Option<Result<(), E>>, Busy>
        requires caller { IsCaller self.now pass.old }
        requires call { F.IsAlwaysCallable f }
        ensures caller { IsCaller self.now pass.new }
        ensures queried { HasQueried (TriesChange (F.post f))
            K.hash self.now.settings (Q.name key) result pass.old pass.new }
    {
        self.modify(pass, key, |value: V| value_and_outcome(f(value)))
    }
}

// The call that a closure has chosen: `made` where it was called and answered true, and else a find
// of the key.
#[inline(always)]
fn chosen<K: TableKey, Q: Query<K>, V, F>(
    answer: &Result<bool, F>,
    key: Q,
    made: Commit<Q, V>,
) -> Commit<Q, V>
    ensures { let find = On (Q.name key) Find in MatchResult answer.now
        (λ so. call_of Q.name result ≡ (if so then call_of Q.name made else find))
        (λ _. call_of Q.name result ≡ find) }
{
    match answer {
        Ok(true) => made,
        _ => Commit::Find(Snapshot::of(&key)),
    }
}
