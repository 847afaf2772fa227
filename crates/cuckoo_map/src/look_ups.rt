//! Calls that change nothing.
ghost use Rattle.std.specs.Prelude.{◌≡◌, Some, IfNone};
ghost use Rattle.std.specs.Fn.{FnOnceReturnsAt};
ghost use Rattle.ck_section.specs.Acts.{Finds, FindsBound, FindsBy};
ghost use Rattle.ck_words.specs.Answering.{IsAnsweredOn};
ghost use Rattle.ck_words.specs.Closing.{IsCaller};
ghost use Rattle.ck_words.specs.Passes.{IsPassOf};
ghost use Rattle.cuckoo_map.specs.Holding.{HasSpot};
ghost use Rattle.cuckoo_map.specs.Queries.{HasQueried};
ghost use Rattle.cuckoo_map.specs.Refusals.{FindsOwn};

use crate::locking::Spot;
use crate::table::Table;
use ck_key::{Query, TableKey};
use ck_model::commit::Commit;
use ck_refusal::Busy;
use ck_section::find;
use ck_words::{Pass, guard};
use std::snapshot::Snapshot;

impl<K: TableKey + Drop, V: Drop> Table<K, V> {
    /// `Caller::find_fn`, by a pass.
    pub fn find_fn<Q: Query<K>, R, F: FnOnce(&V) -> R + Drop>(
        &self,
        pass: &mut Pass<K, V>,
        key: Q,
        f: F,
    ) -> Result<Option<R>, Busy>
        requires caller { IsCaller self.now pass.old }
        requires call { F.IsAlwaysCallable f }
        ensures caller { IsCaller self.now pass.new }
        ensures queried { HasQueried (FindsBy (FnOnceReturnsAt F.FnOnce f))
            K.hash self.now.settings (Q.name key) result pass.old pass.new }
    {
        let since = Snapshot::of(pass);
        // As `lock_key` does. Behind a call of a function that may wait there is a test, so it is one
        // less where the stripes are taken at once.
        let own = self.stripes_of_key(key);
        if let Err(missed) = self.words.lock_now(pass, own.stripes) {
            self.lock_key_later(pass, key, own, missed, &since)?;
        }
        let spot = self.spot_in(pass, key, own, false, &since);
        // A closure that was not called is dropped only here, when no stripe is held.
        let (found, _) = self.find_in(pass, spot, key, f, since);
        Ok(found)
    }

    // The same for a key whose stripes its pass holds and gives back. Where the key is unbound,
    // the closure comes back. `since` is the pass as the call began.
    #[inline(always)]
    fn find_in<Q: Query<K>, R, F: FnOnce(&V) -> R>(
        &self,
        pass: &mut Pass<K, V>,
        spot: Spot,
        key: Q,
        f: F,
        since: Snapshot<Pass<K, V>>,
    ) -> (Option<R>, Option<F>)
    where
        requires since { IsCaller self.now since.value }
        requires own { IsPassOf self.now pass.old }
        requires spot { HasSpot K.hash self.now.settings (Q.name key) spot since.value pass.old }
        requires found { FindsOwn K.hash self.now.settings (Q.name key) since.value pass.old }
        requires call { F.IsAlwaysCallable f }
        ensures caller { IsCaller self.now pass.new }
        ensures answered { FindsBy (FnOnceReturnsAt F.FnOnce f)
            (IsAnsweredOn (Q.name key) since.value pass.new) result.0 }
        ensures back { IfNone result.0 (result.1 ≡ Some f) }
        ensures found { FindsOwn K.hash self.now.settings (Q.name key) since.value pass.new }
    {
        let mut guard = guard!(&self.words, pass, spot.stripes);
        let found = find(&mut guard, spot.place, key, f);
        guard.commit_query(Commit::Find(Snapshot::of(&key)));
        found
    }

    /// `Caller::find`, by a pass.
    pub fn find<Q: Query<K>>(&self, pass: &mut Pass<K, V>, key: Q) -> Result<Option<V>, Busy>
    where
        V: Copy,
        requires caller { IsCaller self.now pass.old }
        ensures caller { IsCaller self.now pass.new }
        ensures queried { HasQueried Finds
            K.hash self.now.settings (Q.name key) result pass.old pass.new }
    {
        self.find_fn(pass, key, |value: &V| *value)
    }

    /// `Caller::contains`, by a pass.
    pub fn contains<Q: Query<K>>(&self, pass: &mut Pass<K, V>, key: Q) -> Result<bool, Busy>
        requires caller { IsCaller self.now pass.old }
        ensures caller { IsCaller self.now pass.new }
        ensures queried { HasQueried FindsBound
            K.hash self.now.settings (Q.name key) result pass.old pass.new }
    {
        let found = self.find_fn(pass, key, |_value: &V| ())?;
        Ok(found.is_some())
    }
}
