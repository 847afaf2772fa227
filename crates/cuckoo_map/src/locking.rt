//! Locking stripes: those of a key, or all.
ghost use Rattle.std.specs.Prelude.{◌≡◌, OnOk, OnErr, IfOk, IfErr};
ghost use Rattle.ck_stripe.specs.Tables.{IsTable};
ghost use Rattle.ck_words.specs.Passes.{PassState, IsPassOf, IsIdle, IsUnchanged};
ghost use Rattle.ck_words.specs.StripeSets.{list_of};
ghost use Rattle.ck_words.specs.Holding.{HasTakenAll, Misses};
ghost use Rattle.ck_words.specs.Closing.{IsCaller, IsWhole};
ghost use Rattle.ck_words.specs.Retries.{FindsAmong, Stays};
ghost use Rattle.cuckoo_map.specs.Holding.{HasSpot, AreStripesOf};
ghost use Rattle.cuckoo_map.specs.Refusals.{FindsOwn, IsBusyAt, IsBusyAmong, IsStripeIn};

use crate::table::Table;
use ck_key::{KeyHash, Query, TableKey};
use ck_refusal::Busy;
use ck_section::{KeyPlace, key_place};
use ck_words::{Pass, StripeSet, guard};
use std::snapshot::Snapshot;

// The stripes of a key, and its hash.
#[derive(Clone, Copy)]
pub(crate) struct KeyStripes {
    pub(crate) stripes: StripeSet,
    pub(crate) hash: KeyHash,
}

// The stripes that a pass holds, and where its key may be among them.
#[derive(Clone, Copy)]
pub(crate) struct Spot {
    pub(crate) stripes: StripeSet,
    pub(crate) place: KeyPlace,
}

impl<K: TableKey + Drop, V: Drop> Table<K, V> {
    // Takes the stripes of the key, and carries out a doubling that is left to be. Where the key
    // may be among them comes back.
    #[inline(always)]
    pub(crate) fn lock_key<Q: Query<K>>(&self, pass: &mut Pass<K, V>, key: Q) -> Result<Spot, Busy>
        requires caller { IsCaller self.now pass.old }
        ensures own { IsPassOf self.now pass.new }
        ensures spot { IfOk result (λ spot.
            HasSpot K.hash self.now.settings (Q.name key) spot pass.old pass.new) }
        ensures found { FindsOwn K.hash self.now.settings (Q.name key) pass.old pass.new }
        ensures idle { OnErr result (IsIdle pass.new) }
        ensures busy { IfErr result (λ busy.
            IsBusyAt K.hash self.now.settings (Q.name key) busy.0 pass.old pass.new) }
    {
        let since = Snapshot::of(pass);
        let own = self.stripes_of_key(key);
        if let Err(missed) = self.words.lock_now(pass, own.stripes) {
            self.lock_key_later(pass, key, own, missed, &since)?;
        }
        Ok(self.spot_in(pass, key, own, false, &since))
    }

    // Goes on where `lock_now` missed the stripe at position `missed` of the key's. `since` is the
    // pass as the call began.
    #[inline(always)]
    pub(crate) fn lock_key_later<Q: Query<K>>(
        &self,
        pass: &mut Pass<K, V>,
        key: Q,
        own: KeyStripes,
        missed: usize,
        since: &Snapshot<Pass<K, V>>,
    ) -> Result<(), Busy>
        requires own { IsPassOf self.now pass.old }
        requires unchanged { IsUnchanged pass.old }
        requires key_stripes { AreStripesOf K.hash self.now.settings (Q.name key) own }
        requires missed { Misses K.hash self.now (list_of own.stripes) missed
            since.now.value pass.old }
        ensures own { IsPassOf self.now pass.new }
        ensures taken { OnOk result
            (HasTakenAll K.hash self.now (list_of own.stripes) since.now.value pass.new) }
        ensures idle { OnErr result (IsIdle pass.new) }
        ensures found { OnErr result
            (FindsOwn K.hash self.now.settings (Q.name key) since.now.value pass.new) }
        ensures busy { IfErr result (λ busy.
            IsBusyAt K.hash self.now.settings (Q.name key) busy.0 since.now.value pass.new) }
    {
        match self.words.lock_later(pass, own.stripes, missed) {
            Ok(()) => Ok(()),
            Err(held) => Err(Busy(held)),
        }
    }

    // The stripes of the key, and its hash.
    #[inline(always)]
    pub(crate) fn stripes_of_key<Q: Query<K>>(&self, key: Q) -> KeyStripes
        ensures { AreStripesOf K.hash self.now.settings (Q.name key) result }
    {
        let hash = KeyHash::of::<K, Q>(key);
        let stripes = StripeSet::of_key(self.words.settings().s, hash);
        KeyStripes { stripes, hash }
    }

    // Carries out a doubling that is left of the key's stripes, which were just taken; a call that
    // `clears` takes out what it has emptied. Where the key may be among them comes back. `since` is
    // the pass before it took them.
    #[inline(always)]
    pub(crate) fn spot_in<Q: Query<K>>(
        &self,
        pass: &mut Pass<K, V>,
        key: Q,
        own: KeyStripes,
        clears: bool,
        since: &Snapshot<Pass<K, V>>,
    ) -> Spot
        requires key_stripes { AreStripesOf K.hash self.now.settings (Q.name key) own }
        requires taken { HasTakenAll K.hash self.now (list_of own.stripes)
            since.now.value pass.old }
        ensures own { IsPassOf self.now pass.new }
        ensures spot { HasSpot K.hash self.now.settings (Q.name key) result
            since.now.value pass.new }
        ensures found { FindsOwn K.hash self.now.settings (Q.name key) since.now.value pass.new }
    {
        let KeyStripes { stripes, hash } = own;
        self.words.settle_taken(pass, stripes, clears);
        let mut guard = guard!(&self.words, pass, stripes);
        let place = key_place(&mut guard, stripes.s, key, hash);
        Spot { stripes, place }
    }

    // Takes all stripes, with what is left of their doublings.
    pub(crate) fn lock_all(&self, pass: &mut Pass<K, V>) -> Result<(), Busy>
        requires caller { IsCaller self.now pass.old }
        ensures own { IsPassOf self.now pass.new }
        ensures stays { Stays pass.old.view pass.new.view }
        ensures whole { OnOk result (IsWhole K.hash self.now.settings pass.new) }
        ensures table { OnOk result (IsTable self.now.settings.s pass.new.stripes) }
        ensures found { FindsAmong (IsStripeIn self.now.settings) pass.old pass.new }
        ensures idle { OnErr result (IsIdle pass.new) }
        ensures busy { IfErr result (λ busy. IsBusyAmong (IsStripeIn self.now.settings)
            self.now.settings busy.0 pass.old pass.new) }
    {
        match self.words.lock_all(pass) {
            Ok(()) => Ok(()),
            Err(stripe) => Err(Busy(stripe)),
        }
    }
}
