//! Taking stripes in rising order of their numbers, each with a bound on the tries.
ghost use Rattle.std.specs.Prelude.{◌≡◌, ◌<◌, ◌≤◌, ◌-◌, ◌^◌, MatchBool, OnOk, IfErr, length, take};
ghost use Rattle.ck_model.specs.Numbered.{numbers, IsIn};
ghost use Rattle.ck_core.specs.Steps.{IsAbove};
ghost use Rattle.ck_stripe.specs.Tables.{AreHeld, IsTable};
ghost use Rattle.ck_words.specs.Passes.{MayTake, IsPassOf, IsUnchanged, numbers_of, PassState, IsIdle, ShowsSeen};
ghost use Rattle.ck_words.specs.StripeNumbers.{pair};
ghost use Rattle.ck_words.specs.StripeSets.{list_of};
ghost use Rattle.ck_words.specs.Retries.{TakesWithin, FindsAgain, Stays, FindsAmong, IsBusy};
ghost use Rattle.ck_words.specs.Holding.{MayLock, HasTaken, HasTakenAll, GivesUp, Misses, TakesRest};
ghost use Rattle.ck_words.specs.Closing.{IsWhole};

use crate::pass::Pass;
use crate::stripe_set::StripeSet;
use crate::words::Words;
use ck_key::TableKey;

impl<K: TableKey + Drop, V: Drop> Words<K, V> {
    /// Takes stripe `t`, which is above all that the pass holds, by at most `turns` swaps. False
    /// where each of them found it held.
    #[inline(always)]
    pub(crate) fn try_take(&self, pass: &mut Pass<K, V>, t: usize) -> bool
        requires { MayTake self.now t pass.old }
        ensures own { IsPassOf self.now pass.new }
        ensures tries { MatchBool result
            (TakesWithin K.hash self.now.settings self.now.settings.turns t pass.old pass.new)
            (FindsAgain self.now.settings.turns t pass.old pass.new) }
        ensures unchanged { IsUnchanged pass.new }
    {
        self.show_range();
        if self.take(pass, t) {
            return true;
        }
        self.try_again(pass, t)
    }

    // Goes on with the second of the tries that `try_take` makes.
    #[cold]
    #[inline(never)]
    pub(crate) fn try_again(&self, pass: &mut Pass<K, V>, t: usize) -> bool
        requires { MayTake self.now t pass.old }
        ensures own { IsPassOf self.now pass.new }
        ensures tries { MatchBool result
            (TakesWithin K.hash self.now.settings (self.now.settings.turns - 1) t pass.old pass.new)
            (FindsAgain (self.now.settings.turns - 1) t pass.old pass.new) }
        ensures unchanged { IsUnchanged pass.new }
    {
        for tries in 1..self.settings().turns {
            K::pause(tries);
            if self.take(pass, t) {
                return true;
            }
        }
        false
    }

    /// Takes the stripes of a set, and carries out the doublings that are left of them. Where
    /// another pass holds one, it gives back what it holds, unchanged, and answers the number of
    /// that stripe, which was found held `turns` times in a row.
    #[inline(always)]
    pub fn lock(&self, pass: &mut Pass<K, V>, set: StripeSet) -> Result<(), u32>
        requires { MayLock self.now set pass.old }
        ensures own { IsPassOf self.now pass.new }
        ensures stays { Stays pass.old.view pass.new.view }
        ensures held { OnOk result (AreHeld self.now.settings.s pass.new.stripes) }
        ensures numbers { OnOk result (numbers_of pass.new.stripes ≡ list_of set) }
        ensures unchanged { OnOk result (IsUnchanged pass.new) }
        ensures shows { OnOk result (ShowsSeen K.hash self.now.settings pass.new) }
        ensures found { FindsAmong (λ t. IsIn t (list_of set)) pass.old pass.new }
        ensures busy { IfErr result (λ t. IsBusy self.now.settings t pass.old pass.new) }
        ensures asked { IfErr result (λ t. IsIn t (list_of set)) }
    {
        if let Err(t) = self.take_set(pass, set) {
            return Err(t);
        }
        self.settle_taken(pass, set, false);
        Ok(())
    }

    // Takes the stripes of a set so, with what is left of their doublings.
    #[inline(always)]
    fn take_set(&self, pass: &mut Pass<K, V>, set: StripeSet) -> Result<(), u32>
        requires { MayLock self.now set pass.old }
        ensures taken { OnOk result
            (HasTakenAll K.hash self.now (list_of set) pass.old pass.new) }
        ensures refused { IfErr result (λ t.
            GivesUp self.now (λ u. IsIn u (list_of set)) t pass.old pass.new) }
    {
        if let Err(i) = self.lock_now(pass, set) {
            if let Err(t) = self.lock_later(pass, set, i) {
                return Err(t);
            }
        }
        Ok(())
    }

    /// Takes the stripes of a set by one swap each. Where another pass holds one, it keeps those
    /// before it, and answers its position in the set.
    #[inline(always)]
    pub fn lock_now(&self, pass: &mut Pass<K, V>, set: StripeSet) -> Result<(), usize>
        requires { MayLock self.now set pass.old }
        ensures own { IsPassOf self.now pass.new }
        ensures unchanged { IsUnchanged pass.new }
        ensures taken { OnOk result
            (HasTakenAll K.hash self.now (list_of set) pass.old pass.new) }
        ensures missed { IfErr result (λ i.
            Misses K.hash self.now (list_of set) i pass.old pass.new) }
    {
        if !self.take(pass, set.at(0)) {
            return Err(0);
        }
        if set.count() == 1 {
            return Ok(());
        }
        if !self.take(pass, set.at(1)) {
            return Err(1);
        }
        if set.count() == 2 {
            return Ok(());
        }
        self.lock_rest(pass, set)
    }

    // Goes on with the third stripe.
    #[cold]
    #[inline(never)]
    fn lock_rest(&self, pass: &mut Pass<K, V>, set: StripeSet) -> Result<(), usize>
        requires own { IsPassOf self.now pass.old }
        requires unchanged { IsUnchanged pass.old }
        requires of_table { set.s ≡ self.now.settings.s }
        requires more { 2 < length (list_of set) }
        requires taken { (p : PassState V) × HasTaken K.hash self.now (λ t. IsIn t (list_of set))
            (take 2 (list_of set)) p pass.old }
        ensures own { IsPassOf self.now pass.new }
        ensures unchanged { IsUnchanged pass.new }
        ensures taken { OnOk result ((p : PassState V) → HasTaken K.hash self.now
            (λ t. IsIn t (list_of set)) (take 2 (list_of set)) p pass.old
            → HasTakenAll K.hash self.now (list_of set) p pass.new) }
        ensures missed { IfErr result (λ i. (p : PassState V) → HasTaken K.hash self.now
            (λ t. IsIn t (list_of set)) (take 2 (list_of set)) p pass.old
            → Misses K.hash self.now (list_of set) i p pass.new) }
    {
        for i in 2..set.count() {
            if !self.take(pass, set.number_at(i)) {
                return Err(i);
            }
        }
        Ok(())
    }

    /// Goes on where `lock_now` missed the stripe at position `i`, with the second of `turns` tries
    /// in all. Where each of them found a stripe held, it gives back what it holds, unchanged, and
    /// answers the number of that stripe.
    #[inline(always)]
    pub fn lock_later(&self, pass: &mut Pass<K, V>, set: StripeSet, i: usize) -> Result<(), u32>
        requires own { IsPassOf self.now pass.old }
        requires unchanged { IsUnchanged pass.old }
        requires of_table { set.s ≡ self.now.settings.s }
        requires missed { (p : PassState V)
            × Misses K.hash self.now (list_of set) i p pass.old }
        ensures { TakesRest K.hash self.now (list_of set) i result pass.old pass.new }
    {
        if set.count() <= 2 {
            let (low, high) = set.two();
            return self.lock_pair_later(pass, low, high, i);
        }
        self.lock_set_later(pass, set, i)
    }

    // Goes on so with the set of two stripes, which are handed on by their numbers: a set would be
    // kept in memory.
    #[cold]
    #[inline(never)]
    fn lock_pair_later(
        &self,
        pass: &mut Pass<K, V>,
        low: usize,
        high: usize,
        i: usize,
    ) -> Result<(), u32>
        requires own { IsPassOf self.now pass.old }
        requires unchanged { IsUnchanged pass.old }
        requires rising { low ≤ high }
        requires inside { high < 2 ^ self.now.settings.s }
        requires missed { (p : PassState V)
            × Misses K.hash self.now (pair low high) i p pass.old }
        ensures { TakesRest K.hash self.now (pair low high) i result pass.old pass.new }
    {
        let set = StripeSet::of_pair(self.settings().s, low, high);
        self.lock_set_later(pass, set, i)
    }

    // Goes on so with any set.
    fn lock_set_later(&self, pass: &mut Pass<K, V>, set: StripeSet, i: usize) -> Result<(), u32>
        requires own { IsPassOf self.now pass.old }
        requires unchanged { IsUnchanged pass.old }
        requires of_table { set.s ≡ self.now.settings.s }
        requires missed { (p : PassState V)
            × Misses K.hash self.now (list_of set) i p pass.old }
        ensures { TakesRest K.hash self.now (list_of set) i result pass.old pass.new }
    {
        self.show_range();
        let missed = set.number_at(i);
        if !self.try_again(pass, missed) {
            self.release_first(pass, set, i);
            return Err(missed as u32);
        }
        for j in i + 1..set.count() {
            let t = set.number_at(j);
            if !self.try_take(pass, t) {
                self.release_first(pass, set, j);
                return Err(t as u32);
            }
        }
        Ok(())
    }

    /// Takes all stripes, as `lock` takes those of a set, with what is left of their doublings.
    pub fn lock_all(&self, pass: &mut Pass<K, V>) -> Result<(), u32>
        requires own { IsPassOf self.now pass.old }
        requires idle { IsIdle pass.old }
        ensures own { IsPassOf self.now pass.new }
        ensures stays { Stays pass.old.view pass.new.view }
        ensures whole { OnOk result (IsWhole K.hash self.now.settings pass.new) }
        ensures table { OnOk result (IsTable self.now.settings.s pass.new.stripes) }
        ensures found { FindsAmong (λ t. t < 2 ^ self.now.settings.s) pass.old pass.new }
        ensures busy { IfErr result (λ t. IsBusy self.now.settings t pass.old pass.new) }
        ensures asked { IfErr result (λ t. t < 2 ^ self.now.settings.s) }
    {
        self.show_range();
        self.take_set(pass, self.all())
    }
}
