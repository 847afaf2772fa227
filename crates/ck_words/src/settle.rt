//! Carrying out the doublings that are left of stripes that a pass holds.
ghost use Rattle.std.specs.Prelude.{◌≡◌, ◌<◌, ◌≤◌, ◌^◌, true, length};
ghost use Rattle.std.specs.Bool.{OnTrue};
ghost use Rattle.ck_stripe.specs.Tables.{AreHeld, IsTable, AreSettled};
ghost use Rattle.ck_stripe.specs.Stripes.{stripe_at, settled_stripes};
ghost use Rattle.ck_words.specs.Passes.{IsPassOf, IsUnchanged, numbers_of, PassState};
ghost use Rattle.ck_words.specs.StripeNumbers.{pair};
ghost use Rattle.ck_words.specs.StripeSets.{list_of};
ghost use Rattle.ck_words.specs.Holding.{HoldsSet, HasTakenAll};
ghost use Rattle.ck_words.specs.Closing.{IsWhole};

use crate::guard;
use crate::guard::Guard;
use crate::pass::Pass;
use crate::stripe_set::StripeSet;
use crate::words::Words;
use ck_key::TableKey;
use ck_stripe::{Held, Stripe, one_stripe, settle_all};

impl<K: TableKey + Drop, V: Drop> Words<K, V> {
    /// Carries out the doublings that are left of the stripes of a set, which were just taken. A call
    /// that `clears` takes out what they have emptied of one of two, for `free_emptied`.
    #[inline(always)]
    pub fn settle_taken(&self, pass: &mut Pass<K, V>, set: StripeSet, clears: bool)
        requires of_table { set.s ≡ self.now.settings.s }
        requires taken { (p : PassState V)
            × HasTakenAll K.hash self.now (list_of set) p pass.old }
        ensures own { IsPassOf self.now pass.new }
        ensures view { pass.new.view ≡ pass.old.view }
        ensures held { AreHeld self.now.settings.s pass.new.stripes }
        ensures numbers { numbers_of pass.new.stripes ≡ list_of set }
        ensures unchanged { IsUnchanged pass.new }
    {
        self.show_range();
        self.settle(pass, set, clears);
    }

    /// Carries out the doublings that are left of all stripes, which the pass holds as it took
    /// them.
    pub fn settle_whole(&self, pass: &mut Pass<K, V>)
        requires own { IsPassOf self.now pass.old }
        requires whole { IsWhole K.hash self.now.settings pass.old }
        requires table { IsTable self.now.settings.s pass.old.stripes }
        ensures own { IsPassOf self.now pass.new }
        ensures view { pass.new.view ≡ pass.old.view }
        ensures whole { IsWhole K.hash self.now.settings pass.new }
        ensures table { IsTable self.now.settings.s pass.new.stripes }
        ensures settled { AreSettled pass.new.stripes }
    {
        self.settle_each(pass, self.all());
    }

    // Carries out the doublings that are left of the stripes of a set. Mostly there is none.
    #[inline(always)]
    fn settle(&self, pass: &mut Pass<K, V>, set: StripeSet, clears: bool)
        requires { HoldsSet self.now set pass.old }
        ensures own { IsPassOf self.now pass.new }
        ensures settled { pass.new
            ≡ record pass.old { stripes = settled_stripes pass.old.stripes } }
    {
        let count = set.count();
        if count <= 2 {
            let mut guard = guard!(self, pass, set);
            // One test for both, before anything is looked into.
            let first = is_ready(&mut guard, 0, clears);
            let last = is_ready(&mut guard, count - 1, clears);
            let Guard { pass, .. } = guard;
            if first && last {
                return;
            }
            let (low, high) = set.two();
            return self.settle_pair(pass, low, high, clears);
        }
        self.settle_each(pass, set);
    }

    // Carries out the doublings that are left of two stripes, which are handed on by their numbers:
    // a set would be kept in memory.
    #[cold]
    #[inline(never)]
    fn settle_pair(&self, pass: &mut Pass<K, V>, low: usize, high: usize, clears: bool)
        requires own { IsPassOf self.now pass.old }
        requires rising { low ≤ high }
        requires inside { high < 2 ^ self.now.settings.s }
        requires numbered { numbers_of pass.old.stripes ≡ pair low high }
        ensures own { IsPassOf self.now pass.new }
        ensures settled { pass.new
            ≡ record pass.old { stripes = settled_stripes pass.old.stripes } }
    {
        let set = StripeSet::of_pair(self.settings().s, low, high);
        self.settle_each(pass, set);
        if clears {
            self.take_emptied(pass, set);
        }
    }

    // Takes out what a doubling has emptied of the first stripe, or else of the last.
    fn take_emptied(&self, pass: &mut Pass<K, V>, set: StripeSet)
        requires { HoldsSet self.now set pass.old }
        ensures own { IsPassOf self.now pass.new }
        ensures same { pass.new ≡ pass.old }
    {
        let mut guard = guard!(self, pass, set);
        let emptied = match one_stripe::take_emptied(&mut guard, 0) {
            Some(emptied) => Some(emptied),
            None => one_stripe::take_emptied(&mut guard, set.count() - 1),
        };
        let Guard { pass, .. } = guard;
        pass.emptied = emptied;
    }

    // Carries out the doublings that are left of the stripes of a set, one after another.
    fn settle_each(&self, pass: &mut Pass<K, V>, set: StripeSet)
        requires { HoldsSet self.now set pass.old }
        ensures own { IsPassOf self.now pass.new }
        ensures settled { pass.new
            ≡ record pass.old { stripes = settled_stripes pass.old.stripes } }
    {
        let mut guard = guard!(self, pass, set);
        settle_all(&mut guard);
    }
}

impl<K: TableKey + Drop, V: Drop> Pass<K, V> {
    /// Whether it has taken out what a doubling has emptied, which `free_emptied` frees.
    #[inline(always)]
    pub fn has_emptied(&self) -> bool {
        self.emptied.is_some()
    }

    /// Frees what it has taken out, and lets other threads run. It is called when the pass holds no
    /// stripe, since it takes a while where an allocator gives memory back to the system.
    #[cold]
    #[inline(never)]
    pub fn free_emptied(&mut self)
        ensures { self.new ≡ self.old }
    {
        self.emptied = None;
        // After a doubling a caller mostly holds stripes, whose entries it moves: where its thread loses
        // the processor, others wait for them. So it offers the processor here, where it holds none.
        K::pause(0);
    }
}

// Whether stripe `i` has nothing left of a doubling, or where the call doesn't clear it no entries
// that are to be moved.
#[inline(always)]
fn is_ready<K: TableKey + Drop, V: Drop, H: Held<Stripe<K, V>>>(
    held: &mut H,
    i: usize,
    clears: bool,
) -> bool
    requires { i < length (H.stripes held.old) }
    ensures settled { OnTrue result ((stripe_at (H.stripes held.old) i).settled ≡ true) }
    ensures same { H.stripes held.new ≡ H.stripes held.old }
    ensures stays { H.stays held.old held.new }
{
    if clears {
        one_stripe::is_clear(held, i)
    } else {
        one_stripe::is_settled(held, i)
    }
}
