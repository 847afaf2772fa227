//! Giving stripes home by no call: as they were taken, with new contents, or where a key found no
//! room in them.
ghost use Rattle.std.specs.Prelude.{◌≡◌, true, reverse};
ghost use Rattle.ck_model.specs.declared.history.Reason.TheVariants.{NoRoom};
ghost use Rattle.ck_model.specs.Contents.{layout_of, Lawful};
ghost use Rattle.ck_model.specs.Paths.{Grounds, HasNoRoom, reason_of_lack};
ghost use Rattle.ck_model.specs.Sections.{Owns};
ghost use Rattle.ck_stripe.specs.Stripes.{contents_of, HaveNoSpare};
ghost use Rattle.ck_words.specs.Passes.{IsUnchanged};
ghost use Rattle.ck_words.specs.StripeSets.{list_of};
ghost use Rattle.ck_words.specs.Retries.{as_doubled};
ghost use Rattle.ck_words.specs.Holding.{HoldsFirst, HasReleased, IsToldNoMore, IsToldPower, IsDoubledBy};
ghost use Rattle.ck_words.specs.Renewing.{HasRenewed, HasRefused};

use crate::guard::Guard;
use crate::pass::Pass;
use crate::stripe_set::StripeSet;
use crate::words::Words;
use ck_key::TableKey;
use ck_model::lack::Lack;
use std::marker::Brand;
use std::snapshot::Snapshot;

impl<K: TableKey + Drop, V: Drop> Guard<'_, K, V> {
    /// Gives the stripes back as they are.
    #[inline(always)]
    pub fn release(&mut self)
        requires locked { self.old.is_locked ≡ true }
        requires no_spare { HaveNoSpare self.old.pass.now.stripes }
        requires unchanged { IsUnchanged self.old.pass.now }
        ensures same { self.new.pass.ghost_name ≡ self.old.pass.ghost_name }
        ensures released { HasReleased self.old.words.now self.old.pass.now self.new.pass.now }
    {
        let (words, set) = (self.words, self.set);
        words.release_first(&mut *self.pass, set, set.count());
        self.is_locked = false;
    }

    /// Gives the stripes home with what they contain now, after an identity section, as a
    /// displacement or a doubling is. It tells nothing of room. The pass has then been told of
    /// their power, and its caller's doublings are counted.
    ///
    /// The first store tells what all contain.
    pub fn renew(&mut self)
        requires locked { self.old.is_locked ≡ true }
        requires no_spare { HaveNoSpare self.old.pass.now.stripes }
        requires renewed { HasRenewed K.hash self.old.words.now.settings self.old.pass.now }
        ensures same { self.new.pass.ghost_name ≡ self.old.pass.ghost_name }
        ensures released { HasReleased self.old.words.now
            (as_doubled self.old.pass.now self.new.pass.now) self.new.pass.now }
        ensures told { IsToldPower self.old.pass.now self.new.pass.now }
        ensures doubled { IsDoubledBy self.old.pass.now self.new.pass.now }
    {
        let (words, set) = (self.words, self.set);
        let pass = &mut *self.pass;
        let last = set.count() - 1;
        words.renew::<Brand, ()>(pass, set.at(last), &());
        words.release_first(pass, set, last);
        self.is_locked = false;
    }

    /// Gives the stripes back as they are, and tells that the key is unbound there and its buckets
    /// are full.
    ///
    /// The first store tells it.
    #[inline(always)]
    pub fn refuse_full(&mut self, key: &K)
        requires locked { self.old.is_locked ≡ true }
        requires no_spare { HaveNoSpare self.old.pass.now.stripes }
        requires unchanged { IsUnchanged self.old.pass.now }
        requires full { let held = contents_of self.old.pass.now.stripes in
            let layout = layout_of K.hash self.old.words.now.settings in
            Lawful layout held
            → Owns layout held (K.name key.now) × HasNoRoom layout held (K.name key.now) }
        ensures same { self.new.pass.ghost_name ≡ self.old.pass.ghost_name }
        ensures refused { HasRefused self.old.words.now (K.name key.now) NoRoom
            self.old.pass.now self.new.pass.now }
    {
        let (words, set) = (self.words, self.set);
        let pass = &mut *self.pass;
        let last = set.count() - 1;
        words.give::<Brand, K>(pass, set.at(last), key);
        words.release_first(pass, set, last);
        self.is_locked = false;
    }

    /// Gives the stripes home with what they contain now, after an identity section, and tells
    /// that the key found no room in them, for want of this. The pass has then been told of their
    /// power, and its caller's doublings are counted.
    ///
    /// The first store tells what all contain, which gives the grounds.
    pub fn refuse(&mut self, key: &K, lack: Lack)
        requires locked { self.old.is_locked ≡ true }
        requires no_spare { HaveNoSpare self.old.pass.now.stripes }
        requires renewed { HasRenewed K.hash self.old.words.now.settings self.old.pass.now }
        requires grounds { let p = self.old.pass.now in
            let settings = self.old.words.now.settings in
            Lawful (layout_of K.hash settings) (reverse p.view.held)
            → Grounds (layout_of K.hash settings) settings.min_load (contents_of p.stripes)
            (K.name key.now) (reason_of_lack lack) }
        ensures same { self.new.pass.ghost_name ≡ self.old.pass.ghost_name }
        ensures refused { HasRefused self.old.words.now (K.name key.now) (reason_of_lack lack)
            (as_doubled self.old.pass.now self.new.pass.now) self.new.pass.now }
        ensures told { IsToldPower self.old.pass.now self.new.pass.now }
        ensures doubled { IsDoubledBy self.old.pass.now self.new.pass.now }
    {
        let said = (Snapshot::of(key), lack);
        let (words, set) = (self.words, self.set);
        let pass = &mut *self.pass;
        let last = set.count() - 1;
        words.renew::<Brand, (Snapshot<K>, Lack)>(pass, set.at(last), &said);
        words.release_first(pass, set, last);
        self.is_locked = false;
    }
}

impl<K: TableKey + Drop, V: Drop> Words<K, V> {
    // Gives the first `n` stripes of a set back as they are, where the pass holds no other.
    #[inline(always)]
    pub(crate) fn release_first(&self, pass: &mut Pass<K, V>, set: StripeSet, n: usize)
        requires { HoldsFirst self.now (list_of set) n pass.old }
        ensures released { HasReleased self.now pass.old pass.new }
        ensures told { IsToldNoMore pass.old pass.new }
    {
        match n {
            0 => {}
            1 => self.give_rest(pass, set.at(0)),
            _ => self.release_each(pass, set, n),
        }
    }

    // Gives them back one after another.
    #[cold]
    #[inline(never)]
    fn release_each(&self, pass: &mut Pass<K, V>, set: StripeSet, n: usize)
        requires { HoldsFirst self.now (list_of set) n pass.old }
        ensures released { HasReleased self.now pass.old pass.new }
        ensures told { IsToldNoMore pass.old pass.new }
    {
        for i in (0..n).rev() {
            self.give_rest(pass, set.number_at(i));
        }
    }
}
