//! The steps on the lock words, and what each tells. Each is one atomic operation on one word, and
//! one step of the core. Nothing else but a split or a join changes what a pass knows, and nothing
//! else which stripes it holds. A stripe goes home with memory for its rows alone, and so a pass
//! finds it there.
//!
//! The six are public, though calls lock and give back by sets: their contracts are what this crate
//! promises of every atomic step.
ghost use Rattle.std.specs.Prelude.{◌≡◌, ◌<◌, ◌^◌, Some, None, reverse};
ghost use Rattle.ck_model.specs.Numbered.{numbers};
ghost use Rattle.ck_model.specs.Contents.{layout_of, Lawful};
ghost use Rattle.ck_model.specs.Sections.{Section, IdentitySection};
ghost use Rattle.ck_core.specs.Steps.{Label, IsAbove, IsExcused, HasGrounds};
ghost use Rattle.ck_stripe.specs.Stripes.{contents_of, HaveNoSpare};
ghost use Rattle.ck_words.specs.Passes.{MayTake, MayGive, IsPassIn, IsPassOf, IsUnchanged, TriesStripe, Sends, LooksUp};

use crate::pass::Pass;
use crate::words::Words;
use atomic_table::Play;
use ck_core::known::Known;
use ck_key::TableKey;
use ck_stripe::Stripe;
use std::marker::{Brand, PhantomData};

/// A swap for 1: the stripe is taken, or it was found held.
pub struct Take;

impl<K: TableKey, V> Play<Option<Stripe<K, V>>, Known<V>> for Take {
    ghost use Rattle.std.specs.Prelude.{◌/◌};
    ghost use Rattle.ck_words.specs.Plays.{SeatTries};

    ghost then = { λ st m r m2. SeatTries K.hash m.0.settings (st.word / 8) m r m2 };
}

/// What a stripe that goes home says of room. A call at `Brand` picks it.
pub trait Refuses {
    ghost use Rattle.std.specs.Prelude.{Option};
    ghost use Rattle.ck_model.specs.declared.history.Reason.{Reason};
    ghost use Rattle.ck_model.specs.Promise.{Name};

    ghost refused: { Option (Name × Reason) };
}

impl Refuses for Brand {
    ghost use Rattle.std.specs.Prelude.{None};

    ghost refused = { None };
}

/// A store of 0: the stripe goes home unchanged.
pub struct Give<J> {
    said: PhantomData<J>,
}

impl<K: TableKey, V, J: Refuses> Play<Option<Stripe<K, V>>, Known<V>> for Give<J> {
    ghost use Rattle.std.specs.Prelude.{◌/◌};
    ghost use Rattle.ck_core.specs.Steps.Label.{Give};
    ghost use Rattle.ck_words.specs.Plays.{SeatGives};

    ghost then = { λ st m _ m2. SeatGives K.hash m.0.settings (Give (st.word / 8) J.refused) m m2 };
}

/// A store of 0 after an identity section: the stripe goes home with its new content.
pub struct Renew<J> {
    said: PhantomData<J>,
}

impl<K: TableKey, V, J: Refuses> Play<Option<Stripe<K, V>>, Known<V>> for Renew<J> {
    ghost use Rattle.std.specs.Prelude.{◌/◌};
    ghost use Rattle.ck_core.specs.Steps.Label.{Renew};
    ghost use Rattle.ck_words.specs.Plays.{SeatGives, contents_in};

    ghost then = { λ st m _ m2. SeatGives K.hash m.0.settings
        (Renew (st.word / 8) (contents_in m.1) J.refused) m m2 };
}

/// The entry that a step decides. A call at `Brand` picks it.
pub trait Says<V> {
    ghost use Rattle.ck_model.specs.declared.history.Entry.{Entry};

    ghost entry: { Entry V };
}

impl<V> Says<V> for Brand {
    ghost use Rattle.ck_words.specs.Plays.{no_entry};

    ghost entry = { no_entry };
}

/// A store of 0 after a section: the call is decided, and the stripe goes home with its new
/// content.
pub struct Decide<J> {
    said: PhantomData<J>,
}

impl<K: TableKey, V, J: Says<V>> Play<Option<Stripe<K, V>>, Known<V>> for Decide<J> {
    ghost use Rattle.std.specs.Prelude.{◌/◌};
    ghost use Rattle.ck_core.specs.Steps.Label.{Decide};
    ghost use Rattle.ck_words.specs.Plays.{SeatGives, contents_in};

    ghost then = { λ st m _ m2. SeatGives K.hash m.0.settings
        (Decide (st.word / 8) (contents_in m.1) J.entry) m m2 };
}

/// A load: the history so far is seen.
pub struct Look;

impl<K: TableKey, V> Play<Option<Stripe<K, V>>, Known<V>> for Look {
    ghost use Rattle.std.specs.Prelude.{◌/◌};
    ghost use Rattle.ck_words.specs.Plays.{SeatLooks};

    ghost then = { λ st m _ m2. SeatLooks K.hash m.0.settings (st.word / 8) m m2 };
}

impl<K: TableKey + Drop, V: Drop> Words<K, V> {
    /// Takes stripe `t`, which is above all that the pass holds. False where another pass holds it.
    ///
    /// It is a swap for 1. Where it brings back 0 the pass has the stripe, and has seen the history
    /// so far.
    pub fn take(&self, pass: &mut Pass<K, V>, t: usize) -> bool
        requires { MayTake self.now t pass.old }
        ensures own { IsPassOf self.now pass.new }
        ensures step { TriesStripe K.hash self.now t result pass.old pass.new }
        ensures unchanged { IsUnchanged pass.new }
    {
        if self.table.shared.swap::<Take>(&mut pass.seat, t * 8, 1) != 0 {
            return false;
        }
        true
    }

    /// Gives the highest stripe back, number `t`, as it was taken. `said` is for the pick of `J`
    /// alone.
    ///
    /// It is a store of 0. Where the stripes show it, it may tell that a name found no room.
    pub fn give<J: Refuses, X>(&self, pass: &mut Pass<K, V>, t: usize, said: &X)
        requires holds { MayGive self.now t pass.old }
        requires unchanged { IsUnchanged pass.old }
        requires excused { Lawful (layout_of K.hash self.now.settings)
            (contents_of pass.old.stripes) → IsExcused (layout_of K.hash
            self.now.settings) self.now.settings.min_load (contents_of pass.old.stripes) J.refused }
        ensures own { IsPassOf self.now pass.new }
        ensures step { Sends K.hash self.now (λ t _. Label.Give t J.refused) pass.old pass.new }
        ensures unchanged { IsUnchanged pass.new }
        ensures no_spare { HaveNoSpare pass.new.stripes }
    {
        let _ = said;
        self.table.shared.store::<Give<J>>(&mut pass.seat, t * 8, 0);
    }

    /// Gives the highest stripe back, number `t`, after a `decide` or a `renew`, which told what it
    /// contains.
    ///
    /// It is a store of 0.
    pub fn give_rest(&self, pass: &mut Pass<K, V>, t: usize)
        requires holds { MayGive self.now t pass.old }
        requires unchanged { IsUnchanged pass.old }
        ensures own { IsPassOf self.now pass.new }
        ensures step { Sends K.hash self.now (λ t _. Label.GiveRest t) pass.old pass.new }
        ensures unchanged { IsUnchanged pass.new }
        ensures no_spare { HaveNoSpare pass.new.stripes }
    {
        self.give::<Brand, ()>(pass, t, &());
    }

    /// Decides the call of `J` with what the stripes contain now, and gives the highest one back,
    /// number `t`. `said` is for the pick of `J` alone.
    ///
    /// It is a store of 0, by which the entry joins the history. The pass has then seen the history
    /// up to it.
    pub fn decide<J: Says<V>, X>(&self, pass: &mut Pass<K, V>, t: usize, said: &X)
        requires holds { MayGive self.now t pass.old }
        requires caller { pass.old.view.by ≡ Some J.entry.by }
        requires section { Lawful (layout_of K.hash self.now.settings) (reverse pass.old.view.held)
            → Section (layout_of K.hash self.now.settings) (reverse
            pass.old.view.held) J.entry.call J.entry.reply (contents_of pass.old.stripes) }
        ensures own { IsPassOf self.now pass.new }
        ensures step { Sends K.hash self.now (λ t ks. Label.Decide t ks J.entry) pass.old pass.new }
        ensures unchanged { IsUnchanged pass.new }
        ensures no_spare { HaveNoSpare pass.new.stripes }
    {
        let _ = said;
        self.table
            .shared
            .store::<Decide<J>>(&mut pass.seat, t * 8, 0);
    }

    /// Gives the highest stripe back, number `t`, after an identity section, as a displacement or a
    /// doubling is, with what the stripes contain now. `said` is for the pick of `J` alone.
    ///
    /// It is a store of 0. Where the stripes show it, it may tell that a name found no room.
    pub fn renew<J: Refuses, X>(&self, pass: &mut Pass<K, V>, t: usize, said: &X)
        requires holds { MayGive self.now t pass.old }
        requires section { Lawful (layout_of K.hash self.now.settings) (reverse pass.old.view.held)
            → IdentitySection (layout_of K.hash self.now.settings) (reverse
            pass.old.view.held) (contents_of pass.old.stripes) }
        requires grounds { Lawful (layout_of K.hash self.now.settings) (reverse pass.old.view.held)
            → HasGrounds (layout_of K.hash
            self.now.settings) self.now.settings.min_load (contents_of pass.old.stripes) J.refused }
        ensures own { IsPassOf self.now pass.new }
        ensures step { Sends K.hash self.now
            (λ t ks. Label.Renew t ks J.refused) pass.old pass.new }
        ensures unchanged { IsUnchanged pass.new }
        ensures no_spare { HaveNoSpare pass.new.stripes }
    {
        let _ = said;
        self.table
            .shared
            .store::<Renew<J>>(&mut pass.seat, t * 8, 0);
    }

    /// Sees the history so far.
    ///
    /// It is a load.
    pub fn look(&self, pass: &mut Pass<K, V>)
        requires own { IsPassIn self.now pass.old }
        ensures own { IsPassOf self.now pass.new }
        ensures step { LooksUp K.hash self.now pass.old pass.new }
    {
        self.table.shared.load::<Look>(&mut pass.seat, 0);
    }
}
