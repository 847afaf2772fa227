//! The store that decides a call.
ghost use Rattle.std.specs.Prelude.{◌≡◌, Some, true, map, reverse};
ghost use Rattle.ck_model.specs.declared.history.Reply.{Reply};
ghost use Rattle.ck_model.specs.declared.history.Reply.TheVariants.{Closed};
ghost use Rattle.ck_model.specs.Contents.{layout_of, Lawful};
ghost use Rattle.ck_model.specs.Sections.{Section};
ghost use Rattle.ck_core.specs.Steps.{Label};
ghost use Rattle.ck_stripe.specs.Stripes.{contents_of, HaveNoSpare};
ghost use Rattle.ck_words.specs.Passes.{PassState, Sends};
ghost use Rattle.ck_words.specs.Holding.{HasReleased};
ghost use Rattle.ck_model.specs.Commits.{call_of};
ghost use Rattle.ck_words.specs.Answering.{session_of, session_on, HasDone, HasCommitted};

use crate::guard::Guard;
use crate::steps::Says;
use ck_key::{Query, TableKey};
use ck_model::commit::Commit;
use std::marker::Brand;
use std::snapshot::Snapshot;

impl<K: TableKey + Drop, V: Drop> Guard<'_, K, V> {
    /// Decides the call with what the stripes contain now, and gives them back.
    ///
    /// The first store decides, and the entry has the reply that what the stripes contained gives
    /// to the call.
    #[inline(always)]
    pub fn commit(&mut self, call: Commit<K, V>)
        requires locked { self.old.is_locked ≡ true }
        requires no_spare { HaveNoSpare self.old.pass.now.stripes }
        requires done { (reply : Reply V) × HasDone K.hash self.old.words.now.settings
            (call_of K.name call) reply self.old.pass.now }
        ensures same { self.new.pass.ghost_name ≡ self.old.pass.ghost_name }
        ensures committed { HasCommitted K.hash self.old.words.now (call_of K.name call)
            self.old.pass.now self.new.pass.now }
    {
        let said = Snapshot::of(&call);
        self.decide::<Brand, Snapshot<Commit<K, V>>>(&said);
    }

    /// Decides the call of a query, as `commit` does that of a key.
    #[inline(always)]
    pub fn commit_query<Q: Query<K>>(&mut self, call: Commit<Q, V>)
        requires locked { self.old.is_locked ≡ true }
        requires no_spare { HaveNoSpare self.old.pass.now.stripes }
        requires done { (reply : Reply V) × HasDone K.hash self.old.words.now.settings
            (call_of Q.name call) reply self.old.pass.now }
        ensures same { self.new.pass.ghost_name ≡ self.old.pass.ghost_name }
        ensures committed { HasCommitted K.hash self.old.words.now (call_of Q.name call)
            self.old.pass.now self.new.pass.now }
    {
        let said = Snapshot::of(&call);
        self.decide::<Brand, Snapshot<Commit<Q, V>>>(&said);
    }

    /// Decides a session with what the stripes contain now, as `commit` does, and gives them back:
    /// from the pairs that they contained when they were taken to those that they contain.
    pub fn commit_session(&mut self)
        requires locked { self.old.is_locked ≡ true }
        requires no_spare { HaveNoSpare self.old.pass.now.stripes }
        requires done { HasDone K.hash self.old.words.now.settings
            (session_of self.old.pass.now) Closed self.old.pass.now }
        ensures same { self.new.pass.ghost_name ≡ self.old.pass.ghost_name }
        ensures committed { HasCommitted K.hash self.old.words.now (session_of self.old.pass.now)
            self.old.pass.now self.new.pass.now }
    {
        self.decide::<Brand, ()>(&());
    }

    /// Decides a session on the names of these queries with what the stripes contain now, as
    /// `commit` does, and gives them back: from what these names were bound to when the stripes were
    /// taken to what they are bound to.
    pub fn commit_session_on<Q: Query<K>>(&mut self, keys: &[Q])
        requires locked { self.old.is_locked ≡ true }
        requires no_spare { HaveNoSpare self.old.pass.now.stripes }
        requires done { HasDone K.hash self.old.words.now.settings
            (session_on (map Q.name keys.now) self.old.pass.now) Closed self.old.pass.now }
        ensures same { self.new.pass.ghost_name ≡ self.old.pass.ghost_name }
        ensures committed { HasCommitted K.hash self.old.words.now
            (session_on (map Q.name keys.now) self.old.pass.now)
            self.old.pass.now self.new.pass.now }
    {
        self.decide::<Brand, &[Q]>(&keys);
    }

    /// Decides a session on the names of these keys, as `commit_session_on` does, where a key has
    /// gone into the table meanwhile.
    pub fn commit_session_of(&mut self, keys: &[Snapshot<K>])
        requires locked { self.old.is_locked ≡ true }
        requires no_spare { HaveNoSpare self.old.pass.now.stripes }
        requires done { HasDone K.hash self.old.words.now.settings
            (session_on (map (λ key. K.name key.value) keys.now) self.old.pass.now)
            Closed self.old.pass.now }
        ensures same { self.new.pass.ghost_name ≡ self.old.pass.ghost_name }
        ensures committed { HasCommitted K.hash self.old.words.now
            (session_on (map (λ key. K.name key.value) keys.now) self.old.pass.now)
            self.old.pass.now self.new.pass.now }
    {
        self.decide::<Brand, &[Snapshot<K>]>(&keys);
    }

    // Decides the call of `J` with what the stripes contain now, and gives them back: the highest
    // by the store that decides, and then the others. `said` is for the pick of `J` alone.
    #[inline(always)]
    fn decide<J: Says<V>, X>(&mut self, said: &X)
        requires locked { self.old.is_locked ≡ true }
        requires no_spare { HaveNoSpare self.old.pass.now.stripes }
        requires caller { self.old.pass.now.view.by ≡ Some J.entry.by }
        requires section { let p = self.old.pass.now in
            let layout = layout_of K.hash self.old.words.now.settings in
            Lawful layout (reverse p.view.held) → Section layout (reverse p.view.held)
            J.entry.call J.entry.reply (contents_of p.stripes) }
        ensures same { self.new.pass.ghost_name ≡ self.old.pass.ghost_name }
        ensures decided { (decided : PassState V)
            × Sends K.hash self.old.words.now (λ t ks. Label.Decide t ks J.entry)
            self.old.pass.now decided
            × HasReleased self.old.words.now decided self.new.pass.now }
    {
        let last = self.set.count() - 1;
        let (words, set) = (self.words, self.set);
        let pass = &mut *self.pass;
        words.decide::<J, X>(pass, set.at(last), said);
        words.release_first(pass, set, last);
        self.is_locked = false;
    }
}
