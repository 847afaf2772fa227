//! The stripes that a pass holds, as a guard.
ghost use Rattle.std.specs.Prelude.{◌≡◌, [], if◌then◌else◌};
ghost use Rattle.ck_words.specs.StripeSets.{list_of};
ghost use Rattle.ck_words.specs.Passes.{IsPassOf, numbers_of};

use crate::pass::Pass;
use crate::stripe_set::StripeSet;
use crate::visits;
use crate::words::Words;
use ck_key::TableKey;
use ck_stripe::{Held, Stripe, Visitor};

/// The stripes of a set, which a pass holds, to be worked on in their slots. They are given back by
/// one of these: `commit`, `commit_query` or `commit_session`, where a call is answered; `renew`
/// after an identity section; `refuse_full` or `refuse`, where a key found no room in them; and
/// `release`, where they contain what they did.
///
/// A guard that is dropped gives nothing back. The pass has its stripes still, which no contract of
/// a call on a table allows.
#[derive(Drop)]
pub struct Guard<'a, K: TableKey, V> {
    pub words: &'a Words<K, V>,
    pub pass: &'a mut Pass<K, V>,
    pub set: StripeSet,
    /// Whether the pass holds them still.
    pub is_locked: bool,
    ghost own: { IsPassOf words.now pass.now },
    ghost numbered: { numbers_of pass.now.stripes ≡ (if is_locked then list_of set else []) },
    ghost of_table: { set.s ≡ words.now.settings.s },
}

/// The guard of the stripes of a set, which the pass has taken. It is no function, since the prover
/// knows each field of a struct that is written out, and of one that comes back only what is said.
#[macro_export]
macro_rules! guard {
    ($words:expr, $pass:expr, $set:expr) => {
        $crate::Guard {
            words: $words,
            pass: $pass,
            set: $set,
            is_locked: true,
        }
    };
}

impl<K: TableKey + Drop, V: Drop> Held<Stripe<K, V>> for Guard<'_, K, V> {
    ghost use Rattle.std.specs.Prelude.{◌≡◌};

    ghost stripes = { λ l. l.pass.now.stripes };

    ghost stays = { λ l m. (m.pass.ghost_name ≡ l.pass.ghost_name)
        × (m.pass.now.view ≡ l.pass.now.view)
        × (m.pass.now.table ≡ l.pass.now.table)
        × (m.set ≡ l.set)
        × (m.is_locked ≡ l.is_locked)
        × (m.words.now ≡ l.words.now) };

    fn count(&self) -> usize {
        if self.is_locked { self.set.count() } else { 0 }
    }

    #[inline(always)]
    fn number(&mut self, i: usize) -> u32 {
        let (words, set) = (self.words, &self.set);
        let pass = &*self.pass;
        // Their fields show that the number fits.
        let _ = &words.table;
        let _ = &pass.seat;
        set.number_at(i) as u32
    }

    #[inline(always)]
    fn visit<W: Visitor<Stripe<K, V>>>(&mut self, i: usize, visitor: W) -> W::Answer {
        let (words, set) = (self.words, &self.set);
        let t = set.number_at(i);
        let pass = &mut *self.pass;
        let shared = &words.table.shared;
        visits::visit_at(shared, &mut pass.seat, set.count(), i, t, visitor)
    }

    // The number of the stripe is that of the bucket, so it needn't be chosen among those of the
    // set.
    #[inline(always)]
    fn visit_bucket<W: Visitor<Stripe<K, V>>>(
        &mut self,
        i: usize,
        b: u64,
        visitor: W,
    ) -> W::Answer {
        let (words, set) = (self.words, self.set);
        let t = set.stripe_of(b);
        let pass = &mut *self.pass;
        let shared = &words.table.shared;
        visits::visit_at(shared, &mut pass.seat, set.count(), i, t, visitor)
    }

    ghost use Rattle.std.proofs.Common.{refl, ◌∙◌};

    ghost stays_same = { λ l. (refl, refl, refl, refl, refl, refl) };

    ghost stays_on = { λ l m n e f.
        (f.0 ∙ e.0, f.1 ∙ e.1, f.2 ∙ e.2, f.3 ∙ e.3, f.4 ∙ e.4, f.5 ∙ e.5) };
}
