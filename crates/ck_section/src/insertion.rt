//! Calls that may bind an unbound key: what each makes of the entry of its key.
ghost use Rattle.std.specs.Prelude.{◌≡◌, false, Ok, Err, MatchResult};
ghost use Rattle.ck_model.specs.declared.history.Act.{Act};
ghost use Rattle.ck_model.specs.declared.history.Call.TheVariants.{On};
ghost use Rattle.ck_model.specs.declared.history.Reply.{Reply};
ghost use Rattle.ck_section.specs.Places.{IsPlaceOf};
ghost use Rattle.ck_section.specs.Entries.{IsEntryOf};
ghost use Rattle.ck_section.specs.Calls.{effect, IsCall, ChangesContents};
ghost use Rattle.ck_section.specs.RoomForAll.{KeepsOthers};
ghost use Rattle.ck_model.specs.Commits.{call_of};

use crate::entry::Entry;
use crate::one_key::{fill, read_entry, try_modify_entry};
use crate::place::KeyPlace;
use ck_key::TableKey;
use ck_model::commit::Commit;
use ck_stripe::{Held, Stripe, one_stripe};
use std::marker::PhantomData;
use std::snapshot::Snapshot;

/// A call that may bind an unbound key.
pub trait Insertion<K: TableKey, V>: Drop {
    /// What an unbound key is bound to, or what makes it. It comes back where the insertion is
    /// refused.
    type Value: Drop;

    /// What it answers its caller.
    type Answer;

    // What it asks of a plain map, and the reply to it, where it answers this.
    ghost tells: { Self → Self.Value → Self.Answer → Act V → Reply V → Type 0 };

    // Its closures may be called.
    ghost can_make: { Self → Self.Value → Type 0 };

    /// Makes it of the entry of the key, and says which call it was, to be committed.
    fn make<H: Held<Stripe<K, V>>>(
        self,
        held: &mut H,
        place: KeyPlace,
        entry: Entry,
        key: K,
        value: Self::Value,
    ) -> (Self::Answer, Commit<K, V>)
        requires place { IsPlaceOf K.hash (H.stripes held.old) (K.name key) place }
        requires entry { IsEntryOf K.hash (H.stripes held.old) (K.name key) place entry }
        requires call { can_make self value }
        ensures answered { (act : Act V) × (reply : Reply V) × tells self value result.0 act reply
            × (call_of K.name result.1 ≡ On (K.name key) act)
            × IsCall (effect K.hash H.stripes place held.old held.new) (K.name key) act reply }
        ensures rest { ChangesContents (H.stripes held.old) (H.stripes held.new) }
        ensures others { KeepsOthers (K.name key) (H.stripes held.old) (H.stripes held.new) }
        ensures stays { H.stays held.old held.new };
}

/// Binds an unbound key, and says whether it was unbound.
#[derive(Drop)]
pub struct Insert;

impl<K: TableKey + Drop, V: Drop> Insertion<K, V> for Insert {
    ghost use Rattle.std.specs.Prelude.{⊤};
    ghost use Rattle.ck_section.specs.Acts.{Inserts, IsAct};

    type Value = V;

    type Answer = bool;

    ghost tells = { λ _ v fresh act reply. Inserts v (IsAct act reply) fresh };

    ghost can_make = { λ _ _. ⊤ };

    #[inline(always)]
    fn make<H: Held<Stripe<K, V>>>(
        self,
        held: &mut H,
        place: KeyPlace,
        entry: Entry,
        key: K,
        value: V,
    ) -> (bool, Commit<K, V>) {
        let said = Commit::Insert(Snapshot::of(&key), Snapshot::of(&value));
        match entry {
            Entry::Occupied(_) => (false, said),
            Entry::Vacant(at) => {
                fill(held, place, at, key, value);
                (true, said)
            }
        }
    }
}

/// Binds the key, and gives the value that it had.
#[derive(Drop)]
pub struct Assign;

impl<K: TableKey + Drop, V: Drop> Insertion<K, V> for Assign {
    ghost use Rattle.std.specs.Prelude.{⊤};
    ghost use Rattle.ck_section.specs.Acts.{Assigns, IsAct};

    type Value = V;

    type Answer = Option<V>;

    ghost tells = { λ _ v old act reply. Assigns v (IsAct act reply) old };

    ghost can_make = { λ _ _. ⊤ };

    #[inline(always)]
    fn make<H: Held<Stripe<K, V>>>(
        self,
        held: &mut H,
        place: KeyPlace,
        entry: Entry,
        key: K,
        value: V,
    ) -> (Option<V>, Commit<K, V>) {
        let said = Commit::Assign(Snapshot::of(&key), Snapshot::of(&value));
        match entry {
            Entry::Occupied(at) => (Some(one_stripe::replace(held, at, value)), said),
            Entry::Vacant(at) => {
                fill(held, place, at, key, value);
                (None, said)
            }
        }
    }
}

/// Binds an unbound key, and a bound one to what the closure makes of its value; says whether the
/// key was unbound.
#[derive(Drop)]
pub struct Upsert<F>(pub F);

impl<K: TableKey + Drop, V: Drop, F: FnOnce(V) -> V> Insertion<K, V> for Upsert<F>
where
    F: Drop,
{
    ghost use Rattle.ck_section.specs.Acts.{Upserts, IsAct};

    type Value = V;

    type Answer = bool;

    ghost tells = { λ u v fresh act reply. Upserts (F.post u.0) v (IsAct act reply) fresh };

    ghost can_make = { λ u _. F.IsAlwaysCallable u.0 };

    #[inline(always)]
    fn make<H: Held<Stripe<K, V>>>(
        self,
        held: &mut H,
        place: KeyPlace,
        entry: Entry,
        key: K,
        value: V,
    ) -> (bool, Commit<K, V>) {
        let said = Commit::Upsert(Snapshot::of(&key), Snapshot::of(&value));
        match entry {
            Entry::Occupied(at) => {
                one_stripe::change(held, at, self.0);
                (false, said)
            }
            Entry::Vacant(at) => {
                fill(held, place, at, key, value);
                (true, said)
            }
        }
    }
}

/// Binds an unbound key to the value, and a bound one to the value that the closure gives back for
/// its value, whether it succeeds or fails.
#[derive(Drop)]
pub struct TryUpsert<F>(pub F);

impl<K: TableKey + Drop, V: Drop, E, F: FnOnce(V) -> Result<V, (V, E)>> Insertion<K, V>
    for TryUpsert<F>
where
    F: Drop,
{
    ghost use Rattle.ck_section.specs.Acts.{TriesUpsert, IsAct};

    type Value = V;

    type Answer = Result<bool, E>;

    ghost tells = { λ u v answer act reply. TriesUpsert (F.post u.0) v (IsAct act reply) answer };

    ghost can_make = { λ u _. F.IsAlwaysCallable u.0 };

    #[inline(always)]
    fn make<H: Held<Stripe<K, V>>>(
        self,
        held: &mut H,
        place: KeyPlace,
        entry: Entry,
        key: K,
        value: V,
    ) -> (Result<bool, E>, Commit<K, V>) {
        let commit = Commit::Upsert(Snapshot::of(&key), Snapshot::of(&value));
        match entry {
            Entry::Occupied(at) => {
                let outcome = try_modify_entry(held, place, at, &key, self.0);
                (answer_of_bound(outcome), commit)
            }
            Entry::Vacant(at) => {
                fill(held, place, at, key, value);
                (Ok(true), commit)
            }
        }
    }
}

/// Binds an unbound key to what the closure makes. Where it was bound, the closure isn't called, and
/// is the answer.
#[derive(Drop)]
pub struct InsertWith<F>(pub PhantomData<F>);

impl<K: TableKey + Drop, V: Drop, F: FnOnce() -> V> Insertion<K, V> for InsertWith<F>
where
    F: Drop,
{
    ghost use Rattle.ck_section.specs.Acts.{InsertsGivingBack, IsAct};

    type Value = F;

    type Answer = Option<F>;

    ghost tells = { λ _ f back act reply. InsertsGivingBack f (F.post f) (IsAct act reply) back };

    ghost can_make = { λ _ f. F.IsAlwaysCallable f };

    #[inline(always)]
    fn make<H: Held<Stripe<K, V>>>(
        self,
        held: &mut H,
        place: KeyPlace,
        entry: Entry,
        key: K,
        value: F,
    ) -> (Option<F>, Commit<K, V>) {
        match entry {
            Entry::Occupied(at) => {
                read_entry(held, place, at, &key, |_value: &V| ());
                (Some(value), Commit::Find(Snapshot::of(&key)))
            }
            Entry::Vacant(at) => {
                let made = value();
                let call = Commit::Insert(Snapshot::of(&key), Snapshot::of(&made));
                fill(held, place, at, key, made);
                (None, call)
            }
        }
    }
}

/// What became of a key that was upserted or erased, as a closure decided.
#[derive(Debug, Clone, Copy, PartialEq, Eq)]
pub enum Uprased {
    /// It was unbound, and is bound to the value.
    New,
    /// It was bound, and is bound to what the closure made of its value.
    Changed,
    /// It was bound, and is unbound: the closure made nothing of its value.
    Erased,
}

/// Binds an unbound key to the value, and a bound one to what the closure makes of its value, or
/// unbinds it where the closure makes nothing.
#[derive(Drop)]
pub struct Uprase<F>(pub F);

impl<K: TableKey + Drop, V: Drop, F: FnOnce(V) -> Option<V>> Insertion<K, V> for Uprase<F>
where
    F: Drop,
{
    ghost use Rattle.ck_section.specs.Acts.{Uprases, IsAct};

    type Value = V;

    type Answer = Uprased;

    ghost tells = { λ u v answer act reply. Uprases (F.post u.0) v (IsAct act reply) answer };

    ghost can_make = { λ u _. F.IsAlwaysCallable u.0 };

    #[inline(always)]
    fn make<H: Held<Stripe<K, V>>>(
        self,
        held: &mut H,
        place: KeyPlace,
        entry: Entry,
        key: K,
        value: V,
    ) -> (Uprased, Commit<K, V>) {
        let said_key = Snapshot::of(&key);
        let said_value = Snapshot::of(&value);
        match entry {
            Entry::Occupied(at) => {
                let f = self.0;
                let (own, old) = one_stripe::remove(held, at);
                match f(old) {
                    Some(new) => {
                        one_stripe::put(held, at, place.partial, own, new);
                        (Uprased::Changed, Commit::Upsert(said_key, said_value))
                    }
                    None => (Uprased::Erased, Commit::Erase(said_key)),
                }
            }
            Entry::Vacant(at) => {
                fill(held, place, at, key, value);
                (Uprased::New, Commit::Upsert(said_key, said_value))
            }
        }
    }
}

/// Gives the value of the key. An unbound one is bound to what the closure makes. For a bound one
/// the closure isn't called, and is given as well.
#[derive(Drop)]
pub struct GetOrInsertWith<F>(pub PhantomData<F>);

impl<K: TableKey + Drop, V: Copy + Drop, F: FnOnce() -> V> Insertion<K, V> for GetOrInsertWith<F>
where
    F: Drop,
{
    ghost use Rattle.ck_section.specs.Acts.{FindsGivingBack, IsAct};

    type Value = F;

    type Answer = (V, Option<F>);

    ghost tells = { λ _ f answer act reply. FindsGivingBack f (F.post f) (IsAct act reply) answer };

    ghost can_make = { λ _ f. F.IsAlwaysCallable f };

    #[inline(always)]
    fn make<H: Held<Stripe<K, V>>>(
        self,
        held: &mut H,
        place: KeyPlace,
        entry: Entry,
        key: K,
        value: F,
    ) -> ((V, Option<F>), Commit<K, V>) {
        match entry {
            Entry::Occupied(at) => {
                let found = read_entry(held, place, at, &key, |bound: &V| *bound);
                ((found, Some(value)), Commit::Find(Snapshot::of(&key)))
            }
            Entry::Vacant(at) => {
                let made = value();
                let said = Commit::Insert(Snapshot::of(&key), Snapshot::of(&made));
                fill(held, place, at, key, made);
                ((made, None), said)
            }
        }
    }
}

/// Binds an unbound key to what the second closure makes of the value that the first one makes, and
/// a bound one to what the second makes of its value. Where the second fails, an unbound key stays
/// so, and a bound one is bound to the value that it gives back. For a bound key the first isn't
/// called, and is given as well.
#[derive(Drop)]
pub struct TryUpsertWith<G, F>(pub PhantomData<(G, F)>);

impl<K: TableKey + Drop, V: Drop, E, G: FnOnce() -> V, F: FnOnce(V) -> Result<V, (V, E)>> Insertion<
    K,
    V,
> for TryUpsertWith<G, F>
where
    G: Drop,
    F: Drop,
{
    ghost use Rattle.ck_section.specs.Acts.{TriesUpsertGivingBack, IsAct};

    type Value = (G, F);

    type Answer = (Result<bool, E>, Option<G>);

    ghost tells = { λ _ x answer act reply.
        TriesUpsertGivingBack x.0 (G.post x.0) (F.post x.1) (IsAct act reply) answer };

    ghost can_make = { λ _ x. G.IsAlwaysCallable x.0 × F.IsAlwaysCallable x.1 };

    #[inline(always)]
    fn make<H: Held<Stripe<K, V>>>(
        self,
        held: &mut H,
        place: KeyPlace,
        entry: Entry,
        key: K,
        value: (G, F),
    ) -> ((Result<bool, E>, Option<G>), Commit<K, V>) {
        let (make, f) = value;
        match entry {
            Entry::Occupied(at) => {
                let outcome = try_modify_entry(held, place, at, &key, f);
                let answer = answer_of_bound(outcome);
                ((answer, Some(make)), Commit::Change(Snapshot::of(&key)))
            }
            Entry::Vacant(at) => match f(make()) {
                Ok(made) => {
                    let said = Commit::Insert(Snapshot::of(&key), Snapshot::of(&made));
                    fill(held, place, at, key, made);
                    ((Ok(true), None), said)
                }
                Err((_, error)) => ((Err(error), None), Commit::Find(Snapshot::of(&key))),
            },
        }
    }
}

// What an upsert answers whose key was bound, and whose closure ended so.
fn answer_of_bound<E>(outcome: Result<(), E>) -> Result<bool, E>
    ensures { MatchResult outcome (λ _. result ≡ Ok false) (λ e. result ≡ Err e) }
{
    match outcome {
        Ok(()) => Ok(false),
        Err(error) => Err(error),
    }
}
