//! The value of a key goes to another key.
ghost use Rattle.std.specs.Prelude.{◌≡◌, ◌≢◌, [], ◌∷◌, None, IfOk, IfErr, OnOk, OnErr, MatchResult};
ghost use Rattle.std.specs.FinMap.{get};
ghost use Rattle.ck_model.specs.Contents.{layout_of, bindings};
ghost use Rattle.ck_model.specs.Paths.{HasNoRoom};
ghost use Rattle.ck_stripe.specs.Stripes.{contents_of};
ghost use Rattle.ck_stripe.specs.Tables.{AreHeld};
ghost use Rattle.ck_section.specs.Places.{HasBoth};
ghost use Rattle.ck_section.specs.Calls.{IsWithoutRoom, ChangesContents};
ghost use Rattle.ck_section.specs.TwoNames.{FindsBound, RenamesTo, OnUnchanged};
ghost use Rattle.ck_words.specs.Closing.{IsCaller};
ghost use Rattle.ck_words.specs.Retries.{FindsAmong};
ghost use Rattle.cuckoo_map.specs.SeveralKeys.{IsStripeOfAny, IsSameButStripes, bound_to};
ghost use Rattle.cuckoo_map.specs.LockedKeys.{HoldsKeys};
ghost use Rattle.cuckoo_map.specs.Renames.{Renames, LacksSlot, HasRenamedOnce, HasRenamedInAll, HasRenamed};

use crate::table::Table;
use ck_key::{KeyHash, TableKey};
use ck_refusal::{NotRenamed, RoomFault};
use ck_section::{Renamed, key_place, rename};
use ck_stripe::{Held, Stripe};
use ck_words::{Pass, StripeSet, guard};
use std::snapshot::Snapshot;

impl<K: TableKey + Drop, V: Drop> Table<K, V> {
    /// `Caller::rename`, by a pass.
    pub fn rename(&self, pass: &mut Pass<K, V>, from: &K, to: K) -> Result<Renamed, NotRenamed<K>>
        requires caller { IsCaller self.now pass.old }
        ensures caller { IsCaller self.now pass.new }
        ensures renamed { HasRenamed K.hash self.now.settings (K.name from.now) (K.name to) to
            result pass.old pass.new }
    {
        let since = Snapshot::of(pass);
        match self.rename_once(pass, from, to)? {
            Ok(renamed) => Ok(renamed),
            Err(to) => self.rename_with_room(pass, from, to, since),
        }
    }

    // The same where the buckets of `to` were found full: it makes room, and tries once more.
    #[cold]
    #[inline(never)]
    fn rename_with_room(
        &self,
        pass: &mut Pass<K, V>,
        from: &K,
        to: K,
        since: Snapshot<Pass<K, V>>,
    ) -> Result<Renamed, NotRenamed<K>>
        requires caller { IsCaller self.now pass.old }
        requires full { LacksSlot (K.name from.now) (K.name to) since.value pass.old }
        requires found { FindsAmong
            (IsStripeOfAny K.hash self.now.settings (K.name from.now ∷ K.name to ∷ []))
            since.value pass.old }
        ensures caller { IsCaller self.now pass.new }
        ensures renamed { HasRenamed K.hash self.now.settings (K.name from.now) (K.name to) to
            result since.value pass.new }
    {
        if let Err(why) = self.make_room_ahead(pass, &to) {
            let why = RoomFault::Room(why);
            return Err(NotRenamed { key: to, why });
        }
        match self.rename_once(pass, from, to)? {
            Ok(renamed) => Ok(renamed),
            // Others took the slot meanwhile.
            Err(to) => self.rename_in_all(pass, from, to),
        }
    }

    // The same under all stripes, with room for `to` among them.
    fn rename_in_all(
        &self,
        pass: &mut Pass<K, V>,
        from: &K,
        to: K,
    ) -> Result<Renamed, NotRenamed<K>>
        requires caller { IsCaller self.now pass.old }
        requires different { K.name from.now ≢ K.name to }
        ensures caller { IsCaller self.now pass.new }
        ensures renamed { HasRenamedInAll K.hash self.now.settings (K.name from.now) (K.name to)
            to result pass.old pass.new }
    {
        let both = [Snapshot::of(from), Snapshot::of(&to)];
        if let Err(why) = self.lock_all_with_room(pass, &to) {
            let why = RoomFault::Room(why);
            return Err(NotRenamed { key: to, why });
        }
        let all = self.words.all();
        let mut guard = guard!(&self.words, pass, all);
        let Ok(renamed) = rename_among(&mut guard, all.s, from, to) else {
            unreachable!()
        };
        guard.commit_session_of(&both);
        Ok(renamed)
    }

    // One try, which makes no room: where there is none, the key comes back.
    fn rename_once(
        &self,
        pass: &mut Pass<K, V>,
        from: &K,
        to: K,
    ) -> Result<Result<Renamed, K>, NotRenamed<K>>
        requires caller { IsCaller self.now pass.old }
        ensures caller { IsCaller self.now pass.new }
        ensures renamed { HasRenamedOnce K.hash self.now.settings (K.name from.now) (K.name to)
            to result pass.old pass.new }
        ensures different { OnOk result (K.name from.now ≢ K.name to) }
    {
        let names = [Snapshot::of(from), Snapshot::of(&to)];
        let stripes = match self.lock_different(pass, &[from, &to]) {
            Ok(stripes) => stripes,
            Err(why) => {
                let why = RoomFault::Keys(why);
                return Err(NotRenamed { key: to, why });
            }
        };
        match self.rename_held(pass, stripes, from, to) {
            Ok(renamed) => {
                guard!(&self.words, pass, stripes).commit_session_of(&names);
                Ok(Ok(renamed))
            }
            Err(to) => {
                guard!(&self.words, pass, stripes).refuse_full(&to);
                Ok(Err(to))
            }
        }
    }

    // The same where the stripes of both keys are held, and stay so.
    fn rename_held(
        &self,
        pass: &mut Pass<K, V>,
        stripes: StripeSet,
        from: &K,
        to: K,
    ) -> Result<Renamed, K>
        requires held { HoldsKeys K.hash self.now stripes (K.name from.now ∷ K.name to ∷ [])
            pass.old }
        ensures held { HoldsKeys K.hash self.now stripes (K.name from.now ∷ K.name to ∷ [])
            pass.new }
        ensures stays { IsSameButStripes pass.old pass.new }
        ensures renamed { IfOk result (λ renamed. Renames renamed
            (bound_to (K.name from.now ∷ K.name to ∷ []) pass.old)
            (bound_to (K.name from.now ∷ K.name to ∷ []) pass.new)) }
        ensures full { IfErr result (λ back. (back ≡ to) × (pass.new ≡ pass.old)
            × HasNoRoom (layout_of K.hash self.now.settings) (contents_of pass.old.stripes)
            (K.name to)) }
        ensures bound { OnErr result
            (get (bindings (contents_of pass.old.stripes)) (K.name from.now) ≢ None) }
    {
        let mut guard = guard!(&self.words, pass, stripes);
        rename_among(&mut guard, stripes.s, from, to)
    }
}

// Renames `from` to `to`, another key, where both keys' stripes are among the held ones of a table
// of 2^s.
fn rename_among<K: TableKey + Drop, V: Drop, H: Held<Stripe<K, V>>>(
    held: &mut H,
    s: u32,
    from: &K,
    to: K,
) -> Result<Renamed, K>
    requires held { AreHeld s (H.stripes held.old) }
    requires first { HasBoth K.hash s (H.stripes held.old) (K.name from.now) }
    requires second { HasBoth K.hash s (H.stripes held.old) (K.name to) }
    requires different { K.name from.now ≢ K.name to }
    ensures call { IfOk result (RenamesTo
        (record { hash = K.hash; s = s; old = H.stripes held.old; new = H.stripes held.new })
        (K.name from.now) (K.name to)) }
    ensures full { IfErr result (λ back. (back ≡ to)
        × IsWithoutRoom K.hash s (H.stripes held.old) (K.name to)) }
    ensures bound { IfErr result (λ _. FindsBound
        (record { hash = K.hash; s = s; old = H.stripes held.old; new = H.stripes held.new })
        (K.name from.now)) }
    ensures same { MatchResult result
        (λ renamed. OnUnchanged renamed (H.stripes held.new ≡ H.stripes held.old))
        (λ _. H.stripes held.new ≡ H.stripes held.old) }
    ensures rest { ChangesContents (H.stripes held.old) (H.stripes held.new) }
    ensures stays { H.stays held.old held.new }
{
    let from_place = key_place(held, s, from, KeyHash::of::<K, &K>(from));
    let to_place = key_place(held, s, &to, KeyHash::of::<K, &K>(&to));
    rename(held, from, from_place, to, to_place)
}
