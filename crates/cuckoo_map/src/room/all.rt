//! Room for a key under all stripes: by a displacement there, or by growing.
ghost use Rattle.std.specs.Prelude.{◌≡◌, ◌^◌, OnOk, OnErr, IfOk, IfErr, reverse};
ghost use Rattle.ck_model.specs.Contents.{layout_of, Lawful};
ghost use Rattle.ck_model.specs.Paths.{Grounds, reason_of_lack};
ghost use Rattle.ck_model.specs.Counting.{counting};
ghost use Rattle.ck_model.specs.Ranges.{AreInRange};
ghost use Rattle.ck_stripe.specs.Stripes.{contents_of, HaveNoSpare};
ghost use Rattle.ck_stripe.specs.Tables.{IsTable};
ghost use Rattle.ck_words.specs.Passes.{IsPassOf, IsIdle, numbers_of};
ghost use Rattle.ck_words.specs.Retries.{FindsAmong};
ghost use Rattle.ck_words.specs.Renewing.{HasRenewed};
ghost use Rattle.ck_words.specs.Closing.{IsCaller, IsWhole};
ghost use Rattle.cuckoo_map.specs.Refusals.{IsStripeIn, IsRefused};
ghost use Rattle.cuckoo_map.specs.Insertions.{HoldsRoom, HasRoom, HasRoomInAll};
ghost use Rattle.cuckoo_map.specs.Needed.{HoldsGrown};
ghost use Rattle.cuckoo_map.specs.Locking.{SeeksRoom};

use crate::locking::Spot;
use crate::room::{Preparation, Room};
use crate::table::Table;
use ck_key::{KeyHash, TableKey};
use ck_model::lack::Lack;
use ck_model::settings::Settings;
use ck_refusal::Why;
use ck_section::{find_entry, make_room, settled_place};
use ck_stripe::{Held, Stripe, settle_all};
use ck_words::{Pass, guard};

impl<K: TableKey + Drop, V: Drop> Table<K, V> {
    // Takes all stripes and makes room for the key there, by a displacement or by growing, in the
    // memory that was prepared. It keeps them, with the entry of the key. Where it can't make room,
    // all are given back with what they contain then, and the pass has told the reason.
    pub(crate) fn make_room_in_all(
        &self,
        pass: &mut Pass<K, V>,
        key: &K,
        preparation: &mut Preparation<K, V>,
    ) -> Result<Room, Why>
        requires caller { IsCaller self.now pass.old }
        ensures own { IsPassOf self.now pass.new }
        ensures room { IfOk result (λ room.
            HasRoom K.hash self.now.settings (K.name key.now) room pass.old pass.new) }
        ensures found { FindsAmong (IsStripeIn self.now.settings) pass.old pass.new }
        ensures idle { OnErr result (IsIdle pass.new) }
        ensures refused { IfErr result (λ why.
            IsRefused K.hash self.now.settings (K.name key.now) why pass.old pass.new) }
    {
        self.lock_all(pass)?;
        match self.make_room_held(pass, key, preparation) {
            Ok(room) => Ok(room),
            Err(lack) => {
                let mut guard = guard!(&self.words, pass, self.words.all());
                guard.refuse(key, lack);
                Err(Why::of(lack))
            }
        }
    }

    // Makes room for the key among all stripes, which the pass has just taken.
    fn make_room_held(
        &self,
        pass: &mut Pass<K, V>,
        key: &K,
        preparation: &mut Preparation<K, V>,
    ) -> Result<Room, Lack>
        requires own { IsPassOf self.now pass.old }
        requires whole { IsWhole K.hash self.now.settings pass.old }
        requires table { IsTable self.now.settings.s pass.old.stripes }
        ensures own { IsPassOf self.now pass.new }
        ensures view { pass.new.view ≡ pass.old.view }
        ensures numbered { numbers_of pass.new.stripes ≡ counting 0 (2 ^ self.now.settings.s) }
        ensures renewed { HasRenewed K.hash self.now.settings pass.new }
        ensures grown { HoldsGrown K.hash self.now.settings (K.name key.now) pass.new }
        ensures no_spare { HaveNoSpare pass.new.stripes }
        ensures room { IfOk result (λ room.
            HoldsRoom K.hash self.now.settings (K.name key.now) room pass.new) }
        ensures grounds { IfErr result (λ lack.
            Lawful (layout_of K.hash self.now.settings) (reverse pass.new.view.held)
            → Grounds (layout_of K.hash self.now.settings) self.now.settings.min_load
            (contents_of pass.new.stripes) (K.name key.now) (reason_of_lack lack)) }
    {
        let Settings {
            s,
            max,
            min_load,
            ..
        } = self.words.settings();
        let hash = KeyHash::of(key);
        let stripes = self.words.all();
        let mut guard = guard!(&self.words, pass, stripes);
        let grower = &mut preparation.grower;
        make_room(&mut guard, s, key, hash, max, min_load, grower)?;
        let place = settled_place(&mut guard, s, key, hash);
        let Some(entry) = find_entry(&mut guard, place, key) else {
            unreachable!()
        };
        Ok(Room {
            spot: Spot { stripes, place },
            entry,
        })
    }

    // Takes all stripes, settled, with room for the key among them, by a displacement or by growing.
    // Where none can be made, all are given back, and the pass has told the reason.
    pub(crate) fn lock_all_with_room(&self, pass: &mut Pass<K, V>, key: &K) -> Result<(), Why>
        requires caller { IsCaller self.now pass.old }
        ensures own { IsPassOf self.now pass.new }
        ensures held { OnOk result
            (HasRoomInAll K.hash self.now.settings (K.name key.now) pass.old pass.new) }
        ensures found { FindsAmong (IsStripeIn self.now.settings) pass.old pass.new }
        ensures idle { OnErr result (IsIdle pass.new) }
        ensures refused { IfErr result (λ why.
            IsRefused K.hash self.now.settings (K.name key.now) why pass.old pass.new) }
    {
        self.lock_all(pass)?;
        let mut guard = guard!(&self.words, pass, self.words.all());
        if let Err(lack) = self.make_room_in(&mut guard, self.words.settings(), key) {
            guard.refuse(key, lack);
            return Err(Why::of(lack));
        }
        Ok(())
    }

    // Makes room for the key among all stripes, which one caller holds, and which are settled then.
    pub(crate) fn make_room_in<H: Held<Stripe<K, V>>>(
        &self,
        held: &mut H,
        settings: Settings,
        key: &K,
    ) -> Result<(), Lack>
        requires table { IsTable settings.s (H.stripes held.old) }
        requires range { AreInRange settings }
        ensures room { SeeksRoom K.hash settings (K.name key.now) result
            (H.stripes held.old) (H.stripes held.new) }
        ensures stays { H.stays held.old held.new }
    {
        let Settings {
            s,
            max,
            min_load,
            ..
        } = settings;
        let mut grower = self.grower();
        let hash = KeyHash::of(key);
        let made = make_room(held, s, key, hash, max, min_load, &mut grower);
        settle_all(held);
        made
    }
}
