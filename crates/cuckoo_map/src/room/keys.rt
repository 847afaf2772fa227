//! Keys that are locked once there is room for each of them.
ghost use Rattle.std.specs.Prelude.{◌≡◌, ◌<◌, ◌≤◌, Bool, OnOk, OnErr, IfOk, IfErr, MatchOption, length};
ghost use Rattle.ck_model.specs.Numbered.{AreDistinct};
ghost use Rattle.ck_section.specs.RoomForAll.{HaveRoomForAll};
ghost use Rattle.ck_words.specs.Passes.{IsPassOf};
ghost use Rattle.ck_words.specs.Closing.{IsCaller};
ghost use Rattle.ck_words.specs.Retries.{FindsAmong};
ghost use Rattle.cuckoo_map.specs.SeveralKeys.{IsStripeOfAny, HoldsNames, RefusesNames};
ghost use Rattle.cuckoo_map.specs.Refusals.{IsStripeIn};
ghost use Rattle.cuckoo_map.specs.Displacing.{FindsAny};
ghost use Rattle.cuckoo_map.specs.RoomForKeys.{SeeksRoomForEach, LacksRoomForOne, LacksRoomForAll, MakesRoomForEach, LacksRoomStill, GrowsForAll, IsStripeTried, SeeksRoom, IsNotGrown, RefusesRoomForEach, RefusesRoom, names_of};

use crate::table::Table;
use ck_key::TableKey;
use ck_model::settings::Settings;
use ck_refusal::{KeysRefused, RoomFault, Why};
use ck_section::{grow, has_room_for_all};
use ck_stripe::settle_all;
use ck_words::{Pass, StripeSet, guard};

// A doubling raises the power, which is at most 26. So among so many tries there is one at which the
// table doesn't grow.
const MOST_TRIES: u32 = 27;

impl<K: TableKey + Drop, V: Drop> Table<K, V> {
    // Takes the stripes of these keys once there is room for each. Where room for each in turn is too
    // little for all at once, the table grows, and it tries again.
    pub(crate) fn lock_with_room(
        &self,
        pass: &mut Pass<K, V>,
        keys: &[&K],
    ) -> Result<StripeSet, RoomFault>
        requires caller { IsCaller self.now pass.old }
        requires some { 0 < length keys.now }
        requires few { length keys.now ≤ 8 }
        ensures own { IsPassOf self.now pass.new }
        ensures different { OnOk result (AreDistinct (names_of K.name keys.now)) }
        ensures held { IfOk result (λ stripes. (m : _) × (all : Bool) × IsCaller self.now m
            × SeeksRoom K.hash self.now.settings (names_of K.name keys.now) all pass.old m
            × HoldsNames K.hash self.now.settings (names_of K.name keys.now) stripes m pass.new
            × FindsAmong
            (IsStripeTried K.hash self.now.settings (names_of K.name keys.now) all) m pass.new
            × HaveRoomForAll K.hash self.now.settings.s pass.new.stripes
            (names_of K.name keys.now)) }
        ensures found { FindsAny pass.old pass.new }
        ensures caller { OnErr result (IsCaller self.now pass.new) }
        ensures refused { IfErr result (RefusesRoom K.hash self.now.settings
            (names_of K.name keys.now) pass.old pass.new) }
    {
        self.words.show_range();
        for _ in 0..MOST_TRIES {
            if let Some(stripes) = self.lock_with_room_for_each(pass, keys)? {
                return Ok(stripes);
            }
            match self.lock_all_or_grow(pass, keys) {
                Ok(None) => {}
                Ok(Some(stripes)) => return Ok(stripes),
                Err(why) => return Err(RoomFault::Room(why)),
            }
        }
        unreachable!()
    }

    // Takes the stripes of these keys if there is room for each. If there isn't, it makes room for
    // each in turn, and tries once more.
    fn lock_with_room_for_each(
        &self,
        pass: &mut Pass<K, V>,
        keys: &[&K],
    ) -> Result<Option<StripeSet>, RoomFault>
        requires caller { IsCaller self.now pass.old }
        requires some { 0 < length keys.now }
        requires few { length keys.now ≤ 8 }
        ensures own { IsPassOf self.now pass.new }
        ensures different { OnOk result (AreDistinct (names_of K.name keys.now)) }
        ensures answered { IfOk result (λ taken. MatchOption taken
            (IsCaller self.now pass.new
            × LacksRoomStill K.hash self.now.settings (names_of K.name keys.now)
            pass.old pass.new)
            (λ stripes. (m : _) × IsCaller self.now m
            × MakesRoomForEach K.hash self.now.settings (names_of K.name keys.now) pass.old m
            × HoldsNames K.hash self.now.settings (names_of K.name keys.now) stripes m pass.new
            × FindsAmong (IsStripeOfAny K.hash self.now.settings (names_of K.name keys.now))
            m pass.new
            × HaveRoomForAll K.hash self.now.settings.s pass.new.stripes
            (names_of K.name keys.now))) }
        ensures found { FindsAny pass.old pass.new }
        ensures caller { OnErr result (IsCaller self.now pass.new) }
        ensures refused { IfErr result (RefusesRoomForEach K.hash self.now.settings
            (names_of K.name keys.now) pass.old pass.new) }
    {
        if let Some(stripes) = self.lock_if_room(pass, keys)? {
            return Ok(Some(stripes));
        }
        if let Err(why) = self.make_room_for_each(pass, keys) {
            return Err(RoomFault::Room(why));
        }
        Ok(self.lock_if_room(pass, keys)?)
    }

    // Takes all stripes, and keeps them if there is room for each of these keys. If there isn't, the
    // table doubles, and they are given back.
    fn lock_all_or_grow(&self, pass: &mut Pass<K, V>, keys: &[&K]) -> Result<Option<StripeSet>, Why>
        requires caller { IsCaller self.now pass.old }
        ensures own { IsPassOf self.now pass.new }
        ensures answered { IfOk result (λ taken. MatchOption taken
            (IsCaller self.now pass.new
            × GrowsForAll K.hash self.now.settings (names_of K.name keys.now) pass.old pass.new)
            (λ stripes. HoldsNames K.hash self.now.settings (names_of K.name keys.now) stripes
            pass.old pass.new
            × HaveRoomForAll K.hash self.now.settings.s pass.new.stripes
            (names_of K.name keys.now))) }
        ensures found { FindsAmong (IsStripeIn self.now.settings) pass.old pass.new }
        ensures caller { OnErr result (IsCaller self.now pass.new) }
        ensures refused { IfErr result (λ why. IsNotGrown K.hash self.now.settings
            (names_of K.name keys.now) why pass.old pass.new) }
    {
        let Settings {
            s,
            max,
            min_load,
            ..
        } = self.words.settings();
        self.lock_all(pass)?;
        let all = self.words.all();
        let mut held = guard!(&self.words, pass, all);
        settle_all(&mut held);
        if has_room_for_all(&mut held, s, keys) {
            return Ok(Some(all));
        }
        let grown = grow(&mut held, s, max, min_load, &mut self.grower());
        held.renew();
        match grown {
            Ok(()) => Ok(None),
            Err(lack) => Err(Why::of(lack)),
        }
    }

    // Takes the stripes of these keys, and gives them back where there isn't room for each.
    fn lock_if_room(
        &self,
        pass: &mut Pass<K, V>,
        keys: &[&K],
    ) -> Result<Option<StripeSet>, KeysRefused>
        requires caller { IsCaller self.now pass.old }
        requires some { 0 < length keys.now }
        requires few { length keys.now ≤ 8 }
        ensures own { IsPassOf self.now pass.new }
        ensures different { OnOk result (AreDistinct (names_of K.name keys.now)) }
        ensures answered { IfOk result (λ taken. MatchOption taken
            (IsCaller self.now pass.new
            × LacksRoomForAll K.hash self.now.settings (names_of K.name keys.now)
            pass.old pass.new)
            (λ stripes. HoldsNames K.hash self.now.settings (names_of K.name keys.now) stripes
            pass.old pass.new
            × HaveRoomForAll K.hash self.now.settings.s pass.new.stripes
            (names_of K.name keys.now))) }
        ensures found { FindsAmong
            (IsStripeOfAny K.hash self.now.settings (names_of K.name keys.now))
            pass.old pass.new }
        ensures caller { OnErr result (IsCaller self.now pass.new) }
        ensures refused { IfErr result (RefusesNames K.hash self.now.settings
            (names_of K.name keys.now) pass.old pass.new) }
    {
        let stripes = self.lock_different(pass, keys)?;
        let mut guard = guard!(&self.words, pass, stripes);
        if has_room_for_all(&mut guard, stripes.s, keys) {
            return Ok(Some(stripes));
        }
        guard.renew();
        Ok(None)
    }

    // Makes room for each of these keys in turn.
    fn make_room_for_each(&self, pass: &mut Pass<K, V>, keys: &[&K]) -> Result<(), Why>
        requires caller { IsCaller self.now pass.old }
        ensures caller { IsCaller self.now pass.new }
        ensures made { OnOk result (SeeksRoomForEach K.hash self.now.settings
            (names_of K.name keys.now) pass.old pass.new) }
        ensures found { FindsAny pass.old pass.new }
        ensures refused { IfErr result (λ why. LacksRoomForOne K.hash self.now.settings
            (names_of K.name keys.now) why pass.old pass.new) }
    {
        for key in keys {
            self.make_room_ahead(pass, key)?;
        }
        Ok(())
    }
}
