//! Room for a key that is to be bound by a later call.
ghost use Rattle.std.specs.Prelude.{◌≤◌, OnOk, IfErr};
ghost use Rattle.ck_words.specs.Passes.{IsPassOf};
ghost use Rattle.ck_words.specs.Closing.{IsCaller};
ghost use Rattle.cuckoo_map.specs.Insertions.{HasFoundNoRoom, HasRoom, HasSoughtRoom};
ghost use Rattle.cuckoo_map.specs.Refusals.{FindsOwn, FindsOwnUnlessFull, IsRefused};

use crate::room::Room;
use crate::table::Table;
use ck_key::TableKey;
use ck_refusal::Why;
use ck_words::{Pass, guard};
use std::snapshot::Snapshot;

impl<K: TableKey + Drop, V: Drop> Table<K, V> {
    /// `Caller::make_room`, by a pass.
    pub fn make_room_ahead(&self, pass: &mut Pass<K, V>, key: &K) -> Result<(), Why>
        requires caller { IsCaller self.now pass.old }
        ensures caller { IsCaller self.now pass.new }
        ensures made { OnOk result
            (HasSoughtRoom K.hash self.now.settings (K.name key.now) pass.old pass.new) }
        ensures refused { IfErr result (λ why.
            IsRefused K.hash self.now.settings (K.name key.now) why pass.old pass.new) }
        ensures found { FindsOwnUnlessFull K.hash self.now.settings (K.name key.now)
            pass.old pass.new }
    {
        let since = Snapshot::of(pass);
        let spot = self.lock_key(pass, key)?;
        match self.find_room(pass, key, spot, &since) {
            Ok(room) => {
                self.leave_room(pass, room, key, since);
                Ok(())
            }
            Err(power) => self.make_and_leave_room(pass, power, key, since),
        }
    }

    // The same for a key whose buckets are full, in a table of 2^power buckets, and whose stripes
    // were given back.
    fn make_and_leave_room(
        &self,
        pass: &mut Pass<K, V>,
        power: u32,
        key: &K,
        since: Snapshot<Pass<K, V>>,
    ) -> Result<(), Why>
        requires since { IsCaller self.now since.value }
        requires caller { IsCaller self.now pass.old }
        requires full { HasFoundNoRoom (K.name key.now) since.value pass.old }
        requires power { (self.now.settings.s ≤ power) × (power ≤ 26) }
        requires found { FindsOwn K.hash self.now.settings (K.name key.now) since.value pass.old }
        ensures caller { IsCaller self.now pass.new }
        ensures made { OnOk result
            (HasSoughtRoom K.hash self.now.settings (K.name key.now) since.value pass.new) }
        ensures refused { IfErr result (λ why.
            IsRefused K.hash self.now.settings (K.name key.now) why since.value pass.new) }
        ensures found { FindsOwnUnlessFull K.hash self.now.settings (K.name key.now)
            since.value pass.new }
    {
        let mut preparation = self.unprepared();
        match self.make_room(pass, key, power, &mut preparation) {
            Ok(room) => {
                self.leave_room(pass, room, key, since);
                self.end_preparation(preparation);
                Ok(())
            }
            Err(why) => {
                self.end_in_vain(preparation, why);
                Err(why)
            }
        }
    }

    // Gives the stripes back, among which the key has this entry.
    fn leave_room(&self, pass: &mut Pass<K, V>, room: Room, _key: &K, since: Snapshot<Pass<K, V>>)
        requires since { IsCaller self.now since.value }
        requires own { IsPassOf self.now pass.old }
        requires room { HasRoom K.hash self.now.settings (K.name _key.now) room
            since.value pass.old }
        requires found { FindsOwnUnlessFull K.hash self.now.settings (K.name _key.now)
            since.value pass.old }
        ensures caller { IsCaller self.now pass.new }
        ensures made { HasSoughtRoom K.hash self.now.settings (K.name _key.now)
            since.value pass.new }
        ensures found { FindsOwnUnlessFull K.hash self.now.settings (K.name _key.now)
            since.value pass.new }
    {
        guard!(&self.words, pass, room.spot.stripes).renew();
    }
}
