//! Room for a key: its entry among the stripes that its pass holds. Where there is none, it is made:
//! other entries go to their other buckets, or in the end the table grows.
ghost use Rattle.std.specs.Prelude.{◌≤◌, OnErr, IfOk, IfErr};
ghost use Rattle.ck_words.specs.Passes.{IsPassOf, IsIdle};
ghost use Rattle.ck_words.specs.Closing.{IsCaller};
ghost use Rattle.cuckoo_map.specs.Holding.{HasSpot};
ghost use Rattle.cuckoo_map.specs.Insertions.{HasFoundNoRoom, HasRoom};
ghost use Rattle.cuckoo_map.specs.Refusals.{FindsOwn};

use crate::locking::Spot;
use crate::table::Table;
use ck_key::TableKey;
use ck_section::{Entry, find_entry};
use ck_stripe::{Held, one_stripe};
use ck_words::{Pass, guard};
use std::snapshot::Snapshot;

mod ahead;
mod all;
mod displace;
mod growth;
mod keys;
mod preparation;
mod search;

pub(crate) use growth::least_power;
pub(crate) use preparation::{Growth, Preparation};

// Where a key may be among the stripes that its pass holds, those of the key or all of the table,
// and its entry there.
#[derive(Clone, Copy)]
pub(crate) struct Room {
    pub(crate) spot: Spot,
    pub(crate) entry: Entry,
}

impl<K: TableKey + Drop, V: Drop> Table<K, V> {
    // The entry of the key on its stripes, which the pass holds. Where the key is unbound and its
    // buckets are full, it gives them back, and answers the power of the table. `since` is the pass
    // before it took them.
    #[inline(always)]
    pub(crate) fn find_room(
        &self,
        pass: &mut Pass<K, V>,
        key: &K,
        spot: Spot,
        since: &Snapshot<Pass<K, V>>,
    ) -> Result<Room, u32>
        requires since { IsCaller self.now since.now.value }
        requires own { IsPassOf self.now pass.old }
        requires spot { HasSpot K.hash self.now.settings (K.name key.now) spot
            since.now.value pass.old }
        requires found { FindsOwn K.hash self.now.settings (K.name key.now) since.now.value
            pass.old }
        ensures own { IsPassOf self.now pass.new }
        ensures room { IfOk result (λ room.
            HasRoom K.hash self.now.settings (K.name key.now) room since.now.value pass.new) }
        ensures found { FindsOwn K.hash self.now.settings (K.name key.now) since.now.value
            pass.new }
        ensures idle { OnErr result (IsIdle pass.new) }
        ensures full { OnErr result (HasFoundNoRoom (K.name key.now) since.now.value pass.new) }
        ensures power { IfErr result (λ power. (self.now.settings.s ≤ power) × (power ≤ 26)) }
    {
        let mut guard = guard!(&self.words, pass, spot.stripes);
        if let Some(entry) = find_entry(&mut guard, spot.place, key) {
            return Ok(Room { spot, entry });
        }
        let power = one_stripe::power(&mut guard, 0);
        guard.refuse_full(key);
        Err(power)
    }
}
