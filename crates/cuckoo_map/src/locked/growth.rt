//! The size of a locked table, and how it grows.
ghost use Rattle.std.specs.Prelude.{◌≡◌, ◌*◌, ◌/◌, ◌^◌, ◌≤◌};
ghost use Rattle.std.specs.FinMap.{len};
ghost use Rattle.cuckoo_map.specs.Locking.{locked_power, map_of, RehashesLocked, ReservesLocked};

use crate::locked::{LockedOn, stripes_of};
use crate::room::least_power;
use crate::table_ref::TableRef;
use ck_key::TableKey;
use ck_model::settings::Settings;
use ck_refusal::GrowFault;

impl<T: TableRef<K, V> + Drop, K: TableKey + Drop, V: Drop> LockedOn<T, K, V> {
    /// The power: the table has 2^power buckets of four slots.
    pub fn power(&self) -> u32
        ensures value { result ≡ locked_power self.now }
        ensures within { (self.now.caller.table.settings.power ≤ result)
            × (result ≤ self.now.caller.table.settings.max) }
    {
        stripes_of(&self.whole)[0].power()
    }

    /// How many slots the table has, four in each bucket.
    pub fn capacity(&self) -> u64
        ensures { result ≡ 4 * 2 ^ locked_power self.now }
    {
        let _ = self.settings();
        4 << self.power()
    }

    /// How many of a hundred slots are taken, rounded down.
    ///
    /// ```
    /// let is_crowded: bool = locked.load_factor() > 90;
    /// ```
    pub fn load_factor(&self) -> u64
        ensures { result ≡ (100 * len (map_of self.now)) / (4 * 2 ^ locked_power self.now) }
    {
        let _ = &self.table;
        100 * self.len() / self.capacity()
    }

    /// `Caller::rehash`. Refused as `Memory`, the table has fewer buckets than it was to have.
    ///
    /// ```
    /// let power: u32 = locked.power();
    /// let grown: bool = locked.rehash(power + 1)?;
    /// ```
    pub fn rehash(&mut self, power: u32) -> Result<bool, GrowFault>
        ensures { RehashesLocked power result self.old self.new }
    {
        let Settings { s, max, .. } = self.settings();
        if max < power {
            return Err(GrowFault::OverMax);
        }
        let table = self.table.table();
        match table.double_in(&mut self.whole, s, power) {
            Ok(grown) => Ok(grown),
            Err(_) => Err(GrowFault::Memory),
        }
    }

    /// `Caller::reserve`, which is never refused as `Busy`.
    pub fn reserve(&mut self, n: u64) -> Result<bool, GrowFault>
        ensures { ReservesLocked n result self.old self.new }
    {
        self.rehash(least_power(n))
    }
}
