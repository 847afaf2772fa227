//! The preparation of a doubling: one caller at a time requests its blocks, before it takes all
//! stripes. The others wait until that one is done, and look again.
//!
//! What is missing is requested under the stripes, so no proof rests on who prepares.
//!
//! Of this crate only what makes room or grows can reach a table's allocator: it is private here,
//! and only module `room` is given growers.
ghost use Rattle.std.specs.Prelude.{◌≤◌};

use crate::table::Table;
use ck_key::TableKey;
use ck_model::settings::Settings;
use ck_refusal::Why;
use ck_stripe::Grower;
use std::alloc::Global;
use std::sync::atomic::{AtomicBool, AtomicU32, Ordering};

// How often a caller tries at least until another one has prepared a doubling. That takes
// milliseconds: a caller of few turns would else request all blocks again, under all stripes.
const FEWEST_TRIES: u32 = 1 << 18;

// What a table grows by: its allocator, and a lock for the caller that prepares a doubling.
#[derive(Drop)]
pub(crate) struct Growth {
    alloc: Global,
    held: AtomicBool,
    // The last power at which a doubling was prepared for a table that was too empty to grow; 0 for
    // none. There no more is prepared: else each of many keys that share their buckets would
    // request the blocks of a doubling, only to be refused.
    too_empty: AtomicU32,
}

// What one insertion has prepared, and for which power. It has to be ended, so that the lock is
// given back.
pub(crate) struct Preparation<K: TableKey, V> {
    pub(super) grower: Grower<K, V>,
    power: u32,
    has_lock: bool,
}

impl Growth {
    pub(crate) fn new(alloc: Global) -> Self {
        Growth {
            alloc,
            held: AtomicBool::new(false),
            too_empty: AtomicU32::new(0),
        }
    }

    fn try_lock(&self) -> bool {
        !self.held.swap(true, Ordering::AcqRel)
    }

    fn unlock(&self) {
        self.held.store(false, Ordering::Release);
    }

    // Waits until nobody has it, in at most so many tries, and says whether that is so.
    fn wait<K: TableKey>(&self, most: u32) -> bool {
        for tries in 1..most {
            if !self.held.load(Ordering::Acquire) {
                return true;
            }
            K::pause(tries);
        }
        false
    }
}

impl<K: TableKey + Drop, V: Drop> Table<K, V> {
    // What requests memory for a doubling.
    pub(super) fn grower(&self) -> Grower<K, V> {
        Grower::new(self.growth.alloc)
    }

    // What an insertion has before it prepares anything.
    pub(crate) fn unprepared(&self) -> Preparation<K, V> {
        Preparation {
            grower: self.grower(),
            power: 0,
            has_lock: false,
        }
    }

    // Prepares a doubling from 2^power buckets, if nobody else is about to, and says that all
    // stripes are to be taken. Else it waits: false where the other caller is done by then, so that
    // there may be room.
    pub(super) fn prepare(&self, preparation: &mut Preparation<K, V>, power: u32) -> bool
        requires { self.now.settings.s ≤ power }
    {
        let Settings { s, max, turns, .. } = self.words.settings();
        if power >= max || self.growth.too_empty.load(Ordering::Relaxed) == power {
            return true;
        }
        if !self.growth.try_lock() {
            return !self.growth.wait::<K>(turns.max(FEWEST_TRIES));
        }
        preparation.has_lock = true;
        preparation.power = power;
        preparation.grower.prepare(s, power);
        true
    }

    // The same where no room was made. If the table was too empty, it remembers that.
    pub(crate) fn end_in_vain(&self, preparation: Preparation<K, V>, why: Why) {
        if let Why::LoadTooLow = why
            && preparation.has_lock
        {
            self.growth
                .too_empty
                .store(preparation.power, Ordering::Relaxed);
        }
        self.end_preparation(preparation);
    }

    // Gives the lock back, once the stripes are, and frees what is left.
    pub(crate) fn end_preparation(&self, preparation: Preparation<K, V>) {
        let Preparation {
            grower: _grower,
            power: _power,
            has_lock,
        } = preparation;
        if has_lock {
            self.growth.unlock();
        }
    }
}
