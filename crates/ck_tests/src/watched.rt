//! Numbers as keys that tell how often they are hashed. One of them waits there for another thread.
ghost use Rattle.std.specs.Prelude.{◌∷◌, [], nat_eq, refl, Some};
ghost use Rattle.std.specs.Cmp.{on_equiv, on_po, on_total, partial_equiv_from_equiv, nat_eq_equiv, unsigned_po, unsigned_ties, nat_cmp_total};
ghost use Rattle.std.specs.Ordering.{nat_cmp};
ghost use Rattle.ck_key.specs.Hashes.{number_hash};
ghost use Rattle.ck_key.specs.KeyLaws.{number_names, number_hash_below};

use cuckoo_map::TableKey;
use std::sync::atomic::{AtomicU64, Ordering};
use std::{cmp, hint};

/// How often a thread looks for the other at most.
const MOST_LOOKS: u64 = 1_000_000_000;

/// The key whose insertion waits.
pub const WAITING: u64 = 16;

/// How often keys were hashed, and how far two threads have come.
#[derive(Drop)]
pub struct Watch {
    /// How often any key was.
    pub hashed: AtomicU64,
    /// How often the waiting key was.
    pub waited: AtomicU64,
    /// Not 0 once the table has doubled and stripe 2 is held.
    pub doubled: AtomicU64,
    /// Not 0 once the insertion has come back.
    pub inserted: AtomicU64,
    /// How often a thread looked for the other in vain.
    pub gave_up: AtomicU64,
}

impl Watch {
    pub fn new() -> Self {
        Watch {
            hashed: AtomicU64::new(0),
            waited: AtomicU64::new(0),
            doubled: AtomicU64::new(0),
            inserted: AtomicU64::new(0),
            gave_up: AtomicU64::new(0),
        }
    }

    /// Waits until this is so much.
    pub fn wait_for(&self, steps: &AtomicU64, enough: u64) {
        for _ in 0..MOST_LOOKS {
            if steps.load(Ordering::SeqCst) >= enough {
                return;
            }
            hint::spin_loop();
        }
        self.gave_up.fetch_add(1, Ordering::SeqCst);
    }
}

/// A number as a key. The one that waits does so where it is hashed for the second time.
#[derive(Clone, Copy)]
pub struct WatchedKey<'w> {
    pub number: u64,
    pub watch: &'w Watch,
}

impl PartialEq for WatchedKey<'_> {
    ghost eq = { λ a b. nat_eq a.number b.number };

    ghost laws = { partial_equiv_from_equiv (on_equiv (λ k. k.number) nat_eq_equiv) };

    fn eq(&self, other: &Self) -> bool {
        self.number == other.number
    }
}

impl Eq for WatchedKey<'_> {
    ghost laws = { on_equiv (λ k. k.number) nat_eq_equiv };
}

impl PartialOrd for WatchedKey<'_> {
    ghost partial_cmp = { λ a b. Some (nat_cmp a.number b.number) };

    ghost laws = { on_po (λ k. k.number) unsigned_po };

    fn partial_cmp(&self, other: &Self) -> Option<cmp::Ordering> {
        Some(self.cmp(other))
    }
}

impl Ord for WatchedKey<'_> {
    ghost cmp = { λ a b. nat_cmp a.number b.number };

    ghost total = { on_total (λ k. k.number) nat_cmp_total };

    ghost matches_partial_cmp = { λ a b. refl };

    ghost matches_eq = { λ a b. unsigned_ties a.number b.number };

    fn cmp(&self, other: &Self) -> cmp::Ordering {
        self.number.cmp(&other.number)
    }
}

impl TableKey for WatchedKey<'_> {
    ghost name = { λ k. k.number ∷ [] };

    ghost hash = { number_hash };

    fn hash64(&self) -> u64 {
        let watch = self.watch;
        watch.hashed.fetch_add(1, Ordering::SeqCst);
        if self.number == WAITING && watch.waited.fetch_add(1, Ordering::SeqCst) == 1 {
            watch.wait_for(&watch.doubled, 1);
        }
        self.number
    }

    ghost equal_names = { λ a b. number_names a.number b.number };

    ghost hash_below = { number_hash_below };
}
