//! What a key of the table is.
ghost use Rattle.std.specs.Prelude.{◌≡◌, ℕ, ◌<◌, ◌^◌, ◌↔◌, IsTrue};
ghost use Rattle.ck_model.specs.Promise.{Name};

use std::{hint, thread};

/// A key of the table. Two keys are equal exactly where they have one name, and the hash depends on
/// the name alone.
pub trait TableKey: Ord {
    // What is seen of a key everywhere else.
    ghost name: { Self → Name };

    ghost hash: { Name → ℕ };

    /// The 64-bit hash of the key's name.
    fn hash64(&self) -> u64
        ensures { result ≡ hash (name self.now) };

    /// Waits, after so many tries to take a stripe that another caller holds. After each 64 it lets
    /// other threads run. It does so after none too: an insertion that has carried out a doubling of
    /// some stripes, and holds none now, calls it with 0. A type of keys that is to wait otherwise has
    /// a `pause` of its own.
    fn pause(tries: u32) {
        if tries % 64 == 0 {
            thread::yield_now();
        } else {
            hint::spin_loop();
        }
    }

    ghost equal_names: { (a b : Self) → IsTrue (Self.eq a b) ↔ (name a ≡ name b) };

    ghost hash_below: { (n : Name) → hash n < 2 ^ 64 };
}
