//! Keys that are numbers.
ghost use Rattle.std.specs.Prelude.{◌≡◌, ◌∷◌, []};
ghost use Rattle.ck_key.specs.Hashes.{number_hash};
ghost use Rattle.ck_key.specs.KeyLaws.{number_names, number_hash_below};

use crate::key::TableKey;

/// A number as a key. It hashes to itself, and its lower bits choose the bucket. So it is quick for
/// numbers that differ in these, and few numbers in steps of a large power of two find room: see
/// `MixedKey`.
#[derive(Clone, Copy, Debug, PartialEq, Eq, PartialOrd, Ord)]
pub struct NumKey(pub u64);

impl TableKey for NumKey {
    ghost name = { λ k. k.0 ∷ [] };

    ghost hash = { number_hash };

    fn hash64(&self) -> u64
        ensures itself { result ≡ self.now.0 }
        ensures named { result ≡ number_hash (self.now.0 ∷ []) }
    {
        self.0
    }

    ghost equal_names = { λ a b. number_names a.0 b.0 };

    ghost hash_below = { number_hash_below };
}
