//! Keys that are two numbers.
ghost use Rattle.std.specs.Prelude.{◌≡◌, ◌∷◌, [], bit_xor};
ghost use Rattle.ck_key.specs.Hashes.{mixed_of, pair_hash};
ghost use Rattle.ck_key.specs.KeyLaws.{pair_names, pair_hash_below};

use crate::key::TableKey;
use crate::mixed_key::MixedKey;

/// Two numbers as one key, as a customer and a day, or a row and a column, ordered by the first and
/// then by the second. All bits of both change the lower bits of the hash, which choose the bucket:
/// so keys that differ in one of the numbers alone, or in its upper bits alone, find room.
///
/// ```
/// caller.upsert(PairKey(customer, day), |orders| orders.saturating_add(1), 1)?;
/// ```
#[derive(Clone, Copy, Debug, PartialEq, Eq, PartialOrd, Ord)]
pub struct PairKey(pub u64, pub u64);

impl TableKey for PairKey {
    ghost name = { λ k. k.0 ∷ k.1 ∷ [] };

    ghost hash = { pair_hash };

    fn hash64(&self) -> u64
        ensures mixed { result ≡ mixed_of (bit_xor (mixed_of self.now.0) self.now.1) }
        ensures named { result ≡ pair_hash (self.now.0 ∷ self.now.1 ∷ []) }
    {
        let first = MixedKey(self.0).hash64();
        MixedKey(first ^ self.1).hash64()
    }

    ghost equal_names = { λ a b. pair_names a.0 b.0 a.1 b.1 };

    ghost hash_below = { pair_hash_below };
}
