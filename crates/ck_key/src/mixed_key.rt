//! Keys that are numbers in steps.
ghost use Rattle.std.specs.Prelude.{◌≡◌, ◌∷◌, []};
ghost use Rattle.ck_key.specs.Hashes.{folded_of, mixed_of, mixed_hash};
ghost use Rattle.ck_key.specs.KeyLaws.{number_names, mixed_hash_below};

use crate::key::TableKey;

/// A number as a key, hashed so that each of its bits changes the lower bits of the hash, which
/// choose the bucket. It is for numbers that differ in their upper bits alone, as keys in steps of a
/// power of two, addresses, or two numbers side by side.
#[derive(Clone, Copy, Debug, PartialEq, Eq, PartialOrd, Ord)]
pub struct MixedKey(pub u64);

// The factors of MurmurHash3 (Appleby 2011).
const FIRST: u64 = 0xff51_afd7_ed55_8ccd;

const SECOND: u64 = 0xc4ce_b9fe_1a85_ec53;

impl TableKey for MixedKey {
    ghost name = { λ k. k.0 ∷ [] };

    ghost hash = { mixed_hash };

    fn hash64(&self) -> u64
        ensures mixed { result ≡ mixed_of self.now.0 }
        ensures named { result ≡ mixed_hash (self.now.0 ∷ []) }
    {
        folded(folded(self.0.wrapping_mul(FIRST)).wrapping_mul(SECOND))
    }

    ghost equal_names = { λ a b. number_names a.0 b.0 };

    ghost hash_below = { mixed_hash_below };
}

// The upper half on the lower one.
#[inline(always)]
fn folded(n: u64) -> u64
    ensures { result ≡ folded_of n }
{
    n ^ (n >> 32)
}
