//! The keys of C's tables. They spin while they wait for a stripe, since a static library may not
//! yield.
ghost use Rattle.std.specs.Prelude.{◌≡◌, ◌∷◌, []};
ghost use Rattle.ck_key.specs.Hashes.{mixed_hash, text_hash};
ghost use Rattle.ck_key.specs.KeyLaws.{number_names, mixed_hash_below, text_names, text_hash_below};

use cuckoo_map::{MixedKey, Query, TableKey, TextKey};
use std::alloc::AllocError;
use std::hint;

/// A number, hashed as a `MixedKey` is: pointers and numbers in steps are good keys.
#[derive(Clone, Copy, PartialEq, Eq, PartialOrd, Ord)]
pub struct NumberKey(pub u64);

impl TableKey for NumberKey {
    ghost name = { λ k. k.0 ∷ [] };

    ghost hash = { mixed_hash };

    #[inline(always)]
    fn hash64(&self) -> u64 {
        MixedKey(self.0).hash64()
    }

    fn pause(_tries: u32) {
        hint::spin_loop();
    }

    ghost equal_names = { λ a b. number_names a.0 b.0 };

    ghost hash_below = { mixed_hash_below };
}

/// A text of at most 64 bytes.
#[derive(PartialEq, Eq, PartialOrd, Ord, Drop)]
pub struct BytesKey(pub TextKey);

impl Clone for BytesKey {
    ghost is_clone = { λ k copy. copy ≡ k };

    fn clone(&self) -> Result<BytesKey, AllocError> {
        let text = self.0.clone()?;
        Ok(BytesKey(text))
    }
}

impl TableKey for BytesKey {
    ghost name = { λ k. k.0 };

    ghost hash = { text_hash };

    fn hash64(&self) -> u64 {
        self.0.hash64()
    }

    fn pause(_tries: u32) {
        hint::spin_loop();
    }

    ghost equal_names = { λ a b. text_names a.0 b.0 };

    ghost hash_below = { text_hash_below };
}

/// Bytes, as a query for their key.
#[derive(Clone, Copy)]
pub struct Bytes<'a>(pub &'a [u8]);

impl<'a> Query<BytesKey> for Bytes<'a> {
    ghost name = { λ q. q.0.now };

    fn hash64(&self) -> u64 {
        Query::<TextKey>::hash64(&self.0)
    }

    fn is_name_of(&self, key: &BytesKey) -> bool {
        Query::<TextKey>::is_name_of(&self.0, &key.0)
    }

    fn is_same_name(&self, other: &Bytes<'a>) -> bool {
        self.0 == other.0
    }
}
