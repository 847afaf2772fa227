//! Keys that are a number and a short text.
ghost use Rattle.std.specs.Prelude.{◌≡◌, ◌≤◌, ◌<◌, ◌↔◌, ◌∷◌, length, drop, slice_index, IfOk, nat_eq, refl};
ghost use Rattle.std.specs.Cmp.{partial_equiv_from_equiv};
ghost use Rattle.std.specs.Cmp.Lexicographic.{pointwise, slice_cmp, nat_list_eq_equiv, nat_list_cmp_total, texts_ties, texts_po};
ghost use Rattle.std.specs.Ordering.{nat_cmp, as_partial_cmp};
ghost use Rattle.ck_key.specs.Hashes.{number_text_hash};
ghost use Rattle.ck_key.specs.KeyLaws.{text_names, number_text_hash_below};

use crate::key::TableKey;
use crate::mixed_key::MixedKey;
use crate::text_key::{KeyFault, TextKey, fnv_of};
use std::alloc::{AllocError, Global};
use std::cmp::Ordering;
use std::marker::Model;

/// A number and a text of at most 64 bytes as one key, as a shop and an article, ordered by the
/// number and then by the bytes. All bits of both change the lower bits of the hash, which choose the
/// bucket.
///
/// ```
/// let price: Option<u64> = caller.find((shop, "apples"))?;
/// ```
#[derive(Debug, Drop)]
pub struct NumTextKey {
    number: u64,
    text: TextKey,
}

impl Model for NumTextKey {
    ghost use Rattle.std.specs.Prelude.{◌∷◌};
    ghost use Rattle.ck_model.specs.Promise.{Name};

    ghost Value = { Name };

    ghost view = { λ k. k.number ∷ k.text };
}

impl NumTextKey {
    /// A key of this number and these bytes, copied. It is refused as `TooLong` for more than 64
    /// bytes, and otherwise only for want of memory.
    ///
    /// ```
    /// caller.insert(NumTextKey::new(alloc, shop, b"apples")?, 250)?;
    /// ```
    pub fn new(alloc: Global, number: u64, bytes: &[u8]) -> Result<NumTextKey, KeyFault>
        ensures ok { IfOk result (λ key. key ≡ number ∷ bytes.now) }
        ensures too_long { (result ≡ Err KeyFault.TooLong) ↔ (64 < length bytes.now) }
    {
        match TextKey::new(alloc, bytes) {
            Ok(text) => Ok(NumTextKey { number, text }),
            Err(fault) => Err(fault),
        }
    }

    /// The number.
    pub fn number(&self) -> u64
        ensures { self.now ≡ result ∷ drop 1 self.now }
    {
        self.number
    }

    /// The bytes of the text.
    pub fn as_bytes(&self) -> &[u8]
        ensures same { self.now ≡ slice_index self.now 0 ∷ result.now }
        ensures short { length result.now ≤ 64 }
    {
        self.text.as_bytes()
    }
}

impl Clone for NumTextKey {
    ghost is_clone = { λ k copy. copy ≡ k };

    fn clone(&self) -> Result<NumTextKey, AllocError> {
        let text = self.text.clone()?;
        Ok(NumTextKey {
            number: self.number,
            text,
        })
    }
}

impl PartialEq for NumTextKey {
    ghost eq = { pointwise nat_eq };

    ghost laws = { partial_equiv_from_equiv nat_list_eq_equiv };

    fn eq(&self, other: &NumTextKey) -> bool {
        self.number == other.number && self.text == other.text
    }
}

impl Eq for NumTextKey {
    ghost laws = { nat_list_eq_equiv };
}

impl PartialOrd for NumTextKey {
    ghost partial_cmp = { as_partial_cmp (slice_cmp nat_cmp) };

    ghost laws = { texts_po };

    fn partial_cmp(&self, other: &NumTextKey) -> Option<Ordering> {
        Some(self.cmp(other))
    }
}

impl Ord for NumTextKey {
    ghost cmp = { slice_cmp nat_cmp };

    ghost total = { nat_list_cmp_total };

    ghost matches_partial_cmp = { λ x y. refl };

    ghost matches_eq = { texts_ties };

    fn cmp(&self, other: &NumTextKey) -> Ordering {
        match self.number.cmp(&other.number) {
            Ordering::Equal => self.text.cmp(&other.text),
            unequal => unequal,
        }
    }
}

impl TableKey for NumTextKey {
    ghost name = { λ k. k };

    ghost hash = { number_text_hash };

    fn hash64(&self) -> u64 {
        hash_of(self.number, self.text.as_bytes())
    }

    ghost equal_names = { text_names };

    ghost hash_below = { number_text_hash_below };
}

/// The hashes of the number and of the bytes, mixed once more: the lower bits of an FNV-1a depend on
/// those of each byte alone.
#[inline(always)]
pub(crate) fn hash_of(number: u64, bytes: &[u8]) -> u64
    ensures { result ≡ number_text_hash (number ∷ bytes.now) }
{
    MixedKey(fnv_of(bytes) ^ MixedKey(number).hash64()).hash64()
}
