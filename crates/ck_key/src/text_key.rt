//! Keys that are short texts.
ghost use Rattle.std.specs.Prelude.{◌≡◌, ◌≤◌, ◌<◌, ◌↔◌, length, IfOk, nat_eq, refl};
ghost use Rattle.std.specs.Cmp.{partial_equiv_from_equiv};
ghost use Rattle.std.specs.Cmp.Lexicographic.{pointwise, slice_cmp, nat_list_eq_equiv, nat_list_cmp_total, texts_ties, texts_po};
ghost use Rattle.std.specs.Ordering.{nat_cmp, as_partial_cmp};
ghost use Rattle.ck_key.specs.Hashes.{text_hash};
ghost use Rattle.ck_key.specs.KeyLaws.{text_names, text_hash_below};

use crate::key::TableKey;
use std::alloc::{AllocError, Global};
use std::cmp::Ordering;
use std::marker::Model;
use thiserror::Error;

/// A `TextKey` has at most this many bytes.
const MAX_LEN: usize = 64;

/// The offset basis of the 64-bit FNV-1a.
const FNV_BASIS: u64 = 0xcbf2_9ce4_8422_2325;

/// The prime of the 64-bit FNV-1a.
const FNV_PRIME: u64 = 0x0000_0100_0000_01b3;

/// Why a text is no key.
#[derive(Debug, Clone, Copy, PartialEq, Eq, Error)]
pub enum KeyFault {
    /// The text has more than 64 bytes.
    #[error("the key has more than 64 bytes")]
    TooLong,
    /// There is no memory for a copy of the text.
    #[error("no memory for the key")]
    Memory,
}

/// A text of at most 64 bytes as a key, ordered by its bytes. It hashes by the 64-bit FNV-1a.
#[derive(Debug, Drop)]
pub struct TextKey {
    bytes: Vec<u8>,
}

impl Model for TextKey {
    ghost use Rattle.std.specs.Prelude.{length, ◌≤◌};
    ghost use Rattle.ck_model.specs.Promise.{Name};

    ghost Value = { Name };

    ghost view = { λ k. k.bytes.items };

    ghost invariant = { λ k. length k.bytes.items ≤ 64 };
}

impl TextKey {
    /// A key of these bytes, copied. It is refused as `TooLong` for more than 64 bytes, and
    /// otherwise only for want of memory.
    pub fn new(alloc: Global, bytes: &[u8]) -> Result<TextKey, KeyFault>
        ensures ok { IfOk result (λ key. key ≡ bytes.now) }
        ensures too_long { (result ≡ Err KeyFault.TooLong) ↔ (64 < length bytes.now) }
    {
        if bytes.len() > MAX_LEN {
            return Err(KeyFault::TooLong);
        }
        match Vec::from_slice(alloc, bytes) {
            Ok(bytes) => Ok(TextKey { bytes }),
            Err(_) => Err(KeyFault::Memory),
        }
    }

    /// The bytes of the text.
    pub fn as_bytes(&self) -> &[u8]
        ensures same { result.now ≡ self.now }
        ensures short { length self.now ≤ 64 }
    {
        &self.bytes
    }
}

impl Clone for TextKey {
    ghost is_clone = { λ k copy. copy ≡ k };

    fn clone(&self) -> Result<TextKey, AllocError> {
        let bytes = self.bytes.clone()?;
        Ok(TextKey { bytes })
    }
}

impl PartialEq for TextKey {
    ghost eq = { pointwise nat_eq };

    ghost laws = { partial_equiv_from_equiv nat_list_eq_equiv };

    fn eq(&self, other: &TextKey) -> bool {
        self.bytes.as_slice() == other.bytes.as_slice()
    }
}

impl Eq for TextKey {
    ghost laws = { nat_list_eq_equiv };
}

impl PartialOrd for TextKey {
    ghost partial_cmp = { as_partial_cmp (slice_cmp nat_cmp) };

    ghost laws = { texts_po };

    fn partial_cmp(&self, other: &TextKey) -> Option<Ordering> {
        Some(self.cmp(other))
    }
}

impl Ord for TextKey {
    ghost cmp = { slice_cmp nat_cmp };

    ghost total = { nat_list_cmp_total };

    ghost matches_partial_cmp = { λ x y. refl };

    ghost matches_eq = { texts_ties };

    fn cmp(&self, other: &TextKey) -> Ordering {
        self.bytes.as_slice().cmp(other.bytes.as_slice())
    }
}

impl TableKey for TextKey {
    ghost name = { λ k. k };

    ghost hash = { text_hash };

    fn hash64(&self) -> u64 {
        fnv_of(self.as_bytes())
    }

    ghost equal_names = { text_names };

    ghost hash_below = { text_hash_below };
}

/// The 64-bit FNV-1a of the bytes (Fowler, Noll, Vo 1991): for each byte an exclusive or, and then
/// the product.
#[inline(always)]
pub(crate) fn fnv_of(bytes: &[u8]) -> u64
    ensures { result ≡ text_hash bytes.now }
{
    bytes.iter().fold(
        FNV_BASIS,
        |hash, byte| (hash ^ *byte as u64).wrapping_mul(FNV_PRIME),
    )
}
