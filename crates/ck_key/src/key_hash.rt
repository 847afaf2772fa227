//! The hash of a key and the partial of it, at hand for a whole call.
#![tactic(auto, unfolding(ck_model::specs::Arithmetic::second_of))]

ghost use Rattle.std.specs.Prelude.{◌≡◌, ℕ, ◌^◌, ◌%◌, ◌<◌, ◌≤◌, min, max};
ghost use Rattle.ck_model.specs.Arithmetic.{partial_of, index_of, second_of};
ghost use Rattle.ck_key.specs.Hashes.{IsHashOf};

use crate::arithmetic::{alternate, index, partial};
use crate::key::TableKey;
use crate::query::Query;

/// The hash of a key, and its partial. A call makes them once, and hands them to each step.
#[derive(Clone, Copy, Debug, PartialEq, Eq)]
pub struct KeyHash {
    pub hash: u64,
    pub partial: u8,
}

impl KeyHash {
    /// The hash of the key's name, and its partial.
    #[inline(always)]
    pub fn of<K: TableKey, Q: Query<K>>(key: Q) -> KeyHash
        ensures { IsHashOf K.hash (Q.name key) result }
    {
        let hash = key.hash64();
        KeyHash {
            hash,
            partial: partial(hash),
        }
    }

    /// The two stripes of the hash among 2^s, as `stripes_of` gives them.
    #[inline(always)]
    pub fn stripes(self, s: u32) -> (u32, u32)
        requires s { s ≤ 10 }
        requires partial { self.partial ≡ partial_of self.hash }
        ensures low { result.0 ≡ min (index_of s self.hash) (second_of s self.hash) }
        ensures high { result.1 ≡ max (index_of s self.hash) (second_of s self.hash) }
        ensures order { result.0 ≤ result.1 }
        ensures below { result.1 < 2 ^ s }
        ensures first { (p : ℕ) → s ≤ p → index_of p self.hash % 2 ^ s ≡ index_of s self.hash }
        ensures second { (p : ℕ) → s ≤ p → second_of p self.hash % 2 ^ s ≡ second_of s self.hash }
    {
        let first = index(s, self.hash);
        let second = alternate(s, self.partial, first);
        (first.min(second) as u32, first.max(second) as u32)
    }
}

/// The two stripes of a hash among 2^s, in rising order, twice the same where they are one.
pub fn stripes_of(s: u32, h: u64) -> (u32, u32)
    requires { s ≤ 10 }
    ensures low { result.0 ≡ min (index_of s h) (second_of s h) }
    ensures high { result.1 ≡ max (index_of s h) (second_of s h) }
    ensures order { result.0 ≤ result.1 }
    ensures below { result.1 < 2 ^ s }

    // They are the stripes of the hash's buckets at every power from `s` on.
    ensures first { (p : ℕ) → s ≤ p → index_of p h % 2 ^ s ≡ index_of s h }
    ensures second { (p : ℕ) → s ≤ p → second_of p h % 2 ^ s ≡ second_of s h }
{
    let hash = KeyHash {
        hash: h,
        partial: partial(h),
    };
    hash.stripes(s)
}
