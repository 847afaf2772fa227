//! What a call names a key by.
ghost use Rattle.std.specs.Prelude.{◌≡◌, ◌↔◌, ◌∷◌, true};
ghost use Rattle.ck_model.specs.Promise.{Name};

use crate::key::TableKey;
use crate::num_text_key::{NumTextKey, hash_of};
use crate::text_key::{TextKey, fnv_of};

/// What a call may name a key by: the key, or what has its name without being one, as the bytes of
/// a text. It stands where Rust has `K: Borrow<Q>`, and is passed by value.
///
/// A `&K` is a query for each type of keys. A `&str` and a `&[u8]` are queries for a [`TextKey`],
/// and a number with either for a [`NumTextKey`]; a text of more than 64 bytes is no key's name.
///
/// ```
/// let count: Option<u64> = caller.find("word")?;
/// let price: Option<u64> = caller.find((shop, "apples"))?;
/// ```
pub trait Query<K: TableKey>: Copy {
    // The name that is asked for.
    ghost name: { Self → Name };

    /// The hash of a key of this name.
    fn hash64(&self) -> u64
        ensures { result ≡ K.hash (name self.now) };

    /// Whether the key has this name.
    fn is_name_of(&self, key: &K) -> bool
        ensures { (result ≡ true) ↔ (K.name key.now ≡ name self.now) };

    /// Whether both have one name.
    fn is_same_name(&self, other: &Self) -> bool
        ensures { (result ≡ true) ↔ (name self.now ≡ name other.now) };
}

impl<K: TableKey> Query<K> for &K {
    ghost name = { λ q. K.name q.now };

    #[inline(always)]
    fn hash64(&self) -> u64 {
        (*self).hash64()
    }

    #[inline(always)]
    fn is_name_of(&self, key: &K) -> bool {
        *key == **self
    }

    fn is_same_name(&self, other: &&K) -> bool {
        **self == **other
    }
}

impl Query<TextKey> for &[u8] {
    ghost name = { λ q. q.now };

    fn hash64(&self) -> u64 {
        fnv_of(*self)
    }

    fn is_name_of(&self, key: &TextKey) -> bool {
        key.as_bytes() == *self
    }

    fn is_same_name(&self, other: &&[u8]) -> bool {
        *self == *other
    }
}

impl Query<TextKey> for &str {
    ghost name = { λ q. q.now };

    fn hash64(&self) -> u64 {
        fnv_of(self.as_bytes())
    }

    fn is_name_of(&self, key: &TextKey) -> bool {
        key.as_bytes() == self.as_bytes()
    }

    fn is_same_name(&self, other: &&str) -> bool {
        self.as_bytes() == other.as_bytes()
    }
}

impl Query<NumTextKey> for (u64, &[u8]) {
    ghost name = { λ q. q.0 ∷ q.1.now };

    fn hash64(&self) -> u64 {
        let (number, bytes) = *self;
        hash_of(number, bytes)
    }

    fn is_name_of(&self, key: &NumTextKey) -> bool {
        let (number, bytes) = *self;
        key.number() == number && key.as_bytes() == bytes
    }

    fn is_same_name(&self, other: &(u64, &[u8])) -> bool {
        self.0 == other.0 && self.1 == other.1
    }
}

impl Query<NumTextKey> for (u64, &str) {
    ghost name = { λ q. q.0 ∷ q.1.now };

    fn hash64(&self) -> u64 {
        let (number, text) = *self;
        hash_of(number, text.as_bytes())
    }

    fn is_name_of(&self, key: &NumTextKey) -> bool {
        let (number, text) = *self;
        key.number() == number && key.as_bytes() == text.as_bytes()
    }

    fn is_same_name(&self, other: &(u64, &str)) -> bool {
        self.0 == other.0 && self.1.as_bytes() == other.1.as_bytes()
    }
}
