//! The buckets of a hash, by partial-key cuckoo hashing: an entry's other bucket is found from the
//! bucket where it is and a byte of its hash, with no look at the key (Fan, Andersen, Kaminsky,
//! Mitzenmacher 2014, "Cuckoo Filter"; Li, Andersen, Kaminsky, Freedman 2014, "Algorithmic
//! Improvements for Fast Concurrent Cuckoo Hashing").
#![tactic(auto, unfolding(ck_model::specs::Arithmetic::partial_of, ck_model::specs::Arithmetic::index_of, ck_model::specs::Arithmetic::spread_of, ck_model::specs::Arithmetic::alternate_of, ck_model::specs::Arithmetic::second_of, crate::specs::Doubling::grown_of, crate::specs::Doubling::rises_of))]

ghost use Rattle.std.specs.Prelude.{◌≡◌, ℕ, ◌+◌, ◌^◌, ◌%◌, ◌<◌, ◌≤◌, ◌↔◌};
ghost use Rattle.ck_model.specs.Arithmetic.{partial_of, index_of, alternate_of};
ghost use Rattle.ck_key.specs.Doubling.{rises_of};

/// Spreads a partial over all bits of a bucket's number: the odd factor of MurmurHash2 (Appleby
/// 2008).
const SPREAD: u64 = 0xc6a4_a793_5bd1_e995;

/// The partial of a hash: the exclusive or of its eight bytes.
pub fn partial(h: u64) -> u8
    ensures { result ≡ partial_of h }
{
    // Each step folds the upper half over the lower one.
    let four = h ^ (h >> 32);
    let two = four ^ (four >> 16);
    let one = two ^ (two >> 8);
    (one % 256) as u8
}

/// The first bucket of a hash in a table of 2^p buckets.
pub fn index(p: u32, h: u64) -> u64
    requires { p ≤ 26 }
    ensures value { result ≡ index_of p h }
    ensures below { result < 2 ^ p }
{
    h % (1 << p)
}

/// The other bucket of an entry with partial `t` in bucket `b`, in a table of 2^p buckets.
pub fn alternate(p: u32, t: u8, b: u64) -> u64
    requires { p ≤ 26 }
    ensures value { result ≡ alternate_of p t b }
    ensures below { result < 2 ^ p }
    ensures back { b < 2 ^ p → alternate_of p t result ≡ b }
    ensures same { b < 2 ^ p → (result ≡ b) ↔ ((t + 1) % 2 ^ p ≡ 0) }

    // The stripe of the other bucket is the same at every power.
    ensures stripe { (s : ℕ) → s ≤ p → result % 2 ^ s ≡ alternate_of s t (b % 2 ^ s) }
{
    (b ^ (t as u64 + 1).wrapping_mul(SPREAD)) % (1 << p)
}

/// Whether an entry with hash `h` leaves bucket `b` for the bucket 2^p above it, where a table of
/// 2^p buckets doubles.
pub fn rises(p: u32, b: u64, h: u64) -> bool
    requires { p < 26 }
    ensures { result ≡ rises_of p b h }
{
    let first = index(p + 1, h);
    let grown = if b == index(p, h) {
        first
    } else {
        alternate(p + 1, partial(h), first)
    };
    grown != b
}
