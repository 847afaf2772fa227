//! Where a key may be among held stripes.
ghost use Rattle.std.specs.Prelude.{◌≡◌, ◌==◌, ◌||◌};
ghost use Rattle.std.specs.List.{list_any};

use ck_stripe::HeldSlot;

/// A bucket of a held stripe.
#[derive(Clone, Copy, Debug, PartialEq, Eq)]
pub struct HeldBucket {
    /// The position of the stripe among the held ones.
    pub index: usize,
    /// The bucket, numbered as in the table.
    pub bucket: u64,
}

/// Where a key may be among held stripes of a table of 2^s, and its partial. Where its two buckets
/// are one, both are that.
#[derive(Clone, Copy, Debug, PartialEq, Eq)]
pub struct KeyPlace {
    pub s: u32,
    pub partial: u8,
    pub first: HeldBucket,
    pub alternate: HeldBucket,
}

impl HeldBucket {
    // The slot of this number in the bucket.
    #[inline(always)]
    pub(crate) fn with_slot(self, slot: usize) -> HeldSlot
        ensures { result ≡ record { index = self.index; bucket = self.bucket; slot = slot } }
    {
        HeldSlot {
            index: self.index,
            bucket: self.bucket,
            slot,
        }
    }
}

impl KeyPlace {
    // Whether the bucket is one of the two.
    pub(crate) fn has_bucket(self, bucket: u64) -> bool
        ensures { result ≡ ((bucket == self.first.bucket) || (bucket == self.alternate.bucket)) }
    {
        bucket == self.first.bucket || bucket == self.alternate.bucket
    }

    // Whether one of the buckets is one of the two.
    pub(crate) fn has_one_of(self, buckets: &[HeldBucket]) -> bool
        ensures { result ≡ list_any (λ (b : HeldBucket). (b.bucket == self.first.bucket)
            || (b.bucket == self.alternate.bucket)) buckets.now }
    {
        for i in 0..buckets.len() {
            if self.has_bucket(buckets[i].bucket) {
                return true;
            }
        }
        false
    }
}
