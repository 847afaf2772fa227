//! Where an entry is among held stripes.

/// A slot of a held stripe.
#[derive(Clone, Copy, Debug, PartialEq, Eq)]
pub struct HeldSlot {
    /// The position of the stripe among the held ones.
    pub index: usize,
    /// The bucket, numbered as in the table.
    pub bucket: u64,
    /// The slot of the bucket.
    pub slot: usize,
}
