//! One move of a displacement path.

/// The entry of this partial in this slot of this bucket goes to its other bucket.
#[derive(Clone, Copy, Debug, Default, PartialEq, Eq)]
pub struct PathHop {
    pub bucket: u64,
    pub slot: usize,
    pub partial: u8,
}
