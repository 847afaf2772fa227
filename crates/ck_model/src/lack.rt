//! What a table may lack.

/// What a table lacks to make room for a key.
#[derive(Clone, Copy, Debug, PartialEq, Eq)]
pub enum Lack {
    /// The memory to double.
    Memory,
    /// A greater power: it may not grow.
    Full,
    /// The load with which it may grow.
    LoadTooLow,
}
