//! What a command line is answered.

/// Keys with the numbers to which they are bound.
pub type Pairs<K> = Vec<(K, u64)>;

/// What a command line is answered; `L` is a list of keys with their numbers. The last four are
/// refusals, and nothing changed then.
#[derive(Debug, PartialEq, Eq, Drop)]
pub enum Answer<L> {
    /// The value that is bound to the key.
    Value(u64),
    /// The key is unbound.
    Absent,
    /// The key is bound.
    Yes,
    /// The key is not bound.
    No,
    /// The key was unbound and is bound now.
    New,
    /// The key was bound, and nothing changed.
    Old,
    /// The key was bound, and is bound anew.
    Set,
    /// The key was bound, and is unbound now.
    Gone,
    /// So many keys are bound.
    Count(u64),
    /// These keys are bound to these numbers, and no others are.
    Listed(L),
    /// Another caller held a stripe that the command needs for too long.
    Busy,
    /// There is no memory: for the table to grow, or for a list.
    Memory,
    /// There is no room for the key, and the table may not grow.
    Full,
    /// There is no room for the key, and too few slots are taken for the table to grow.
    Load,
}
