//! What a stripe contains. The table makes no value of this type: contracts speak of it.
use crate::history::Name;
use std::collections::LinkedList;

/// What a stripe contains: its power, its rows of slots, and a ledger, the number of its entries.
/// Row r of stripe t is the bucket r * 2^s + t, where there are 2^s stripes.
#[derive(Drop)]
pub struct Content<V> {
    pub power: u64,
    pub rows: LinkedList<LinkedList<Option<(Name, V)>>>,
    pub ledger: u64,
}
