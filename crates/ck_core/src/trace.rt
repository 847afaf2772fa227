//! The steps on the lock words, in one list.
use ck_model::contents::Content;
use ck_model::history::Entry;
use std::collections::LinkedList;

/// What a caller did at the lock word of a stripe.
pub enum LockStep<V> {
    /// It took the stripe.
    Took,
    /// It found the stripe held.
    Missed,
    /// It gave the stripe back. Of the stripes that it held, these contain this from here on: none
    /// where all are as they were.
    Gave(LinkedList<(u64, Content<V>)>),
    /// It gave the stripe back, and decided this call by it. The stripes that it held contain this
    /// from here on.
    Decided(Entry<V>, LinkedList<(u64, Content<V>)>),
}

/// One step of a caller on the lock word of a stripe. The table makes no value of this type:
/// contracts speak of it.
pub struct LockEvent<V> {
    /// The caller's number.
    pub by: u64,
    pub stripe: u64,
    pub step: LockStep<V>,
}
