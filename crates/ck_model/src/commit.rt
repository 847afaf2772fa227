//! Which call is decided, as its caller names it.
use std::snapshot::Snapshot;

/// A call with its value and its keys, or its query, as contracts see them. Nothing of it is left
/// when the program runs.
#[derive(Drop)]
pub enum Commit<K, V> {
    Find(Snapshot<K>),
    Insert(Snapshot<K>, Snapshot<V>),
    Assign(Snapshot<K>, Snapshot<V>),
    Update(Snapshot<K>, Snapshot<V>),
    Change(Snapshot<K>),
    Upsert(Snapshot<K>, Snapshot<V>),
    Erase(Snapshot<K>),
    ChangeTwo(Snapshot<K>, Snapshot<K>),
    Len,
}
