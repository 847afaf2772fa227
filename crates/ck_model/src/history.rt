//! What stands in a history. No program makes a value of these types: contracts speak of them.
use std::collections::LinkedList;

/// What a key is to every definition: a number key's own number, or a text key's bytes.
pub type Name = LinkedList<u64>;

/// What a call asks for on one name.
#[derive(Drop)]
pub enum Act<V> {
    Find,
    Insert(V),
    Assign(V),
    Update(V),
    Change,
    Upsert(V),
    Erase,
}

/// A call of the plain map.
#[derive(Drop)]
pub enum Call<V> {
    On(Name, Act<V>),
    /// A change of the values of two different names at once.
    ChangeTwo(Name, Name),
    Len,
    /// On these different names alone: from what they are bound to, in their order, to what they
    /// are bound to afterwards.
    SessionOn(LinkedList<Name>, LinkedList<Option<V>>, LinkedList<Option<V>>),
    /// On all names: from these pairs, in rising order of their names, to those.
    Session(LinkedList<(Name, V)>, LinkedList<(Name, V)>),
}

/// What the plain map replies.
#[derive(Drop)]
pub enum Reply<V> {
    /// The value that was bound.
    Was(Option<V>),
    New,
    Old,
    /// The value that was bound, and the one that is.
    Done(V, V),
    /// The two values that were bound, and the two that are.
    DoneTwo(V, V, V, V),
    Absent,
    Count(u64),
    Closed,
}

/// One answered call: the number of its caller, the call and the reply.
#[derive(Drop)]
pub struct Entry<V> {
    pub by: u64,
    pub call: Call<V>,
    pub reply: Reply<V>,
}

/// The reason why no room was found for a name.
#[derive(Clone, Copy, PartialEq, Eq)]
pub enum Reason {
    /// It is unbound and its buckets are full.
    NoRoom,
    /// No room can be made, and the table may not grow.
    Full,
    /// No room can be made, and the load is too low for the table to grow.
    LoadTooLow,
    /// No room can be made but by growing.
    Memory,
}
