//! What a caller knows.
use crate::trace::LockEvent;
use ck_model::contents::Content;
use ck_model::history::{Entry, Name, Reason};
use ck_model::settings::Settings;
use std::collections::LinkedList;

/// What a caller knows. The table makes no value of this type: contracts speak of it.
pub struct View<V> {
    /// What a step may tell can read no more of the table than its caller's view.
    pub settings: Settings,
    /// The caller's number. A view that was split off for a meeting has none.
    pub by: Option<u64>,
    /// The stripes that are held, the last taken first.
    pub held: LinkedList<(u64, Content<V>)>,
    /// The history up to the last step by which the caller saw it.
    pub seen: LinkedList<Entry<V>>,
    /// The caller's own entries.
    pub mine: LinkedList<Entry<V>>,
    /// A power that the table had, or a lower one.
    pub told: u64,
    /// How many times the caller has made the table double.
    pub doublings: u64,
    /// What the stripes contained each time that it did so, in rising order of their numbers. The
    /// last time stands first.
    pub grown_from: LinkedList<LinkedList<(u64, Content<V>)>>,
    /// The trace up to the last step by which the caller saw it.
    pub watched: LinkedList<LockEvent<V>>,
    /// The caller's own steps on lock words.
    pub steps: LinkedList<LockEvent<V>>,
    /// The names that found no room and why, once for each time.
    pub no_slot: LinkedList<RoomNote<V>>,
    /// What another caller had seen when it was last met.
    pub heard: LinkedList<Entry<V>>,
    /// The power that the other caller had been told.
    pub heard_told: u64,
    /// What the other caller had watched of the trace.
    pub heard_watched: LinkedList<LockEvent<V>>,
    /// The numbers of callers that have not begun or have ended, with their entries.
    pub others: LinkedList<(u64, LinkedList<Entry<V>>)>,
}

/// A name found no room. The table makes no value of this type: contracts speak of it.
pub struct RoomNote<V> {
    pub name: Name,
    pub reason: Reason,
    /// What the stripes contained that its caller held then, in rising order of their numbers.
    pub held: LinkedList<(u64, Content<V>)>,
}
