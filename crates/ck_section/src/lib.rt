//! Decisions on stripes that a call holds: the calls on one key and on two, and one hop of a
//! displacement; and of all stripes of a table, their doubling and how room for a key is made. They
//! are written once, over anything that is `Held`.
//!
//! Proved: each call is a step of the abstract map on what the stripes bind, and leaves them
//! lawful; a hop and a doubling change no binding. Room for a key is made, or refused with the
//! reason that holds of the table then; the table doubles only where no displacement makes room and
//! its load is high enough. A closure that wasn't called comes back.
#![tactic(auto)]

// Where a key may be among held stripes, and its entry.
mod entry;
mod look;
mod place;

// Calls on one key, those that may bind it, the calls on two, and those on several.
pub mod insertion;
mod one_key;
mod room_for_all;
mod several_keys;
mod two_keys;

// One hop of a displacement.
mod hop;

// All stripes of a table: a key among them, room for it, and their doubling.
mod double;
mod room;
mod whole;
mod whole_path;

// All their pairs.
mod drain;
mod iter;
mod listing;
mod retain;

pub use double::double_all;
pub use drain::drain_all;
pub use entry::{Entry, find_entry};
pub use hop::{Hop, make_hop};
pub use insertion::{Insertion, Uprased};
pub use iter::Iter;
pub use listing::export;
pub use look::{key_place, sketch};
pub use one_key::{
    erase, erase_fn, find, modify, replace_if, update, update_fn, value_and_outcome,
};
pub use place::{HeldBucket, KeyPlace};
pub use retain::retain_all;
pub use room::{grow, make_room, settled_place};
pub use room_for_all::has_room_for_all;
pub use several_keys::{find_bound, find_each};
pub use two_keys::{Renamed, rename, update_two};
pub use whole::{clear_all, find_in_all, key_place_in_all};
