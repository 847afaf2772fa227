//! A concurrent cuckoo hash map: a map from keys to values that many threads call at once.
//!
//! [`Handle::open`] makes a table by its [`Settings`] and gives all its handles, one for each
//! caller. A handle makes the calls, may go to another thread, and shares its table with the
//! others. A [`Caller`] makes the same calls and borrows its [`Table`]. Keys are numbers
//! ([`NumKey`], or [`MixedKey`] for numbers in steps), short texts ([`TextKey`]), two numbers
//! ([`PairKey`]), a number with a text ([`NumTextKey`]), or a type with an `impl` of [`TableKey`].
//! A call that binds no new key takes a [`Query`] for it: `&key`, or for a text its bytes or a
//! `&str`, so that no `TextKey` is made.
//!
//! ```
//! let mut handles = Handle::<NumKey, u64>::open(alloc, Settings::for_keys(1_000, 4))?;
//! for handle in &mut handles {
//!     handle.upsert(NumKey(7), |count| count.saturating_add(1), 1)?;
//! }
//! ```
//!
//! Threads that aren't known when the table is opened borrow handles of a [`Pool`].
//!
//! Each completed call stands once in one legal sequential history of a plain map, with the result
//! that the map gives there, after all that its caller had observed. A call that finds a stripe
//! held too often is refused as [`Busy`], and an insertion for which there is no free slot as
//! [`Refused`]. Neither changes a binding. A refused insertion hands back the key with the value
//! or the closure that was to make it, a refused update the value; any other closure is dropped.
//!
//! An entry is in one of the two buckets of its key (Pagh and Rodler 2004, "Cuckoo Hashing"), and
//! a bucket has four slots (Dietzfelbinger and Weidling 2007). Striped locks guard the buckets
//! (Li, Andersen, Kaminsky, Freedman 2014, "Algorithmic Improvements for Fast Concurrent Cuckoo
//! Hashing"), and entries are displaced under two of them at a time. Where that makes no room, the
//! number of buckets doubles, under all locks.
//!
//! Contracts cite definitions of `specs/`, which hands on those of the crates below that a caller
//! needs.
#![tactic(auto)]

// The table, and who calls it.
mod caller;
mod handle;
mod no_callers;
mod not_closed;
mod table;
mod table_ref;

// How each call locks its stripes.
mod locking;

// Calls on a key, on two, on several, and on none.
mod changes;
mod insertions;
mod key_pairs;
mod look_ups;
mod renames;
mod several_keys;
mod size;

// How an insertion comes to a slot for its key.
mod room;

// The table under one caller, and some keys.
mod locked;
mod locked_keys;

pub use caller::{Caller, CallerOn};
pub use ck_key::{KeyFault, MixedKey, NumKey, NumTextKey, PairKey, Query, TableKey, TextKey};
pub use ck_model::settings::{OutOfRange, Settings};
pub use ck_pool::{AllLent, NoList, NoPool, Pool};
pub use ck_refusal::{
    Busy, DrainFault, Fault, GrowFault, KeysNotLocked, KeysRefused, KeysWithoutRoom, NoSlot,
    NotDrained, NotLocked, NotRenamed, OpenFault, Refused, RoomFault, Why,
};
pub use ck_section::{Iter, Renamed, Uprased};
pub use ck_words::{Message, Pass};
pub use handle::{Handle, LockedHandle};
pub use locked::{LockedOn, LockedTable};
pub use locked_keys::{LockedKeys, LockedKeysOn};
pub use no_callers::NoCallers;
pub use not_closed::NotClosed;
pub use table::Table;
pub use table_ref::TableRef;
