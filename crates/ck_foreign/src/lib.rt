//! What C holds of tables, and what each call of it does, once for all types of keys. What C calls
//! stands in `cuckoo_c`.
//!
//! C holds a handle of a table as a pointer: null, or the box of a
//! [`Handle`](cuckoo_map::Handle). Each call takes the box out, makes the handle's call, and puts it
//! back; what C is told is a code, and numbers that are written where it says. The keys are numbers
//! or texts of at most 64 bytes, and the values are numbers.
#![tactic(auto)]

// What C is told, and what it holds.
pub mod code;
pub mod handles;
pub mod keys;
pub mod locked_places;
pub mod pair_places;
pub mod pairs;
pub mod settings;

// What each call does.
pub mod calls;
pub mod several;

// How handles come into their places, and how they go.
pub mod opening;

// What is done to the whole table, in one call or while it is locked.
pub mod locked;
pub mod sessions;
