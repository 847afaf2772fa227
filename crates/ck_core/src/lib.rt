//! The core of the table: its state, its steps, and the invariant that every run of them keeps.
//! Nothing of it runs.
//!
//! Proved of all steps of any number of callers from an opening: one legal history has what each
//! caller has observed as a prefix and each caller's entries in order, and the contents of the
//! stripes bind the map after it. A step appends at most one entry to the history. One legal trace
//! has all steps that take, miss or give a stripe, and the entries that these decide, in their
//! order, are the history. So where a caller finds a stripe held, another holds it. There are
//! example runs, and a list of steps that aren't allowed.
#![tactic(auto)]

pub mod core_laws;
pub mod example;
pub mod known;
pub mod refusals;
pub mod trace;
pub mod view;
