//! Lock words, the stripes in their slots, and the passes of callers, under the invariant of the
//! core.
//!
//! Proved: every atomic step of every thread keeps the invariant, with some history. A committed
//! call stands once in the history, after all that its caller had observed, and its pass holds
//! nothing afterwards. Stripes are locked in ascending order, by a bounded number of attempts. An
//! unlocked stripe owns exactly the memory of its buckets. A closed table gives the pairs that one
//! legal history of all passes leaves.
#![tactic(auto)]

// The words and the slots, the passes, and the rule that they keep.
mod pass;
mod rule;
mod views;
mod words;

// The steps on a word, each one of the core.
mod steps;

// Sets of stripes, and how they are taken: a call takes its set by `Words::lock`.
mod acquire;
mod settle;
mod stripe_set;

// Those that a pass holds: how they are visited, and how a call gives them back.
mod commit;
mod guard;
mod release;
mod visits;

// All of them in one list, and the power of one.
mod lift;
mod power;
mod reserved_list;

// The beginning and the end of a table.
mod close;
mod open;

pub use close::StillOpen;
pub use guard::Guard;
pub use lift::Whole;
pub use pass::Pass;
pub use reserved_list::ReservedList;
pub use stripe_set::StripeSet;
pub use views::Message;
pub use words::Words;
