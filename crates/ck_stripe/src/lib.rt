//! Stripes, one and several: the buckets of one stripe and its doubling, which is reserved first
//! and split late; and calls on stripes that are held, written once, over anything that is `Held`.
//!
//! Proved: a doubling sends each entry to its bucket at the next size and keeps its slot, whether
//! it is carried out at once or late (a lazy rehash). Carrying it out takes no memory and leaves
//! none reserved. A visit to held stripes changes one of them. Held stripes are settled one by one,
//! counted, and their pairs poured into one list.
#![tactic(auto)]

// One stripe: the rows of its buckets, and what a doubling has left to be moved.
mod crossings;
mod emptied;
mod grower;
mod next;
mod spares;
mod stripe;

// All its pairs.
mod iter;
mod pairs;

// Its law.
mod stripe_laws;

// Stripes that are held: how they are visited, one of them, and several.
mod held;
mod held_slot;
pub mod one_stripe;
mod several;

pub use emptied::Emptied;
pub use grower::Grower;
pub use held::{Held, Numbered, Visitor};
pub use held_slot::HeldSlot;
pub use iter::Iter;
pub use several::{entries, has_entries, len, pour_all, settle_all};
pub use stripe::Stripe;
pub use stripe_laws::law_of_doubling;
