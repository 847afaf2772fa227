//! What threads borrow from a pool, each item by one at a time.
//!
//! Proved: a pool has as many items as it was made of, gives as many back, and gives all back where
//! there is no memory. That they are the same, in their order, is tested.
#![tactic(auto)]

mod pool;

pub use pool::{AllLent, NoList, NoPool, Pool};
