//! The map for C, C++ and Rust, as a static library: the calls, for each type of keys. What they do
//! stands in `ck_foreign`, once for all types.
//!
//! Nothing in it yields: the keys spin while they wait for a stripe, and the headers yield between
//! calls that were refused as busy.
#![tactic(auto)]

mod numbers;
mod settings;
mod texts;
