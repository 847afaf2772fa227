//! What everything in the table means: the abstract map and its histories, the contents of stripes,
//! sections of them, displacement paths and grounds for a refusal. The definitions stand in
//! `specs`, and their laws are the contracts of the functions of `laws`, which do nothing.
//!
//! Proved: a call and its reply determine a step of the map; a prefix of a legal history is legal,
//! and a legal history leads to one map; a step of some stripes is the same step of the whole,
//! whatever the others contain; a doubling keeps what is bound; a key's stripes are the same at
//! every size.
#![tactic(auto)]

pub mod commit;
pub mod contents;
pub mod history;
pub mod lack;
pub mod laws;
pub mod path_hop;
pub mod settings;
