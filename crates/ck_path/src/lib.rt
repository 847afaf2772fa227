//! The search for a displacement path: the shortest way to make room for a key whose two buckets
//! are full, by moving entries to their other buckets. It is breadth first, over sketches of the
//! buckets, so that it needs no lock on what it has left behind (Li, Andersen, Kaminsky, Freedman
//! 2014, "Algorithmic Improvements for Fast Concurrent Cuckoo Hashing").
//!
//! Proved: it gives a path exactly where one of at most four hops exists over the sketches that it
//! was fed, and a shortest one. Where the sketches are those of a lawful whole, that is a path over
//! its contents.
#![tactic(auto)]

mod node;
mod path;
mod path_laws;
mod search;

pub use ck_model::path_hop::PathHop;
pub use path::Path;
pub use path_laws::law_of_sketches;
pub use search::Search;
