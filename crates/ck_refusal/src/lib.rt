//! Why calls are refused: a type for each kind of call, and one that all of them become.
//!
//! Proved: what each becomes has its reason (`specs/Faults.antt`).
#![tactic(auto)]

mod fault;
mod refusal;

pub use fault::Fault;
pub use refusal::{
    Busy, DrainFault, GrowFault, KeysNotLocked, KeysRefused, KeysWithoutRoom, NoSlot, NotDrained,
    NotLocked, NotRenamed, OpenFault, Refused, RoomFault, Why,
};
