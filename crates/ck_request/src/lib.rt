//! What the program's words ask for.
#![tactic(auto)]

mod fault;
mod recipe;
mod request;

pub use fault::RequestFault;
pub use recipe::Recipe;
pub use request::{Request, request_of};
