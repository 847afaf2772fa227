//! Where the workers of a run pass by.

/// What a run calls before and after each command, so that a test can hold workers back and note
/// them. Workers and the command lines of a worker are counted from 1.
///
/// It is called by the worker's own thread, which holds no stripe then.
pub trait Gate: Sync {
    /// The worker comes to this line.
    fn before(&self, worker: u32, line: u64);

    /// The worker has the answer of this line.
    fn after(&self, worker: u32, line: u64);
}

/// A gate that does nothing.
#[derive(Clone, Copy, Debug, PartialEq, Eq)]
pub struct OpenGate;

impl Gate for OpenGate {
    fn before(&self, _worker: u32, _line: u64) {}

    fn after(&self, _worker: u32, _line: u64) {}
}
