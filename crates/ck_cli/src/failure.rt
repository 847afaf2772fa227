//! How the program fails.
use ck_format::ScriptFault;
use ck_request::RequestFault;
use std::io;
use thiserror::Error;

/// Why the program ended without doing what was asked.
#[derive(Debug, Drop, Error)]
pub enum Failure {
    /// The words ask for nothing that the program does, or could not be read.
    #[error("{0}")]
    Request(RequestFault),
    #[error("cannot open")]
    Open,
    #[error("no memory")]
    Memory,
    #[error("write failed")]
    Write,
    #[error("{0}")]
    Script(ScriptFault),
}

impl Failure {
    /// The status that the program ends with.
    pub fn status(&self) -> u8 {
        match self {
            Failure::Request(RequestFault::Arguments | RequestFault::TooManyLines) => 2,
            Failure::Request(RequestFault::Memory)
            | Failure::Open
            | Failure::Memory
            | Failure::Write
            | Failure::Script(_) => 1,
        }
    }
}

impl From<RequestFault> for Failure {
    fn from(fault: RequestFault) -> Self {
        Failure::Request(fault)
    }
}

/// Why the words could not be read: the system gave none that are text, or no memory for them.
pub fn of_words(error: &io::Error) -> Failure {
    match error.kind() {
        io::ErrorKind::OutOfMemory => Failure::Memory,
        _ => Failure::Request(RequestFault::Arguments),
    }
}
