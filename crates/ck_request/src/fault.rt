//! Why the words are refused.
use clap::error::ErrorKind;
use thiserror::Error;

/// Why the words ask for nothing that can be done.
#[derive(Debug, Drop, Error)]
pub enum RequestFault {
    /// The words ask for nothing that the program does.
    #[error("bad arguments")]
    Arguments,
    /// The script that is asked for would have too many command lines.
    #[error("too many lines")]
    TooManyLines,
    /// There was no memory to read them.
    #[error("no memory")]
    Memory,
}

impl From<clap::Error> for RequestFault {
    fn from(error: clap::Error) -> Self {
        match error.kind() {
            ErrorKind::OutOfMemory => RequestFault::Memory,
            _ => RequestFault::Arguments,
        }
    }
}
