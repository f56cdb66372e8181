// Why a command is not carried out.
use fields::fault::Fault;
use nested::standing::Stop;
use records::check::Unchecked;
use std::alloc::AllocError;
use std::io;
use thiserror::Error;

/// Why words were not understood as a command. It is no `Failure`, since a closure that makes an error with a lifetime of its own, as the
/// parsing of many words takes it, is not covered yet.
#[derive(Debug, Drop, Error)]
pub enum ParseError {
    /// They are none: this is expected in place of one of them.
    #[error("error: expected {0}")]
    Expected(&'static str),
    #[error(transparent)]
    Memory(#[from(alloc)] AllocError),
}

/// Why a command is not carried out.
#[derive(Debug, Drop, Error)]
pub enum Failure<'a> {
    #[error("error: expected {0}")]
    Expected(&'static str),
    #[error("error: expected a file that can be read in place of {0}")]
    Unreadable(&'a str),
    #[error("error: expected a file that can be written in place of {0}")]
    Unwritable(&'a str),
    /// A file has a fault, or letters to be written to one.
    #[error(transparent)]
    Faulty(#[from] Fault),
    /// A letter was refused.
    #[error(transparent)]
    Refused(#[from] Stop),
    /// A record was not checked: it has a fault, or a letter of it was refused.
    #[error(transparent)]
    Unchecked(#[from] Unchecked),
    /// Printing failed, or there was no memory. No command is answered after that.
    #[error(transparent)]
    Io(#[from] io::Error),
}

impl From<ParseError> for Failure<'_> {
    fn from(error: ParseError) -> Self {
        match error {
            ParseError::Expected(what) => Failure::Expected(what),
            ParseError::Memory(error) => Failure::Io(error.into()),
        }
    }
}

impl From<AllocError> for Failure<'_> {
    fn from(error: AllocError) -> Self {
        Failure::Io(error.into())
    }
}
