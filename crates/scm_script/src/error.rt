//! The errors of the program.

use scm_record::RecordError;
use std::alloc::{AllocError, AllocFailed};
use thiserror::Error;

/// An error that ends the program without an accepted state. Its text is what the program prints.
#[derive(Debug, Drop, Error)]
pub enum PlayError {
    /// The run ended with a fault, or an allocation failed.
    #[error("fault: {0}")]
    Fault(RecordError),
    /// The reader failed.
    #[error("cannot read")]
    CannotRead,
    /// The input has more than 67,108,864 bytes.
    #[error("bad input: too long")]
    TooLong,
    /// The input is not UTF-8. The number is that of the first such line, counted from 1.
    #[error("bad input: not UTF-8")]
    NotText(usize),
    /// The input has no line that is the word `script`.
    #[error("bad input: no script")]
    NoScript,
    /// The first line is not a size, or a later line is not a command. The number is that of the line, counted from 1.
    #[error("bad input: line {0}")]
    BadLine(usize),
    /// The text before the line `script` is not the JSON form of a state.
    #[error("bad state")]
    BadState,
    /// The state passes a limit.
    #[error("state not accepted")]
    StateNotAccepted,
}

impl PlayError {
    /// Returns the exit status of the program: 1 for a fault, 2 for a bad input.
    pub fn status(&self) -> u8 {
        match self {
            PlayError::Fault(_) => 1,
            PlayError::CannotRead
            | PlayError::TooLong
            | PlayError::NotText(_)
            | PlayError::NoScript
            | PlayError::BadLine(_)
            | PlayError::BadState
            | PlayError::StateNotAccepted => 2,
        }
    }
}

impl From<RecordError> for PlayError {
    fn from(error: RecordError) -> PlayError {
        PlayError::Fault(error)
    }
}

impl From<AllocError> for PlayError {
    fn from(error: AllocError) -> PlayError {
        PlayError::Fault(error.into())
    }
}

impl<T: Drop> From<AllocFailed<T>> for PlayError {
    fn from(error: AllocFailed<T>) -> PlayError {
        PlayError::Fault(error.into())
    }
}
