//! The errors with which a selection ends.
ghost use Rattle.std.specs.Prelude.{◌≡◌};
ghost use Rattle.scm_errors.specs.declared.error.RecordError.TheVariants.{OutOfMemory};
ghost use Rattle.scm_errors.specs.Fault.{is_no_events_left};

use std::alloc::{AllocError, AllocFailed};
use thiserror::Error;

/// The reason why a selection ends without a state. Causes are texts: an error has no `source`.
#[derive(Debug, Drop, Error)]
pub enum RecordError {
    /// The user cancelled.
    #[error("cancelled by user")]
    Cancelled,

    /// The terminal could not be set up.
    #[error("failed to set up terminal: {0}")]
    SetUpTerminal(String),

    /// The terminal could not be cleaned up.
    #[error("failed to clean up terminal: {0}")]
    CleanUpTerminal(String),

    /// A frame could not be drawn.
    #[error("failed to render new frame: {0}")]
    RenderFrame(String),

    /// The input failed, or it has no events left.
    #[error("failed to read user input: {0}")]
    ReadInput(String),

    /// The state could not be written as JSON.
    #[error("failed to serialize JSON: {0}")]
    SerializeJson(String),

    /// A file could not be written.
    #[error("failed to wrote file: {0}")]
    WriteFile(String),

    /// Any other failure.
    #[error("{0}")]
    Other(String),

    /// A bug of the selector itself.
    #[error("bug: {0}")]
    Bug(String),

    /// An allocation failed.
    #[error("out of memory")]
    OutOfMemory,
}

impl RecordError {
    /// Returns whether a read failed because no events were left.
    ///
    /// A run ends so if its script neither accepts nor cancels.
    pub fn is_no_events_left(&self) -> bool
        ensures { result ≡ is_no_events_left self.now }
    {
        match self {
            RecordError::ReadInput(text) => text.as_str() == "no events left",
            _ => false,
        }
    }
}

impl From<AllocError> for RecordError {
    ghost from_gives = { λ _ e. e ≡ OutOfMemory };

    fn from(_error: AllocError) -> RecordError {
        RecordError::OutOfMemory
    }
}

impl<T: Drop> From<AllocFailed<T>> for RecordError {
    ghost from_gives = { λ _ e. e ≡ OutOfMemory };

    fn from(_error: AllocFailed<T>) -> RecordError {
        RecordError::OutOfMemory
    }
}
