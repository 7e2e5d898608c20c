//! The errors with which a selection ends.
#![tactic(auto)]

pub mod error;

pub use error::RecordError;
