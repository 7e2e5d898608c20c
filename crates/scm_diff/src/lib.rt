//! The differences of two versions of a file, as a file of a state, and the texts of its sides.
#![tactic(auto)]

mod blanks;
mod bytes;
pub mod change;
mod compare;
mod diagonals;
mod ends;
pub mod hunk;
pub mod laws;
mod likeness;
mod lines;
mod lists;
mod merge;
mod own;
mod search;
mod sections;
mod sides;
mod slide;
mod words;

pub use blanks::{WithoutBlankChanges, without_blank_changes};
pub use bytes::{bytes_of_text, has_nul, side_bytes, text_of_bytes};
pub use change::{Version, changed_file};
pub use compare::hunks;
pub use hunk::Hunk;
pub use lines::lines_of;
pub use own::owned_file;
pub use sides::side_text;
pub use words::{MOST_COMPARED, MOST_STEPS, WordSpan, word_spans};
