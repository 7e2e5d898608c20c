//! The window of one commit, and of two beside each other: definitions, their laws, what each row of a document
//! shows, and its painting.
#![tactic(auto)]

pub use document_rows::{document_row, pinned_header};
pub use overlaid::paint_window;
pub use paint::paint_document;

mod document_rows;
mod file_header;
pub mod laws;
mod overlaid;
mod paint;
mod section_rows;
