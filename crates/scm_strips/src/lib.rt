//! One row of a document, by its kind: what it shows in an area of the screen, and who owns its columns.
#![tactic(auto)]

pub use area::Area;
pub use owners::row_owner;
pub use paint::paint_row;
pub use shown::Shown;

mod area;
mod headings;
pub mod laws;
mod lines;
mod owners;
mod paint;
mod puts;
mod shown;
mod texts;
mod widths;
