//! The rule for the rows of a section: which lines of context it shows, how many rows it has, and
//! whether it is shown at all.
//!
//! The layout of a state and the views of a document both go by it.
#![tactic(auto)]

pub mod message_rows;
pub mod row_kind;
pub mod section_heights;
pub mod section_place;
pub mod section_shape;

pub use row_kind::RowKind;
pub use section_place::SectionPlace;
pub use section_shape::SectionShape;
