//! The index of an inline frame, from the layout that a session keeps: the owner of each place, the
//! row range of each key, and the extent, each without a walk over the document.
//!
//! A [`LayoutIndex`] has what lies over the document, and [`SharedRows`], a copy of the layout's
//! rows that a session shares with its frames, and keeps as [`FrameRows`]. [`span_of_key`] needs no index.
#![tactic(auto)]

pub mod frame_rows;
mod key_pieces;
pub mod key_spans;
pub mod layout_index;
pub mod line_rows;
mod overlays;
pub mod owner_runs;
pub mod row_owners;
mod row_pieces;
pub mod shared_rows;
mod shown_lines;

pub use frame_rows::FrameRows;
pub use key_spans::span_of_key;
pub use layout_index::LayoutIndex;
pub use line_rows::LineRows;
pub use owner_runs::OwnerRun;
pub use row_owners::RowOwners;
pub use shared_rows::SharedRows;
