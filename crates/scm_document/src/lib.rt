//! The document that scrolls: a commit's message, its files, their sections and lines, what each of them
//! draws, and on which rows each begins.
#![tactic(auto)]

pub use commit_message_view::CommitMessageView;
pub use commit_view::{CommitView, CommitViewMode};
pub use file_view::FileView;
pub use file_view_header::FileViewHeader;
pub use row_place::RowPlace;
pub use section_line_view::{SectionLineView, SectionLineViewInner};
pub use section_view::{SectionSelection, SectionView};

mod commit_message_view;
pub mod commit_view;
mod file_view;
mod file_view_header;
mod heading;
pub mod index_pieces;
pub mod key_rows;
mod no_files;
pub mod row_place;
mod section_line_view;
pub mod section_pieces;
mod section_rows;
mod section_view;
mod section_walk;
pub mod texts;
mod title;
mod widths;
