//! The layout that a session keeps beside its state, so that a frame need not walk the whole document.
//!
//! [`StateCounts`] has what the views of a few files and sections need to know of all others: items,
//! checked items, lines of the old file and editable sections. It also has how much is marked in all. A
//! toggle mends it in place.
//! [`StateRows`] has the rows of each file and section. A fold mends it in place.
#![tactic(auto)]

pub mod file_counts;
pub mod file_rows;
mod marked;
pub mod row_search;
pub mod section_counts;
mod section_folds;
pub mod section_rows;
pub mod section_stack;
pub mod state_counts;
pub mod state_layout;
pub mod state_rows;

pub use file_counts::FileCounts;
pub use file_rows::FileRows;
pub use scm_rows::SectionShape;
pub use section_counts::SectionCounts;
pub use section_rows::SectionRows;
pub use section_stack::SectionStack;
pub use state_counts::StateCounts;
pub use state_layout::Layout;
pub use state_rows::StateRows;
