//! From tree to tree: which paths name a file, which files a choice adds, changes, removes and must leave out, and what
//! becomes of each path. Both the paths and the answer are records of bytes, too, as C has them.
#![tactic(auto)]

// paths
mod bytes;
mod folding;
pub mod names;
mod path;

// trees
pub mod check;
pub mod laws;
mod refuse;
mod result;
pub mod row;
pub mod scan;

// decisions
mod adding;
mod decision;
mod find;
mod gather;
mod order;
mod place;
mod rename;
mod rows;

// records
mod answer;
mod asked;
pub mod faults;
mod record;

pub use answer::decide_records;
pub use check::{RowFault, check_rows};
pub use decision::{DecideError, Decision, Moved, Outcome, decide, decision_is_as_promised};
pub use faults::path_fault_number;
pub use find::row_number;
pub use names::{PathFault, path_fault};
pub use path::{is_before, is_inside};
pub use place::{Entry, Mark, Wish};
pub use refuse::refusals;
pub use result::result_at;
pub use row::{Row, Version};
pub use rows::{GatherError, rows_of};
pub use scan::{Clash, Refusal};
