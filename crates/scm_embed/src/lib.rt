//! States that a program makes by calls, addition by addition, and the marks of their items.
#![tactic(auto)]

mod add;
mod add_line;
pub mod addition;
pub mod builder;
pub mod laws;
mod lines;
mod lists;
mod marked;
pub mod marks;
mod refusals;
mod short_lines;
mod trim;

pub use addition::{Addition, BuildError, Part};
pub use builder::StateBuilder;
pub use lines::has_short_lines;
pub use marked::{has_items, mark_file};
