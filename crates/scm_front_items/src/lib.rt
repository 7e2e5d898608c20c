//! What a layer over a session knows of a state alone: the items that a search finds, the lines of a
//! range, the marks that are to be set, and the marks that were.
//!
//! Nothing here changes a mark: the crate `scm_front` turns it into events of a session.
#![tactic(auto)]

pub mod history;
mod items;
pub mod laws;
mod occurs;
pub mod places;
pub mod plans;
pub mod ranges;
pub mod runs;
pub mod steps;
pub mod targets;

pub use history::History;
pub use items::{Way, is_towards, item_around, item_towards};
pub use places::Place;
pub use runs::{Marks, Run, Step};
pub use targets::{Deed, Target};
