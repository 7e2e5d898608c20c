//! The keys of a state, the moves of the selection, and the toggles of marks.
//!
//! Lists of keys are in the order of the screen. A [`KeySet`] has the unfolded files and sections.
#![tactic(auto)]

pub mod counts;
mod key_flags;
pub mod key_kinds;
pub mod key_lists;
pub mod key_set;
pub mod moves;
pub mod toggles;

pub use key_set::KeySet;
