//! Laws of two commits beside each other: their window, which is defined by rows and columns, is what the components
//! draw, and what runs show.
#![tactic(auto)]

pub mod laws;
pub mod runs;
