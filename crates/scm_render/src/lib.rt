//! Components that draw themselves on a part of a document, their pictures and their boxes.
#![tactic(auto)]

pub use centring::{centered_rect, centred_gap, centred_size};
pub use component::Component;
pub use target::{Clickable, find_target};
pub use trace::{DrawTrace, DrawnRect, DrawnRects};
pub use viewport::Viewport;

mod centring;
mod component;
mod drawing;
mod filling;
pub mod laws;
mod surface;
pub mod target;
mod trace;
mod viewport;
