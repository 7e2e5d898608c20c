//! A pager: a side of a file on a screen, line by line, and what keys do to it.
//!
//! A user looks at it before accepting: it shows what accepting now would give. It reads the file and changes
//! nothing.
#![tactic(auto)]

mod bytes;
mod counts;
mod draw;
mod keys;
pub mod laws;
mod lines;
mod pager;
mod places;
mod shown;
mod typed;

pub use bytes::{page, paint};
pub use lines::{SideLine, Window, window_of};
pub use pager::Pager;
pub use typed::hear;
