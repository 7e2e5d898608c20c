//! A session as a C program calls it: what it waits for, and what each call does to it. The functions here take values, slices
//! and references; the library for C, `scm_c`, has the pointers.
#![tactic(auto)]

pub mod calls;
pub mod cell_calls;
pub mod count_calls;
pub mod dialog_calls;
pub mod headings;
pub mod laws;
pub mod layer;
pub mod layer_calls;
pub mod layered;
pub mod line_calls;
pub mod line_place;
mod logging;
pub mod mark_calls;
pub mod open_session;
mod own_keys;
pub mod painters;
pub mod question_calls;
pub mod running;
pub mod screen_calls;
pub mod select_calls;
pub mod state_calls;
pub mod structure_calls;

pub use crate::open_session::{OpenSession, Session};
