//! The view state of a session, the views that draw it, and the style of each place.
//!
//! The view state is a [`ViewState`]: all that the screen depends on, except its size and the scroll.
//! It makes the [`AppView`](scm_view::AppView) that draws it. A session lends its own. A program can
//! make one from a state.
#![tactic(auto)]

mod all_folds;
mod commit_views;
mod file_views;
mod folds;
pub mod items;
pub mod layout_laws;
mod layouts;
mod line_keys;
pub mod marks;
pub mod menus;
mod section_views;
mod styles;
pub mod view_state;

pub use items::ItemKind;
pub use view_state::ViewState;
