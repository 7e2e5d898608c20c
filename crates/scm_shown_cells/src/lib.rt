//! The cells of a screen as records: for each place its symbol, its columns and its style. So a host draws a
//! screen by its own means.
#![tactic(auto)]

mod cell;
mod cell_list;
mod room;

pub use cell::Cell;
pub use cell_list::CellList;
pub use room::{ScreenInfo, ShownScreen, write_cells};
