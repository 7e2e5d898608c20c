//! What lies over the document: dialogs with their buttons, menus, and the menu bar.
#![tactic(auto)]

pub use dialog::Dialog;
pub use help_dialog::HelpDialog;
pub use menu::{Menu, MenuItem};
pub use menu_bar::MenuBar;
pub use quit_dialog::QuitDialog;

mod button_row;
mod dialog;
pub mod help_dialog;
mod menu;
pub mod menu_bar;
pub mod quit_dialog;
