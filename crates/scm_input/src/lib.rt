//! Events and the key table, inputs that follow a script, and the store of screens.
#![tactic(auto)]

pub mod events;
pub mod helpers;
pub mod inputs;
mod key_table;
pub mod screens;
pub mod script_input;
pub mod terminal;
mod testing_input;

pub use events::{Event, TestingScreenshot};
pub use inputs::{RecordInput, TerminalKind};
pub use screens::Screens;
pub use script_input::{ScriptEdit, ScriptInput, ScriptRead};
pub use terminal::{
    KeyCode, KeyEvent, KeyEventKind, KeyModifiers, MouseButton, MouseEvent, MouseEventKind,
    TerminalEvent,
};
pub use testing_input::TestingInput;
