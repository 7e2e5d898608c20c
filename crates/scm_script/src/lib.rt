//! Scripts: texts with a state of changes and the input of a user, which are read and run.
//!
//! [`play`] is the whole program over any reader and writer. [`play_with_hints`] also writes where and why it refuses an
//! input. `read_state`, of `scm_json`, reads a state's JSON form.
#![tactic(auto)]

mod commands;
mod error;
mod hints;
mod json_forms;
mod limits;
mod no_op_hints;
mod path_hint;
mod program;
mod report;
mod script;
mod words;

pub use program::{play, play_with_hints};
pub use report::accepted_text;
pub use scm_json::read_state;
pub use words::{Word, read_event, read_key, read_word};
