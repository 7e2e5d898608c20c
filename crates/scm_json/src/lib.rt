//! The reader of states in JSON: [`read_state`] reads the form that serializing a state writes.
#![tactic(auto)]

mod from_json;
mod state_reader;

pub use state_reader::read_state;
