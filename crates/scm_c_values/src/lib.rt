//! What passes between a C program and a session: codes, words, texts, keys, sides and additions. The functions here take values,
//! slices and references, and no session of a C program; `scm_open_session` has that.
#![tactic(auto)]

pub mod additions;
pub mod batches;
pub mod buffers;
pub mod codes;
pub mod ends;
pub mod event_words;
pub mod front_keys;
pub mod inputs;
pub mod items;
pub mod json_state;
pub mod laws;
pub mod marks;
pub mod owners;
pub mod quoting;
pub mod screens;
pub mod sides;
pub mod states;
pub mod structure;
pub mod texts;
pub mod updates;
