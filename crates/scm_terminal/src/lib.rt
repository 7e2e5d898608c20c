//! The edge to a terminal. A `Decoder` turns the bytes that a terminal sends into events. A
//! `Painter` makes the bytes that show a grid in colours. Neither opens a terminal.
#![tactic(auto)]

pub use decoder::{Decoder, EventPair};
pub use numbered_style::NumberedStyle;
pub use painter::Painter;
pub use style::Styles;

mod byte_keys;
mod bytes;
mod cell_text;
mod characters;
pub mod decoder;
pub mod laws;
mod letter_run;
mod mouse;
mod numbered_style;
mod painter;
mod pen;
mod row;
mod sent;
mod sequences;
mod style;
mod styled_cell;
mod tokenizer;
mod tokens;
mod transitions;
