//! How a layer looks: its session and a status row on a terminal, sideways, with syntax in colours, words set off
//! and a range underlined, in a theme.
//!
//! A [`View`] is a [`Front`](scm_front::Front) on a terminal. A [`FrontPainter`] makes the bytes that show
//! it.
#![tactic(auto)]

mod blanks;
mod columns;
mod cut;
pub mod headers;
pub mod headings;
pub mod labels;
pub mod laws;
mod line_end;
mod line_words;
mod painter;
mod pair_words;
mod pairs;
pub mod pane;
mod range;
mod restyling;
mod runs;
mod screen_text;
mod section_labels;
mod shown;
mod shown_label;
mod source;
mod status;
mod status_painter;
pub mod syntax;
mod syntax_lines;
mod syntax_rows;
pub mod themes;
pub mod view;
mod view_cells;
mod words;

pub use labels::Label;
pub use painter::FrontPainter;
pub use pane::{Heard, Pane, heard_as};
pub use screen_text::{status_row, view_text};
pub use syntax::{Syntax, SyntaxSpan, syntax_style};
pub use themes::{Theme, themed};
pub use view::{View, ViewEditing, ViewTurn};
