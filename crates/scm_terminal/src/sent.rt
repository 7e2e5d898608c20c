//! The symbols that are sent for those of a row. One that could leave its row at some terminal is
//! replaced.
ghost use Rattle.std.specs.Prelude.{◌≡◌, ◌≤◌, ◌==◌, ◌&&◌, nat_le, chars};
ghost use Rattle.scm_terminal.specs.Letters.{HasAscii};
ghost use Rattle.scm_terminal.specs.Sent.{
  char_columns,
  added_columns,
  is_joined,
  first_is_joined,
  continues,
  stays_on_row,
  sent_cell,
  blank_after,
  cell_sent,
};

use crate::cell_text::CellText;
use crate::numbered_style::NumberedStyle;
use crate::styled_cell::StyledCell;
use ucd_breaks::GraphemeClusterBreak;
use ucd_category::{GeneralCategory, GeneralCategoryGroup};
use unicode_width::UnicodeWidthChar;

/// Returns the columns of `character` by itself.
fn char_columns(character: char) -> usize
    ensures value { result ≡ char_columns character }
    ensures bound { result ≤ 3 }
{
    character.width().unwrap_or(0)
}

/// Returns whether the code points of `symbol` have room in `room` columns, side by side.
fn has_room(symbol: &str, room: usize) -> bool
    ensures { result ≡ nat_le (added_columns symbol.now) room }
{
    let mut left = room;
    for character in symbol.chars() {
        let columns = char_columns(character);
        if columns > left {
            return false;
        }
        left -= columns;
    }
    true
}

/// Returns whether a code point with this property continues the cluster before it.
fn continues(property: GraphemeClusterBreak) -> bool
    ensures { result ≡ continues property }
{
    match property {
        GraphemeClusterBreak::Extend
        | GraphemeClusterBreak::SpacingMark
        | GraphemeClusterBreak::Zwj => true,
        GraphemeClusterBreak::Control
        | GraphemeClusterBreak::Cr
        | GraphemeClusterBreak::L
        | GraphemeClusterBreak::Lf
        | GraphemeClusterBreak::Lv
        | GraphemeClusterBreak::Lvt
        | GraphemeClusterBreak::Prepend
        | GraphemeClusterBreak::RegionalIndicator
        | GraphemeClusterBreak::T
        | GraphemeClusterBreak::V
        | GraphemeClusterBreak::Other => false,
    }
}

/// Returns whether some terminals join `character` to the one before it: a mark, or a character
/// that continues a cluster.
#[tactic(auto, unfolding(crate::specs::Sent::is_joined))]
fn is_joined(character: char) -> bool
    ensures { result ≡ is_joined character }
{
    let is_mark = GeneralCategoryGroup::Mark.contains(GeneralCategory::for_char(character));
    is_mark || continues(GraphemeClusterBreak::for_char(character))
}

/// Returns whether some terminals join `symbol` to the symbol before it.
fn is_first_joined(symbol: &str) -> bool
    ensures { result ≡ first_is_joined (chars symbol.now) }
{
    match symbol.chars().next() {
        None => false,
        Some(character) => is_joined(character),
    }
}

/// Returns whether some terminals join `symbol` to the row above, if it is put at `column`.
fn joins_row_above(symbol: &str, column: usize) -> bool
    ensures { result ≡ ((column == 0) && first_is_joined (chars symbol.now)) }
{
    column == 0 && is_first_joined(symbol)
}

/// Returns whether each terminal keeps `symbol` on its row of `width` columns, if it is put at
/// `column`, counted from 0.
#[tactic(auto, unfolding(crate::specs::Sent::stays_on_row))]
fn stays_on_row(symbol: &str, column: usize, width: usize) -> bool
    requires { column ≤ width }
    ensures { result ≡ stays_on_row width column symbol.now }
{
    if symbol.len() == 1 {
        return true;
    }
    if joins_row_above(symbol, column) {
        return false;
    }
    let room = width - column;
    // a character has at most three columns, and at least one byte
    if symbol.len() <= room / 3 {
        return true;
    }
    has_room(symbol, room)
}

/// What is sent for a cell.
#[derive(Clone, Copy)]
pub(crate) struct Sent<'a> {
    /// The symbol that is put if it is one character of ASCII.
    pub(crate) letter: Option<u8>,

    /// Any other symbol that is put, or `None` at a later column of a symbol.
    pub(crate) symbol: Option<&'a str>,

    /// The style of the symbol.
    pub(crate) style: NumberedStyle,

    /// The style of the blanks at the later columns that follow, if their symbol is replaced.
    pub(crate) blank: Option<NumberedStyle>,
}

impl<'a> Sent<'a> {
    /// Returns what is sent for `cell`, which is at `column`, counted from 0, of a row of `width`
    /// columns. `blank` is that of the cell before it.
    pub(crate) fn new(
        cell: &'a StyledCell,
        blank: Option<NumberedStyle>,
        column: usize,
        width: usize,
    ) -> Sent<'a>
        requires { column ≤ width }
        ensures cell { cell_sent result ≡ sent_cell width column blank cell.now }
        ensures blank { result.blank ≡ blank_after width column blank cell.now }
        ensures ascii { HasAscii result.letter }
    {
        match cell.text() {
            CellText::Nothing => match blank {
                None => Sent {
                    letter: None,
                    symbol: None,
                    style: NumberedStyle::plain(),
                    blank: None,
                },
                Some(style) => Sent {
                    letter: Some(b' '),
                    symbol: None,
                    style,
                    blank: Some(style),
                },
            },
            CellText::Letter(byte) => Sent {
                letter: Some(byte),
                symbol: None,
                style: cell.style(),
                blank: None,
            },
            CellText::Symbol(symbol) => {
                let style = cell.style();
                if stays_on_row(symbol, column, width) {
                    return Sent {
                        letter: None,
                        symbol: Some(symbol),
                        style,
                        blank: None,
                    };
                }
                Sent {
                    letter: Some(b'?'),
                    symbol: None,
                    style,
                    blank: Some(style),
                }
            }
        }
    }
}
