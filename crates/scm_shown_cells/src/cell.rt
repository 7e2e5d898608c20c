//! One place of a screen, as a C program reads it.
ghost use Rattle.std.specs.Prelude.{◌≡◌, ◌≤◌};
ghost use Rattle.scm_shown_cells.specs.Cells.{first_of, flag, flags_of, later_of, number_of_colour};

use scm_cells::{Colour, Style};

/// Number of a colour: the terminal's own.
pub const COLOUR_NONE: u32 = 0;
/// Number of a colour.
pub const BLACK: u32 = 1;
/// Number of a colour.
pub const RED: u32 = 2;
/// Number of a colour.
pub const GREEN: u32 = 3;
/// Number of a colour.
pub const YELLOW: u32 = 4;
/// Number of a colour.
pub const BLUE: u32 = 5;
/// Number of a colour.
pub const MAGENTA: u32 = 6;
/// Number of a colour.
pub const CYAN: u32 = 7;
/// Number of a colour.
pub const WHITE: u32 = 8;

/// Flag of a place: the symbol is bold.
pub const BOLD: u32 = 1;
/// Flag of a place: the symbol is dim.
pub const DIM: u32 = 2;
/// Flag of a place: the symbol is underlined.
pub const UNDERLINED: u32 = 4;
/// Flag of a place: the colours of the symbol and of its background are exchanged.
pub const REVERSED: u32 = 8;

/// One place of a screen. The bytes of its symbol are `start..start + len` of the text of the screen.
#[repr(C)]
#[derive(Clone, Copy)]
pub struct Cell {
    /// Where the symbol begins in the text, in bytes.
    pub start: usize,
    /// The number of bytes of the symbol that begins here. 0 if none does.
    pub len: usize,
    /// The number of columns of the symbol that begins here. 0 if none does.
    pub columns: usize,
    /// The colour of the symbol: `COLOUR_NONE` to `WHITE`.
    pub foreground: u32,
    /// The colour of the background, counted like `foreground`.
    pub background: u32,
    /// The sum of `BOLD`, `DIM`, `UNDERLINED` and `REVERSED`, of those that the symbol has.
    pub flags: u32,
}

/// Returns the number of `colour`: 0 for the terminal's own, and otherwise 1 to 8.
fn number_of_colour(colour: Option<Colour>) -> u32
    ensures { result ≡ number_of_colour colour }
{
    match colour {
        None => COLOUR_NONE,
        Some(Colour::Black) => BLACK,
        Some(Colour::Red) => RED,
        Some(Colour::Green) => GREEN,
        Some(Colour::Yellow) => YELLOW,
        Some(Colour::Blue) => BLUE,
        Some(Colour::Magenta) => MAGENTA,
        Some(Colour::Cyan) => CYAN,
        Some(Colour::White) => WHITE,
    }
}

/// Returns 1 if `is_on`, and otherwise 0.
fn flag(is_on: bool) -> u32
    ensures value { result ≡ flag is_on }
    ensures bound { result ≤ 1 }
{
    if is_on { 1 } else { 0 }
}

/// Returns the flags of `style`.
fn flags_of(style: Style) -> u32
    ensures { result ≡ flags_of style }
{
    BOLD * flag(style.bold)
        + DIM * flag(style.dim)
        + UNDERLINED * flag(style.underlined)
        + REVERSED * flag(style.reversed)
}

/// Returns the place where a symbol of `len` bytes and `columns` columns begins, in `style`.
pub(crate) fn first_cell(start: usize, len: usize, columns: usize, style: Style) -> Cell
    ensures { result ≡ first_of start len columns style }
{
    Cell {
        start,
        len,
        columns,
        foreground: number_of_colour(style.colour),
        background: COLOUR_NONE,
        flags: flags_of(style),
    }
}

/// Returns a place where no symbol begins, behind `start` bytes of the text.
pub(crate) fn later_cell(start: usize) -> Cell
    ensures { result ≡ later_of start }
{
    Cell {
        start,
        len: 0,
        columns: 0,
        foreground: COLOUR_NONE,
        background: COLOUR_NONE,
        flags: 0,
    }
}
