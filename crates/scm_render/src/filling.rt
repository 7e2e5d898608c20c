//! Fillings of rectangles: spaces, or the border of a frame.
ghost use Rattle.std.specs.Prelude.{◌≡◌, pos, ◌+ℤ◌, OnOk, string_bytes};
ghost use Rattle.scm_cells.specs.Rect.{InRange, RectInRange};
ghost use Rattle.scm_render.specs.Drawing.{edge_symbol, border_symbol, symbol_at, row_text, FillingIsInRange};

use scm_cells::Rect;
use std::alloc::AllocError;

/// The characters that fill a rectangle.
#[derive(Clone, Copy)]
pub(crate) enum Filling {
    /// Spaces.
    Blank,
    /// The border of a frame with this rectangle, and spaces inside.
    Border(Rect),
}

/// Returns the symbol of column `x` in a row of a frame: `first`, `last`, or `between`.
fn edge_symbol(rect: Rect, x: isize, first: char, between: char, last: char) -> char
    requires { RectInRange rect }
    ensures { result ≡ edge_symbol rect x first between last }
{
    if x == rect.x {
        first
    } else if x == rect.end_x() - 1 {
        last
    } else {
        between
    }
}

/// Returns the symbol of a cell of a frame: a corner, an edge, or a space inside.
fn border_symbol(rect: Rect, x: isize, y: isize) -> char
    requires { RectInRange rect }
    ensures { result ≡ border_symbol rect x y }
{
    if y == rect.y {
        edge_symbol(rect, x, '┌', '─', '┐')
    } else if y == rect.end_y() - 1 {
        edge_symbol(rect, x, '└', '─', '┘')
    } else {
        edge_symbol(rect, x, '│', ' ', '│')
    }
}

impl Filling {
    /// Returns the character of the cell in column `x` of row `y`.
    #[tactic(auto, unfolding(crate::specs::Drawing::symbol_at))]
    fn symbol(self, x: isize, y: isize) -> char
        requires { FillingIsInRange self }
        ensures { result ≡ symbol_at self x y }
    {
        match self {
            Filling::Blank => ' ',
            Filling::Border(rect) => border_symbol(rect, x, y),
        }
    }

    /// Replaces `text` by the characters of `width` cells from column `x` of row `y`.
    pub(crate) fn write_row(
        self,
        text: &mut String,
        x: isize,
        y: isize,
        width: usize,
    ) -> Result<(), AllocError>
        requires filling { FillingIsInRange self }
        requires x { InRange x }
        requires end { InRange (x +ℤ pos width) }
        ensures { OnOk result (string_bytes text.new ≡ row_text self x y width) }
    {
        text.clear();
        for offset in 0..width {
            text.push(self.symbol(x.strict_add_unsigned(offset), y))?;
        }
        Ok(())
    }
}
