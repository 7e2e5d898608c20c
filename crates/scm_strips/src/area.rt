//! The columns of a document on the screen.
ghost use Rattle.std.specs.Prelude.{◌≡◌, ◌<◌, ◌≤◌, ◌+◌, ◌^◌};

use scm_cells::Grid;

/// The columns of the screen in which a document is shown.
#[derive(Clone, Copy)]
pub struct Area {
    /// The first column of the screen, counted from 0.
    pub left: usize,
    /// The number of columns.
    pub width: usize,
}

/// Returns the column of `grid` behind `area`, which lies on it.
pub(crate) fn end_column(grid: &Grid, area: Area) -> usize
    requires { area.left + area.width ≤ grid.now.width }
    ensures value { result ≡ area.left + area.width }
    ensures narrow { result < 2 ^ 16 }
{
    // A grid has fewer than 2^16 columns.
    let width = grid.width();
    (area.left + area.width).min(width)
}
