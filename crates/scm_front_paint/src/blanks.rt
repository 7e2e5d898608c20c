//! Blanks: the bytes that make a row blank, and grids whose rows are blank but for the last.
ghost use Rattle.std.specs.Prelude.{◌≡◌, ◌+◌, ◌<◌, ◌^◌, ◌++◌, IfErr, IfOk, IfSome, IsTrue, OnOk, replicate, string_bytes};
ghost use Rattle.std.specs.List.{flat_map};
ghost use Rattle.scm_errors.specs.declared.error.RecordError.TheVariants.{OutOfMemory};
ghost use Rattle.scm_cells.specs.Screen.{blank_screen};
ghost use Rattle.scm_terminal.specs.Terminal.{bytes_of};
ghost use Rattle.scm_front_paint.specs.Blank.{HasPlaces, IsBlankGrid, begin_row, blanking};

use scm_cells::Grid;
use scm_errors::RecordError;
use std::alloc::{AllocError, Global};

/// Appends the bytes that move the cursor to the beginning of row `row` and set the plain style, if the row
/// has columns: `width` of them. `row` is counted from 0.
#[tactic(auto, unfolding(scm_terminal::specs::Terminal::bytes_of, scm_terminal::specs::Style::style_bytes))]
fn push_begin(text: &mut String, width: usize, row: usize) -> Result<(), AllocError>
    requires { row < 2 ^ 16 }
    ensures { OnOk result (string_bytes text.new
        ≡ string_bytes text.old ++ flat_map bytes_of (begin_row width row)) }
{
    if width == 0 {
        return Ok(());
    }
    let row = row + 1;
    let column = 1;
    write!(text, "\x1b[{row};{column}H\x1b[0m")?;
    Ok(())
}

/// Appends `count` spaces.
fn push_spaces(text: &mut String, count: usize) -> Result<(), AllocError>
    ensures { OnOk result (string_bytes text.new ≡ string_bytes text.old ++ replicate count 32) }
{
    'spaces: for _ in 0..count {
        text.push_str(" ")?;
    }
    Ok(())
}

/// Returns the bytes that make row `row` of a terminal of `width` columns blank. `row` is counted from 0.
pub(crate) fn blanking(alloc: Global, width: usize, row: usize) -> Result<String, RecordError>
    requires { row < 2 ^ 16 }
    ensures ok { IfOk result (λ text. string_bytes text ≡ flat_map bytes_of (blanking width row)) }
    ensures err { IfErr result (λ e. e ≡ OutOfMemory) }
{
    let mut text = String::new(alloc);
    text.push_str("\x1b[?7l")?;
    push_begin(&mut text, width, row)?;
    push_spaces(&mut text, width)?;
    text.push_str("\x1b[?7h")?;
    Ok(text)
}

/// Returns whether `grid` has `width` columns and `height` rows.
fn has_size(grid: &Grid, width: u16, height: u16) -> bool
    ensures { IsTrue result → HasPlaces width height grid.now }
{
    let is_width = grid.width() == width as usize;
    let is_height = grid.height() == height as usize;
    // `&`: one branch for the prover
    is_width & is_height
}

/// Returns a grid of blanks of `width` columns, with `height` rows and one below them. It is `kept`, if that
/// has this size.
///
/// # Errors
///
/// - `OutOfMemory`: an allocation failed.
pub(crate) fn blank_grid(
    alloc: Global,
    kept: Option<Grid>,
    width: u16,
    height: u16,
) -> Result<Grid, RecordError>
    requires height { height < 65535 }
    requires kept { IfSome kept IsBlankGrid }
    ensures ok { IfOk result (λ grid. grid ≡ blank_screen width (height + 1)) }
    ensures err { IfErr result (λ e. e ≡ OutOfMemory) }
{
    if let Some(grid) = kept {
        if has_size(&grid, width, height + 1) {
            return Ok(with_blank_row(grid, width as usize, height as usize));
        }
    }
    Grid::new(alloc, width, height + 1)
}

/// Returns `grid` with blanks on its last row, which is row `row`. It has `width` columns.
fn with_blank_row(grid: Grid, width: usize, row: usize) -> Grid
    requires size { HasPlaces width (row + 1) grid }
    requires blank { IsBlankGrid grid }
    ensures { result ≡ blank_screen width (row + 1) }
{
    let mut grid = grid;
    grid.put_blank(row, 0, width, 0, width);
    grid
}
