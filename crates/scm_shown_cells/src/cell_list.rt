//! The cells of a screen, row by row.
ghost use Rattle.std.specs.Prelude.{◌≡◌, ◌-◌, ◌<◌, ◌≤◌, [], OnOk, length, option_map, string_bytes};
ghost use Rattle.scm_cells.specs.Symbols.{symbol_at};
ghost use Rattle.scm_terminal.specs.StyledCell.{cell_of, picture, row_in, styled_row};
ghost use Rattle.scm_shown_cells.specs.Cells.{Adds, AddsCell, AddsRows, laters_from};

use crate::cell::{Cell, first_cell, later_cell};
use scm_cells::{Grid, Style};
use scm_terminal::{NumberedStyle, Styles};
use std::alloc::{AllocError, Global};

/// Returns the number of columns of row `row` of `grid` from `column` on before the next symbol, or before
/// the end of the row.
fn laters_from(grid: &Grid, row: usize, column: usize) -> usize
    requires { column ≤ grid.now.width }
    ensures value { result ≡ laters_from (symbol_at grid.now.rows row) column (grid.now.width - column) }
    ensures few { result ≤ grid.now.width - column }
{
    let width = grid.width();
    for place in column..width {
        match grid.symbol(row, place) {
            None => {}
            Some(_symbol) => return place - column,
        }
    }
    width - column
}

/// The cells of a screen, row by row, and the text of their symbols.
#[derive(Drop)]
pub struct CellList {
    /// A record for each place.
    pub cells: Vec<Cell>,
    /// The symbols, one behind the other.
    pub text: String,
}

impl CellList {
    /// Makes a list without cells.
    pub fn new(alloc: Global) -> CellList
        ensures cells { result.cells.items ≡ [] }
        ensures text { string_bytes result.text ≡ [] }
    {
        CellList {
            cells: Vec::new(alloc),
            text: String::new(alloc),
        }
    }

    /// Appends the place where `symbol` begins in `style`, with `laters` later columns, or where none begins.
    fn push_cell(
        &mut self,
        symbol: Option<&str>,
        laters: usize,
        style: Style,
    ) -> Result<(), AllocError>
        requires { laters < 65536 }
        ensures { OnOk result (AddsCell
            (cell_of (option_map (λ s. s.now) symbol.entry) style) laters self.old self.new) }
    {
        let start = self.text.len();
        match symbol {
            None => self.cells.push(later_cell(start))?,
            Some(symbol) => {
                self.cells
                    .push(first_cell(start, symbol.len(), 1 + laters, style))?;
                self.text.push_str(symbol)?;
            }
        }
        Ok(())
    }

    /// Appends the places of row `row` of `grid` in `styles`, one for each column.
    fn push_places(
        &mut self,
        grid: &Grid,
        styles: &[NumberedStyle],
        row: usize,
    ) -> Result<(), AllocError>
        requires { length styles.now ≡ grid.now.width }
        ensures { OnOk result (Adds (row_in styles.now grid.now row) self.old self.new) }
    {
        let width = grid.width();
        for column in 0..width {
            let laters = laters_from(grid, row, column + 1);
            self.push_cell(grid.symbol(row, column), laters, styles[column].style())?;
        }
        Ok(())
    }

    /// Appends the cells of row `row` of `grid` in `styles`, which are asked for at once, in `room`.
    fn push_styled<S: Styles>(
        &mut self,
        grid: &Grid,
        styles: &S,
        room: &mut [NumberedStyle],
        row: usize,
    ) -> Result<(), AllocError>
        requires { length room.old ≡ grid.now.width }
        ensures { OnOk result
            (Adds (styled_row (S.styled styles.now) grid.now row) self.old self.new) }
    {
        styles.row_styles(row, room);
        self.push_places(grid, room, row)
    }

    /// Appends the cells of row `row` of `grid` in `styles`.
    pub fn push_row<S: Styles>(
        &mut self,
        alloc: Global,
        grid: &Grid,
        styles: &S,
        row: usize,
    ) -> Result<(), AllocError>
        ensures { OnOk result
            (Adds (styled_row (S.styled styles.now) grid.now row) self.old self.new) }
    {
        let mut room = vec![in alloc; NumberedStyle::new(Style::PLAIN); grid.width()]?;
        self.push_styled(grid, styles, room.as_mut_slice(), row)
    }

    /// Appends the cells of all rows of `grid` in `styles`.
    pub fn push_rows<S: Styles>(
        &mut self,
        alloc: Global,
        grid: &Grid,
        styles: &S,
    ) -> Result<(), AllocError>
        ensures { OnOk result
            (AddsRows (picture (S.styled styles.now) grid.now) self.old self.new) }
    {
        for row in 0..grid.height() {
            self.push_row(alloc, grid, styles, row)?;
        }
        Ok(())
    }
}
