//! What a terminal shows of a session's screen: its symbols, with labels over its rows.
ghost use Rattle.std.specs.Prelude.{◌≡◌, None, option_map, slice_index_or};
ghost use Rattle.scm_cells.specs.Screen.{IsScreen};
ghost use Rattle.scm_front_paint.specs.Labels.{has_title, is_title, symbol_under};
ghost use Rattle.scm_front_paint.specs.Source.{symbols_in};
ghost use Rattle.scm_front_paint.specs.Symbols.{symbols_of};

use crate::shown_label::ShownLabel;
use scm_cells::Grid;

/// A screen, and the labels over its rows.
#[derive(Clone, Copy)]
pub(crate) struct Source<'a> {
    /// The screen.
    pub(crate) grid: &'a Grid,
    /// For each row the row of its label, if it has one. None has one behind the end of the list.
    pub(crate) labels: &'a [Option<ShownLabel>],
}

/// Returns whether `column` is one of a section's title, which ends before column `end`.
fn is_title(end: usize, column: usize) -> bool
    ensures { result ≡ is_title end column }
{
    6 <= column && column < end
}

/// Returns whether a symbol of row `row` of `grid` begins where the title of a section begins, and one at
/// column `end`, if there is such a column.
pub(crate) fn has_title(grid: &Grid, row: usize, end: usize) -> bool
    ensures { result ≡ has_title (symbols_of grid.now) row end }
{
    let is_last = grid.width() <= end;
    let has_first = grid.symbol(row, 6).is_some();
    let has_next = grid.symbol(row, end).is_some();
    // `&` and `|`: one branch for the prover
    has_first & (is_last | has_next)
}

/// Returns the row of the label on row `row`, if there is one.
fn label_at(labels: &[Option<ShownLabel>], row: usize) -> Option<&Grid>
    ensures { option_map (λ g. g.now) result ≡ slice_index_or labels.now row None }
{
    match labels.get(row) {
        Some(Some(label)) => Some(label.grid()),
        Some(None) | None => None,
    }
}

impl<'a> Source<'a> {
    /// Returns the number of columns.
    pub(crate) fn width(&self) -> usize
        ensures value { result ≡ (symbols_in self.now).width }
        ensures sizes { IsScreen self.now.grid.now }
    {
        self.grid.width()
    }

    /// Returns the number of rows.
    pub(crate) fn height(&self) -> usize
        ensures value { result ≡ (symbols_in self.now).height }
        ensures sizes { IsScreen self.now.grid.now }
    {
        self.grid.height()
    }

    /// Returns the row of the label on row `row`, if there is one.
    pub(crate) fn label(&self, row: usize) -> Option<&'a Grid>
        ensures { option_map (λ g. g.now) result ≡ slice_index_or self.now.labels.now row None }
    {
        label_at(self.labels, row)
    }

    /// Returns the symbol that begins at `row` and `column`, if one does.
    pub(crate) fn symbol(&self, row: usize, column: usize) -> Option<&'a str>
        ensures { option_map (λ s. s.now) result ≡ (symbols_in self.now).at row column }
    {
        match self.label(row) {
            Some(label) if is_title(label.width(), column) => label.symbol(0, column),
            Some(_) | None => self.grid.symbol(row, column),
        }
    }
}
