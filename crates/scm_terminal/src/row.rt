//! One row of a painter's last picture, and the bytes that write it.
ghost use Rattle.std.specs.Prelude.{◌≡◌, ℕ, ◌↔◌, ◌<◌, ◌≤◌, ◌^◌, ◌++◌, [], IsTrue, IfOk, IfSome, OnOk, true, false, length, slice_index_or, string_bytes};
ghost use Rattle.std.specs.List.{flat_map};
ghost use Rattle.scm_terminal.specs.Painting.{
  IsUpdate,
  cell_commands,
  line_commands,
  new_pen,
  pass_commands,
  passed,
  pen_after,
  sent_line,
};
ghost use Rattle.scm_terminal.specs.Sent.{blank_after, sent_cell, sent_row};
ghost use Rattle.scm_cells.specs.Symbols.{symbol_at, symbol_in, symbol_of};
ghost use Rattle.scm_terminal.specs.Letters.{IsLetterAt, ShowsByte};
ghost use Rattle.scm_terminal.specs.PassedOver.{IsPassedOver};
ghost use Rattle.scm_terminal.specs.Style.{plain_style};
ghost use Rattle.scm_terminal.specs.StyledCell.{Later, cell_of, row_in};
ghost use Rattle.scm_terminal.specs.RowView.{line_of};
ghost use Rattle.scm_terminal.specs.Terminal.{bytes_of};

use crate::letter_run::push_letters;
use crate::numbered_style::NumberedStyle;
use crate::pen::{Pass, Pen};
use crate::sent::Sent;
use crate::styled_cell::StyledCell;
use scm_cells::{Column, Grid};
use std::alloc::{AllocError, Global};

/// One row of a painter's last picture.
#[derive(Drop)]
pub(crate) struct Row {
    /// The columns of the row, from the left.
    pub(crate) cells: Vec<StyledCell>,

    /// Whether the next paint writes the row.
    pub(crate) is_changed: bool,
}

/// Returns the byte of the symbol at `index` of `columns`, if it is one printable character of ASCII.
fn letter_at(columns: &[Column], index: usize) -> Option<u8>
    ensures { IfSome result (λ b. IsLetterAt columns.now index b) }
{
    match columns.get(index) {
        Some(column) => column.ascii(),
        None => None,
    }
}

/// Returns whether `cell` shows the place of `grid` at `row` and `column` in `style`. `columns` are
/// those of the row.
fn is_place(
    cell: &StyledCell,
    grid: &Grid,
    columns: &[Column],
    row: usize,
    column: usize,
    style: NumberedStyle,
) -> bool
    requires { columns.now ≡ slice_index_or grid.now.rows row [] }
    ensures { IsTrue result ↔ (cell.now ≡ cell_of (symbol_at grid.now.rows row column) style) }
{
    match letter_at(columns, column) {
        Some(byte) => cell.is_letter(byte, style),
        None => cell.is_showing(grid.symbol(row, column), style),
    }
}

/// Sets `cell` to the place of `grid` at `row` and `column` in `style`. `columns` are those of the
/// row.
fn show_place(
    cell: &mut StyledCell,
    grid: &Grid,
    columns: &[Column],
    row: usize,
    column: usize,
    style: NumberedStyle,
) -> Result<(), AllocError>
    requires { columns.now ≡ slice_index_or grid.now.rows row [] }
    ensures { OnOk result (cell.new ≡ cell_of (symbol_at grid.now.rows row column) style) }
{
    match letter_at(columns, column) {
        Some(byte) => {
            cell.show_letter(byte, style);
            Ok(())
        }
        None => cell.show(grid.symbol(row, column), style),
    }
}

/// Returns whether `cell` is known to show the symbol of `column` in `style`, without a look at its
/// text.
fn is_same_letter(cell: &StyledCell, column: &Column, style: NumberedStyle) -> bool
    ensures { IsTrue result → cell.now ≡ cell_of (symbol_of column.now) style }
{
    match column.ascii() {
        Some(byte) => cell.is_same_byte(byte, style),
        None => false,
    }
}

/// Returns the first column from `from` on where `cells` are not known to show `columns` in `styles`
/// without a look at their texts, or the number of columns if there is none.
fn end_of_letters(
    cells: &[StyledCell],
    columns: &[Column],
    styles: &[NumberedStyle],
    from: usize,
) -> usize
    requires styles { length styles.now ≡ length cells.now }
    requires from { from ≤ length cells.now }
    ensures low { from ≤ result }
    ensures high { result ≤ length cells.now }
    ensures shown { (k : ℕ) → from ≤ k → k < result → slice_index_or cells.now k Later
        ≡ cell_of (symbol_in columns.now k) (slice_index_or styles.now k plain_style) }
{
    let end = cells.len().min(columns.len());
    let mut column = from;
    'letters: while column < end {
        if !is_same_letter(&cells[column], &columns[column], styles[column]) {
            return column;
        }
        column += 1;
    }
    column
}

/// Returns whether `cells` show row `row` of `grid` in `styles`, one for each column.
fn is_showing(cells: &[StyledCell], grid: &Grid, styles: &[NumberedStyle], row: usize) -> bool
    requires cells { length cells.now ≡ grid.now.width }
    requires styles { length styles.now ≡ grid.now.width }
    ensures { IsTrue result ↔ (cells.now ≡ row_in styles.now grid.now row) }
{
    let columns = grid.columns(row);
    let mut column = end_of_letters(cells, columns, styles, 0);
    'places: while column < cells.len() {
        if !is_place(&cells[column], grid, columns, row, column, styles[column]) {
            return false;
        }
        column = end_of_letters(cells, columns, styles, column + 1);
    }
    true
}

/// Sets `cells` to row `row` of `grid` in `styles`, one for each column.
fn show(
    cells: &mut [StyledCell],
    grid: &Grid,
    styles: &[NumberedStyle],
    row: usize,
) -> Result<(), AllocError>
    requires cells { length cells.old ≡ grid.now.width }
    requires styles { length styles.now ≡ grid.now.width }
    ensures { OnOk result (cells.new ≡ row_in styles.now grid.now row) }
{
    let columns = grid.columns(row);
    let mut column = 0;
    for cell in cells.iter_mut() {
        show_place(cell, grid, columns, row, column, styles[column])?;
        column += 1;
    }
    Ok(())
}

/// What is known after a cell was written.
#[derive(Clone, Copy)]
struct Written {
    /// The pen.
    pen: Pen,

    /// The style of the blanks at the later columns that follow, if their symbol is replaced.
    blank: Option<NumberedStyle>,
}

/// Appends the bytes that write what `pass` puts of `cell`, which is at `row` and `column` of a row of
/// `width` columns, both counted from 0. `pen` and `blank` are known from the cell before it.
fn push_place(
    text: &mut String,
    row: usize,
    column: usize,
    width: usize,
    cell: &StyledCell,
    pass: Pass,
    pen: Pen,
    blank: Option<NumberedStyle>,
) -> Result<Written, AllocError>
    requires row { row < 2 ^ 16 }
    requires column { column < 2 ^ 16 }
    requires width { column ≤ width }
    ensures pen { IfOk result (λ after. after.pen ≡ pen_after pen
        (passed pass pen.is_there (sent_cell width column blank cell.now))) }
    ensures blank { IfOk result
        (λ after. after.blank ≡ blank_after width column blank cell.now) }
    ensures bytes { let put = passed pass pen.is_there
        (sent_cell width column blank cell.now) in
        let commands = cell_commands row column pen put 0 in OnOk result
        (string_bytes text.new ≡ string_bytes text.old ++ flat_map bytes_of commands) }
{
    if let Some(byte) = cell.letter() {
        let pen = pen.push_byte(text, row, column, byte, cell.style(), pass)?;
        return Ok(Written { pen, blank: None });
    }
    let sent = Sent::new(cell, blank, column, width);
    let blank = sent.blank;
    let pen = pen.push_cell(text, row, column, sent, pass)?;
    Ok(Written { pen, blank })
}

/// Returns the first column from `from` on whose cell is not known to show a symbol of one byte, or the
/// number of columns if there is none.
fn end_of_bytes(cells: &[StyledCell], from: usize) -> usize
    requires from { from ≤ length cells.now }
    ensures low { from ≤ result }
    ensures high { result ≤ length cells.now }
    ensures bytes { (k : ℕ) → from ≤ k → k < result → ShowsByte (slice_index_or cells.now k Later) }
{
    let mut column = from;
    'bytes: while column < cells.len() {
        if !cells[column].is_byte() {
            return column;
        }
        column += 1;
    }
    column
}

/// Returns the first column from `from` on where `pass` may put something, or the number of columns if
/// there is none.
fn end_of_passed(cells: &[StyledCell], from: usize, pass: Pass) -> usize
    requires from { from ≤ length cells.now }
    ensures low { from ≤ result }
    ensures high { result ≤ length cells.now }
    ensures passed { (k : ℕ) → from ≤ k → k < result
        → IsPassedOver pass (slice_index_or cells.now k Later) }
{
    match pass {
        Pass::Blanks => end_of_bytes(cells, from),
        Pass::Symbols => end_of_bytes(cells, from),
        Pass::Letters => from,
    }
}

/// Appends the bytes that write what `pass` puts of `cells`, the cells of row `row`. `row` is
/// counted from 0.
fn push_pass(
    text: &mut String,
    row: usize,
    cells: &[StyledCell],
    pass: Pass,
) -> Result<(), AllocError>
    requires row { row < 2 ^ 16 }
    requires columns { length cells.now < 2 ^ 16 }
    ensures { let commands = pass_commands pass row 0 new_pen (sent_row cells.now) in OnOk result
        (string_bytes text.new ≡ string_bytes text.old ++ flat_map bytes_of commands) }
{
    let mut pen = Pen::new();
    let mut blank = None;
    let mut column = 0;
    'places: while column < cells.len() {
        let end = end_of_passed(cells, column, pass);
        if column < end {
            pen = pen.past();
            blank = None;
            column = end;
        } else {
            let end = push_letters(text, cells, column, &pen, pass)?;
            if column < end {
                blank = None;
                column = end;
            } else {
                let cell = &cells[column];
                let after = push_place(text, row, column, cells.len(), cell, pass, pen, blank)?;
                pen = after.pen;
                blank = after.blank;
                column += 1;
            }
        }
    }
    Ok(())
}

impl Row {
    /// Makes a row of `width` columns, marked as changed.
    pub(crate) fn new(alloc: Global, width: usize) -> Result<Row, AllocError>
        ensures { IfOk result (λ row. length row.cells.items ≡ width) }
    {
        let mut cells = Vec::with_capacity(alloc, width)?;
        for _ in 0..width {
            cells.push(StyledCell::new(alloc))?;
        }
        Ok(Row {
            cells,
            is_changed: true,
        })
    }

    /// Updates the row to row `row` of `grid` in `styles`, one for each column. Marks it as changed
    /// if it differs, or if `is_all`.
    pub(crate) fn update(
        &mut self,
        grid: &Grid,
        styles: &[NumberedStyle],
        row: usize,
        is_all: bool,
    ) -> Result<(), AllocError>
        requires cells { length self.old.cells.items ≡ grid.now.width }
        requires styles { length styles.now ≡ grid.now.width }
        ensures cells { OnOk result (self.new.cells.items ≡ row_in styles.now grid.now row) }
        ensures changed { OnOk result (IsUpdate is_all self.old.cells.items (line_of self.new)) }
    {
        let is_same = is_showing(self.cells.as_slice(), grid, styles, row);
        if is_same {
            self.is_changed = is_all;
            return Ok(());
        }
        self.is_changed = true;
        show(self.cells.as_mut_slice(), grid, styles, row)?;
        Ok(())
    }

    /// If the row is marked as changed, appends the bytes that write it to `text`. `row` is its
    /// index, counted from 0.
    #[tactic(auto, unfolding(crate::specs::Painting::row_commands))]
    pub(crate) fn push(&self, text: &mut String, row: usize) -> Result<(), AllocError>
        requires row { row < 2 ^ 16 }
        requires columns { length self.now.cells.items < 2 ^ 16 }
        ensures { let commands = line_commands row (sent_line (line_of self.now)) in OnOk result
            (string_bytes text.new ≡ string_bytes text.old ++ flat_map bytes_of commands) }
    {
        if !self.is_changed {
            return Ok(());
        }
        push_pass(text, row, self.cells.as_slice(), Pass::Blanks)?;
        push_pass(text, row, self.cells.as_slice(), Pass::Symbols)?;
        push_pass(text, row, self.cells.as_slice(), Pass::Letters)?;
        Ok(())
    }
}
