//! The painter: turns a grid and its styles into the bytes that show them on a terminal.
ghost use Rattle.std.specs.Prelude.{◌≡◌, ◌↔◌, ◌<◌, ◌^◌, ◌++◌, [], ℕ, IsTrue, IfOk, IfErr, OnOk, OnErr, true, false, length, map, slice_index_or, string_bytes};
ghost use Rattle.std.specs.List.{All, flat_map, list_any};
ghost use Rattle.scm_errors.specs.declared.error.RecordError.TheVariants.{OutOfMemory};
ghost use Rattle.scm_terminal.specs.Painting.{AreUpdates, IsUpdate, paint_commands, painting};
ghost use Rattle.scm_terminal.specs.StyledCell.{AreSameBefore, HasSize, picture, styled_row};
ghost use Rattle.scm_terminal.specs.RowView.{line_of, sent_line_of};
ghost use Rattle.scm_terminal.specs.PainterView.{cells_of_row};
ghost use Rattle.scm_terminal.specs.Promise.{Paints};
ghost use Rattle.scm_terminal.specs.Terminal.{bytes_of};

use crate::numbered_style::NumberedStyle;
use crate::row::Row;
use crate::style::Styles;
use scm_cells::Grid;
use scm_errors::RecordError;
use std::alloc::{AllocError, Global};
use std::marker::Model;
use std::mem::replace;

/// A painter of grids on one terminal. It keeps the last picture, and writes only the rows that
/// differ from it.
///
/// The first `paint` writes all rows. After another program wrote to the terminal, `forget` makes
/// the next `paint` write all rows again.
#[derive(Drop)]
pub struct Painter {
    /// The allocator of the rows and of the text.
    alloc: Global,

    /// The rows of the last picture, or none if what the terminal shows is unknown.
    rows: Vec<Row>,

    /// The rows of a picture that was forgotten, whose memory the next picture takes.
    spare: Vec<Row>,
}

impl Model for Painter {
    ghost use Rattle.std.specs.Prelude.{List};
    ghost use Rattle.scm_terminal.specs.StyledCell.{StyledCell};

    ghost Value = { List (List StyledCell) };

    ghost use Rattle.scm_terminal.specs.PainterView.{last_picture};

    ghost view = { last_picture };
}

/// Returns whether each row has `width` columns.
fn are_wide(rows: &[Row], width: usize) -> bool
    ensures { IsTrue result ↔ All (λ row. length row.cells.items ≡ width) rows.now }
{
    rows.iter().all(|row| row.cells.len() == width)
}

/// Returns whether there are `height` rows, each of `width` columns.
fn has_size(rows: &[Row], width: usize, height: usize) -> bool
    ensures { IsTrue result ↔ HasSize width height (map cells_of_row rows.now) }
{
    let is_width = are_wide(rows, width);
    let is_height = rows.len() == height;
    // `&`: one branch for the prover
    is_width & is_height
}

/// Makes `height` rows, each of `width` columns.
fn new_rows(alloc: Global, width: usize, height: usize) -> Result<Vec<Row>, AllocError>
    ensures { IfOk result (λ rows. HasSize width height (map cells_of_row rows.items)) }
{
    let mut rows = Vec::with_capacity(alloc, height)?;
    for _ in 0..height {
        rows.push(Row::new(alloc, width)?)?;
    }
    Ok(rows)
}

/// Returns `height` rows, each of `width` columns: those of `spare` if they have this size, and
/// otherwise new ones.
fn rows_of_size(
    alloc: Global,
    spare: Vec<Row>,
    width: usize,
    height: usize,
) -> Result<Vec<Row>, AllocError>
    ensures { IfOk result (λ rows. HasSize width height (map cells_of_row rows.items)) }
{
    if has_size(spare.as_slice(), width, height) {
        Ok(spare)
    } else {
        new_rows(alloc, width, height)
    }
}

impl Painter {
    /// Makes a painter without a last picture: what the terminal shows is unknown.
    pub fn new(alloc: Global) -> Painter
        ensures { result ≡ [] }
    {
        Painter {
            alloc,
            rows: Vec::new(alloc),
            spare: Vec::new(alloc),
        }
    }

    /// Forgets the last picture, so that the next `paint` writes all rows. Keeps its memory.
    pub fn forget(&mut self)
        ensures { self.new ≡ [] }
    {
        self.spare = replace(&mut self.rows, Vec::new(self.alloc));
    }

    /// Returns the bytes that make a terminal of the size of `grid` show it in `styles`. They write
    /// the rows that differ from the last picture. If that had another size, they write all rows.
    ///
    /// # Errors
    /// `OutOfMemory`: an allocation failed; the painter forgets the last picture.
    pub fn paint<S: Styles>(&mut self, grid: &Grid, styles: &S) -> Result<String, RecordError>
        ensures ok { let next = picture (S.styled styles.now) grid.now in
            IfOk result (λ text. Paints grid.now.width self.old next (string_bytes text)) }
        ensures painted { OnOk result (self.new ≡ picture (S.styled styles.now) grid.now) }
        ensures forgotten { OnErr result (self.new ≡ []) }
        ensures err { IfErr result (λ e. e ≡ OutOfMemory) }
    {
        self.paint_from(grid, styles, 0)
    }

    /// Paints as [`Painter::paint`] does, if the rows of `grid` before row `first` are as in the last
    /// picture. It reads these rows only if the last picture had another size.
    ///
    /// # Errors
    /// `OutOfMemory`: an allocation failed; the painter forgets the last picture.
    pub fn paint_from<S: Styles>(
        &mut self,
        grid: &Grid,
        styles: &S,
        first: usize,
    ) -> Result<String, RecordError>
        requires { AreSameBefore first grid.now.width self.old
            (picture (S.styled styles.now) grid.now) }
        ensures ok { let next = picture (S.styled styles.now) grid.now in
            IfOk result (λ text. Paints grid.now.width self.old next (string_bytes text)) }
        ensures painted { OnOk result (self.new ≡ picture (S.styled styles.now) grid.now) }
        ensures forgotten { OnErr result (self.new ≡ []) }
        ensures err { IfErr result (λ e. e ≡ OutOfMemory) }
    {
        match self.update_and_push(grid, styles, first) {
            Ok(text) => Ok(text),
            Err(_) => {
                self.rows.clear();
                Err(RecordError::OutOfMemory)
            }
        }
    }

    /// Updates the rows to `grid` in `styles`, and returns the bytes of the rows that changed.
    fn update_and_push<S: Styles>(
        &mut self,
        grid: &Grid,
        styles: &S,
        first: usize,
    ) -> Result<String, AllocError>
        requires { AreSameBefore first grid.now.width self.old
            (picture (S.styled styles.now) grid.now) }
        ensures ok { let next = picture (S.styled styles.now) grid.now in
            IfOk result (λ text. Paints grid.now.width self.old next (string_bytes text)) }
        ensures painted { OnOk result (self.new ≡ picture (S.styled styles.now) grid.now) }
    {
        let is_all = self.prepare(grid.width(), grid.height())?;
        let mut room = vec![in self.alloc; NumberedStyle::plain(); grid.width()]?;
        update_rows(
            self.rows.as_mut_slice(),
            grid,
            styles,
            room.as_mut_slice(),
            is_all,
            first,
        )?;
        let mut text = String::new(self.alloc);
        push_paint(&mut text, self.rows.as_slice())?;
        Ok(text)
    }

    /// If the rows have another size, replaces them by `height` rows of `width` columns. Returns
    /// whether it did.
    fn prepare(&mut self, width: usize, height: usize) -> Result<bool, AllocError>
        ensures size { OnOk result (HasSize width height self.new) }
        ensures all { IfOk result (λ is_all. is_all ≡ false → self.new ≡ self.old) }
        ensures sized { IfOk result (λ is_all. is_all ≡ false ↔ HasSize width height self.old) }
    {
        if has_size(self.rows.as_slice(), width, height) {
            return Ok(false);
        }
        let spare = replace(&mut self.spare, Vec::new(self.alloc));
        self.rows = rows_of_size(self.alloc, spare, width, height)?;
        Ok(true)
    }
}

/// Updates `shown` to row `row` of `grid` in `styles`, and marks it as changed if it differs, or if
/// `is_all`. If it `is_same`, its cells are not read. The styles are asked for at once, in `room`.
fn update_row<S: Styles>(
    shown: &mut Row,
    grid: &Grid,
    styles: &S,
    room: &mut [NumberedStyle],
    row: usize,
    is_all: bool,
    is_same: bool,
) -> Result<(), AllocError>
    requires cells { length shown.old.cells.items ≡ grid.now.width }
    requires room { length room.old ≡ grid.now.width }
    requires all { IsTrue is_same → is_all ≡ false }
    requires same { IsTrue is_same → shown.old.cells.items
        ≡ styled_row (S.styled styles.now) grid.now row }
    ensures cells { OnOk result
        (shown.new.cells.items ≡ styled_row (S.styled styles.now) grid.now row) }
    ensures changed { OnOk result (IsUpdate is_all shown.old.cells.items (line_of shown.new)) }
    ensures room { length room.new ≡ grid.now.width }
{
    if is_same {
        shown.is_changed = false;
        return Ok(());
    }
    styles.row_styles(row, room);
    shown.update(grid, room, row, is_all)
}

/// Updates `rows` to `grid` in `styles`. Marks a row as changed if it differs, or if `is_all`. Rows
/// before row `first` are the same, and are not read unless `is_all`.
fn update_rows<S: Styles>(
    rows: &mut [Row],
    grid: &Grid,
    styles: &S,
    room: &mut [NumberedStyle],
    is_all: bool,
    first: usize,
) -> Result<(), AllocError>
    requires rows { HasSize grid.now.width (length grid.now.rows) (map cells_of_row rows.old) }
    requires room { length room.old ≡ grid.now.width }
    requires same { is_all ≡ false → AreSameBefore first grid.now.width (map cells_of_row rows.old)
        (picture (S.styled styles.now) grid.now) }
    ensures cells { OnOk result
        (map cells_of_row rows.new ≡ picture (S.styled styles.now) grid.now) }
    ensures changed { OnOk result
        (AreUpdates is_all (map cells_of_row rows.old) (map line_of rows.new)) }
{
    let mut row = 0;
    for shown in rows.iter_mut() {
        let is_same = !is_all & (row < first);
        update_row(shown, grid, styles, room, row, is_all, is_same)?;
        row += 1;
    }
    Ok(())
}

/// Returns whether any of the rows is marked as changed.
fn are_changed(rows: &[Row]) -> bool
    ensures { result ≡ list_any (λ row. row.is_changed) rows.now }
{
    rows.iter().any(|row| row.is_changed)
}

/// Appends the bytes of a paint to `text`: those of the changed rows, if there are any, while no
/// symbol wraps.
#[tactic(auto, unfolding(crate::specs::Painting::paint_commands, crate::specs::Terminal::bytes_of))]
fn push_paint(text: &mut String, rows: &[Row]) -> Result<(), AllocError>
    requires rows { length rows.now < 2 ^ 16 }
    requires columns { All (λ row. length row.cells.items < 2 ^ 16) rows.now }
    ensures { let commands = paint_commands (map sent_line_of rows.now) in
        OnOk result (string_bytes text.new ≡ string_bytes text.old ++ flat_map bytes_of commands) }
{
    if are_changed(rows) {
        text.push_str("\x1b[?7l")?;
        push_rows(text, rows)?;
        text.push_str("\x1b[?7h")?;
    }
    Ok(())
}

/// Appends the bytes of the changed rows to `text`.
fn push_rows(text: &mut String, rows: &[Row]) -> Result<(), AllocError>
    requires rows { length rows.now < 2 ^ 16 }
    requires columns { All (λ row. length row.cells.items < 2 ^ 16) rows.now }
    ensures { let commands = painting 0 (map sent_line_of rows.now) in
        OnOk result (string_bytes text.new ≡ string_bytes text.old ++ flat_map bytes_of commands) }
{
    for (index, row) in rows.iter().enumerate() {
        row.push(text, index)?;
    }
    Ok(())
}
