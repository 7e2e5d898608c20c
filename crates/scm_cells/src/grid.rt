//! A grid of cells, the content of a screen.
ghost use Rattle.std.specs.Prelude.{◌≡◌, ℕ, pos, Some, ◌+◌, ◌<◌, ◌≤◌, IsTrue, IfOk, IfErr, IfNone, IfSome, OnOk, OnErr, length, option_map, replicate, slice_index_or, [], string_bytes};
ghost use Rattle.unicode_segmentation.specs.Iter.{graphemes_left};
ghost use Rattle.scm_cells.specs.Cluster.{is_printable};
ghost use Rattle.scm_cells.specs.Clusters.{text_width, visible_clusters};
ghost use Rattle.scm_cells.specs.FrameText.{frame_width};
ghost use Rattle.scm_cells.specs.Laying.{columns_of};
ghost use Rattle.scm_cells.specs.Counts.{one_row, one_call};
ghost use Rattle.scm_cells.specs.Screen.{IsScreen, blank_screen, after_count, put_on, view_of};
ghost use Rattle.scm_cells.specs.Symbols.{symbol_at};
ghost use Rattle.scm_errors.specs.declared.error.RecordError.TheVariants.{OutOfMemory};

use crate::column::Column;
use crate::frame_text::frame_width;
use crate::grid_row::GridRow;
use crate::printable::is_printable;
use crate::row;
use crate::text::NextCluster;
use scm_errors::RecordError;
use std::alloc::{AllocError, Global};
use std::marker::Model;
use unicode_segmentation::Graphemes;

/// Rows of symbols; rows and columns are counted from 0. Each row consists of whole symbols, whose
/// widths sum to the width of the grid. The grid also counts rows of a document and draw calls, for
/// whoever draws into it.
#[derive(Drop)]
pub struct Grid {
    alloc: Global,

    /// The number of columns of each row.
    width: usize,

    /// The rows, from the top.
    rows: Vec<GridRow>,

    /// The columns on which a text is laid before a row takes them, as many as a row has.
    laid: Vec<Column>,

    /// The number of rows of a document that were drawn.
    rows_drawn: usize,

    /// The number of draw calls.
    calls: usize,
}

impl Model for Grid {
    ghost use Rattle.scm_cells.specs.Screen.{Screen};
    ghost use Rattle.scm_cells.specs.GridView.{screen_of, HasRows};

    ghost Value = { Screen };

    ghost view = { screen_of };

    ghost invariant = { HasRows };
}

impl Grid {
    /// Returns a grid of `width` columns and `height` rows, with a space in each column.
    ///
    /// # Errors
    /// `OutOfMemory`: an allocation failed.
    pub fn new(alloc: Global, width: u16, height: u16) -> Result<Grid, RecordError>
        ensures ok { IfOk result (λ grid. grid ≡ blank_screen width height) }
        ensures err { IfErr result (λ e. e ≡ OutOfMemory) }
    {
        let width = width as usize;
        let height = height as usize;
        let laid = row::blank_row(alloc, width)?;
        let mut rows = Vec::with_capacity(alloc, height)?;
        'rows: for _ in 0..height {
            rows.push(GridRow::new(alloc, width)?)?;
        }
        Ok(Grid {
            alloc,
            width,
            rows,
            laid,
            rows_drawn: 0,
            calls: 0,
        })
    }

    /// Returns the number of columns of each row of the grid.
    pub fn width(&self) -> usize
        ensures value { result ≡ self.now.width }
        ensures sizes { IsScreen self.now }
    {
        self.width
    }

    /// Returns the number of rows of the grid.
    pub fn height(&self) -> usize
        ensures value { result ≡ length self.now.rows }
        ensures sizes { IsScreen self.now }
    {
        self.rows.len()
    }

    /// Returns the number of rows of a document that were counted since `new` or the last `clear`.
    pub fn rows_drawn(&self) -> usize
        ensures { result ≡ self.now.counts.rows }
    {
        self.rows_drawn
    }

    /// Returns the number of draw calls that were counted since `new` or the last `clear`.
    pub fn calls(&self) -> usize
        ensures { result ≡ self.now.counts.calls }
    {
        self.calls
    }

    /// Adds 1 to the number of document rows that the grid counts, saturating.
    #[tactic(auto, unfolding(crate::specs::Counts::added, crate::specs::Counts::saturating_plus))]
    pub fn add_row(&mut self)
        ensures { self.new ≡ after_count self.old one_row }
    {
        self.rows_drawn = self.rows_drawn.saturating_add(1);
    }

    /// Adds 1 to the number of draw calls that the grid counts, saturating.
    #[tactic(auto, unfolding(crate::specs::Counts::added, crate::specs::Counts::saturating_plus))]
    pub fn add_call(&mut self)
        ensures { self.new ≡ after_count self.old one_call }
    {
        self.calls = self.calls.saturating_add(1);
    }

    /// Makes each column of the grid a space, and its counts of rows and of draw calls 0. Keeps the
    /// memory of the symbols.
    pub fn clear(&mut self)
        ensures { self.new ≡ blank_screen self.old.width (length self.old.rows) }
    {
        self.rows_drawn = 0;
        self.calls = 0;
        'rows: for cells in self.rows.iter_mut() {
            cells.clear();
        }
    }

    /// Puts `text` on row `row`, its clusters side by side from `column`, which may be negative.
    /// Clips them to the columns `low..high`. A cluster that crosses `low` becomes spaces. The text
    /// ends before the first cluster that would cross `high`. If a symbol is covered in part, its
    /// other columns become spaces.
    ///
    /// # Errors
    /// `OutOfMemory`: an allocation failed; the grid is unchanged.
    pub fn put(
        &mut self,
        row: usize,
        column: isize,
        text: &str,
        low: usize,
        high: usize,
    ) -> Result<(), RecordError>
        requires row { row < length self.old.rows }
        requires high { high ≤ self.old.width }
        ensures ok { OnOk result (self.new ≡ put_on self.old row column text.now low high) }
        ensures unchanged { OnErr result (self.new ≡ self.old) }
        ensures err { IfErr result (λ e. e ≡ OutOfMemory) }
    {
        if self.put_in_place(row, column, text, low, high).is_some() {
            return Ok(());
        }
        self.put_text(row, column, text, low, high)?;
        Ok(())
    }

    /// Puts `text` on row `row` from `column` on, clipped to the columns `low..high`, as
    /// [`Grid::put`] does. Returns the width of the whole text in columns, with its clipped parts.
    ///
    /// # Errors
    /// `OutOfMemory`: an allocation failed; the grid is unchanged.
    pub fn put_measured(
        &mut self,
        row: usize,
        column: isize,
        text: &str,
        low: usize,
        high: usize,
    ) -> Result<usize, RecordError>
        requires row { row < length self.old.rows }
        requires high { high ≤ self.old.width }
        ensures ok { OnOk result (self.new ≡ put_on self.old row column text.now low high) }
        ensures columns { IfOk result (λ n. n ≡ text_width text.now) }
        ensures unchanged { OnErr result (self.new ≡ self.old) }
        ensures err { IfErr result (λ e. e ≡ OutOfMemory) }
    {
        if let Some(width) = self.put_in_place(row, column, text, low, high) {
            return Ok(width);
        }
        let (rest, before) = self.put_text(row, column, text, low, high)?;
        Ok(before + rest.columns_left())
    }

    /// Puts `width` spaces on row `row` from `column` on, clipped to the columns `low..high`, as
    /// [`Grid::put`] of that many spaces does. It does not allocate.
    pub fn put_blank(&mut self, row: usize, column: isize, width: usize, low: usize, high: usize)
        requires row { row < length self.old.rows }
        requires high { high ≤ self.old.width }
        ensures { self.new ≡ put_on self.old row column (replicate width 32) low high }
    {
        let cells = &mut self.rows[row];
        cells.put_spaces(column, width, low, high);
    }

    /// Puts a text like `put`, if that needs no memory for symbols, and returns its width. That is so
    /// for printable ASCII, and for a frame text that begins at the column `low` or right of it.
    fn put_in_place(
        &mut self,
        row: usize,
        column: isize,
        text: &str,
        low: usize,
        high: usize,
    ) -> Option<usize>
        requires row { row < length self.old.rows }
        requires high { high ≤ self.old.width }
        ensures some { IfSome result (λ n. self.new ≡ put_on self.old row column text.now low high) }
        ensures columns { IfSome result (λ n. n ≡ text_width text.now) }
        ensures none { IfNone result (self.new ≡ self.old) }
    {
        if is_printable(text) {
            self.put_printable(row, column, text, low, high);
            return Some(text.len());
        }
        let from = row::column_from(column, low)?;
        let width = frame_width(text)?;
        self.put_frame_text(row, from, text, width, high);
        Some(width)
    }

    /// Puts a frame text of `width` characters like `put`, from the column `from` on.
    fn put_frame_text(&mut self, row: usize, from: usize, text: &str, width: usize, high: usize)
        requires frame { frame_width text.now ≡ Some width }
        requires row { row < length self.old.rows }
        requires high { high ≤ self.old.width }
        ensures { (low : ℕ) → low ≤ from
            → self.new ≡ put_on self.old row (pos from) text.now low high }
    {
        let cells = &mut self.rows[row];
        cells.put_frame_text(from, text, width, high);
    }

    /// Puts a text of printable ASCII like `put`. It does not allocate.
    fn put_printable(&mut self, row: usize, column: isize, text: &str, low: usize, high: usize)
        requires printable { IsTrue (is_printable text.now) }
        requires row { row < length self.old.rows }
        requires high { high ≤ self.old.width }
        ensures { self.new ≡ put_on self.old row column text.now low high }
    {
        let cells = &mut self.rows[row];
        cells.put_printable(column, text, low, high);
    }

    /// Puts a text like `put`. Returns its remaining clusters, and the width of the clusters before
    /// them.
    fn put_text<'a>(
        &mut self,
        row: usize,
        column: isize,
        text: &'a str,
        low: usize,
        high: usize,
    ) -> Result<(Graphemes<'a>, usize), AllocError>
        requires row { row < length self.old.rows }
        requires high { high ≤ self.old.width }
        ensures ok { OnOk result (self.new ≡ put_on self.old row column text.now low high) }
        ensures taken { IfOk result (λ r.
            text_width text.now ≡ r.1 + columns_of (visible_clusters (graphemes_left r.0))) }
        ensures unchanged { OnErr result (self.new ≡ self.old) }
    {
        let columns = &mut self.rows[row];
        let laid = self.laid.as_mut_slice();
        let rest = columns.put_text(laid, column, text, low, high)?;
        Ok(rest)
    }

    /// Returns the symbol that begins at `row` and `column`. Returns `None` at a later column of a
    /// wide symbol, and outside the grid.
    pub fn symbol(&self, row: usize, column: usize) -> Option<&str>
        ensures { option_map (λ s. s.now) result ≡ symbol_at self.now.rows row column }
    {
        let cells = self.rows.get(row)?;
        row::symbol_in(cells.columns(), column)
    }

    /// Returns the columns of row `row`. Returns none outside the grid.
    pub fn columns(&self, row: usize) -> &[Column]
        ensures { result.now ≡ slice_index_or self.now.rows row [] }
    {
        match self.rows.get(row) {
            Some(cells) => cells.columns(),
            None => &[],
        }
    }

    /// Returns the grid as text: for each row a quote, its symbols, a quote and a newline. The text
    /// of a grid without columns is empty.
    ///
    /// # Errors
    /// `OutOfMemory`: an allocation failed.
    pub fn view(&self) -> Result<String, RecordError>
        ensures ok { IfOk result (λ text. string_bytes text ≡ view_of self.now.rows) }
        ensures err { IfErr result (λ e. e ≡ OutOfMemory) }
    {
        let mut text = String::new(self.alloc);
        'rows: for cells in &self.rows {
            row::push_row(&mut text, cells.columns())?;
        }
        Ok(text)
    }
}
