//! A row of the grid, which knows up to where something was put on it.
ghost use Rattle.std.specs.Prelude.{◌≡◌, ℕ, pos, Some, ◌+◌, ◌<◌, ◌≤◌, ◌^◌, IsTrue, IfOk, OnOk, OnErr, length, replicate};
ghost use Rattle.unicode_segmentation.specs.Iter.{graphemes_left};
ghost use Rattle.scm_cells.specs.Cell.{blank};
ghost use Rattle.scm_cells.specs.Cluster.{is_printable};
ghost use Rattle.scm_cells.specs.Clusters.{text_width, visible_clusters};
ghost use Rattle.scm_cells.specs.FrameText.{frame_width};
ghost use Rattle.scm_cells.specs.Laying.{columns_of};
ghost use Rattle.scm_cells.specs.Row.{IsWhole, put};

use crate::column::Column;
use crate::row;
use std::alloc::{AllocError, Global};
use std::marker::Model;
use unicode_segmentation::Graphemes;

/// A row of the grid.
#[derive(Drop)]
pub(crate) struct GridRow {
    /// The columns of the row.
    columns: Vec<Column>,

    /// A column from which on each is a space, so that `clear` passes over them.
    end: usize,
}

impl Model for GridRow {
    ghost use Rattle.std.specs.Prelude.{List};
    ghost use Rattle.scm_cells.specs.Cell.{Cell};
    ghost use Rattle.scm_cells.specs.Tail.{IsBlankFrom};

    ghost Value = { List Cell };

    ghost view = { λ r. r.columns.items };

    ghost invariant = { λ r. IsBlankFrom r.end r.columns.items };
}

impl GridRow {
    /// Returns a row of `width` spaces.
    pub(crate) fn new(alloc: Global, width: usize) -> Result<GridRow, AllocError>
        ensures { IfOk result (λ row. row ≡ replicate width blank) }
    {
        let columns = row::blank_row(alloc, width)?;
        Ok(GridRow { columns, end: 0 })
    }

    /// Returns the columns of the row.
    pub(crate) fn columns(&self) -> &[Column]
        ensures { result.now ≡ self.now }
    {
        self.columns.as_slice()
    }

    /// Makes each column a space.
    pub(crate) fn clear(&mut self)
        ensures { self.new ≡ replicate (length self.old) blank }
    {
        row::clear_front(self.columns.as_mut_slice(), self.end);
        self.end = 0;
    }

    /// Puts `width` spaces on the row, from `column` on.
    pub(crate) fn put_spaces(&mut self, column: isize, width: usize, low: usize, high: usize)
        requires high { high ≤ length self.old }
        requires whole { IsWhole self.old }
        ensures { self.new ≡ put self.old column (replicate width 32) low high }
    {
        row::put_spaces(self.columns.as_mut_slice(), column, width, low, high);
    }

    /// Puts a text of printable ASCII on the row.
    pub(crate) fn put_printable(&mut self, column: isize, text: &str, low: usize, high: usize)
        requires printable { IsTrue (is_printable text.now) }
        requires width { length self.old < 2 ^ 16 }
        requires high { high ≤ length self.old }
        requires whole { IsWhole self.old }
        ensures { self.new ≡ put self.old column text.now low high }
    {
        let columns = self.columns.as_mut_slice();
        let past = row::put_printable(columns, column, text, low, high);
        self.end = self.end.max(past);
    }

    /// Puts a frame text of `width` characters on the row, from the column `from` on.
    pub(crate) fn put_frame_text(&mut self, from: usize, text: &str, width: usize, high: usize)
        requires frame { frame_width text.now ≡ Some width }
        requires high { high ≤ length self.old }
        requires whole { IsWhole self.old }
        ensures { (low : ℕ) → low ≤ from → self.new ≡ put self.old (pos from) text.now low high }
    {
        let columns = self.columns.as_mut_slice();
        let past = row::put_frame_text(columns, from, text, width, high);
        self.end = self.end.max(past);
    }

    /// Puts a text on the row. Returns its remaining clusters, and the width of the clusters before
    /// them. Lays the text on the columns `laid` first.
    pub(crate) fn put_text<'a>(
        &mut self,
        laid: &mut [Column],
        column: isize,
        text: &'a str,
        low: usize,
        high: usize,
    ) -> Result<(Graphemes<'a>, usize), AllocError>
        requires width { length self.old < 2 ^ 16 }
        requires high { high ≤ length self.old }
        requires laid { length laid.old ≡ length self.old }
        requires whole { IsWhole self.old }
        ensures ok { OnOk result (self.new ≡ put self.old column text.now low high) }
        ensures err { OnErr result (self.new ≡ self.old) }
        ensures taken { IfOk result (λ r.
            text_width text.now ≡ r.1 + columns_of (visible_clusters (graphemes_left r.0))) }
    {
        let columns = self.columns.as_mut_slice();
        let rest = row::put_row(columns, laid, column, text, low, high)?;
        self.end = self.end.max(high);
        Ok(rest)
    }
}
