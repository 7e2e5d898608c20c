//! Cells in a caller's buffers.
ghost use Rattle.std.specs.Prelude.{◌≡◌, length, string_bytes};
ghost use Rattle.scm_shown_cells.specs.Cells.{cells_over};

use crate::cell::Cell;
use crate::cell_list::CellList;

/// The cells of a screen, and its size.
#[derive(Drop)]
pub struct ShownScreen {
    /// The cells, row by row.
    pub list: CellList,
    /// The number of columns.
    pub columns: usize,
    /// The number of rows.
    pub rows: usize,
}

/// What there is to tell of a screen.
#[repr(C)]
#[derive(Clone, Copy)]
pub struct ScreenInfo {
    /// The number of columns.
    pub columns: usize,
    /// The number of rows.
    pub rows: usize,
    /// The number of bytes of the text of its symbols.
    pub len: usize,
}

impl ShownScreen {
    /// Returns what there is to tell of the screen.
    pub fn info(&self) -> ScreenInfo
        ensures columns { result.columns ≡ self.now.columns }
        ensures rows { result.rows ≡ self.now.rows }
        ensures len { result.len ≡ length (string_bytes self.now.list.text) }
    {
        ScreenInfo {
            columns: self.columns,
            rows: self.rows,
            len: self.list.text.len(),
        }
    }
}

/// Writes `cells` to `out`, clipped to its length.
pub fn write_cells(cells: &[Cell], out: &mut [Cell])
    ensures { out.new ≡ cells_over cells.now out.old }
{
    let fits = cells.len().min(out.len());
    out[..fits].copy_from_slice(&cells[..fits]);
}
