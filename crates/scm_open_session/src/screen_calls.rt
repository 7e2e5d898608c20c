//! The screen of a session as symbols and as a text, with the status row of a layer.
ghost use Rattle.std.specs.Prelude.{◌≡◌, ◌==◌, [], IfSome, option_map, string_bytes, true, unwrap_or};
ghost use Rattle.scm_cells.specs.Symbols.{symbol_in};
ghost use Rattle.scm_front_paint.specs.Below.{rows_shown};
ghost use Rattle.scm_front_paint.specs.StatusRow.{status_row, symbol_of_view};
ghost use Rattle.scm_open_session.specs.Boxes.{box_value};
ghost use Rattle.scm_open_session.specs.Results.{WritesOrFails, WritesSymbol, is_status_row, is_status_row_at, is_status_row_of, symbol_of_running, symbol_of_session, symbol_of_stage, text_of_running};

use crate::open_session::{OpenSession, Session, Stage};
use crate::painters::Painters;
use crate::running::Running;
use scm_c_values::buffers::write_text;
use scm_front_paint::{View, status_row, view_text};
use std::alloc::Global;

/// Returns the text of the screen of `session`, with the status row that `painters` show. Returns `None` if an
/// allocation failed.
pub(crate) fn running_text(alloc: Global, session: &Running, painters: &Painters) -> Option<String>
    ensures { IfSome result (λ text.
        string_bytes text ≡ text_of_running session.now painters.now) }
{
    match session {
        Running::Plain(session) => session.grid().view().ok(),
        Running::Layered(view) => view_text(alloc, view, painters.accept.as_str()).ok(),
    }
}

/// Writes `symbol`, or the empty text, to `out`, clipped to its length. Returns the whole length, in bytes.
fn write_symbol(symbol: Option<&str>, out: &mut [u8]) -> usize
    ensures { WritesSymbol (unwrap_or (option_map (λ s. s.now) symbol.entry) [])
        out.old out.new result }
{
    match symbol {
        Some(symbol) => write_text(symbol.as_bytes(), out),
        None => write_text(&[], out),
    }
}

/// Writes to `out` the symbol that begins at `column` of the status row of `view`, which says by `accept` what
/// accepting does, clipped to the length of `out`. Returns the whole length, in bytes, and 0 if an
/// allocation failed.
fn write_status_symbol(
    alloc: Global,
    view: &View<'_>,
    accept: &str,
    column: usize,
    out: &mut [u8],
) -> usize
    ensures { WritesOrFails true
        (unwrap_or (symbol_in (status_row view.now accept.now) column) []) out.old out.new result }
{
    match status_row(alloc, view, accept) {
        Ok(grid) => write_symbol(grid.symbol(0, column), out),
        Err(_) => write_symbol(None, out),
    }
}

/// Writes to `out` the symbol that begins at `row`, `column` of the terminal of `view`, as
/// [`write_status_symbol`] does on the status row.
fn write_view_symbol(
    alloc: Global,
    view: &View<'_>,
    accept: &str,
    row: u16,
    column: u16,
    out: &mut [u8],
) -> usize
    ensures { WritesOrFails (row == rows_shown view.now.front.beneath)
        (symbol_of_view view.now accept.now row column) out.old out.new result }
{
    let grid = view.front().beneath().grid();
    if row as usize == grid.height() {
        return write_status_symbol(alloc, view, accept, column as usize, out);
    }
    let before = view.offset() as usize;
    write_symbol(grid.symbol(row as usize, before + column as usize), out)
}

/// Writes to `out` the symbol that begins at `row`, `column` of the screen that `painters` show of `session`.
/// Returns the whole length, in bytes, and 0 on the status row if an allocation failed.
fn write_running_symbol(
    alloc: Global,
    session: &Running,
    painters: &Painters,
    row: u16,
    column: u16,
    out: &mut [u8],
) -> usize
    ensures { WritesOrFails (is_status_row_of session.now row)
        (symbol_of_running session.now painters.now row column) out.old out.new result }
{
    match session {
        Running::Plain(session) => {
            write_symbol(session.grid().symbol(row as usize, column as usize), out)
        }
        Running::Layered(view) => {
            let accept = painters.accept.as_str();
            write_view_symbol(alloc, view, accept, row, column, out)
        }
    }
}

/// Writes to `out` the symbol that begins at `row`, `column` of the screen at `stage`, and the empty text if it
/// waits for no event, as [`write_running_symbol`] does.
fn write_stage_symbol(
    alloc: Global,
    stage: &Stage,
    painters: &Painters,
    row: u16,
    column: u16,
    out: &mut [u8],
) -> usize
    ensures { WritesOrFails (is_status_row_at stage.now row)
        (symbol_of_stage stage.now painters.now row column) out.old out.new result }
{
    match stage {
        Stage::Waiting(session) => {
            write_running_symbol(alloc, session, painters, row, column, out)
        }
        Stage::Building(_) | Stage::Editing(_) | Stage::Accepted(_) | Stage::Ended(_) => {
            write_symbol(None, out)
        }
    }
}

impl OpenSession {
    /// Writes to `out` the symbol that begins at `row`, `column` of the screen, and the empty text if the
    /// session waits for no event, as [`write_running_symbol`] does.
    fn write_symbol(&self, alloc: Global, row: u16, column: u16, out: &mut [u8]) -> usize
        ensures { WritesOrFails (is_status_row_at self.now.stage row)
            (symbol_of_stage self.now.stage self.now.painter row column)
            out.old out.new result }
    {
        write_stage_symbol(alloc, &self.stage, &self.painter, row, column, out)
    }
}

/// Writes to `out` the symbol that begins at `row` and `column` of the screen, both counted from 0, clipped to
/// the length of `out`. Returns the whole length, in bytes, and 0 on a layer's status row if an allocation
/// failed.
pub fn symbol(alloc: Global, session: &Session, row: u16, column: u16, out: &mut [u8]) -> usize
    ensures { WritesOrFails (is_status_row (box_value session.now) row)
        (symbol_of_session (box_value session.now) row column) out.old out.new result }
{
    match session {
        Some(inner) => inner.write_symbol(alloc, row, column, out),
        None => write_symbol(None, out),
    }
}
