//! A view as cells: what a paint shows of it, for a host that draws by its own means.
ghost use Rattle.std.specs.Prelude.{◌≡◌, ◌<◌, IfErr, IfOk, OnOk};
ghost use Rattle.scm_errors.specs.declared.error.RecordError.TheVariants.{OutOfMemory};
ghost use Rattle.scm_record.specs.Frames.{columns_of};
ghost use Rattle.scm_record.specs.Painted.{screen_of};
ghost use Rattle.scm_shown_cells.specs.Cells.{Adds, AddsRows};
ghost use Rattle.scm_front_paint.specs.Cut.{CutFails, IsCut};
ghost use Rattle.scm_front_paint.specs.Labels.{symbols_over};
ghost use Rattle.scm_front_paint.specs.ShownView.{style_in};
ghost use Rattle.scm_front_paint.specs.Sideways.{sideways_picture};
ghost use Rattle.scm_front_paint.specs.Source.{symbols_in};
ghost use Rattle.scm_front_paint.specs.ViewCells.{HasCells, status_cells};

use crate::cut::cut_of;
use crate::headers::label_rows;
use crate::painter::{FrontPainter, rows_of, width_of};
use crate::shown::{Moved, Shown};
use crate::shown_label::ShownLabel;
use crate::source::Source;
use crate::status::{LeftText, left_of, right_of, status_grid};
use crate::status_painter::StatusStyles;
use crate::view::View;
use crate::words::words_of;
use scm_record::{Grid, RecordError};
use scm_shown_cells::{CellList, ShownScreen};
use std::alloc::Global;

/// Appends the cells of `cut`, the columns of the session's screen with its labels from `x` on.
fn push_cut(
    alloc: Global,
    list: &mut CellList,
    shown: &Shown<'_, '_>,
    cut: &Grid,
    x: usize,
    _source: &Source<'_>,
) -> Result<(), RecordError>
    requires width { _source.now.grid.now.width ≡ columns_of shown.now.session.now.kind }
    requires rows { _source.now.grid.now.rows ≡ (screen_of shown.now.session.now).rows }
    requires cut { IsCut cut.now (symbols_in _source.now) x }
    ensures ok { OnOk result (AddsRows (sideways_picture x (style_in shown.now)
        (symbols_over _source.now.labels.now (screen_of shown.now.session.now)))
        list.old list.new) }
    ensures err { IfErr result (λ e. e ≡ OutOfMemory) }
{
    let moved = Moved { shown, x };
    list.push_rows(alloc, cut, &moved)?;
    Ok(())
}

/// Appends the cells of the columns of the session's screen from `x` on, with `labels` over its rows.
fn push_session(
    alloc: Global,
    list: &mut CellList,
    shown: &Shown<'_, '_>,
    labels: &[Option<ShownLabel>],
    x: usize,
) -> Result<(), RecordError>
    ensures ok { OnOk result (AddsRows (sideways_picture x (style_in shown.now)
        (symbols_over labels.now (screen_of shown.now.session.now)))
        list.old list.new) }
    ensures err { IfErr result (λ e. CutFails e) }
{
    let grid = shown.session.grid();
    let source = Source { grid, labels };
    let cut = cut_of(alloc, None, &source, x)?;
    push_cut(alloc, list, shown, &cut, x, &source)?;
    Ok(())
}

/// Appends the cells of the status row below `height` rows of `width` columns, with `left` and `right` on it.
fn push_status(
    alloc: Global,
    list: &mut CellList,
    width: u16,
    height: u16,
    left: &LeftText,
    right: &str,
) -> Result<(), RecordError>
    requires { height < 65535 }
    ensures ok { OnOk result
        (Adds (status_cells width height left.now right.now) list.old list.new) }
    ensures err { IfErr result (λ e. e ≡ OutOfMemory) }
{
    let grid = status_grid(alloc, None, width, height, left, right)?;
    let row = height as usize;
    let styles = StatusStyles { row };
    list.push_row(alloc, &grid, &styles, row)?;
    Ok(())
}

impl FrontPainter {
    /// Returns the cells of what [`FrontPainter::paint`] shows of `view`: its session from a column on, with
    /// the labels of sections, and below it the status row, which says by `accept` what accepting does.
    ///
    /// # Errors
    ///
    /// - `OutOfMemory`: an allocation failed.
    /// - `Bug`: a symbol of the screen is no cluster by itself. No text has such a symbol.
    pub fn cells(&self, view: &View<'_>, accept: &str) -> Result<ShownScreen, RecordError>
        ensures ok { IfOk result (λ screen. HasCells self.now view.now accept.now screen) }
        ensures err { IfErr result (λ e. CutFails e) }
    {
        let alloc = self.alloc;
        let _pane = view.pane();
        let session = view.front().beneath();
        let width = width_of(view);
        let height = rows_of(view);
        let left = left_of(alloc, view.front(), width as usize)?;
        let x = view.offset() as usize;
        let right = right_of(alloc, view.front(), width, &left, x, accept)?;
        let words = words_of(alloc, session, Vec::new(alloc))?;
        let labels = label_rows(alloc, &self.labels, session, Vec::new(alloc))?;
        let shown = Shown {
            session,
            words: words.as_slice(),
            syntax: &self.syntax,
            theme: self.theme,
            anchor: view.front().anchor(),
        };
        let mut list = CellList::new(alloc);
        push_session(alloc, &mut list, &shown, labels.as_slice(), x)?;
        push_status(alloc, &mut list, width, height, &left, right.as_str())?;
        Ok(ShownScreen {
            list,
            columns: width as usize,
            rows: height as usize + 1,
        })
    }
}
