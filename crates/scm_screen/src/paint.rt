//! The painting of a document: its rows on a screen, and what lies over them.
ghost use Rattle.std.specs.Prelude.{◌≡◌, ℕ, [], ◌+◌, ◌-◌, ◌<◌, ◌≤◌, ◌^◌, ◌==◌, ◌++◌, true, drop, length, option_map, slice_index_or, slice_set, take, if◌then◌else◌, None, OnOk, IfErr, IsTrue};
ghost use Rattle.scm_errors.specs.declared.error.RecordError.TheVariants.{OutOfMemory};
ghost use Rattle.scm_layout.specs.Layouts.{layout_of};
ghost use Rattle.scm_render.specs.Canvas.{Row};
ghost use Rattle.scm_strips.specs.Painted.{IsSized};
ghost use Rattle.scm_strips.specs.ShownRows.{row_of};
ghost use Rattle.scm_types.specs.Limits.{is_accepted_state, max_scroll};
ghost use Rattle.scm_view.specs.Window.{inline_document};
ghost use Rattle.scm_screen.specs.DocumentRows.{AreFew, each_row, painted_rows, row_over, row_shown, with_shown, words_row};

use crate::document_rows::{document_row, pinned_header};
use scm_cells::Grid;
use scm_layout::Layout;
use scm_render::centred_gap;
use scm_strips::{Area, Shown, paint_row};
use scm_types::RecordError;
use scm_view_state::ViewState;
use std::alloc::Global;

/// Paints `what`, if there is anything, over row `row` of `grid`.
fn paint_some(
    alloc: Global,
    grid: &mut Grid,
    row: usize,
    area: Area,
    what: &Option<Shown<'_>>,
) -> Result<(), RecordError>
    requires row { row < length grid.old.rows }
    requires area { area.left + area.width ≤ grid.old.width }
    ensures ok { OnOk result (grid.new.rows ≡ slice_set grid.old.rows row
        (with_shown area (option_map row_of what.now) (slice_index_or grid.old.rows row []))) }
    ensures few { OnOk result (AreFew 1 grid.old.counts grid.new.counts) }
    ensures size { IsSized grid.old grid.new }
    ensures err { IfErr result (λ e. e ≡ OutOfMemory) }
{
    match what {
        None => Ok(()),
        Some(what) => paint_row(alloc, grid, row, area, what),
    }
}

/// Paints `what`, if there is anything, over row `row` of the document, if the screen shows it. The first row of the
/// screen shows row `scroll`.
fn paint_over(
    alloc: Global,
    grid: &mut Grid,
    area: Area,
    scroll: usize,
    row: usize,
    what: &Option<Shown<'_>>,
) -> Result<(), RecordError>
    requires area { area.left + area.width ≤ grid.old.width }
    ensures ok { OnOk result (grid.new.rows ≡ each_row (λ (z : ℕ) (line : Row). with_shown area
        (if z == row then option_map row_of what.now else None) line) scroll grid.old.rows) }
    ensures few { OnOk result (AreFew 1 grid.old.counts grid.new.counts) }
    ensures size { IsSized grid.old grid.new }
    ensures err { IfErr result (λ e. e ≡ OutOfMemory) }
{
    let height = grid.height();
    match row.checked_sub(scroll) {
        None => Ok(()),
        Some(at) => {
            if at < height {
                paint_some(alloc, grid, at, area, what)
            } else {
                Ok(())
            }
        }
    }
}

/// Paints what each row of the document shows, without what lies over it. Leaves the rows of `grid` before row
/// `first` as they are.
#[tactic(auto, using(scm_types::proofs::LimitLemmas::scroll_room))]
pub(crate) fn paint_shown(
    alloc: Global,
    grid: &mut Grid,
    area: Area,
    shown: &ViewState<'_>,
    layout: &Layout,
    scroll: usize,
    first: usize,
) -> Result<(), RecordError>
    requires area { area.left + area.width ≤ grid.old.width }
    requires accepted { IsTrue (is_accepted_state shown.now.state) }
    requires layout { layout.now ≡ layout_of shown.now.state shown.now.expanded }
    requires scroll { scroll ≤ max_scroll }
    requires first { first ≤ length grid.old.rows }
    ensures ok { OnOk result (grid.new.rows ≡ take first grid.old.rows
        ++ each_row (λ (z : ℕ) (line : Row). with_shown area
        (row_shown (inline_document shown.now) z) line) (scroll + first)
        (drop first grid.old.rows)) }
    ensures few { OnOk result
        (AreFew (length grid.old.rows - first) grid.old.counts grid.new.counts) }
    ensures size { IsSized grid.old grid.new }
    ensures err { IfErr result (λ e. e ≡ OutOfMemory) }
{
    let height = grid.height();
    for row in first..height {
        let what = document_row(&*shown, layout, scroll + row);
        paint_some(alloc, grid, row, area, &what)?;
    }
    Ok(())
}

/// Paints what lies over the document: the empty-state text if there are no files, else the pinned header.
#[tactic(auto, using(scm_types::proofs::LimitLemmas::scroll_room))]
pub(crate) fn paint_top(
    alloc: Global,
    grid: &mut Grid,
    area: Area,
    shown: &ViewState<'_>,
    layout: &Layout,
    scroll: usize,
) -> Result<(), RecordError>
    requires area { area.left + area.width ≤ grid.old.width }
    requires accepted { IsTrue (is_accepted_state shown.now.state) }
    requires layout { layout.now ≡ layout_of shown.now.state shown.now.expanded }
    requires scroll { scroll ≤ max_scroll }
    ensures ok { OnOk result (grid.new.rows ≡ each_row (λ (z : ℕ) (line : Row). with_shown area
        (row_over (length grid.old.rows) scroll (inline_document shown.now) z) line)
        scroll grid.old.rows) }
    ensures few { OnOk result (AreFew 1 grid.old.counts grid.new.counts) }
    ensures size { IsSized grid.old grid.new }
    ensures err { IfErr result (λ e. e ≡ OutOfMemory) }
{
    if shown.state.files.as_slice().is_empty() {
        let row = 1 + centred_gap(grid.height().saturating_sub(1), 1, 50);
        paint_over(alloc, grid, area, scroll, row, &Some(Shown::Words))
    } else {
        let header = pinned_header(&*shown, layout, scroll + 1);
        paint_over(alloc, grid, area, scroll, scroll + 1, &header)
    }
}

/// Paints the document of the first commit in the columns of `area` over all rows of `grid`, the first of which
/// shows row `scroll` of the document: its rows, and over them the pinned header, or the empty-state text. Row 0 is
/// the menu bar's, and the document begins on row 1. `layout` is that of the state and its unfolded keys.
///
/// Counts at most one row more than `grid` has, and four draw calls for each.
///
/// # Errors
/// `OutOfMemory`: an allocation failed; the grid keeps its size.
pub fn paint_document(
    alloc: Global,
    grid: &mut Grid,
    area: Area,
    shown: &ViewState<'_>,
    layout: &Layout,
    scroll: usize,
) -> Result<(), RecordError>
    requires area { area.left + area.width ≤ grid.old.width }
    requires accepted { IsTrue (is_accepted_state shown.now.state) }
    requires layout { layout.now ≡ layout_of shown.now.state shown.now.expanded }
    requires scroll { scroll ≤ max_scroll }
    ensures ok { OnOk result (grid.new.rows
        ≡ painted_rows area scroll (inline_document shown.now) grid.old.rows) }
    ensures few { OnOk result
        (AreFew (length grid.old.rows + 1) grid.old.counts grid.new.counts) }
    ensures size { IsSized grid.old grid.new }
    ensures err { IfErr result (λ e. e ≡ OutOfMemory) }
{
    paint_shown(alloc, grid, area, shown, layout, scroll, 0)?;
    paint_top(alloc, grid, area, shown, layout, scroll)
}
