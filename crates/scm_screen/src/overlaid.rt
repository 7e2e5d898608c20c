//! The painting of a window: a document, and over it the menu bar and the open dialogs.
ghost use Rattle.std.specs.Prelude.{◌≡◌, ◌+◌, ◌≤◌, is_some, if◌then◌else◌, length, OnOk, IfErr, IsTrue};
ghost use Rattle.scm_document.specs.declared.commit_view.CommitViewMode.TheVariants.{Inline};
ghost use Rattle.scm_errors.specs.declared.error.RecordError.TheVariants.{OutOfMemory};
ghost use Rattle.scm_layout.specs.Layouts.{layout_of};
ghost use Rattle.scm_overlay.specs.Overlays.{overlays};
ghost use Rattle.scm_strips.specs.Painted.{IsSized};
ghost use Rattle.scm_types.specs.Limits.{is_accepted_state, max_scroll};
ghost use Rattle.scm_view.specs.Window.{IsFew, inline_document, window};
ghost use Rattle.scm_widgets.specs.Layers.{shown_by};
ghost use Rattle.scm_screen.specs.DocumentRows.{each_row, pinned_on};
ghost use Rattle.scm_screen.specs.Overlaid.{AreFewOver, HasOverlays};

use crate::document_rows::pinned_header;
use crate::paint::{paint_shown, paint_top};
use scm_cells::{Grid, Rect};
use scm_layout::Layout;
use scm_render::{Component, Viewport};
use scm_strips::Area;
use scm_types::RecordError;
use scm_view::AppView;
use scm_view_state::ViewState;
use std::alloc::Global;
use std::mem;

/// Paints the menu bar and the dialogs of `view`, which has no documents, over `grid`, the first row of which shows
/// row `scroll` of the document.
#[tactic(auto, using(scm_types::proofs::LimitLemmas::scroll_room))]
fn paint_overlays(
    alloc: Global,
    grid: &mut Grid,
    shown: &ViewState<'_>,
    view: &AppView<'_>,
    scroll: usize,
) -> Result<(), RecordError>
    requires view { HasOverlays shown.now view.now }
    requires accepted { IsTrue (is_accepted_state shown.now.state) }
    requires wide { 2 ≤ grid.old.width }
    requires high { 2 ≤ length grid.old.rows }
    requires scroll { scroll ≤ max_scroll }
    ensures ok { OnOk result (grid.new.rows ≡ each_row (shown_by (overlays grid.old.width
        (length grid.old.rows) scroll shown.now.open_menu shown.now.quit_dialog
        shown.now.is_help_open)) scroll grid.old.rows) }
    ensures few { OnOk result (AreFewOver grid.old.counts grid.new.counts) }
    ensures size { IsSized grid.old grid.new }
    ensures err { IfErr result (λ e. e ≡ OutOfMemory) }
{
    let rect = Rect {
        x: 0,
        y: scroll as isize,
        width: grid.width(),
        height: grid.height(),
    };
    let empty = Grid::new(alloc, 0, 0)?;
    let mut viewport = Viewport::for_painting(alloc, mem::replace(grid, empty), rect);
    let outcome = view.draw(alloc, &mut viewport, 0, 0);
    *grid = viewport.into_grid();
    outcome
}

/// Returns the first row of the screen on which nothing hides a row of the document: the row below the menu bar, or
/// the row below a pinned header. The first row of the screen shows row `scroll` of the document.
#[tactic(auto, using(scm_types::proofs::LimitLemmas::scroll_room))]
fn first_row(shown: &ViewState<'_>, layout: &Layout, scroll: usize) -> usize
    requires accepted { IsTrue (is_accepted_state shown.now.state) }
    requires layout { layout.now ≡ layout_of shown.now.state shown.now.expanded }
    requires scroll { scroll ≤ max_scroll }
    ensures { result ≡ (if is_some (pinned_on (inline_document shown.now) (scroll + 1))
        then 2 else 1) }
{
    match pinned_header(shown, layout, scroll + 1) {
        None => 1,
        Some(_) => 2,
    }
}

/// Clears `grid` and paints the window of `shown` inline, whose first row shows row `scroll` of the document.
/// `layout` is that of the state and its unfolded keys. `view` has the menu bar and the dialogs, and no document.
///
/// Counts at most one row more than `grid` has, and few draw calls, however long the document is.
///
/// # Errors
/// `OutOfMemory`: an allocation failed; the grid keeps its size.
pub fn paint_window(
    alloc: Global,
    grid: &mut Grid,
    shown: &ViewState<'_>,
    layout: &Layout,
    view: &AppView<'_>,
    scroll: usize,
) -> Result<(), RecordError>
    requires view { HasOverlays shown.now view.now }
    requires inline { shown.now.view_mode ≡ Inline }
    requires accepted { IsTrue (is_accepted_state shown.now.state) }
    requires layout { layout.now ≡ layout_of shown.now.state shown.now.expanded }
    requires wide { 10 ≤ grid.old.width }
    requires high { 2 ≤ length grid.old.rows }
    requires scroll { scroll ≤ max_scroll }
    ensures ok { OnOk result (grid.new.rows
        ≡ window grid.old.width (length grid.old.rows) scroll shown.now) }
    ensures few { OnOk result (IsFew (length grid.old.rows) grid.new.counts) }
    ensures size { IsSized grid.old grid.new }
    ensures err { IfErr result (λ e. e ≡ OutOfMemory) }
{
    grid.clear();
    let area = Area {
        left: 0,
        width: grid.width(),
    };
    let first = first_row(shown, layout, scroll);
    paint_shown(alloc, grid, area, shown, layout, scroll, first)?;
    paint_top(alloc, grid, area, shown, layout, scroll)?;
    paint_overlays(alloc, grid, shown, view, scroll)
}
