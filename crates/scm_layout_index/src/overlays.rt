//! What lies over the rows of files, and the last row over which it does: rows below are asked for no
//! rectangle.
ghost use Rattle.std.specs.Prelude.{◌≡◌, ℕ, ◌<◌, ◌≤◌, ◌^◌, IsTrue, false};
ghost use Rattle.scm_widgets.specs.Layers.{is_within};
ghost use Rattle.scm_widgets.specs.OverlayRects.{have_row, is_at, overlay_owner};
ghost use Rattle.scm_layout_index.specs.OwnerRuns.{IsRun};
ghost use Rattle.scm_layout_index.specs.Overlays.{AreAbove, IsAbove};

use crate::owner_runs::{rect_end, stretch_end};
use scm_cells::{Rect, gap};
use scm_widgets::ids::ComponentId;
use scm_widgets::overlay_rects::{OverlayRect, have_row, overlay_owner};
use std::marker::Model;

/// The rectangles over the rows of files: the message's button, the pinned header, the menu bar with its
/// open menu, and the dialogs. Where two overlap, the later one owns the place.
#[derive(Drop)]
pub(crate) struct Overlays {
    /// The rectangles: columns of the screen and rows of the document.
    rects: Vec<OverlayRect>,
    /// The last row that one of them may have. None has a row below it.
    last: usize,
}

impl Model for Overlays {
    ghost use Rattle.std.specs.Prelude.{List};
    ghost use Rattle.scm_widgets.specs.declared.overlay_rects.OverlayRect.{OverlayRect};
    ghost use Rattle.scm_layout_index.specs.Overlays.{AreAbove};

    ghost Value = { List OverlayRect };

    ghost view = { λ o. o.rects.items };

    ghost invariant = { λ o. AreAbove o.last o.rects.items };
}

/// Returns a row below which `placed` has none: its last row, if it has rows.
fn last_row(placed: OverlayRect) -> usize
    ensures { IsAbove result placed }
{
    let Rect { y, height, .. } = placed.rect;
    let left = height.saturating_sub(gap(y, 0));
    gap(0, y).saturating_add(left.saturating_sub(1))
}

/// Returns a row below which none of `rects` has a row.
fn last_row_of(rects: &[OverlayRect]) -> usize
    ensures { AreAbove result rects.now }
{
    let mut last = 0;
    for placed in rects {
        last = last_row(*placed).max(last);
    }
    last
}

/// Returns the end of a run from `column` on of the columns before `end` on row `row`: all in `placed`,
/// or all beside it.
fn placed_end(placed: OverlayRect, row: usize, column: usize, end: usize) -> usize
    requires column { column < end }
    requires end { end < 2 ^ 63 }
    ensures { IsRun (is_at placed row) end column result }
{
    if have_row(&[placed], row) {
        rect_end(placed.rect, column, end)
    } else {
        end
    }
}

/// Returns the end of a run from `column` on of the columns before `end` on row `row`, among what lies
/// over the document.
fn overlay_end(rects: &[OverlayRect], row: usize, column: usize, end: usize) -> usize
    requires column { column < end }
    requires end { end < 2 ^ 63 }
    ensures { IsRun (overlay_owner rects.now row) end column result }
{
    let mut left = end;
    for placed in rects {
        left = placed_end(*placed, row, column, left);
    }
    left
}

/// Returns the end of a run from `row` on of the rows before `end`: `placed` lies over all of them, or over
/// none.
fn placed_rows_end(placed: OverlayRect, row: usize, end: usize) -> usize
    requires row { row < end }
    requires end { end < 2 ^ 63 }
    ensures { IsRun (is_within placed.rect.y placed.rect.height) end row result }
{
    stretch_end(placed.rect.y, placed.rect.height, row, end)
}

/// Returns the end of a run from `row` on of the rows before `end`: over all of them lies one of `rects`,
/// or over none.
fn overlaid_end(rects: &[OverlayRect], row: usize, end: usize) -> usize
    requires row { row < end }
    requires end { end < 2 ^ 63 }
    ensures { IsRun (have_row rects.now) end row result }
{
    let mut left = end;
    for placed in rects {
        left = placed_rows_end(*placed, row, left);
    }
    left
}

impl Overlays {
    /// Takes `rects`.
    pub(crate) fn new(rects: Vec<OverlayRect>) -> Overlays
        ensures { result ≡ rects.items }
    {
        let last = last_row_of(&rects);
        Overlays { rects, last }
    }

    /// Returns whether all lie above row `row`.
    pub(crate) fn are_above(&self, row: usize) -> bool
        ensures { IsTrue result
            → (y : ℕ) → row ≤ y → y < 2 ^ 64 → have_row self.now y ≡ false }
    {
        self.last < row
    }

    /// Returns whether one of them has row `row` of the document.
    pub(crate) fn have_row(&self, row: usize) -> bool
        ensures { result ≡ have_row self.now row }
    {
        row <= self.last && have_row(&self.rects, row)
    }

    /// Returns the owner of the last of them that holds the place at `row` and `column`, if any.
    pub(crate) fn owner(&self, row: usize, column: usize) -> Option<ComponentId>
        ensures { result ≡ overlay_owner self.now row column }
    {
        overlay_owner(&self.rects, row, column)
    }

    /// Returns the end of a run from `column` on of the columns before `end` on row `row`, which have the
    /// same owner.
    pub(crate) fn columns_end(&self, row: usize, column: usize, end: usize) -> usize
        requires column { column < end }
        requires end { end < 2 ^ 63 }
        ensures { IsRun (overlay_owner self.now row) end column result }
    {
        overlay_end(&self.rects, row, column, end)
    }

    /// Returns the end of a run from `row` on of the rows before `end`: over all of them lies something, or
    /// over none.
    pub(crate) fn rows_end(&self, row: usize, end: usize) -> usize
        requires row { row < end }
        requires end { end < 2 ^ 63 }
        ensures { IsRun (have_row self.now) end row result }
    {
        if self.are_above(row) {
            end
        } else {
            overlaid_end(&self.rects, row, end)
        }
    }
}
