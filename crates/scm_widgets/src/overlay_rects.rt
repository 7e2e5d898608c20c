//! Rectangles of overlays, each with the component that owns it. They cover the rows of files;
//! where two overlap, the later one owns the place.
ghost use Rattle.std.specs.Prelude.{◌≡◌, ◌<◌, ◌^◌};
ghost use Rattle.scm_widgets.specs.Layers.{is_within};
ghost use Rattle.scm_widgets.specs.OverlayRects.{have_row, is_at, is_from, overlay_owner, row_overlay_rect};

use crate::ids::ComponentId;
use scm_cells::{Rect, gap};

/// A rectangle that a component owns.
#[derive(Clone, Copy)]
pub struct OverlayRect {
    /// The component that owns the rectangle.
    pub id: ComponentId,
    /// The rectangle: columns of the screen and rows of the document.
    pub rect: Rect,
}

/// Returns whether `row` lies in `top..end`.
pub fn is_from(top: usize, end: usize, row: usize) -> bool
    ensures { result ≡ is_from top end row }
{
    // `&`: one branch for the prover
    (top <= row) & (row < end)
}

/// Returns the rectangle that `id` owns on row `row`: `width` columns from column `left` on.
pub fn row_overlay_rect(id: ComponentId, row: usize, left: usize, width: usize) -> OverlayRect
    requires row { row < 2 ^ 63 }
    requires column { left < 2 ^ 63 }
    ensures { result ≡ row_overlay_rect id row left width }
{
    OverlayRect {
        id,
        rect: Rect {
            x: left as isize,
            y: row as isize,
            width,
            height: 1,
        },
    }
}

/// Returns whether `place` lies in `first..first + size`. Never overflows.
fn is_within(first: isize, size: usize, place: usize) -> bool
    ensures { result ≡ is_within first size place }
{
    let start = gap(0, first);
    let left = size.saturating_sub(gap(first, 0));
    // `&`: one branch for the prover
    (start <= place) & (place.saturating_sub(start) < left)
}

/// Returns whether `rect` holds the place at `row` of the document and `column` of the screen.
fn is_at(rect: OverlayRect, row: usize, column: usize) -> bool
    ensures { result ≡ is_at rect row column }
{
    let OverlayRect { rect, .. } = rect;
    // `&`: one branch for the prover
    is_within(rect.y, rect.height, row) & is_within(rect.x, rect.width, column)
}

/// Returns whether one of `rects` has row `row` of the document.
pub fn have_row(rects: &[OverlayRect], row: usize) -> bool
    ensures { result ≡ have_row rects.now row }
{
    rects
        .iter()
        .any(|placed| is_within(placed.rect.y, placed.rect.height, row))
}

/// Returns the owner of the last of `rects` that holds the place at `row` and `column`, if any.
pub fn overlay_owner(rects: &[OverlayRect], row: usize, column: usize) -> Option<ComponentId>
    ensures { result ≡ overlay_owner rects.now row column }
{
    let mut owner = None;
    for rect in rects {
        if is_at(*rect, row, column) {
            owner = Some(rect.id);
        }
    }
    owner
}
