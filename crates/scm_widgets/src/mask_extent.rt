//! The columns from a place to the end of the mask, rows covered up to there, and drawing under a
//! mask.
ghost use Rattle.std.specs.Prelude.{◌≡◌, ◌-ℤ◌, ◌+ℤ◌, pos};
ghost use Rattle.scm_cells.specs.Rect.{or_zero, InRange, RectInRange};
ghost use Rattle.scm_cells.specs.Mask.{MaskInRange};
ghost use Rattle.scm_render.specs.Picture.{PictureInRange, covering};
ghost use Rattle.scm_render.specs.Canvas.{with_picture};
ghost use Rattle.scm_widgets.specs.declared.ids.ComponentId.{ComponentId};
ghost use Rattle.scm_widgets.specs.Pictures.{to_end, fold_column, rest_of_row, whole_row, highlight};
ghost use Rattle.scm_render.specs.Draws.{CanDraw, HasDrawn};
ghost use Rattle.scm_render.specs.DrawCalls.{part_call};
ghost use Rattle.scm_widgets.specs.DrawCalls.{masked_call};

use crate::ids::ComponentId;
use scm_cells::{Mask, Rect, gap};
use scm_render::{Component, Viewport};
use scm_types::RecordError;
use std::hash::Hash;

/// Returns the number of columns from column `x` to the end of the mask.
pub fn to_end(viewport: &Viewport<ComponentId>, x: isize) -> usize
    ensures columns { result ≡ to_end viewport.now.canvas.sight x }
    ensures in_range { InRange x → InRange (x +ℤ pos result) }
{
    gap(x, viewport.mask_rect().end_x())
}

/// Returns the first column of an expand box: the third column before the end of the mask.
pub fn fold_column(viewport: &Viewport<ComponentId>) -> isize
    ensures column { result ≡ fold_column viewport.now.canvas.sight }
    ensures in_range { InRange (result +ℤ pos 3) }
{
    let reach = viewport.mask_rect();
    reach.end_x() - 3
}

/// Covers `rect`: grows the boxes of the components around it and draws nothing.
pub(crate) fn cover_rect(viewport: &mut Viewport<ComponentId>, rect: Rect)
    requires { RectInRange rect }
    ensures new { viewport.new.canvas ≡ with_picture viewport.old.canvas (covering rect) }
    ensures counts { viewport.new.counts ≡ viewport.old.counts }
    ensures rect { viewport.new.canvas.sight.rect ≡ viewport.old.canvas.sight.rect }
{
    viewport.cover(rect);
}

/// Covers row `y` from column `x` to the end of the mask.
pub fn cover_rest(viewport: &mut Viewport<ComponentId>, x: isize, y: isize)
    requires { PictureInRange {K = ComponentId}
        (covering (rest_of_row viewport.old.canvas.sight x y)) }
    ensures new { viewport.new.canvas ≡ with_picture viewport.old.canvas
        (covering (rest_of_row viewport.old.canvas.sight x y)) }
    ensures counts { viewport.new.counts ≡ viewport.old.counts }
    ensures rect { viewport.new.canvas.sight.rect ≡ viewport.old.canvas.sight.rect }
{
    if viewport.keeps_boxes() {
        let rest = Rect {
            x,
            y,
            width: to_end(viewport, x),
            height: 1,
        };
        viewport.cover(rest);
    }
}

/// Covers the columns of row `y` that lie inside the mask.
pub fn cover_row(viewport: &mut Viewport<ComponentId>, y: isize)
    requires { PictureInRange {K = ComponentId}
        (covering (whole_row viewport.old.canvas.sight y)) }
    ensures new { viewport.new.canvas ≡ with_picture viewport.old.canvas
        (covering (whole_row viewport.old.canvas.sight y)) }
    ensures counts { viewport.new.counts ≡ viewport.old.counts }
    ensures rect { viewport.new.canvas.sight.rect ≡ viewport.old.canvas.sight.rect }
{
    if viewport.keeps_boxes() {
        let reach = viewport.mask_rect();
        let whole = Rect {
            x: reach.x,
            y,
            width: reach.width,
            height: 1,
        };
        viewport.cover(whole);
    }
}

/// Covers the columns of row `y` that lie inside the mask, if `is_selected`.
pub fn highlight(viewport: &mut Viewport<ComponentId>, y: isize, is_selected: bool)
    requires { PictureInRange (highlight is_selected viewport.old.canvas.sight y) }
    ensures new { viewport.new.canvas ≡ with_picture viewport.old.canvas
        (highlight is_selected viewport.old.canvas.sight y) }
    ensures counts { viewport.new.counts ≡ viewport.old.counts }
    ensures rect { viewport.new.canvas.sight.rect ≡ viewport.old.canvas.sight.rect }
{
    if is_selected {
        cover_row(viewport, y);
    }
}

/// Draws `component` at column `x` and row `y` while `mask` is set, and restores the outer mask.
///
/// # Errors
/// `OutOfMemory`: an allocation failed; the frame is incomplete.
pub fn draw_under<K: Copy + Eq + Hash + Drop, C: Component<Id = K>>(
    viewport: &mut Viewport<K>,
    mask: Mask,
    x: isize,
    y: isize,
    component: &C,
) -> Result<(), RecordError>
    requires mask { MaskInRange mask }
    requires picture { CanDraw viewport.old
        (masked_call mask (part_call (C.key component.now) (C.picture component.now)
        (C.rows component.now) (C.calls component.now) x y)) }
    ensures { HasDrawn viewport.old viewport.new result
        (masked_call mask (part_call (C.key component.now) (C.picture component.now)
        (C.rows component.now) (C.calls component.now) x y)) }
{
    let outer = viewport.swap_mask(Some(mask));
    viewport.draw_part(x, y, component)?;
    viewport.swap_mask(outer);
    Ok(())
}
