//! Drawing on one row, clipped to the screen. On a row that the screen shows, a call draws. On any
//! other row it only grows the boxes of the components around it, by the same rectangles.
ghost use Rattle.std.specs.Prelude.{◌≡◌, ◌<◌, ◌≤◌, ◌^◌, ◌∷◌, [], length};
ghost use Rattle.scm_cells.specs.Counts.{added, one_row};
ghost use Rattle.scm_cells.specs.Spans.{span_texts};
ghost use Rattle.scm_render.specs.Picture.{PictureInRange};
ghost use Rattle.scm_render.specs.Canvas.{with_picture};
ghost use Rattle.scm_render.specs.Drawing.{has_row, row_rect, texts_width};
ghost use Rattle.scm_widgets.specs.Counts.{on_row};
ghost use Rattle.scm_widgets.specs.Covers.{texts_cover};
ghost use Rattle.scm_render.specs.Draws.{CanDraw, HasDrawn};
ghost use Rattle.scm_widgets.specs.DrawCalls.{span_call, text_call, blank_call, blank_rest_call, box_call, button_call};

use crate::button::{Button, button_width};
use crate::ids::ComponentId;
use crate::mask_extent::{cover_rect, to_end};
use crate::tristate_box::TristateBox;
use scm_cells::{Rect, Span, text_width};
use scm_render::Viewport;
use scm_types::RecordError;

/// Returns the rectangle of one row, `y`, and of columns `x..x + width`.
fn row_of(x: isize, y: isize, width: usize) -> Rect
    ensures { result ≡ row_rect x y width }
{
    Rect {
        x,
        y,
        width,
        height: 1,
    }
}

/// Returns whether the screen shows row `y` of the document.
pub fn is_on_screen(viewport: &Viewport<ComponentId>, y: isize) -> bool
    ensures test { result ≡ has_row viewport.now.canvas.sight.rect y }
    ensures rows { length viewport.now.canvas.rows ≡ viewport.now.canvas.sight.rect.height }
{
    let rect = viewport.rect();
    rect.y <= y && y < rect.end_y()
}

/// Counts row `y` of the document as drawn, if the screen shows it.
pub fn begin_row(viewport: &mut Viewport<ComponentId>, y: isize)
    ensures canvas { viewport.new.canvas ≡ viewport.old.canvas }
    ensures counts { viewport.new.counts ≡ added viewport.old.counts
        (on_row viewport.old.canvas.sight.rect y one_row) }
{
    if is_on_screen(viewport, y) {
        viewport.begin_row();
    }
}

/// Draws `text` on row `y`, from column `x` on.
///
/// # Errors
/// `OutOfMemory`: an allocation failed; the frame is incomplete.
pub fn show_span(
    viewport: &mut Viewport<ComponentId>,
    x: isize,
    y: isize,
    text: &str,
) -> Result<(), RecordError>
    requires { CanDraw viewport.old (span_call x y text.now) }
    ensures { HasDrawn viewport.old viewport.new result (span_call x y text.now) }
{
    if is_on_screen(viewport, y) {
        viewport.draw_span(x, y, &Span(text))?;
        Ok(())
    } else {
        cover_rect(viewport, row_of(x, y, text_width(text)));
        Ok(())
    }
}

/// Covers columns `x..x + width` of row `y`. If they exceed the mask, covers the ellipsis in its
/// last column too.
pub fn cover_texts(viewport: &mut Viewport<ComponentId>, x: isize, y: isize, width: usize)
    requires { PictureInRange (texts_cover viewport.old.canvas.sight x y width) }
    ensures new { viewport.new.canvas ≡ with_picture viewport.old.canvas
        (texts_cover viewport.old.canvas.sight x y width) }
    ensures counts { viewport.new.counts ≡ viewport.old.counts }
    ensures rect { viewport.new.canvas.sight.rect ≡ viewport.old.canvas.sight.rect }
{
    let end = viewport.mask_rect().end_x();
    let texts = row_of(x, y, width);
    cover_rect(viewport, texts);
    if end < texts.end_x() {
        cover_rect(viewport, row_of(end - 1, y, text_width("…")));
    }
}

/// Returns the width of `spans` side by side, in columns.
fn spans_width(spans: &[Span]) -> usize
    requires { texts_width (span_texts spans.now) < 2 ^ 64 }
    ensures { result ≡ texts_width (span_texts spans.now) }
{
    let mut columns = 0;
    for span in spans {
        columns += text_width(span.0);
    }
    columns
}

/// Draws `spans` side by side on row `y`, from column `x` on. If they exceed the mask, draws an
/// ellipsis in its last column.
///
/// # Errors
/// `OutOfMemory`: an allocation failed; the frame is incomplete.
pub fn show_text(
    viewport: &mut Viewport<ComponentId>,
    x: isize,
    y: isize,
    spans: &[Span],
) -> Result<(), RecordError>
    requires { CanDraw viewport.old (text_call x y (span_texts spans.now)) }
    ensures { HasDrawn viewport.old viewport.new result (text_call x y (span_texts spans.now)) }
{
    if is_on_screen(viewport, y) {
        viewport.draw_text(x, y, spans)?;
        Ok(())
    } else {
        cover_texts(viewport, x, y, spans_width(spans));
        Ok(())
    }
}

/// Draws spaces in columns `x..x + width` of row `y`.
///
/// # Errors
/// `OutOfMemory`: an allocation failed; the frame is incomplete.
pub fn show_blank(
    viewport: &mut Viewport<ComponentId>,
    x: isize,
    y: isize,
    width: usize,
) -> Result<(), RecordError>
    requires { CanDraw viewport.old (blank_call x y width) }
    ensures { HasDrawn viewport.old viewport.new result (blank_call x y width) }
{
    if is_on_screen(viewport, y) {
        viewport.draw_blank(row_of(x, y, width))?;
        Ok(())
    } else {
        cover_rect(viewport, row_of(x, y, width));
        Ok(())
    }
}

/// Draws spaces on row `y`, from column `x` to the end of the mask.
///
/// # Errors
/// `OutOfMemory`: an allocation failed; the frame is incomplete.
pub fn show_blank_rest(
    viewport: &mut Viewport<ComponentId>,
    x: isize,
    y: isize,
) -> Result<(), RecordError>
    requires { CanDraw viewport.old (blank_rest_call x y) }
    ensures { HasDrawn viewport.old viewport.new result (blank_rest_call x y) }
{
    let width = to_end(viewport, x);
    show_blank(viewport, x, y, width)
}

/// Draws `tristate_box`, a checkbox or an expand box, on row `y`, from column `x` on.
///
/// # Errors
/// `OutOfMemory`: an allocation failed; the frame is incomplete.
pub fn show_box(
    viewport: &mut Viewport<ComponentId>,
    x: isize,
    y: isize,
    tristate_box: &TristateBox<ComponentId>,
) -> Result<(), RecordError>
    requires { CanDraw viewport.old (box_call tristate_box.now x y) }
    ensures { HasDrawn viewport.old viewport.new result (box_call tristate_box.now x y) }
{
    if is_on_screen(viewport, y) {
        viewport.draw_part(x, y, tristate_box)?;
        Ok(())
    } else {
        viewport.note_box(tristate_box.id, row_of(x, y, 3))?;
        Ok(())
    }
}

/// Draws `button` on row `y`, from column `x` on.
///
/// # Errors
/// `OutOfMemory`: an allocation failed; the frame is incomplete.
pub fn show_button(
    viewport: &mut Viewport<ComponentId>,
    x: isize,
    y: isize,
    button: &Button<'_, ComponentId>,
) -> Result<(), RecordError>
    requires { CanDraw viewport.old (button_call button.now x y) }
    ensures { HasDrawn viewport.old viewport.new result (button_call button.now x y) }
{
    if is_on_screen(viewport, y) {
        viewport.draw_part(x, y, button)?;
        Ok(())
    } else {
        let width = button_width(button)?;
        viewport.note_box(button.id, row_of(x, y, width))?;
        Ok(())
    }
}
