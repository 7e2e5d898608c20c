//! The empty-state text, which is shown if there are no files.
ghost use Rattle.std.specs.Prelude.{◌≡◌};
ghost use Rattle.scm_document.specs.DocumentCalls.{no_files_call};
ghost use Rattle.scm_document.specs.Pictures.{no_files_place};
ghost use Rattle.scm_render.specs.Draws.{CanDraw, HasDrawn};

use crate::texts::no_files_text;
use scm_cells::{Rect, RectSize, Span};
use scm_render::{Viewport, centered_rect};
use scm_types::RecordError;
use scm_widgets::clipped_drawing::{begin_row, show_text};
use scm_widgets::ids::ComponentId;

/// Returns the place of the empty-state text, relative to the view.
fn no_files_place(viewport: &Viewport<ComponentId>) -> Rect
    ensures { result ≡ no_files_place viewport.now.canvas.sight }
{
    let reach = viewport.mask_rect();
    let room = Rect {
        x: 0,
        y: 0,
        width: reach.width.min(65535),
        height: reach.height.min(65535),
    };
    let least = RectSize {
        width: 29,
        height: 1,
    };
    centered_rect(room, least, 50, 50)
}

/// Draws the empty-state text.
pub(crate) fn draw_no_files(
    viewport: &mut Viewport<ComponentId>,
    x: isize,
    y: isize,
) -> Result<(), RecordError>
    requires { CanDraw viewport.old (no_files_call x y) }
    ensures { HasDrawn viewport.old viewport.new result (no_files_call x y) }
{
    let place = no_files_place(viewport);
    let row = y + place.y;
    begin_row(viewport, row);
    show_text(viewport, x + place.x, row, &[Span(no_files_text())])?;
    Ok(())
}
