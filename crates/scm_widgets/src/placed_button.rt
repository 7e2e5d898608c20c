//! Buttons in their places: drawn there, and owned there.
ghost use Rattle.std.specs.Prelude.{◌≡◌, ◌++◌, OnOk};
ghost use Rattle.scm_render.specs.Drawing.{row_rect};
ghost use Rattle.scm_render.specs.Draws.{CanDraw, HasDrawn};
ghost use Rattle.scm_widgets.specs.DrawCalls.{placed_call};
ghost use Rattle.scm_widgets.specs.OverlayRects.{button_rects};

use crate::button::Button;
use crate::ids::ComponentId;
use crate::overlay_rects::OverlayRect;
use scm_cells::Rect;
use scm_render::Viewport;
use scm_types::RecordError;
use std::alloc::AllocError;
use std::hash::Hash;

/// A button in its place.
#[derive(Drop)]
pub struct PlacedButton<'a, Id> {
    /// The rectangle of its text: columns of the screen and a row of the document.
    pub rect: Rect,
    /// The button.
    pub button: Button<'a, Id>,
}

impl<'a, Id: Copy> PlacedButton<'a, Id> {
    /// Places `button`, which is `width` columns wide, on row `y` from column `x` on.
    pub fn new(x: isize, y: isize, width: usize, button: Button<'a, Id>) -> PlacedButton<'a, Id>
        ensures { result ≡ record { rect = row_rect x y width; button = button.entry } }
    {
        let rect = Rect {
            x,
            y,
            width,
            height: 1,
        };
        PlacedButton { rect, button }
    }
}

/// Draws `buttons` in their places.
pub fn draw_buttons<K: Copy + Eq + Hash + Drop>(
    viewport: &mut Viewport<K>,
    buttons: &[PlacedButton<'_, K>],
) -> Result<(), RecordError>
    requires { CanDraw viewport.old (placed_call buttons.now) }
    ensures { HasDrawn viewport.old viewport.new result (placed_call buttons.now) }
{
    for placed in buttons {
        viewport.draw_part(placed.rect.x, placed.rect.y, &placed.button)?;
    }
    Ok(())
}

/// Adds the rectangles of `buttons`, each owned by its button.
pub fn push_buttons(
    rects: &mut Vec<OverlayRect>,
    buttons: &[PlacedButton<'_, ComponentId>],
) -> Result<(), AllocError>
    ensures ok { OnOk result (rects.new.items ≡ rects.old.items ++ button_rects buttons.now) }
{
    for placed in buttons {
        rects.push(OverlayRect {
            id: placed.button.id,
            rect: placed.rect,
        })?;
    }
    Ok(())
}
