//! Dialogs: their place on the screen, their overlay rectangles and their drawing.
ghost use Rattle.std.specs.Prelude.{◌≡◌, ◌++◌, OnOk, IfOk};
ghost use Rattle.scm_cells.specs.Rect.{RectInRange};
ghost use Rattle.scm_render.specs.Centring.{centred_rect};
ghost use Rattle.scm_render.specs.Drawing.{body_texts};
ghost use Rattle.scm_widgets.specs.Buttons.{ArePlacedInRange};
ghost use Rattle.scm_overlay.specs.Dialogs.{dialog_buttons, dialog_rect, least_size, shown_dialog as as_shown, widest_line};
ghost use Rattle.scm_overlay.specs.OverlayRects.{dialog_rects, dialog_run, least_column};

use crate::button_row::place_from_right;
use scm_cells::{Rect, RectSize, gap, text_width};
use scm_render::{Component, Viewport, centered_rect};
use scm_types::{RecordError, Text};
use scm_widgets::button::Button;
use scm_widgets::ids::ComponentId;
use scm_widgets::overlay_rects::OverlayRect;
use scm_widgets::placed_button::{PlacedButton, draw_buttons, push_buttons};
use std::alloc::{AllocError, Global};
use std::hash::Hash;

/// A dialog: a frame in the middle of the screen, with a title, the lines of a body, and buttons on
/// its last row. It takes 60 percent of the columns and 20 percent of the rows, or more if its body
/// needs more and the screen has room.
#[derive(Drop)]
pub struct Dialog<'a, Id> {
    /// The id of the dialog.
    pub id: Id,
    /// The title of the dialog, on its first row.
    pub title: Text<'a>,
    /// The lines of the dialog's body, from the top.
    pub body: &'a [&'a str],
    /// The buttons of the dialog, from the right.
    pub buttons: &'a [Button<'a, Id>],
}

/// Returns the width of the widest line, in columns.
fn widest_line(lines: &[&str]) -> usize
    ensures { result ≡ widest_line (body_texts lines.now) }
{
    let mut widest: usize = 0;
    for line in lines {
        widest = widest.max(text_width(line));
    }
    widest
}

/// Returns the rectangle of a dialog with the body `lines`, in the middle of `rect`.
fn dialog_place(rect: Rect, lines: &[&str]) -> Rect
    requires { RectInRange rect }
    ensures place { result ≡ centred_rect rect (least_size (body_texts lines.now)) 60 20 }
    ensures in_range { RectInRange result }
{
    let least = RectSize {
        width: widest_line(lines).saturating_add(2),
        height: lines.len().saturating_add(2),
    };
    centered_rect(rect, least, 60, 20)
}

/// Returns the least first column of `buttons`, or `first` if that is less.
fn least_column(first: isize, buttons: &[PlacedButton<'_, ComponentId>]) -> isize
    ensures { result ≡ least_column first buttons.now }
{
    let mut least = first;
    for placed in buttons {
        least = least.min(placed.rect.x);
    }
    least
}

impl<'a, Id: Copy + Drop> Dialog<'a, Id> {
    /// Places the buttons of the dialog, whose rectangle is `place`: on its last row, before its
    /// last column.
    fn place_buttons(
        &self,
        alloc: Global,
        place: Rect,
    ) -> Result<Vec<PlacedButton<'a, Id>>, AllocError>
        requires place { RectInRange place }
        requires buttons { ArePlacedInRange (dialog_buttons (as_shown self.now) place) }
        ensures ok { IfOk result (λ placed.
            placed.items ≡ dialog_buttons (as_shown self.now) place) }
    {
        place_from_right(alloc, place.end_x() - 1, place.end_y() - 1, self.buttons)
    }
}

impl<'a> Dialog<'a, ComponentId> {
    /// Adds the rectangles of the dialog and of its buttons to `rects`. Returns the dialog's first
    /// row and its end row (exclusive). The screen shows the part `screen` of the document.
    ///
    /// # Errors
    /// `AllocError`: an allocation failed.
    pub fn push_rects(
        &self,
        alloc: Global,
        rects: &mut Vec<OverlayRect>,
        screen: Rect,
    ) -> Result<(usize, usize), AllocError>
        requires screen { RectInRange screen }
        requires buttons { ArePlacedInRange
            (dialog_buttons (as_shown self.now) (dialog_rect (as_shown self.now) screen)) }
        ensures rows { IfOk result (λ r. r ≡ dialog_run screen (as_shown self.now)) }
        ensures ok { OnOk result
            (rects.new.items ≡ rects.old.items ++ dialog_rects screen (as_shown self.now)) }
    {
        let place = dialog_place(screen, self.body);
        let buttons = self.place_buttons(alloc, place)?;
        let x = least_column(place.x, buttons.as_slice());
        let width = gap(x, place.end_x());
        rects.push(OverlayRect {
            id: self.id,
            rect: Rect { x, width, ..place },
        })?;
        push_buttons(rects, buttons.as_slice())?;
        Ok((gap(0, place.y), gap(0, place.end_y())))
    }
}

impl<'a, Id: Copy + Eq + Hash + Drop> Component for Dialog<'a, Id> {
    type Id = Id;

    ghost use Rattle.scm_overlay.specs.Dialogs.{shown_dialog, dialog_picture};

    ghost key = { λ d. d.id };

    ghost use Rattle.std.specs.Prelude.{◌+◌, length};

    ghost picture = { λ d s x y. dialog_picture (shown_dialog d) s };

    ghost rows = { λ d s x y. 0 };

    ghost calls = { λ d s x y. 1 + length d.buttons.now };

    fn id(&self) -> Id {
        self.id
    }

    /// Draws the dialog in the middle of the screen, whatever `x` and `y` are.
    fn draw(
        &self,
        alloc: Global,
        viewport: &mut Viewport<Id>,
        _x: isize,
        _y: isize,
    ) -> Result<(), RecordError> {
        let place = dialog_place(viewport.rect(), self.body);
        viewport.draw_frame(place, self.title.as_str(), self.body)?;
        let buttons = self.place_buttons(alloc, place)?;
        draw_buttons(viewport, buttons.as_slice())?;
        Ok(())
    }
}
