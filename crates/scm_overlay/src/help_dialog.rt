//! The dialog with the keyboard shortcuts.
ghost use Rattle.std.specs.Prelude.{◌≡◌, ◌++◌, OnOk, IfOk};
ghost use Rattle.scm_render.specs.Drawing.{body_texts};
ghost use Rattle.scm_overlay.specs.Tables.{help_lines, close_button, help_dialog as shown_help};
ghost use Rattle.scm_widgets.specs.DrawBounds.{RectIsInDrawBounds};
ghost use Rattle.scm_overlay.specs.Dialogs.{shown_dialog as as_shown};
ghost use Rattle.scm_overlay.specs.OverlayRects.{dialog_rects, dialog_run};

use crate::dialog::Dialog;
use scm_cells::Rect;
use scm_render::{Component, Viewport};
use scm_types::{RecordError, Text};
use scm_widgets::button::Button;
use scm_widgets::ids::ComponentId;
use scm_widgets::overlay_rects::OverlayRect;
use std::alloc::{AllocError, Global};

/// The keyboard shortcuts, line by line. One line ends in spaces: it has 80 columns.
const HELP_LINES: [&str; 17] = [
    "You can click the menus with a mouse, or use these keyboard shortcuts:",
    "",
    "    General                             Navigation",
    "    Quit/Cancel             q           Next/Prev               j/k or ↓/↑",
    "    Confirm changes         c           Next/Prev of same type  PgDn/PgUp",
    "    Force quit              ^c          Move out & fold         h or ←",
    "                                        Move out & don't fold   H or Shift-←    ",
    "    View controls                       Move in & unfold        l or →",
    "    Expand/Collapse         f",
    "    Expand/Collapse all     F           Scrolling",
    "    Edit commit message     e           Scroll up/down          ^y/^e",
    "                                                             or ^↑/^↓",
    "    Selection                           Page up/down            ^b/^f",
    "    Toggle current          Space                            or ^PgUp/^PgDn",
    "    Toggle and advance      Enter       Previous/Next page      ^u/^d",
    "    Invert all              a",
    "    Invert all uniformly    A",
];

/// The dialog with the keyboard shortcuts.
#[derive(Clone, Debug, PartialEq, Eq, Drop)]
pub struct HelpDialog();

/// Returns the lines of the dialog's body.
fn help_lines<'a>() -> &'a [&'a str]
    ensures { body_texts result.now ≡ help_lines }
{
    &HELP_LINES
}

/// Returns the button that closes the dialog.
fn close_button() -> Button<'static, ComponentId>
    ensures { result ≡ close_button }
{
    Button {
        id: ComponentId::HelpDialogQuitButton,
        label: Text::from("Close"),
        is_focused: true,
    }
}

impl HelpDialog {
    /// Returns the dialog with the button `buttons`.
    fn dialog<'b>(&self, buttons: &'b [Button<'b, ComponentId>]) -> Dialog<'b, ComponentId>
        ensures { as_shown result ≡ record shown_help { buttons = buttons.now } }
    {
        Dialog {
            id: ComponentId::HelpDialog,
            title: Text::from("Help"),
            body: help_lines(),
            buttons,
        }
    }

    /// Adds the rectangles of the dialog and of its button to `rects`. Returns the dialog's first
    /// row and its end row (exclusive). The screen shows the part `screen` of the document.
    ///
    /// # Errors
    /// `AllocError`: an allocation failed.
    pub fn push_rects(
        &self,
        alloc: Global,
        rects: &mut Vec<OverlayRect>,
        screen: Rect,
    ) -> Result<(usize, usize), AllocError>
        requires { RectIsInDrawBounds screen }
        ensures rows { IfOk result (λ r. r ≡ dialog_run screen shown_help) }
        ensures ok { OnOk result (
            rects.new.items ≡ rects.old.items ++ dialog_rects screen shown_help) }
    {
        self.dialog(&[close_button()])
            .push_rects(alloc, rects, screen)
    }
}

impl Component for HelpDialog {
    type Id = ComponentId;

    ghost use Rattle.scm_widgets.specs.declared.ids.ComponentId.TheVariants as ids;
    ghost use Rattle.scm_overlay.specs.Tables.{help_dialog, named_dialog_picture};

    ghost key = { λ d. ids.HelpDialog };

    ghost picture = { λ d s x y. named_dialog_picture help_dialog s };

    ghost rows = { λ d s x y. 0 };

    ghost calls = { λ d s x y. 2 };

    fn id(&self) -> ComponentId {
        ComponentId::HelpDialog
    }

    /// Draws the dialog in the middle of the screen, whatever `x` and `y` are.
    fn draw(
        &self,
        _alloc: Global,
        viewport: &mut Viewport<ComponentId>,
        x: isize,
        y: isize,
    ) -> Result<(), RecordError> {
        viewport.draw_part(x, y, &self.dialog(&[close_button()]))?;
        Ok(())
    }
}
