//! The quit dialog: it asks whether to quit and give up the changes.
ghost use Rattle.std.specs.Prelude.{◌≡◌, codes, IfOk, string_bytes, ◌++◌, OnOk};
ghost use Rattle.scm_render.specs.Drawing.{body_texts};
ghost use Rattle.scm_widgets.specs.DrawBounds.{RectIsInDrawBounds};
ghost use Rattle.scm_widgets.specs.QuitButtons.{is_quit, is_go_back};
ghost use Rattle.scm_overlay.specs.Dialogs.{shown_dialog as as_shown};
ghost use Rattle.scm_overlay.specs.OverlayRects.{dialog_rects, dialog_run};
ghost use Rattle.scm_overlay.specs.Tables.{count_text, changes_text, quit_text, quit_button, go_back_button, quit_dialog as shown_quit};

use crate::dialog::Dialog;
use scm_cells::Rect;
use scm_render::{Component, Viewport};
use scm_types::{RecordError, Text};
use scm_widgets::button::Button;
use scm_widgets::ids::{ComponentId, QuitDialogButtonId};
use scm_widgets::overlay_rects::OverlayRect;
use std::alloc::{AllocError, Global};

/// The open quit dialog: the changes that quitting would lose, counted when it opened, and its
/// focus.
#[derive(Clone, Copy, Debug, PartialEq, Eq)]
pub struct QuitDialog {
    /// The number of commits whose message is not empty.
    pub num_commit_messages: usize,
    /// The number of files that are checked or partially checked.
    pub num_changed_files: usize,
    /// The focused button: a toggle presses it.
    pub focused_button: QuitDialogButtonId,
}

/// Returns `count` and `noun`, in the plural unless the count is 1: "1 file", "2 files".
fn count_text(alloc: Global, count: usize, noun: &str) -> Result<String, AllocError>
    ensures ok { IfOk result (λ s. string_bytes s ≡ count_text count noun.now) }
{
    let plural = if count == 1 { "" } else { "s" };
    Ok(format!(in alloc; "{count} {noun}{plural}")?)
}

/// Returns the changes that quitting would lose: "1 message and 2 files". Leaves out a count of 0.
fn changes_text(alloc: Global, num_messages: usize, num_files: usize) -> Result<String, AllocError>
    ensures ok { IfOk result (λ s. string_bytes s ≡ changes_text num_messages num_files) }
{
    if num_messages == 0 {
        count_text(alloc, num_files, "file")
    } else if num_files == 0 {
        count_text(alloc, num_messages, "message")
    } else {
        let messages = count_text(alloc, num_messages, "message")?;
        let files = count_text(alloc, num_files, "file")?;
        Ok(format!(in alloc; "{messages} and {files}")?)
    }
}

impl QuitDialog {
    /// Returns the question that the dialog asks.
    fn text(&self, alloc: Global) -> Result<String, AllocError>
        ensures ok { IfOk result (λ s. string_bytes s ≡ quit_text self.now) }
    {
        if self.num_commit_messages == 0 && self.num_changed_files == 0 {
            Ok(String::from_str(alloc, "Are you sure you want to quit?")?)
        } else {
            let changes = changes_text(alloc, self.num_commit_messages, self.num_changed_files)?;
            Ok(format!(in alloc; "You have changes to {changes}. Are you sure you want to quit?")?)
        }
    }

    /// Returns the button that quits.
    fn quit_button(&self) -> Button<'static, ComponentId>
        ensures { result ≡ quit_button self.now.focused_button }
    {
        Button {
            id: ComponentId::QuitDialogButton(QuitDialogButtonId::Quit),
            label: Text::from("Quit"),
            is_focused: self.focused_button.is_quit(),
        }
    }

    /// Returns the button that keeps the changes.
    fn go_back_button(&self) -> Button<'static, ComponentId>
        ensures { result ≡ go_back_button self.now.focused_button }
    {
        Button {
            id: ComponentId::QuitDialogButton(QuitDialogButtonId::GoBack),
            label: Text::from("Go Back"),
            is_focused: self.focused_button.is_go_back(),
        }
    }

    /// Returns the dialog with the lines `body` and the buttons `buttons`.
    fn dialog<'b>(
        &self,
        body: &'b [&'b str],
        buttons: &'b [Button<'b, ComponentId>],
    ) -> Dialog<'b, ComponentId>
        ensures { as_shown result ≡ record (shown_quit self.now) {
          body = body_texts body.now;
          buttons = buttons.now;
        } }
    {
        Dialog {
            id: ComponentId::QuitDialog,
            title: Text::from("Quit"),
            body,
            buttons,
        }
    }

    /// Adds the rectangles of the dialog and of its buttons to `rects`. Returns the dialog's first
    /// row and its end row (exclusive). The screen shows the part `screen` of the document.
    ///
    /// # Errors
    /// `AllocError`: an allocation failed.
    pub fn push_rects(
        &self,
        alloc: Global,
        rects: &mut Vec<OverlayRect>,
        screen: Rect,
    ) -> Result<(usize, usize), AllocError>
        requires { RectIsInDrawBounds screen }
        ensures rows { IfOk result (λ r. r ≡ dialog_run screen (shown_quit self.now)) }
        ensures ok { OnOk result
            (rects.new.items ≡ rects.old.items ++ dialog_rects screen (shown_quit self.now)) }
    {
        let text = self.text(alloc)?;
        let body = [text.as_str()];
        let buttons = [self.quit_button(), self.go_back_button()];
        let dialog = self.dialog(&body, &buttons);
        dialog.push_rects(alloc, rects, screen)
    }
}

impl Component for QuitDialog {
    type Id = ComponentId;

    ghost use Rattle.scm_widgets.specs.declared.ids.ComponentId.TheVariants as ids;
    ghost use Rattle.scm_overlay.specs.Tables.{quit_dialog, named_dialog_picture};

    ghost key = { λ q. ids.QuitDialog };

    ghost picture = { λ q s x y. named_dialog_picture (quit_dialog q) s };

    ghost rows = { λ q s x y. 0 };

    ghost calls = { λ q s x y. 3 };

    fn id(&self) -> ComponentId {
        ComponentId::QuitDialog
    }

    /// Draws the dialog in the middle of the screen, whatever `x` and `y` are.
    fn draw(
        &self,
        alloc: Global,
        viewport: &mut Viewport<ComponentId>,
        x: isize,
        y: isize,
    ) -> Result<(), RecordError> {
        let text = self.text(alloc)?;
        let body = [text.as_str()];
        let buttons = [self.quit_button(), self.go_back_button()];
        let dialog = self.dialog(&body, &buttons);
        viewport.draw_part(x, y, &dialog)?;
        Ok(())
    }
}
