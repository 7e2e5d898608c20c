//! The view of a commit's message.
ghost use Rattle.std.specs.Prelude.{◌≡◌, ◌++◌, is_some, Some, OnOk};
ghost use Rattle.scm_document.specs.Counts.{message_counts};
ghost use Rattle.scm_document.specs.DocumentCalls.{beside_button_call, button_row_call, message_call};
ghost use Rattle.scm_document.specs.Pictures.{edit_button};
ghost use Rattle.scm_rows.specs.Heights.{message_height};
ghost use Rattle.scm_document.specs.HeaderRects.{message_rects};
ghost use Rattle.scm_document.specs.Texts.{divider_text, message_text};
ghost use Rattle.scm_render.specs.Draws.{CanDraw, HasDrawn};

use crate::texts::{divider_text, message_text};
use scm_cells::Span;
use scm_render::{Component, Viewport};
use scm_rows::message_rows::message_height;
use scm_types::{Commit, RecordError, Text};
use scm_widgets::button::Button;
use scm_widgets::clipped_drawing::{begin_row, show_blank_rest, show_button, show_span, show_text};
use scm_widgets::ids::ComponentId;
use scm_widgets::overlay_rects::{OverlayRect, row_overlay_rect};
use std::alloc::{AllocError, Global};

/// The message of a commit, with the button that edits it. Without a message, draws nothing.
#[derive(Drop)]
pub struct CommitMessageView<'a> {
    /// Index of the commit, counted from 0.
    pub commit_idx: usize,
    /// Commit whose message is shown.
    pub commit: &'a Commit,
}

/// Returns the button that edits the message of commit `commit_idx`.
fn edit_button(commit_idx: usize) -> Button<'static, ComponentId>
    ensures { result ≡ edit_button commit_idx }
{
    Button {
        id: ComponentId::CommitEditMessageButton(commit_idx),
        label: Text::from("Edit message"),
        is_focused: false,
    }
}

/// Draws a bullet and `text` to the right of the edit button, which is at column `x`.
fn draw_beside_button(
    viewport: &mut Viewport<ComponentId>,
    x: isize,
    y: isize,
    text: &str,
) -> Result<(), RecordError>
    requires { CanDraw viewport.old (beside_button_call text.now x y) }
    ensures { HasDrawn viewport.old viewport.new result (beside_button_call text.now x y) }
{
    show_span(viewport, x + 15, y, divider_text())?;
    show_text(viewport, x + 19, y, &[Span(text)])?;
    Ok(())
}

/// Draws the button that edits `message` and, to the right of it, the first line of `message`.
fn draw_button_row(
    viewport: &mut Viewport<ComponentId>,
    x: isize,
    y: isize,
    commit_idx: usize,
    message: &str,
) -> Result<(), RecordError>
    requires { CanDraw viewport.old (button_row_call commit_idx message.now x y) }
    ensures { HasDrawn viewport.old viewport.new result
        (button_row_call commit_idx message.now x y) }
{
    let button = edit_button(commit_idx);
    let text = message_text(message);
    begin_row(viewport, y);
    show_button(viewport, x, y, &button)?;
    draw_beside_button(viewport, x, y, text)?;
    Ok(())
}

/// Draws a message on three rows from row `y` on: a blank row, the button's row, and a blank row.
fn draw_message(
    viewport: &mut Viewport<ComponentId>,
    x: isize,
    y: isize,
    commit_idx: usize,
    message: &str,
) -> Result<(), RecordError>
    requires { CanDraw viewport.old (message_call commit_idx (Some message.now) x y) }
    ensures { HasDrawn viewport.old viewport.new result
        (message_call commit_idx (Some message.now) x y) }
{
    let row = y + 1;
    let below = y + 2;
    begin_row(viewport, y);
    show_blank_rest(viewport, x, y)?;
    draw_button_row(viewport, x, row, commit_idx, message)?;
    begin_row(viewport, below);
    show_blank_rest(viewport, x, below)?;
    Ok(())
}

impl<'a> CommitMessageView<'a> {
    /// Adds the overlay rectangle of the button that edits the message to `rects`, if there is a
    /// message.
    ///
    /// # Errors
    /// `AllocError`: an allocation failed.
    pub fn push_rects(&self, rects: &mut Vec<OverlayRect>) -> Result<(), AllocError>
        ensures ok { OnOk result (rects.new.items ≡ rects.old.items
            ++ message_rects self.now.commit_idx (is_some self.now.commit.now.message)) }
    {
        match self.commit.message {
            None => Ok(()),
            Some(_) => {
                let id = ComponentId::CommitEditMessageButton(self.commit_idx);
                rects.push(row_overlay_rect(id, 2, 0, 14))?;
                Ok(())
            }
        }
    }

    /// Returns how many rows the message has: three, or none without a message.
    pub fn height(&self) -> usize
        ensures { result ≡ message_height self.now.commit.now.message }
    {
        message_height(self.commit)
    }
}

impl<'a> Component for CommitMessageView<'a> {
    type Id = ComponentId;

    ghost use Rattle.scm_document.specs.Pictures.{commit_message_picture};
    ghost use Rattle.scm_widgets.specs.declared.ids.ComponentId.TheVariants as ids;

    ghost key = { λ v. ids.CommitMessageView };

    ghost picture = { commit_message_picture };

    ghost rows = { λ v s x y. (message_counts v.commit.now.message s.rect y).rows };

    ghost calls = { λ v s x y. (message_counts v.commit.now.message s.rect y).calls };

    fn id(&self) -> ComponentId {
        ComponentId::CommitMessageView
    }

    fn draw(
        &self,
        alloc: Global,
        viewport: &mut Viewport<ComponentId>,
        x: isize,
        y: isize,
    ) -> Result<(), RecordError> {
        match &self.commit.message {
            None => Ok(()),
            Some(message) => draw_message(viewport, x, y, self.commit_idx, message.as_str()),
        }
    }
}
