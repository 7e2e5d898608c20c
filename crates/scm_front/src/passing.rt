//! What the layer says of an event that it hands in.
ghost use Rattle.std.specs.Prelude.{◌≡◌, is_some};
ghost use Rattle.scm_record.specs.Session.{message_of};
ghost use Rattle.scm_front.specs.Passing.{lacks_message, word_after};

use crate::begun::Begun;
use crate::clicking::item_at;
use crate::kept::{Notice, is_none};
use scm_record::Event;

/// Returns whether the first commit has a message.
fn has_message(session: &Begun<'_>) -> bool
    ensures { result ≡ is_some (message_of session.now.session 0) }
{
    session
        .live()
        .state()
        .commits
        .as_slice()
        .get(0)
        .is_some_and(|commit| commit.message.is_some())
}

/// Returns whether a request to edit a message does nothing for want of one.
fn lacks_message(session: &Begun<'_>) -> bool
    ensures { result ≡ lacks_message session.now }
{
    let is_open = session.live().view_state().quit_dialog.is_some();
    let has_message = has_message(session);
    !is_open & !has_message
}

/// Returns what the layer says after `session` handles `event`.
pub(crate) fn word_after(session: &Begun<'_>, event: Event) -> Notice
    ensures { result ≡ word_after session.now event }
{
    match event {
        Event::EditCommitMessage => {
            if lacks_message(session) {
                Notice::NoMessage
            } else {
                Notice::Nothing
            }
        }
        Event::Click { row, column } => {
            if is_none(item_at(session, row, column)) {
                Notice::Nothing
            } else {
                Notice::Pressed
            }
        }
        Event::None
        | Event::QuitAccept
        | Event::QuitCancel
        | Event::QuitInterrupt
        | Event::QuitEscape
        | Event::TakeScreenshot(_)
        | Event::Redraw
        | Event::EnsureSelectionInViewport
        | Event::ScrollUp
        | Event::ScrollDown
        | Event::PageUp
        | Event::PageDown
        | Event::FocusPrev
        | Event::FocusPrevSameKind
        | Event::FocusPrevPage
        | Event::FocusNext
        | Event::FocusNextSameKind
        | Event::FocusNextPage
        | Event::FocusInner
        | Event::FocusOuter { .. }
        | Event::ToggleItem
        | Event::ToggleItemAndAdvance
        | Event::ToggleAll
        | Event::ToggleAllUniform
        | Event::ExpandItem
        | Event::ExpandAll
        | Event::ToggleCommitViewMode
        | Event::Help => Notice::Nothing,
    }
}
