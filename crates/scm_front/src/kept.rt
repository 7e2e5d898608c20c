//! What the layer keeps beside the session and the text that is searched for.
ghost use Rattle.std.specs.Prelude.{◌≡◌};
ghost use Rattle.scm_selection.specs.KeyLists.{is_line};
ghost use Rattle.scm_front.specs.Keeping.{is_none};

use crate::actions::OwnKey;
use scm_front_items::History;
use scm_record::{Items, SelectionKey};
use std::alloc::Global;

/// What the layer says until the next key.
#[derive(Clone, Copy, Debug, PartialEq, Eq)]
pub enum Notice {
    /// Nothing.
    Nothing,
    /// Nothing; the last key was a click on an item.
    Pressed,
    /// A text is being typed.
    Asking,
    /// The last search did not get to an item.
    NotFound,
    /// The last search went on at the first item.
    FromTop,
    /// The last search went on at the last item.
    FromEnd,
    /// A range is begun.
    Range,
    /// No range was begun, since no line is selected.
    NoLine,
    /// No message was edited, since there is none.
    NoMessage,
    /// The last change of marks is undone.
    Undone,
    /// What was undone last is done again.
    Redone,
    /// No change of marks is left to undo.
    NothingToUndo,
    /// Nothing that was undone is left to do again.
    NothingToRedo,
    /// The marks could not be made what they were. No change is left to undo.
    NotRestored,
}

/// What the layer keeps beside the session and the text that is searched for.
#[derive(Drop)]
pub struct Kept {
    /// The line at which a range is begun, or `None` if there is no range.
    pub anchor: SelectionKey,
    /// What the layer says of the last key.
    pub word: Notice,
    /// The keys of the user's own.
    pub keys: Items<OwnKey>,
    /// The marks before the last actions.
    pub history: History,
    /// The allocator of the layer.
    pub alloc: Global,
}

/// Returns whether `key` is that of a line.
pub(crate) fn is_line(key: SelectionKey) -> bool
    ensures { result ≡ is_line key }
{
    match key {
        SelectionKey::Line(_) => true,
        SelectionKey::None | SelectionKey::File(_) | SelectionKey::Section(_) => false,
    }
}

/// Returns whether `key` names nothing.
pub(crate) fn is_none(key: SelectionKey) -> bool
    ensures { result ≡ is_none key }
{
    match key {
        SelectionKey::None => true,
        SelectionKey::File(_) | SelectionKey::Section(_) | SelectionKey::Line(_) => false,
    }
}
