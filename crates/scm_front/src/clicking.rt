//! A click on the box of an item: the first one selects the item, and the second one acts on the box.
ghost use Rattle.std.specs.Prelude.{◌≡◌, ◌&&◌, []};
ghost use Rattle.scm_front.specs.Clicking.{box_at, box_of, is_same_box, item_at, item_of, merely_selects};

use crate::begun::Begun;
use scm_record::keys::is_key;
use scm_record::{ComponentId, SelectionKey};

/// A box of an item.
#[derive(Clone, Copy)]
pub(crate) enum ItemBox {
    /// No box.
    Absent,
    /// The checkbox of the item.
    Mark(SelectionKey),
    /// The fold box of the item.
    Fold(SelectionKey),
}

/// Returns the box of an item that `owner` is, if it is one.
fn box_of(owner: Option<ComponentId>) -> ItemBox
    ensures { result ≡ box_of owner }
{
    match owner {
        Some(ComponentId::ToggleBox(key)) => ItemBox::Mark(key),
        Some(ComponentId::ExpandBox(key)) => ItemBox::Fold(key),
        None
        | Some(
            ComponentId::App
            | ComponentId::AppFiles
            | ComponentId::CommitMessageView
            | ComponentId::CommitEditMessageButton(_)
            | ComponentId::MenuBar
            | ComponentId::MenuHeader
            | ComponentId::Menu(_)
            | ComponentId::MenuItem(_)
            | ComponentId::SelectableItem(_)
            | ComponentId::FileViewHeader(_)
            | ComponentId::QuitDialog
            | ComponentId::QuitDialogButton(_)
            | ComponentId::HelpDialog
            | ComponentId::HelpDialogQuitButton,
        ) => ItemBox::Absent,
    }
}

/// Returns the box that a click at `row` and `column` of the screen hits, if it hits one.
pub(crate) fn box_at(session: &Begun<'_>, row: usize, column: usize) -> ItemBox
    ensures value { result ≡ box_at session.now row column }
    ensures calm { session.now.session.pending ≡ [] }
{
    box_of(session.live().owner(row, column))
}

/// Returns the item of `owner` that a click can select, or `None`.
fn item_of(owner: Option<ComponentId>) -> SelectionKey
    ensures { result ≡ item_of owner }
{
    match owner {
        Some(
            ComponentId::ToggleBox(key)
            | ComponentId::ExpandBox(key)
            | ComponentId::SelectableItem(key),
        ) => key,
        Some(ComponentId::FileViewHeader(key)) => SelectionKey::File(key),
        None
        | Some(
            ComponentId::App
            | ComponentId::AppFiles
            | ComponentId::CommitMessageView
            | ComponentId::CommitEditMessageButton(_)
            | ComponentId::MenuBar
            | ComponentId::MenuHeader
            | ComponentId::Menu(_)
            | ComponentId::MenuItem(_)
            | ComponentId::QuitDialog
            | ComponentId::QuitDialogButton(_)
            | ComponentId::HelpDialog
            | ComponentId::HelpDialogQuitButton,
        ) => SelectionKey::None,
    }
}

/// Returns the item that a click at `row` and `column` of the screen hits, or `None`.
pub(crate) fn item_at(session: &Begun<'_>, row: usize, column: usize) -> SelectionKey
    ensures { result ≡ item_at session.now row column }
{
    item_of(session.live().owner(row, column))
}

/// Returns whether a click on `given` merely selects its item: another item is selected.
pub(crate) fn merely_selects(selection: SelectionKey, given: ItemBox) -> bool
    ensures { result ≡ merely_selects selection given }
{
    match given {
        ItemBox::Absent => false,
        ItemBox::Mark(key) | ItemBox::Fold(key) => !is_key(key, selection),
    }
}

/// Returns whether `first` is a box, and `second` is the same box.
fn is_same_box(first: ItemBox, second: ItemBox) -> bool
    ensures { result ≡ is_same_box first second }
{
    match (first, second) {
        (ItemBox::Mark(key), ItemBox::Mark(other)) => is_key(key, other),
        (ItemBox::Fold(key), ItemBox::Fold(other)) => is_key(key, other),
        (ItemBox::Absent, _) => false,
        (ItemBox::Mark(_), ItemBox::Absent | ItemBox::Fold(_)) => false,
        (ItemBox::Fold(_), ItemBox::Absent | ItemBox::Mark(_)) => false,
    }
}

/// Returns whether a click that led to `next` merely selected the item of the box `first`, and the box is at
/// the place of the click then.
pub(crate) fn is_half(
    is_selecting: bool,
    first: ItemBox,
    next: &Begun<'_>,
    row: usize,
    column: usize,
) -> bool
    ensures { result ≡ (is_selecting && is_same_box first (box_at next.now row column)) }
{
    let second = box_at(next, row, column);
    let is_there = is_same_box(first, second);
    is_selecting & is_there
}
