//! The menus, and the event of each item. Menus and items count from 0.
ghost use Rattle.std.specs.Prelude.{◌≡◌, ◌++◌, ◌∷◌, [], IfOk, OnOk};
ghost use Rattle.scm_overlay.specs.Tables.{menu_in_bar, menus_with};
ghost use Rattle.scm_view_state.specs.Menus.{event_of_item, items_in, items_of_menu, menu_items, menu_of};

use scm_input::Event;
use scm_types::{Items, Text};
use scm_view::{Menu, MenuBar, MenuItem};
use std::alloc::{AllocError, Global};

/// The items of the menu `File`: labels and events.
const FILE_ROWS: [(&str, Event); 2] = [
    ("Confirm (c)", Event::QuitAccept),
    ("Quit (q)", Event::QuitCancel),
];

/// The items of the menu `Edit`.
const EDIT_ROWS: [(&str, Event); 5] = [
    ("Edit message (e)", Event::EditCommitMessage),
    ("Toggle current (space)", Event::ToggleItem),
    (
        "Toggle current and advance (enter)",
        Event::ToggleItemAndAdvance,
    ),
    ("Invert all items (a)", Event::ToggleAll),
    ("Invert all items uniformly (A)", Event::ToggleAllUniform),
];

/// The items of the menu `Select`.
const SELECT_ROWS: [(&str, Event); 9] = [
    ("Previous item (up, k)", Event::FocusPrev),
    ("Next item (down, j)", Event::FocusNext),
    (
        "Previous item of the same kind (page-up)",
        Event::FocusPrevSameKind,
    ),
    (
        "Next item of the same kind (page-down)",
        Event::FocusNextSameKind,
    ),
    (
        "Outer item without folding (shift-left, shift-h)",
        Event::FocusOuter {
            fold_section: false,
        },
    ),
    (
        "Outer item with folding (left, h)",
        Event::FocusOuter { fold_section: true },
    ),
    ("Inner item with unfolding (right, l)", Event::FocusInner),
    ("Previous page (ctrl-u)", Event::FocusPrevPage),
    ("Next page (ctrl-d)", Event::FocusNextPage),
];

/// The items of the menu `View`.
const VIEW_ROWS: [(&str, Event); 6] = [
    ("Fold/unfold current (f)", Event::ExpandItem),
    ("Fold/unfold all (F)", Event::ExpandAll),
    ("Scroll up (ctrl-up, ctrl-y)", Event::ScrollUp),
    ("Scroll down (ctrl-down, ctrl-e)", Event::ScrollDown),
    ("Previous page (ctrl-page-up, ctrl-b)", Event::PageUp),
    ("Next page (ctrl-page-down, ctrl-f)", Event::PageDown),
];

/// Returns the items of menu `menu`, or none if there is no such menu.
fn rows_of_menu(menu: usize) -> &'static [(&'static str, Event)]
    ensures { items_in result.now ≡ items_of_menu menu }
{
    match menu {
        0 => &FILE_ROWS,
        1 => &EDIT_ROWS,
        2 => &SELECT_ROWS,
        3 => &VIEW_ROWS,
        _ => &[],
    }
}

/// Returns the event of item `item` of menu `menu`, if there is one. Both count from 0.
pub fn event_of_item(menu: usize, item: usize) -> Option<Event>
    ensures { result ≡ event_of_item menu item }
{
    match rows_of_menu(menu).get(item) {
        Some((_, event)) => Some(*event),
        None => None,
    }
}

/// Returns the items of menu `menu`.
fn items_of(alloc: Global, menu: usize) -> Result<Items<MenuItem<'static>>, AllocError>
    ensures { IfOk result (λ items. items ≡ menu_items (items_of_menu menu)) }
{
    let rows = rows_of_menu(menu);
    let mut items = Vec::with_capacity(alloc, rows.len())?;
    for (item_label, _) in rows {
        items.push(MenuItem {
            label: Text::from(*item_label),
        })?;
    }
    Ok(Items::from(items))
}

/// Returns menu `menu` with the label `label`. It has items only if it is `open_menu`: those of a
/// closed menu are neither drawn nor hit by a click.
fn menu_of(
    alloc: Global,
    open_menu: Option<usize>,
    menu: usize,
    label: &'static str,
) -> Result<Menu<'static>, AllocError>
    ensures { IfOk result
        (λ m. m ≡ menu_in_bar open_menu menu (menu_of label.now (items_of_menu menu))) }
{
    let items = if open_menu == Some(menu) {
        items_of(alloc, menu)?
    } else {
        Items::new(alloc)
    };
    Ok(Menu {
        label: Text::from(label),
        items,
    })
}

/// Adds menu `menu` with the label `label` to `menus`.
fn push_menu(
    alloc: Global,
    menus: &mut Vec<Menu<'static>>,
    open_menu: Option<usize>,
    menu: usize,
    label: &'static str,
) -> Result<(), AllocError>
    ensures { OnOk result (menus.new.items ≡ menus.old.items
        ++ (menu_in_bar open_menu menu (menu_of label.now (items_of_menu menu)) ∷ [])) }
{
    menus.push(menu_of(alloc, open_menu, menu, label)?)?;
    Ok(())
}

/// Returns the menu bar, in which menu `open_menu` is open, if any. Only the open menu has items.
pub(crate) fn menu_bar(
    alloc: Global,
    open_menu: Option<usize>,
) -> Result<MenuBar<'static>, AllocError>
    ensures { IfOk result (λ bar. bar ≡ menus_with open_menu) }
{
    let mut menus: Vec<Menu<'static>> = Vec::with_capacity(alloc, 4)?;
    push_menu(alloc, &mut menus, open_menu, 0, "File")?;
    push_menu(alloc, &mut menus, open_menu, 1, "Edit")?;
    push_menu(alloc, &mut menus, open_menu, 2, "Select")?;
    push_menu(alloc, &mut menus, open_menu, 3, "View")?;
    Ok(MenuBar {
        menus: Items::from(menus),
        expanded_menu_idx: open_menu,
    })
}
