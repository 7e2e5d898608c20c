//! Laws of two commits beside each other: theorems on definitions, for each session that is shown.
ghost use Rattle.scm_beside_laws.specs.Laws.{AppsHaveExtentsBeside, AppsShowWindowsBeside, ClicksFindOwnersBeside, KeysHaveRowsBeside, WindowsBesideArePainted};

use scm_screen::laws::rows_show_layers;

/// Proves that drawing an `AppView` of two commits beside each other on a cleared screen leaves the window: each row
/// shows the layers of the first document, over them those of the second, and over both the menu bar and the dialogs.
pub fn apps_show_windows_beside()
    ensures { AppsShowWindowsBeside }
{
    rows_show_layers();
}

/// Proves that the window of two commits, at any size, is the first document painted on a blank screen, with the second
/// document over it, and the menu bar and the open dialogs over both.
pub fn windows_beside_are_painted()
    ensures { WindowsBesideArePainted }
{
    rows_show_layers();
}

/// Proves of an `AppView` of two commits beside each other: the latest clickable box at a place is that of the owner
/// that the layers name, on each row of the documents and each column of the screen.
pub fn clicks_find_owners_beside()
    ensures { ClicksFindOwnersBeside }
{}

/// Proves of an `AppView` of two commits beside each other: the box of each key covers the key's rows. A key without
/// rows has no box.
pub fn keys_have_rows_beside()
    ensures { KeysHaveRowsBeside }
{}

/// Proves that the box of an `AppView` of two commits beside each other is as high as the least row range that holds
/// both documents, the menu bar with its open menu, and the open dialogs.
pub fn apps_have_extents_beside()
    ensures { AppsHaveExtentsBeside }
{}
