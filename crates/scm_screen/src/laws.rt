//! Laws of windows: that of one commit is the inline window, and rows of documents are what their layers show.
ghost use Rattle.scm_screen.specs.Laws.{InlineExtentsAreWindows, InlineKeysAreWindows, InlineOwnersAreWindows, InlineRowsAreWindows, RowsShowInline, RowsShowLayers, WindowsArePainted};

/// Proves that the rows of one commit, on ten columns or more, are those of the inline window.
pub fn inline_rows_are_windows()
    ensures { InlineRowsAreWindows }
{}

/// Proves that the owners of one commit, on ten columns or more, are those of the inline window.
pub fn inline_owners_are_windows()
    ensures { InlineOwnersAreWindows }
{}

/// Proves that the rows of a key of one commit are those of the inline window.
pub fn inline_keys_are_windows()
    ensures { InlineKeysAreWindows }
{}

/// Proves that the extent of one commit, on ten columns or more, is that of the inline window.
pub fn inline_extents_are_windows()
    ensures { InlineExtentsAreWindows }
{}

/// Proves that each row of a document shows what the document's layers show there, in any area and at any size.
pub fn rows_show_layers()
    ensures { RowsShowLayers }
{}

/// Proves that each row of a document, on ten columns or more, shows what the layers of the inline window show
/// there.
pub fn rows_show_inline()
    ensures { RowsShowInline }
{}

/// Proves that the window of one commit, at any size, is its document painted on a blank screen, with the menu bar
/// and the open dialogs over it.
pub fn windows_are_painted()
    ensures { WindowsArePainted }
{}
