//! Laws of the view: theorems on its definitions, for each session that is drawn.
ghost use Rattle.scm_view.specs.AppView.{AppsAreInRange, AppsAreDrawnAlike};
ghost use Rattle.scm_view.specs.ComponentRanges.{ComponentsAreInRange};
ghost use Rattle.scm_view.specs.Laws.{ClearedGridsAreScreens, CommitsAreInRange, DocumentsArePainted, SectionsOwnTheirColumns};
ghost use Rattle.scm_widgets.specs.SameIds.{IdsAreToldApart};
ghost use Rattle.scm_view.specs.Window.{AppsHaveExtents, AppsShowWindows, AppsTakeFewCalls, ClicksFindOwners, KeysHaveRows};

/// Proves that all that a `CommitView` draws is in range, if it shows a commit of a session with an
/// accepted state.
///
/// These lie from 0 to `RecordState::MAX_SCROLL` + 131,072: the column and row that the view is
/// drawn at, the screen's first and end column, and the mask's first column and row (without a
/// mask, the screen's).
pub fn commits_are_in_range()
    ensures { CommitsAreInRange }
{}

/// Proves that drawing a commit makes each screen row inside the mask what the document's rows say,
/// and draws the pinned header over it.
///
/// - The document is drawn from column 0 on, and from row 0 or a later row.
/// - The screen has 10 to 65,535 columns, from column 0 on, all inside the mask.
/// - The mask has at most 65,535 rows, from row 0 or a later row.
pub fn documents_are_painted()
    ensures { DocumentsArePainted }
{}

/// Proves that the latest clickable box of a file's sections at a place is that of the owner that
/// their rows name. If the rows name no owner, there is no such box.
///
/// - The sections are of one file, in order, and their rows have the ids of their keys.
/// - They are drawn one below another, from column 2 on and from row 0 or a later row.
/// - The screen has ten columns or more, from column 0 on, all inside the mask.
/// - The place lies in one of these columns, on row 0 or a later row.
pub fn sections_own_their_columns()
    ensures { SectionsOwnTheirColumns }
{}

/// Proves that all that an `AppView` draws is in range, if it shows a session with an accepted
/// state. The screen has at most 65,535 columns and rows, and is scrolled by at most
/// `RecordState::MAX_SCROLL` rows.
pub fn apps_are_in_range()
    ensures { AppsAreInRange }
{}

/// All that a component draws is in range, on the screen or off it. This is the condition of its
/// `draw`, whoever calls it. "Near" is at most 2^50 columns or rows from column 0 or row 0, on
/// either side.
///
/// - The column and row that a component is drawn at are near. Dialogs need neither: they lie in
///   the middle of the screen. An `AppView` needs the column alone.
/// - Headers of files, lines, sections, files, messages and commits: the screen's first and end
///   column are near, and so are the mask's first column and row (without a mask, the screen's).
/// - Menu bars, dialogs and an `AppView`: the screen's first and end column, and its first and end
///   row, are near.
/// - Boxes, buttons and menus: no condition on the screen or the mask.
/// - An `AppView` need not show a session. The row below the screen's first row is near, and so is
///   column `x + width + 1` for its own column `x` and the screen's `width`.
/// - Paths, messages, and the texts of lines and of binary contents are within the limit of a
///   state's texts. So are the labels of menus, items and buttons.
/// - A section has at most 2^40 lines, and a file at most 2^40 sections and lines together. A
///   commit has at most 2^16 files. A menu bar has at most 1,000 menus, a menu at most 1,000 items,
///   and a dialog at most 1,000 buttons.
pub fn components_are_in_range()
    ensures { ComponentsAreInRange }
{}

/// Proves that `==` is true for two ids exactly if they are the same id. So laws on boxes apply to
/// the map that `render_top_level` returns.
pub fn ids_are_told_apart()
    ensures { IdsAreToldApart }
{}

/// Proves that a cleared grid whose first row shows row `scroll` of the document is the screen
/// there. It is in range with at most 65,535 columns and rows and a scroll of at most
/// `RecordState::MAX_SCROLL`. So laws on screens apply to the grid that `render_top_level` draws
/// on.
pub fn cleared_grids_are_screens()
    ensures { ClearedGridsAreScreens }
{}

/// Proves that what is drawn depends on the session alone: each `AppView` that shows a session
/// draws the same as the view that the definition makes of the session.
pub fn apps_are_drawn_alike()
    ensures { AppsAreDrawnAlike }
{}

/// Proves that drawing an inline `AppView` on a cleared screen leaves the window: each row shows
/// its layers, a later layer over an earlier one.
pub fn apps_show_windows()
    ensures { AppsShowWindows }
{}

/// Proves of an inline `AppView`: the latest clickable box at a place is that of the owner that the
/// layers name, on each row of the document and each column of the screen.
pub fn clicks_find_owners()
    ensures { ClicksFindOwners }
{}

/// Proves of an inline `AppView`: the box of each key covers the key's rows. A key without rows has
/// no box.
pub fn keys_have_rows()
    ensures { KeysHaveRows }
{}

/// Proves that the box of an inline `AppView` is as high as the least row range that holds the
/// document, the menu bar with its open menu, and the open dialogs.
pub fn apps_have_extents()
    ensures { AppsHaveExtents }
{}

/// Proves that drawing an inline `AppView` begins at most one row more than the screen has, for the
/// pinned header, and takes few drawing calls, however long the document is.
pub fn apps_take_few_calls()
    ensures { AppsTakeFewCalls }
{}
