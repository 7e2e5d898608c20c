//! Documents by their rows: what each row shows, painted over a row of dots, and screens of documents.
ghost use Rattle.std.specs.Prelude.{◌≡◌, IsTrue};
ghost use Rattle.scm_layout.specs.Layouts.{layout_of};
ghost use Rattle.scm_types.specs.Limits.{is_accepted_state};

use crate::checks::{check_equal, check_that, check_view, made};
use crate::rows::painted;
use crate::states::{Part, state_of};
use scm_cells::Grid;
use scm_layout::Layout;
use scm_samples::{ADDED, REMOVED};
use scm_screen::{document_row, paint_document, paint_window, pinned_header};
use scm_selection::key_set::key_set_of;
use scm_strips::{Area, Shown};
use scm_types::{FileKey, LineKey, RecordError, RecordState, SectionKey, SelectionKey};
use scm_view::CommitViewMode;
use scm_view_state::ViewState;
use std::alloc::Global;
use std::process::Abort;

/// The file of the rows.
const FILE: FileKey = FileKey {
    commit_idx: 0,
    file_idx: 0,
};

/// Its changed lines, which are unfolded.
const CHANGED: SectionKey = SectionKey {
    commit_idx: 0,
    file_idx: 0,
    section_idx: 1,
};

/// The first of them, which is selected.
const SELECTED: LineKey = LineKey {
    commit_idx: 0,
    file_idx: 0,
    section_idx: 1,
    line_idx: 0,
};

/// All 24 columns.
const AREA: Area = Area { left: 0, width: 24 };

/// A row of the document, and what it shows.
type Row = (usize, &'static str);

/// Each row of a message and of a file with four sections, and a row above and below them.
const ROWS: &[Row] = &[
    (0, ""),
    (1, "\"                        \"\n"),
    (2, "\"[Edit message]. • .mess…\"\n"),
    (3, "\"                        \"\n"),
    (4, "\"[◐] f                [-]\"\n"),
    (5, "\"........⋮...............\"\n"),
    (6, "\"....    3 c⏎............\"\n"),
    (7, "\"....    4 d⏎............\"\n"),
    (8, "\"....    5 e⏎............\"\n"),
    (9, "\"..[◐] Section 1/3    [-]\"\n"),
    (10, "\"....(●).+ new⏎..........\"\n"),
    (11, "\"....[ ].- old⏎..........\"\n"),
    (12, "\"..[●].File deleted......\"\n"),
    (13, "\"..[ ].(binary contents:…\"\n"),
    (14, ""),
];

/// The headers that are pinned on rows.
const PINNED: &[Row] = &[
    (4, ""),
    (5, "\"[◐] f                [-]\"\n"),
    (13, "\"[◐] f                [-]\"\n"),
    (14, ""),
];

/// A row of the document, and what a screen of five rows shows whose first row shows it.
const SCREENS: &[Row] = &[
    (
        0,
        "\"                        \"\n\"                        \"\n\"[Edit message]  •  mess…\"\n\"                        \"\n\"[◐] f                [-]\"\n",
    ),
    (
        8,
        "\"        5 e⏎            \"\n\"[◐] f                [-]\"\n\"    (●) + new⏎          \"\n\"    [ ] - old⏎          \"\n\"  [●] File deleted      \"\n",
    ),
    (
        13,
        "\"  [ ] (binary contents:…\"\n\"                        \"\n\"                        \"\n\"                        \"\n\"                        \"\n",
    ),
];

/// What such a screen shows of a document without files, whose message the empty-state text lies over.
const BARE: &[Row] = &[
    (
        0,
        "\"                        \"\n\"                        \"\n\"There are no changes to…\"\n\"                        \"\n\"                        \"\n",
    ),
    (
        3,
        "\"                        \"\n\"                        \"\n\"                        \"\n\"                        \"\n\"                        \"\n",
    ),
];

/// What such a screen shows with the menu bar, if its first row is row 8.
const WINDOW: &str =
    "\"[File] [Edit] [Select] [\"\n\"[◐] f                [-]\"\n\"    (●) + new⏎          \"\n\"    [ ] - old⏎          \"\n\"  [●] File deleted      \"\n";

/// The rows and draw calls that it counts: a pinned header and three rows, and the menu bar.
const COUNTS: (usize, usize) = (4, 15);

/// A section of each kind.
const PARTS: &[Part] = &[
    Part::Context(&["a\n", "b\n", "c\n", "d\n", "e\n"]),
    Part::Changes(&[(true, ADDED, "new\n"), (false, REMOVED, "old\n")]),
    Part::Deletion,
    Part::Bytes(false),
];

/// The keys of the file and of its changed lines.
const UNFOLDED: &[SelectionKey] = &[SelectionKey::File(FILE), SelectionKey::Section(CHANGED)];

/// Returns a view state of a file of `parts`, if there are any, in which the changed lines are unfolded.
fn view_state(rt: &impl Abort, alloc: Global, parts: &[Part]) -> ViewState<'static> {
    let unfolded = made(rt, key_set_of(alloc, UNFOLDED));
    let selected = SelectionKey::Line(SELECTED);
    ViewState::new(state_of(rt, alloc, parts), selected, unfolded)
}

/// Checks what `what` shows, painted over dots. Nothing shows an empty text.
fn check_row(rt: &impl Abort, alloc: Global, what: &Option<Shown<'_>>, row: Row) {
    match what {
        None => check_equal(rt, row, (row.0, "")),
        Some(shown) => check_view(rt, &painted(rt, alloc, AREA, shown), row.1),
    }
}

/// Checks the rows of a document.
fn check_rows(rt: &impl Abort, alloc: Global, shown: &ViewState<'_>, layout: &Layout)
    requires accepted { IsTrue (is_accepted_state shown.now.state) }
    requires layout { layout.now ≡ layout_of shown.now.state shown.now.expanded }
{
    for row in ROWS {
        check_row(rt, alloc, &document_row(&*shown, layout, row.0), *row);
    }
}

/// Checks the pinned headers of a document.
fn check_pinned(rt: &impl Abort, alloc: Global, shown: &ViewState<'_>, layout: &Layout)
    requires accepted { IsTrue (is_accepted_state shown.now.state) }
    requires layout { layout.now ≡ layout_of shown.now.state shown.now.expanded }
{
    for row in PINNED {
        check_row(rt, alloc, &pinned_header(&*shown, layout, row.0), *row);
    }
}

/// Checks a screen of a document.
#[tactic(auto, unfolding(scm_types::specs::Limits::max_items, scm_types::specs::Limits::max_scroll))]
fn check_screen(rt: &impl Abort, alloc: Global, shown: &ViewState<'_>, layout: &Layout, screen: Row)
    requires accepted { IsTrue (is_accepted_state shown.now.state) }
    requires layout { layout.now ≡ layout_of shown.now.state shown.now.expanded }
{
    let (scroll, expected) = screen;
    check_that(rt, scroll <= RecordState::MAX_SCROLL);
    let mut grid = made(rt, Grid::new(alloc, 24, 5));
    check_that(rt, 24 <= grid.width());
    made(
        rt,
        paint_document(alloc, &mut grid, AREA, &*shown, layout, scroll),
    );
    check_view(rt, &grid, expected);
}

/// Checks screens of a document.
fn check_screens(
    rt: &impl Abort,
    alloc: Global,
    shown: &ViewState<'_>,
    screens: &[Row],
) -> Result<(), RecordError> {
    assert!(rt; shown.state.is_accepted());
    let layout = shown.layout(alloc)?;
    for screen in screens {
        check_screen(rt, alloc, shown, &layout, *screen);
    }
    Ok(())
}

/// Checks the rows and the pinned headers of a document.
fn check_document(
    rt: &impl Abort,
    alloc: Global,
    shown: &ViewState<'_>,
) -> Result<(), RecordError> {
    assert!(rt; shown.state.is_accepted());
    let layout = shown.layout(alloc)?;
    check_rows(rt, alloc, shown, &layout);
    check_pinned(rt, alloc, shown, &layout);
    Ok(())
}

/// Checks a screen of a document with its menu bar, from row 8 on.
#[tactic(auto, unfolding(scm_types::specs::Limits::max_items, scm_types::specs::Limits::max_scroll))]
fn check_overlaid(
    rt: &impl Abort,
    alloc: Global,
    shown: &ViewState<'_>,
    layout: &Layout,
) -> Result<(), RecordError>
    requires accepted { IsTrue (is_accepted_state shown.now.state) }
    requires layout { layout.now ≡ layout_of shown.now.state shown.now.expanded }
{
    assert!(rt; matches!(&shown.view_mode, CommitViewMode::Inline));
    let view = shown.overlay_view(alloc)?;
    let mut grid = made(rt, Grid::new(alloc, 24, 5));
    check_that(rt, 10 <= grid.width());
    check_that(rt, 2 <= grid.height());
    made(
        rt,
        paint_window(alloc, &mut grid, &*shown, layout, &view, 8),
    );
    check_view(rt, &grid, WINDOW);
    check_equal(rt, (grid.rows_drawn(), grid.calls()), COUNTS);
    Ok(())
}

/// Checks a window of a document.
fn check_window(rt: &impl Abort, alloc: Global, shown: &ViewState<'_>) -> Result<(), RecordError> {
    assert!(rt; shown.state.is_accepted());
    let layout = shown.layout(alloc)?;
    check_overlaid(rt, alloc, shown, &layout)
}

#[test]
fn rows_of_documents_are_found(rt: HostRuntime) {
    let shown = view_state(&rt, rt.alloc(), PARTS);
    made(&rt, check_document(&rt, rt.alloc(), &shown));
}

#[test]
fn documents_are_painted(rt: HostRuntime) {
    let shown = view_state(&rt, rt.alloc(), PARTS);
    made(&rt, check_screens(&rt, rt.alloc(), &shown, SCREENS));
    let bare = view_state(&rt, rt.alloc(), &[]);
    made(&rt, check_screens(&rt, rt.alloc(), &bare, BARE));
}

#[test]
fn windows_are_painted(rt: HostRuntime) {
    let shown = view_state(&rt, rt.alloc(), PARTS);
    made(&rt, check_window(&rt, rt.alloc(), &shown));
}
