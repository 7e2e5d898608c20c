//! The whole view of a state, drawn alone: on the screen, off it and under a mask, and how much it
//! draws.
ghost use Rattle.std.specs.Prelude.{IsTrue};
ghost use Rattle.scm_types.specs.Limits.{is_accepted_state};
ghost use Rattle.scm_view.specs.ComponentRanges.{IsShortApp};
ghost use Rattle.scm_screen_tests.specs.Small.{AreSmallCommits};

use crate::alone::{check_drawing, check_near, check_sight, has_short_menus, viewport_under};
use crate::checks::made;
use crate::painted::draw;
use crate::views::{check_commit, check_screen};
use scm_cells::Grid;
use scm_render::Viewport;
use scm_samples::{ADDED, file_with};
use scm_selection::KeySet;
use scm_types::{Items, RecordError, RecordState};
use scm_view::{AppView, CommitView, ComponentId, SelectionKey, laws};
use scm_view_state::ViewState;
use std::alloc::Global;
use std::process::Abort;

/// Returns a view state over one file with an added line, which is unchecked, with all files folded.
fn sample(rt: &impl Abort, alloc: Global) -> ViewState<'static> {
    let file = made(rt, file_with(alloc, &["a\n"], &[(false, ADDED, "b\n")]));
    let state = RecordState {
        is_read_only: false,
        commits: Items::new(alloc),
        files: Items::from(made(rt, vec![in alloc; file])),
    };
    ViewState::new(state, SelectionKey::None, KeySet::new(alloc))
}

/// The first row of the document on the screen, the screen's rows, and the counted rows and calls.
type Row = (usize, &'static str, (usize, usize));

/// Draws `view_state` as `row` says, on 30 columns and 3 rows. Checks the screen and the counts.
fn check_app(rt: &impl Abort, alloc: Global, view_state: &ViewState<'_>, row: Row)
    requires { IsTrue (is_accepted_state view_state.now.state) }
{
    let mut grid = made(rt, Grid::new(alloc, 30, 3));
    let _ = made(rt, draw(rt, alloc, view_state, &mut grid, row.0));
    check_screen(rt, &grid, row.1, row.2);
}

/// The menu bar.
const BAR: &str = "[File] [Edit] [Select] [View]\n\n\n";

/// The menu bar, and the header of a file.
const HEADER: &str = "[File] [Edit] [Select] [View]\n[ ] f                      [+]\n\n";

/// The menu bar takes a blank and four titles at any scroll. The header is a row of four calls if
/// it is on the screen, even where the menu bar hides it on the first row.
const ROWS: &[Row] = &[
    (0, HEADER, (1, 9)),
    (1, BAR, (1, 9)),
    (2, BAR, (0, 5)),
    (1000, BAR, (0, 5)),
];

#[test]
fn apps_are_drawn_alone(rt: HostRuntime) {
    let view_state = sample(&rt, rt.alloc());
    assert!(&rt; view_state.state.is_accepted());
    for row in ROWS {
        check_app(&rt, rt.alloc(), &view_state, *row);
    }
}

// ---- under a mask

/// Checks that commits have no message, and few and small files.
fn check_commits(rt: &impl Abort, views: &[CommitView<'_>])
    ensures { AreSmallCommits views.now }
{
    for view in views {
        check_commit(rt, view);
    }
}

/// Checks that `view` has short menus, and small commits.
fn check_view(rt: &impl Abort, view: &AppView<'_>)
    ensures { IsShortApp view.now }
{
    let menus = view.menu_bar.menus.as_slice();
    assert!(rt; menus.len() <= 1000);
    assert!(rt; has_short_menus(menus));
    let commits = view.commit_views.as_slice();
    check_commits(rt, commits);
}

/// Draws `view` from column `x` on.
fn draw_view(rt: &impl Abort, viewport: &mut Viewport<ComponentId>, x: isize, view: &AppView<'_>) {
    check_sight(rt, viewport);
    check_near(rt, x);
    check_view(rt, view);
    laws::components_are_in_range();
    scm_render::laws::parts_are_in_range::<ComponentId>();
    let _ = made(rt, viewport.draw_component(x, 0, view));
}

/// Draws `view_state` from column `x` on.
fn draw_state(
    rt: &impl Abort,
    alloc: Global,
    viewport: &mut Viewport<ComponentId>,
    x: isize,
    view_state: &ViewState<'_>,
) -> Result<(), RecordError> {
    assert!(rt; view_state.state.is_accepted());
    let view = view_state.app_view(alloc)?;
    draw_view(rt, viewport, x, &view);
    Ok(())
}

/// A mask's first column and its number of columns, the view's first column, and the screen's rows.
type Masked = (isize, usize, isize, &'static str);

/// Draws `view_state` as `row` says, on 20 columns and 3 rows. Checks the screen.
fn check_masked(rt: &impl Abort, alloc: Global, view_state: &ViewState<'_>, row: Masked) {
    let mut viewport = viewport_under(rt, alloc, row.0, row.1);
    made(rt, draw_state(rt, alloc, &mut viewport, row.2, view_state));
    check_drawing(rt, viewport, row.3, (1, 9));
}

/// The mask clips the menu bar. The document sets a mask of its own, which replaces it.
const MASKED: &[Masked] = &[
    (0, 20, 0, "[File] [Edit] [Selec\n[ ] f            [+]\n\n"),
    (4, 2, 0, "    e]\n[ ] f            [+]\n\n"),
    (0, 0, 0, "\n[ ] f            [+]\n\n"),
    (0, 20, -3, "le] [Edit] [Select]\n f            [+]\n\n"),
];

#[test]
fn apps_are_drawn_under_masks(rt: HostRuntime) {
    let view_state = sample(&rt, rt.alloc());
    for row in MASKED {
        check_masked(&rt, rt.alloc(), &view_state, *row);
    }
}
