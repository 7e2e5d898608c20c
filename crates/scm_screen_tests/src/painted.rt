//! Painting a frame takes as many rows and calls as drawing its components, from any row on. What is
//! drawn has owners.
ghost use Rattle.std.specs.Prelude.{IsTrue};
ghost use Rattle.scm_types.specs.Limits.{is_accepted_state};

use crate::checks::{check_equal, made};
use crate::index::{owned_place, screen_of};
use crate::shown::{owner_of, shown};
use scm_cells::Grid;
use scm_render::{DrawnRects, Viewport, find_target};
use scm_types::{RecordError, RecordState};
use scm_view::{CommitViewMode, ComponentId, laws};
use scm_view_state::ViewState;
use std::alloc::Global;
use std::process::Abort;

/// A row for each document: its state and what is changed of it in words, the screen's columns and
/// rows, and the number of scroll offsets to draw, from 0 on.
const FRAMES: &str = "
1h ~f0 @s0.1 on 24 8 7
x7y ~f0 @s0.0 on 24 14 14
!x7y0mb,t all on 10 2 31
!x7y0mb,t all menu2 quit help on 80 24 3
- help on 80 24 3
!k menu0 quit on 300 100 2
L ~f0 on 24 8 2
";

/// Paints one commit of `view_state` from row `scroll` on.
#[tactic(auto, unfolding(scm_types::specs::Limits::max_items, scm_types::specs::Limits::max_scroll))]
fn paint(
    rt: &impl Abort,
    alloc: Global,
    view_state: &ViewState<'_>,
    grid: &mut Grid,
    scroll: usize,
) -> Result<(), RecordError> {
    assert!(rt; view_state.state.is_accepted());
    assert!(rt; 10 <= grid.width());
    assert!(rt; 2 <= grid.height());
    assert!(rt; scroll <= RecordState::MAX_SCROLL);
    let view = view_state.app_view(alloc)?;
    assert!(rt; matches!(&view.commit_view_mode, CommitViewMode::Inline));
    view.paint(alloc, grid, scroll)
}

/// Draws one commit of `view_state` by its components, on a cleared grid from row `scroll` on.
/// Returns the boxes.
#[tactic(auto, unfolding(scm_types::specs::Limits::max_items, scm_types::specs::Limits::max_scroll))]
pub(crate) fn draw(
    rt: &impl Abort,
    alloc: Global,
    view_state: &ViewState<'_>,
    grid: &mut Grid,
    scroll: usize,
) -> Result<DrawnRects<ComponentId>, RecordError>
    requires { IsTrue (is_accepted_state view_state.now.state) }
{
    assert!(rt; scroll <= RecordState::MAX_SCROLL);
    let view = view_state.app_view(alloc)?;
    laws::apps_are_in_range();
    assert!(rt; grid.width() <= 65_535);
    assert!(rt; grid.height() <= 65_535);
    grid.clear();
    Viewport::render_top_level(alloc, grid, 0, scroll as isize, &view)
}

/// The columns and rows of a screen.
type Size = (u16, u16);

/// Returns the rows and the calls that painting takes.
fn painted_counts(
    rt: &impl Abort,
    alloc: Global,
    view_state: &ViewState<'_>,
    size: Size,
    scroll: usize,
) -> (usize, usize) {
    let mut grid = made(rt, Grid::new(alloc, size.0, size.1));
    made(rt, paint(rt, alloc, view_state, &mut grid, scroll));
    (grid.rows_drawn(), grid.calls())
}

/// Returns the rows and the calls that drawing takes.
fn drawn_counts(
    rt: &impl Abort,
    alloc: Global,
    view_state: &ViewState<'_>,
    size: Size,
    scroll: usize,
) -> (usize, usize)
    requires { IsTrue (is_accepted_state view_state.now.state) }
{
    let mut grid = made(rt, Grid::new(alloc, size.0, size.1));
    let _ = made(rt, draw(rt, alloc, view_state, &mut grid, scroll));
    (grid.rows_drawn(), grid.calls())
}

/// Checks that painting takes as many rows and calls as drawing, from each row before `end` on.
fn check_frames(rt: &impl Abort, alloc: Global, view_state: &ViewState<'_>, size: Size, end: usize)
    requires { IsTrue (is_accepted_state view_state.now.state) }
{
    for scroll in 0..end {
        let painted = painted_counts(rt, alloc, view_state, size, scroll);
        let drawn = drawn_counts(rt, alloc, view_state, size, scroll);
        check_equal(rt, (size, scroll, painted), (size, scroll, drawn));
    }
}

/// Checks a row of the table.
fn check_row(rt: &impl Abort, alloc: Global, row: &str) {
    let (words, screen) = row.split_once(" on ").unwrap_or((row, ""));
    let (size, end) = screen_of(screen);
    let view_state = shown(rt, alloc, words);
    assert!(rt; view_state.state.is_accepted());
    check_frames(rt, alloc, &view_state, size, end);
}

#[test]
fn frames_are_painted_as_they_are_drawn(rt: HostRuntime) {
    for row in FRAMES.lines() {
        if !row.is_empty() {
            check_row(&rt, rt.alloc(), row);
        }
    }
}

/// Rows of the document, columns, and the owners there. The screen shows the document from row 1 on:
/// the menu bar is there, and below it the sticky header of the file.
const OWNERS: &str =
    "0:0=- 1:0=menu0 1:6=bar 2:1=tf0 2:10=h0 2:22=ef0 3:3=ts0.1 3:10=s0.1 3:22=es0.1 4:5=tl0.1.0 4:10=l0.1.0 6:10=-";

/// Checks the owner of each place among `boxes`.
fn check_owners(rt: &impl Abort, boxes: &DrawnRects<ComponentId>) {
    laws::ids_are_told_apart();
    for word in OWNERS.split(' ') {
        let (row, column, owner) = owned_place(word);
        let found = find_target(boxes, row.min(100) as isize, column.min(100) as isize);
        check_equal(rt, (word, found), (word, owner_of(owner)));
    }
}

#[test]
fn places_have_owners(rt: HostRuntime) {
    let view_state = shown(&rt, rt.alloc(), "1h ~f0 @none");
    assert!(&rt; view_state.state.is_accepted());
    let mut grid = made(&rt, Grid::new(rt.alloc(), 24, 8));
    let boxes = made(&rt, draw(&rt, rt.alloc(), &view_state, &mut grid, 1));
    check_owners(&rt, &boxes);
}
