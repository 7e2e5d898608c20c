//! Each kind of row, painted over a row of dots.
use crate::cells::grid_with;
use crate::checks::{check_equal, check_that, check_view, made};
use crate::row_samples::{What, shown};
use scm_cells::Grid;
use scm_strips::{Area, Shown, paint_row};
use std::alloc::Global;
use std::process::Abort;

/// A row, the first column and the width of its area, what 24 columns show, and the draw calls.
type Painted = (What, usize, usize, &'static str, usize);

/// Each kind of row in 20 columns, then areas that cut it.
const PAINTED: &[Painted] = &[
    (
        What::File("src/main.rs"),
        2,
        20,
        "\"..[ ] src/main.rs  [-]..\"\n",
        4,
    ),
    (
        What::Renamed("a", "b"),
        2,
        20,
        "\"..[ ] a => b       [-]..\"\n",
        4,
    ),
    (
        What::Section(1, 2),
        2,
        20,
        "\"....[●] Section 1/2[+]..\"\n",
        4,
    ),
    (
        What::Added("abc\n"),
        2,
        20,
        "\"......[ ].+ abc⏎........\"\n",
        2,
    ),
    (What::Deleted, 2, 20, "\"....[ ].File deleted....\"\n", 2),
    (
        What::Context(12, "abc\n"),
        2,
        20,
        "\"......   12 abc⏎........\"\n",
        1,
    ),
    (What::Dots, 2, 20, "\"..........⋮.............\"\n", 1),
    (What::Blank, 2, 20, "\"....                  ..\"\n", 1),
    (
        What::Message("Fix it"),
        2,
        20,
        "\"..[Edit message]. • .…..\"\n",
        3,
    ),
    (What::Margin, 2, 20, "\"..                    ..\"\n", 1),
    (What::Words, 2, 20, "\"..There are no change…..\"\n", 1),
    (
        What::File("src/a_long_name.rs"),
        2,
        20,
        "\"..[ ] src/a_long_n…[-]..\"\n",
        4,
    ),
    (
        What::Added("0123456789abcdef\n"),
        2,
        20,
        "\"......[ ].+ 012345678…..\"\n",
        2,
    ),
    (
        What::Added("01234567\n"),
        2,
        6,
        "\"......[…................\"\n",
        2,
    ),
    (
        What::Context(7, "\tb\n"),
        2,
        14,
        "\"......    7 →  …........\"\n",
        1,
    ),
    (What::File("a"), 2, 1, "\"..].....................\"\n", 4),
    (
        What::Section(1, 2),
        2,
        4,
        "\"...[+]..................\"\n",
        4,
    ),
    (What::Deleted, 2, 0, "\"........................\"\n", 2),
];

/// Returns a grid of 24 columns and a row of dots, on which `shown` is painted in `area`.
pub(crate) fn painted(rt: &impl Abort, alloc: Global, area: Area, shown: &Shown<'_>) -> Grid {
    let mut grid = grid_with(rt, alloc, 24, 1, "........................");
    check_that(rt, 0 < grid.height());
    check_that(rt, area.left <= grid.width());
    check_that(rt, area.width <= grid.width() - area.left);
    made(rt, paint_row(alloc, &mut grid, 0, area, shown));
    grid
}

/// Paints a row over dots, and checks what the screen shows and counts.
fn check_painted(rt: &impl Abort, alloc: Global, row: Painted) {
    let (what, left, width, view, calls) = row;
    let grid = painted(rt, alloc, Area { left, width }, &shown(what));
    check_view(rt, &grid, view);
    check_equal(
        rt,
        (view, grid.rows_drawn(), grid.calls()),
        (view, 1, calls),
    );
}

#[test]
fn rows_are_painted_in_their_area(rt: HostRuntime) {
    for row in PAINTED {
        check_painted(&rt, rt.alloc(), *row);
    }
}
