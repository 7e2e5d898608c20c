//! Components drawn over letters: what they blank, and what stays.
use crate::alone::{
    Place, Shown, check_drawing, check_near, check_shown, check_sight, viewport_on,
};
use crate::cells::{put, rect_of};
use crate::checks::{check_equal, made};
use crate::views::{check_section, middle_section_view};
use scm_cells::{Grid, Rect};
use scm_render::Viewport;
use scm_samples::context;
use scm_types::Section;
use scm_view::{ComponentId, SectionView, laws};
use std::alloc::Global;
use std::process::Abort;

/// A row of letters.
const LETTERS: &str = "abcdefghijklmnopqrst";

/// Returns a grid of 20 columns and 3 rows, each filled with the letters.
fn grid_of_letters(rt: &impl Abort, alloc: Global) -> Grid {
    let mut grid = made(rt, Grid::new(alloc, 20, 3));
    made(rt, put(rt, &mut grid, 0, 0, LETTERS, 0, 20));
    made(rt, put(rt, &mut grid, 1, 0, LETTERS, 0, 20));
    made(rt, put(rt, &mut grid, 2, 0, LETTERS, 0, 20));
    grid
}

// ---- messages

/// A place, the screen's rows, and the counted rows and calls.
type Over = (Place, &'static str, (usize, usize));

/// A message blanks its first and its third row from its column to the end of the mask. Letters
/// stay between the texts of the middle row.
const MESSAGES: &[Over] = &[
    ((0, 20, 0, 0), "\n[Edit message]o • s…\n\n", (3, 5)),
    ((0, 20, 4, 0), "abcd\nabcd[Edit message]s…\nabcd\n", (3, 5)),
    (
        (4, 8, 0, 0),
        "abcd        mnopqrst\nabcdt messa…mnopqrst\nabcd        mnopqrst\n",
        (3, 5),
    ),
    (
        (0, 4, 6, 0),
        "abcdefghijklmnopqrst\nabc…efghijklmnopqrst\nabcdefghijklmnopqrst\n",
        (3, 5),
    ),
    (
        (0, 20, 10, 2),
        "abcdefghijklmnopqrst\nabcdefghijklmnopqrst\nabcdefghij\n",
        (1, 1),
    ),
];

/// Draws a message over the letters, and checks the screen and the counts.
fn check_message(rt: &impl Abort, alloc: Global, row: Over) {
    let shown = (Shown::Message("hi"), row.0, row.1, row.2);
    check_shown(rt, alloc, grid_of_letters(rt, alloc), shown);
}

#[test]
fn messages_blank_their_first_and_third_row(rt: HostRuntime) {
    for row in MESSAGES {
        check_message(&rt, rt.alloc(), *row);
    }
}

// ---- sections of context

/// Draws a section, and returns its box.
fn draw_section(
    rt: &impl Abort,
    viewport: &mut Viewport<ComponentId>,
    x: isize,
    y: isize,
    view: &SectionView<'_>,
) -> Rect {
    check_sight(rt, viewport);
    check_near(rt, x);
    check_near(rt, y);
    check_section(rt, view);
    laws::components_are_in_range();
    scm_render::laws::parts_are_in_range::<ComponentId>();
    made(rt, viewport.draw_component(x, y, view))
}

/// Draws `section` as the middle one of a file, and returns its box.
fn draw_middle_section(
    rt: &impl Abort,
    viewport: &mut Viewport<ComponentId>,
    x: isize,
    y: isize,
    section: &Section<'_>,
) -> Rect {
    let view = middle_section_view(section);
    draw_section(rt, viewport, x, y, &view)
}

/// Returns a viewport over the letters, under the mask of `place`.
fn viewport_over_letters(rt: &impl Abort, alloc: Global, place: Place) -> Viewport<ComponentId> {
    let grid = grid_of_letters(rt, alloc);
    viewport_on(rt, alloc, grid, place.0, place.1)
}

/// Draws a section of context with `lines`, and returns its box.
fn draw_context(
    rt: &impl Abort,
    alloc: Global,
    viewport: &mut Viewport<ComponentId>,
    place: Place,
    lines: &[&'static str],
) -> Rect {
    let section = made(rt, context(alloc, lines));
    draw_middle_section(rt, viewport, place.2, place.3, &section)
}

/// Draws a section of context without lines over the letters, and checks the screen and the counts.
fn check_section_of_no_lines(rt: &impl Abort, alloc: Global, row: Over) {
    let mut viewport = viewport_over_letters(rt, alloc, row.0);
    let _ = draw_context(rt, alloc, &mut viewport, row.0, &[]);
    check_drawing(rt, viewport, row.1, row.2);
}

/// Context without lines blanks its row from its column to the end of the mask.
const NO_LINES: &[Over] = &[
    (
        (0, 20, 2, 1),
        "abcdefghijklmnopqrst\nab\nabcdefghijklmnopqrst\n",
        (1, 1),
    ),
    (
        (4, 8, 2, 0),
        "abcd        mnopqrst\nabcdefghijklmnopqrst\nabcdefghijklmnopqrst\n",
        (1, 1),
    ),
    (
        (0, 10, 6, 2),
        "abcdefghijklmnopqrst\nabcdefghijklmnopqrst\nabcdef    klmnopqrst\n",
        (1, 1),
    ),
    (
        (0, 20, 2, 3),
        "abcdefghijklmnopqrst\nabcdefghijklmnopqrst\nabcdefghijklmnopqrst\n",
        (0, 0),
    ),
];

#[test]
fn context_without_lines_blanks_its_row(rt: HostRuntime) {
    for row in NO_LINES {
        check_section_of_no_lines(&rt, rt.alloc(), *row);
    }
}

/// Draws a section of context with one line, and checks the first column of its box and its number
/// of columns.
fn check_columns(rt: &impl Abort, alloc: Global, place: Place, columns: (isize, usize)) {
    let mut viewport = viewport_over_letters(rt, alloc, place);
    let rect = draw_context(rt, alloc, &mut viewport, place, &["a\n"]);
    let (x, width) = columns;
    check_equal(rt, rect, rect_of((x, place.3, width, 1)));
}

/// Places, and the first columns and numbers of columns of boxes there. A line covers all columns
/// of the mask, so the box begins at the mask's first column if that is further left.
const COLUMNS: &[(Place, (isize, usize))] = &[
    ((0, 20, 2, 1), (0, 20)),
    ((2, 18, 2, 1), (2, 18)),
    ((8, 6, 2, 0), (2, 12)),
    ((5, 12, 3, 3), (3, 14)),
];

#[test]
fn boxes_of_context_begin_at_their_column(rt: HostRuntime) {
    for (place, columns) in COLUMNS {
        check_columns(&rt, rt.alloc(), *place, *columns);
    }
}
