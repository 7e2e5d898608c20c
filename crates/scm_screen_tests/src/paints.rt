//! The bytes of paints, as ECMA-48 defines them.
ghost use Rattle.std.specs.Prelude.{◌==◌, None, false};

use crate::cells::{grid_with, put};
use crate::checks::{check_text, made};
use scm_cells::{Colour, Grid, Style};
use scm_terminal::{Painter, Styles};
use std::alloc::Global;
use std::process::Abort;

/// Plain styles, except for the reversed row `row`.
#[derive(Clone, Copy)]
struct Reversed {
    row: usize,
}

impl Styles for Reversed {
    ghost styled = { λ s row column. record {
      colour = None;
      bold = false;
      dim = false;
      underlined = false;
      reversed = row == s.row;
    } };

    fn style(&self, row: usize, _column: usize) -> Style {
        Style {
            colour: None,
            bold: false,
            dim: false,
            underlined: false,
            reversed: row == self.row,
        }
    }
}

/// Paints `grid` with row `row` reversed, and checks that the bytes are `wanted`.
fn check_paint(rt: &impl Abort, painter: &mut Painter, grid: &Grid, row: usize, wanted: &str) {
    check_text(rt, painter.paint(grid, &Reversed { row }), wanted);
}

/// The whole screen of `rows_that_changed_are_written`.
const WHOLE: &str =
    "\x1b[?7l\x1b[1;3H\x1b[0m \x1b[1;2H\x1b[0m日\x1b[1;1H\x1b[0ma\x1b[2;1H\x1b[0;7m   \x1b[?7h";

/// Its second row, plain and reversed.
const SECOND_PLAIN: &str = "\x1b[?7l\x1b[2;1H\x1b[0m   \x1b[?7h";

const SECOND_REVERSED: &str = "\x1b[?7l\x1b[2;1H\x1b[0;7m   \x1b[?7h";

/// A blank screen of two columns and one row.
const SMALL: &str = "\x1b[?7l\x1b[1;1H\x1b[0m  \x1b[?7h";

/// Returns a grid of three columns and two rows, with a text on the first row.
fn grid_with_text(rt: &impl Abort, alloc: Global) -> Grid {
    let mut grid = made(rt, Grid::new(alloc, 3, 2));
    made(rt, put(rt, &mut grid, 0, 0, "a日", 0, 3));
    grid
}

/// Paints `grid`, whose first bytes are `WHOLE`, several times.
fn check_paints(rt: &impl Abort, painter: &mut Painter, grid: &Grid) {
    check_paint(rt, painter, grid, 1, WHOLE);
    check_paint(rt, painter, grid, 1, "");
    check_paint(rt, painter, grid, 5, SECOND_PLAIN);
    check_paint(rt, painter, grid, 1, SECOND_REVERSED);
    painter.forget();
    check_paint(rt, painter, grid, 1, WHOLE);
}

#[test]
fn rows_that_changed_are_written(rt: HostRuntime) {
    let mut painter = Painter::new(rt.alloc());
    check_paints(&rt, &mut painter, &grid_with_text(&rt, rt.alloc()));
    let small = grid_with(&rt, rt.alloc(), 2, 1, "");
    check_paint(&rt, &mut painter, &small, 5, SMALL);
}

/// The bytes of a text with sequences.
const HARMLESS: &str = "\x1b[?7l\x1b[1;1H\x1b[0ma[2Jb\x1b[?7h";

#[test]
fn a_text_sends_no_command(rt: HostRuntime) {
    let grid = grid_with(&rt, rt.alloc(), 5, 1, "a\x1b[2J\u{9b}b\x07");
    check_paint(&rt, &mut Painter::new(rt.alloc()), &grid, 5, HARMLESS);
}

/// A number of columns, a column, a text that begins there, and the bytes of this row.
type Row = (u16, isize, &'static str, &'static str);

/// A symbol without room for its characters is replaced.
const WITHOUT_ROOM: &[Row] = &[
    (
        6,
        0,
        "ab👍🏽cd",
        "\x1b[?7l\x1b[1;4H\x1b[0m \x1b[1;3H\x1b[0m👍🏽\x1b[1;1H\x1b[0mab\x1b[1;5Hcd\x1b[?7h",
    ),
    (5, 0, "ab👍🏽c", "\x1b[?7l\x1b[1;1H\x1b[0mab? c\x1b[?7h"),
    (4, 0, "ab👍🏽", "\x1b[?7l\x1b[1;1H\x1b[0mab? \x1b[?7h"),
    (
        3,
        0,
        "🏳️‍🌈",
        "\x1b[?7l\x1b[1;2H\x1b[0m \x1b[1;1H\x1b[0m🏳️‍🌈\x1b[1;3H\x1b[0m \x1b[?7h",
    ),
    (2, 0, "🏳️‍🌈", "\x1b[?7l\x1b[1;1H\x1b[0m? \x1b[?7h"),
    (
        9,
        0,
        "abcdef👩‍👩‍👧g",
        "\x1b[?7l\x1b[1;1H\x1b[0mabcdef? g\x1b[?7h",
    ),
    (4, 0, "👩‍👩‍👧👍🏽", "\x1b[?7l\x1b[1;1H\x1b[0m? ? \x1b[?7h"),
];

/// A symbol with room for its characters is sent.
const WITH_ROOM: &[Row] = &[
    (
        3,
        0,
        "a雛",
        "\x1b[?7l\x1b[1;3H\x1b[0m \x1b[1;2H\x1b[0m雛\x1b[1;1H\x1b[0ma\x1b[?7h",
    ),
    (
        3,
        0,
        "a❤️",
        "\x1b[?7l\x1b[1;3H\x1b[0m \x1b[1;2H\x1b[0m❤️\x1b[1;1H\x1b[0ma\x1b[?7h",
    ),
    (
        3,
        0,
        "a1️⃣",
        "\x1b[?7l\x1b[1;3H\x1b[0m \x1b[1;2H\x1b[0m1️⃣\x1b[1;1H\x1b[0ma\x1b[?7h",
    ),
    (
        2,
        0,
        "ae\u{301}",
        "\x1b[?7l\x1b[1;2H\x1b[0me\u{301}\x1b[1;1H\x1b[0ma\x1b[?7h",
    ),
    (
        2,
        0,
        "a─",
        "\x1b[?7l\x1b[1;2H\x1b[0m─\x1b[1;1H\x1b[0ma\x1b[?7h",
    ),
];

/// A row begins with no mark.
const MARKS: &[Row] = &[
    (2, 0, "\u{903}", "\x1b[?7l\x1b[1;1H\x1b[0m? \x1b[?7h"),
    (2, 0, "\u{93E}", "\x1b[?7l\x1b[1;1H\x1b[0m? \x1b[?7h"),
    (2, 0, "\u{D02}", "\x1b[?7l\x1b[1;1H\x1b[0m? \x1b[?7h"),
    (2, 0, "\u{102B}", "\x1b[?7l\x1b[1;1H\x1b[0m? \x1b[?7h"),
    (2, 0, "\u{FF9E}", "\x1b[?7l\x1b[1;1H\x1b[0m? \x1b[?7h"),
    (4, 0, "\u{1F3FD}a", "\x1b[?7l\x1b[1;1H\x1b[0m? a \x1b[?7h"),
    (
        2,
        1,
        "\u{903}",
        "\x1b[?7l\x1b[1;2H\x1b[0m\u{903}\x1b[1;1H\x1b[0m \x1b[?7h",
    ),
];

/// Paints a grid of one row with a text.
fn check_row(rt: &impl Abort, alloc: Global, row: Row) {
    let mut grid = made(rt, Grid::new(alloc, row.0, 1));
    made(
        rt,
        put(rt, &mut grid, 0, row.1, row.2, 0, usize::from(row.0)),
    );
    check_paint(rt, &mut Painter::new(alloc), &grid, 1, row.3);
}

#[test]
fn a_symbol_without_room_for_its_characters_is_replaced(rt: HostRuntime) {
    for row in WITHOUT_ROOM {
        check_row(&rt, rt.alloc(), *row);
    }
}

#[test]
fn a_symbol_with_room_for_its_characters_is_sent(rt: HostRuntime) {
    for row in WITH_ROOM {
        check_row(&rt, rt.alloc(), *row);
    }
}

#[test]
fn a_row_begins_with_no_mark(rt: HostRuntime) {
    for row in MARKS {
        check_row(&rt, rt.alloc(), *row);
    }
}

/// The bytes of a replaced symbol on a reversed row.
const REPLACED: &str = "\x1b[?7l\x1b[1;1H\x1b[0;7ma? \x1b[?7h";

#[test]
fn a_replacement_has_the_style_of_its_place(rt: HostRuntime) {
    let mut grid = grid_with(&rt, rt.alloc(), 3, 1, "a👍🏽");
    let mut painter = Painter::new(rt.alloc());
    check_paint(&rt, &mut painter, &grid, 0, REPLACED);
    check_paint(&rt, &mut painter, &grid, 0, "");
    made(&rt, put(&rt, &mut grid, 0, 1, "🏳️‍🌈", 0, 3));
    check_paint(&rt, &mut painter, &grid, 0, REPLACED);
}

/// The same style for every place.
#[derive(Clone, Copy)]
struct Uniform {
    style: Style,
}

impl Styles for Uniform {
    ghost styled = { λ s row column. s.style };

    fn style(&self, _row: usize, _column: usize) -> Style {
        self.style
    }
}

/// Styles, and the bytes of a blank screen of one column in them.
const STYLES: &[(Style, &str)] = &[
    (Style::PLAIN, "\x1b[?7l\x1b[1;1H\x1b[0m \x1b[?7h"),
    (
        Style {
            bold: true,
            dim: true,
            ..Style::PLAIN
        },
        "\x1b[?7l\x1b[1;1H\x1b[0;1;2m \x1b[?7h",
    ),
    (
        Style {
            underlined: true,
            reversed: true,
            ..Style::PLAIN
        },
        "\x1b[?7l\x1b[1;1H\x1b[0;4;7m \x1b[?7h",
    ),
    (
        Style {
            colour: Some(Colour::Green),
            ..Style::PLAIN
        },
        "\x1b[?7l\x1b[1;1H\x1b[0;32m \x1b[?7h",
    ),
];

/// Paints `grid` in `style`, after the painter forgot the screen.
fn check_style(rt: &impl Abort, painter: &mut Painter, grid: &Grid, row: (Style, &str)) {
    painter.forget();
    check_text(rt, painter.paint(grid, &Uniform { style: row.0 }), row.1);
}

#[test]
fn styles_have_the_numbers_of_ecma_48(rt: HostRuntime) {
    let grid = grid_with(&rt, rt.alloc(), 1, 1, "");
    let mut painter = Painter::new(rt.alloc());
    for row in STYLES {
        check_style(&rt, &mut painter, &grid, *row);
    }
}
