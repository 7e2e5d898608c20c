//! Rectangles, masks, clusters, spans and the grid, checked against values from outside: the
//! project's tables, and the columns that a terminal gives to texts.
ghost use Rattle.std.specs.Prelude.{◌≡◌};
ghost use Rattle.scm_cells.specs.Rect.{RectInRange};

use crate::checks::{check_equal, check_that, check_view, made};
use scm_cells::{
    Clusters, Column, Grid, Mask, Rect, RectSize, ScreenRect, Span, printable_line,
    push_spans_from_line, replace_control_character, text_width,
};
use scm_errors::RecordError;
use std::alloc::Global;
use std::process::Abort;

/// The first four columns of the first two rows.
const WHOLE: Rect = Rect {
    x: 0,
    y: 0,
    width: 4,
    height: 2,
};

/// Returns the rectangle of `width` columns and `height` rows at column `x` and row `y`.
pub(crate) fn rect(x: isize, y: isize, width: usize, height: usize) -> Rect
    ensures { result ≡ record { x = x; y = y; width = width; height = height } }
{
    Rect {
        x,
        y,
        width,
        height,
    }
}

/// A rectangle: its column and row, and its numbers of columns and rows.
pub(crate) type Sides = (isize, isize, usize, usize);

/// Returns the rectangle of `sides`, and checks that it is at most 5000 columns and rows large, and at most
/// 1000 away from column 0 and row 0.
pub(crate) fn area_of(rt: &impl Abort, sides: Sides) -> Rect
    ensures in_range { RectInRange result }
    ensures sides { result ≡ record {
      x = sides.0;
      y = sides.1;
      width = sides.2;
      height = sides.3;
    } }
{
    let (x, y, width, height) = sides;
    check_that(rt, -1000 <= x);
    check_that(rt, x <= 1000);
    check_that(rt, -1000 <= y);
    check_that(rt, y <= 1000);
    check_that(rt, width <= 5000);
    check_that(rt, height <= 5000);
    rect(x, y, width, height)
}

/// Returns the rectangle of `sides`.
pub(crate) fn rect_of(sides: Sides) -> Rect {
    rect(sides.0, sides.1, sides.2, sides.3)
}

/// Two rectangles, the intersection of both, and the least rectangle around both.
const JOINED: &[(Sides, Sides, Sides, Sides)] = &[
    ((0, 0, 4, 2), (2, 1, 5, 5), (2, 1, 2, 1), (0, 0, 7, 6)),
    ((0, 0, 2, 2), (5, 0, 1, 1), (5, 0, 0, 1), (0, 0, 6, 2)),
    ((0, 0, 4, 2), (10, 10, 0, 3), (10, 10, 0, 0), (0, 0, 4, 2)),
    ((0, 0, 4, 2), (6, 5, 1, 1), (6, 5, 0, 0), (0, 0, 7, 6)),
];

/// Checks the intersection of `one` and `other`, and the least rectangle around both.
fn check_joined(rt: &impl Abort, one: Rect, other: Rect, both: Rect, around: Rect)
    requires one { RectInRange one }
    requires other { RectInRange other }
{
    check_equal(rt, (one, other, one.intersect(other)), (one, other, both));
    check_equal(
        rt,
        (one, other, one.union_bounding(other)),
        (one, other, around),
    );
}

/// Checks intersections of rectangles, and the least rectangles around them.
pub(crate) fn check_rectangles(rt: &impl Abort) {
    for (one, other, both, around) in JOINED {
        let one = area_of(rt, *one);
        let other = area_of(rt, *other);
        check_joined(rt, one, other, rect_of(*both), rect_of(*around));
    }
}

#[test]
fn rectangles_are_joined(rt: HostRuntime) {
    check_rectangles(&rt);
}

/// Columns and rows, and whether a rectangle of five columns and rows at column 2 and row 1 has this place.
const POINTS: &[(isize, isize, bool)] = &[(6, 5, true), (7, 5, false), (2, 1, true)];

/// Checks the places of a rectangle of five columns and rows.
pub(crate) fn check_points(rt: &impl Abort) {
    let small = area_of(rt, (2, 1, 5, 5));
    let ends = (small.end_x(), small.end_y());
    check_equal(rt, (ends, small.is_empty()), ((7, 6), false));
    let rows = (small.iter_ys().count(), small.top_row());
    check_equal(rt, rows, (5, rect(2, 1, 5, 1)));
    for (x, y, expected) in POINTS {
        let found = small.contains_point(*x, *y);
        check_equal(rt, (*x, *y, found), (*x, *y, *expected));
    }
    let empty = (Rect::default().is_empty(), rect(5, 0, 0, 1).is_empty());
    check_equal(rt, empty, (true, true));
}

/// Sizes and places of 16 bits.
const SCREENS: &[(u16, u16, u16, u16)] = &[(1, 2, 3, 4), (2, 1, 5, 5)];

/// Checks what the rectangle of `sides` is converted to.
fn check_screen(rt: &impl Abort, sides: (u16, u16, u16, u16)) {
    let (x, y, width, height) = sides;
    let screen = ScreenRect {
        x,
        y,
        width,
        height,
    };
    let size = RectSize {
        width: usize::from(width),
        height: usize::from(height),
    };
    let whole = rect(x as isize, y as isize, size.width, size.height);
    check_equal(rt, Rect::from(screen), whole);
    check_equal(rt, RectSize::from(screen), size);
    check_equal(rt, RectSize::from(whole), size);
}

/// Checks what rectangles of a screen are converted to.
pub(crate) fn check_sizes(rt: &impl Abort) {
    for sides in SCREENS {
        check_screen(rt, *sides);
    }
    check_equal(rt, RectSize::default().width, 0);
}

/// Returns the columns and rows of `mask`: where they begin, and how many they are.
fn sides_of(mask: Mask) -> (isize, isize, Option<usize>, Option<usize>) {
    (mask.x, mask.y, mask.width, mask.height)
}

/// A mask of three rows, and all columns from column 1 on.
const OPEN: Mask = Mask {
    x: 1,
    y: 2,
    width: None,
    height: Some(3),
};

/// A mask of five columns, and all rows.
const COLUMNS_ONLY: Mask = Mask {
    x: 2,
    y: 0,
    width: Some(5),
    height: None,
};

/// Checks which places masks let through.
pub(crate) fn check_masks(rt: &impl Abort) {
    let closed = Mask::from(rect(1, 2, 3, 4));
    check_equal(rt, sides_of(closed), (1, 2, Some(3), Some(4)));
    check_equal(rt, (closed.end_x(), closed.end_y()), (Some(4), Some(6)));
    check_equal(rt, OPEN.end_x(), None);
    check_equal(rt, OPEN.apply(rect(0, 0, 10, 10)), rect(1, 2, 9, 3));
    let ends = (COLUMNS_ONLY.end_x(), COLUMNS_ONLY.end_y());
    check_equal(rt, ends, (Some(7), None));
    check_equal(rt, COLUMNS_ONLY.apply(WHOLE), rect(2, 0, 2, 2));
    check_equal(rt, Mask::from(rect(2, 1, 5, 5)).width, Some(5));
    check_equal(rt, sides_of(Mask::default()), (0, 0, None, None));
}

/// Numbers of columns, and texts of as many columns with a bar between two of them.
const COLUMNS: &[(usize, &str)] = &[
    (0, "|\u{301}|\u{200B}|\r\n"),
    (
        1,
        " |\u{E9}|e\u{301}|\u{FEFF}a|\u{A0}|ก้|Ω|€|½|—|“|①|★|♥|☃|❤|a\u{7F}",
    ),
    (2, "n\u{303}o|\u{3000}|Ａ|（|、|㌔|\u{1112}\u{1161}\u{11AB}"),
    (
        2,
        "⌚|⏰|😀|👍🏽|👩\u{200D}👩\u{200D}👧|🏳\u{FE0F}\u{200D}🌈|❤\u{FE0F}|1\u{FE0F}\u{20E3}|🇩🇪",
    ),
    (2, "a\tb|a\nb|a\u{85}b"),
    (3, "e\u{301}日|abc|日a|ｱｲｳ|αβγ|ไทย|😀a|\u{1B}[0m"),
    (4, "한글|שלום|🇩🇪🇫🇷"),
    (6, "日本語|中文字|アイウ|привет"),
];

/// Checks that each of `texts`, with a bar between two of them, has `columns` columns.
fn check_columns(rt: &impl Abort, columns: usize, texts: &str) {
    for text in texts.split('|') {
        check_equal(rt, (text, text_width(text)), (text, columns));
    }
}

/// Checks the columns of texts.
pub(crate) fn check_texts(rt: &impl Abort) {
    for (columns, texts) in COLUMNS {
        check_columns(rt, *columns, *texts);
    }
}

#[test]
fn columns_of_texts(rt: HostRuntime) {
    check_texts(&rt);
}

/// Checks that each mark has a column, and which characters are replaced.
pub(crate) fn check_marks(rt: &impl Abort) {
    let mut count = 0_usize;
    for (mark, width) in Clusters::new("◐●±⋮…→⏎␀�┌─┐│└┘↓↑←•") {
        check_equal(rt, (mark, width), (mark, 1));
        count = count.saturating_add(1);
    }
    check_equal(rt, count, 19);
    check_equal(rt, Clusters::new("日a").next(), Some(("日", 2)));
    check_equal(rt, replace_control_character('\n'), Some("⏎"));
    check_equal(rt, replace_control_character('a'), None);
}

/// Returns the spans of `line`.
pub(crate) fn line_spans<'a>(rt: &impl Abort, alloc: Global, line: &'a str) -> Vec<Span<'a>> {
    let mut spans = Vec::new(alloc);
    made(rt, push_spans_from_line(line, &mut spans));
    spans
}

/// Lines with a bar between two of them, and the spans of each: a tab, a delete, and
/// the later controls.
const TEXTS: &[(&str, &[Span<'static>])] = &[
    ("a\tb", &[Span("a"), Span("→   "), Span("b")]),
    ("a\u{7F}", &[Span("a"), Span("␡")]),
    ("a\n", &[Span("a"), Span("⏎")]),
    (
        "a\u{80}|a\u{81}|a\u{82}|a\u{83}|a\u{84}|a\u{85}|a\u{86}|a\u{87}|a\u{88}|a\u{89}|a\u{8A}",
        &[Span("a"), Span("\u{FFFD}")],
    ),
    (
        "a\u{8B}|a\u{8C}|a\u{8D}|a\u{8E}|a\u{8F}|a\u{90}|a\u{91}|a\u{92}|a\u{93}|a\u{94}|a\u{95}",
        &[Span("a"), Span("\u{FFFD}")],
    ),
    (
        "a\u{96}|a\u{97}|a\u{98}|a\u{99}|a\u{9A}|a\u{9B}|a\u{9C}|a\u{9D}|a\u{9E}|a\u{9F}",
        &[Span("a"), Span("\u{FFFD}")],
    ),
];

/// Checks the spans of each of `lines`, which have a bar between two of them.
fn check_lines(rt: &impl Abort, alloc: Global, lines: &str, spans: &[Span<'_>]) {
    for line in lines.split('|') {
        check_equal(rt, line_spans(rt, alloc, line).as_slice(), &*spans);
    }
}

#[test]
fn texts_of_spans(rt: HostRuntime) {
    for (lines, spans) in TEXTS {
        check_lines(&rt, rt.alloc(), *lines, *spans);
    }
}

/// Lines, and a printable one's text and mark.
const PRINTABLE: &[(&str, Option<(&str, &str)>)] = &[
    ("a b\n", Some(("a b", "⏎"))),
    ("\n", Some(("", "⏎"))),
    ("a b", None),
    ("a\tb\n", None),
    ("ä\n", None),
    ("", None),
];

#[test]
fn texts_of_a_printable_line(rt: HostRuntime) {
    for (line, expected) in PRINTABLE {
        check_equal(&rt, printable_line(*line), *expected);
    }
}

/// Returns the columns of `spans`, and checks that no character in them is still to be replaced.
fn columns_shown(rt: &impl Abort, spans: &[Span<'_>]) -> usize {
    let mut columns = 0_usize;
    for span in spans {
        for character in span.0.chars() {
            check_equal(rt, replace_control_character(character), None);
        }
        columns = columns.saturating_add(text_width(span.0));
    }
    columns
}

/// Cuts `line` into spans, and checks that there are `pieces` spans of `columns` columns in all.
fn check_spans(rt: &impl Abort, alloc: Global, line: &str, pieces: usize, columns: usize) {
    let spans = line_spans(rt, alloc, line);
    let shown = (line, spans.len(), columns_shown(rt, spans.as_slice()));
    check_equal(rt, shown, (line, pieces, columns));
}

/// Lines, the numbers of their spans, and the columns of all of them.
const SPANS: &[(&str, usize, usize)] = &[
    ("", 0, 0),
    ("ab", 1, 2),
    ("\u{0}", 2, 1),
    ("\u{1}\u{2}\u{3}\u{4}\u{5}\u{6}\u{7}\u{8}", 16, 8),
    ("\t", 2, 4),
    ("a\n", 2, 2),
    ("\u{B}\u{C}\r\u{E}\u{F}\u{10}\u{11}\u{12}", 16, 8),
    ("\u{13}\u{14}\u{15}\u{16}\u{17}\u{18}\u{19}\u{1A}", 16, 8),
    ("\u{1B}\u{1C}\u{1D}\u{1E}\u{1F}\u{7F}", 12, 6),
    ("\u{80}\u{9F}", 4, 2),
    ("\u{301}", 2, 1),
    ("e\u{301}", 2, 2),
    ("日本語", 1, 6),
    ("👍🏽", 1, 2),
    ("👩\u{200D}👧", 3, 5),
    ("❤\u{FE0F}", 2, 2),
    ("🇩🇪", 1, 2),
    ("한", 1, 2),
    ("\u{1112}\u{1161}\u{11AB}", 4, 4),
];

#[test]
fn spans_of_lines(rt: HostRuntime) {
    for (line, pieces, columns) in SPANS {
        check_spans(&rt, rt.alloc(), *line, *pieces, *columns);
    }
}

/// Puts `text` on row `row` of `grid`, and checks first that the grid has the row and the columns
/// up to `high`.
pub(crate) fn put(
    rt: &impl Abort,
    grid: &mut Grid,
    row: usize,
    column: isize,
    text: &str,
    low: usize,
    high: usize,
) -> Result<(), RecordError> {
    check_that(rt, row < grid.height());
    check_that(rt, high <= grid.width());
    grid.put(row, column, text, low, high)
}

/// Returns a grid of `width` columns and `height` rows, with `text` on its last row.
pub(crate) fn grid_with(
    rt: &impl Abort,
    alloc: Global,
    width: u16,
    height: u16,
    text: &str,
) -> Grid {
    let mut grid = made(rt, Grid::new(alloc, width, height));
    let row = usize::from(height.saturating_sub(1));
    made(rt, put(rt, &mut grid, row, 0, text, 0, usize::from(width)));
    grid
}

/// What is put on a row.
#[derive(Clone, Copy)]
enum What {
    /// A text.
    Text(&'static str),
    /// A text, and its columns.
    Measured(&'static str, usize),
    /// A number of spaces.
    Spaces(usize),
}

/// What the row shows before, a column, what is put there, the first and the end of the columns that
/// may change, and what the row shows then.
type Put = (&'static str, isize, What, usize, usize, &'static str);

/// Puts on the first row of `grid` what `row` says.
fn put_what(rt: &impl Abort, grid: &mut Grid, row: Put) {
    let (_, column, what, low, high, _) = row;
    check_that(rt, 0 < grid.height());
    check_that(rt, high <= grid.width());
    match what {
        What::Text(text) => made(rt, grid.put(0, column, text, low, high)),
        What::Measured(text, columns) => {
            let measured = made(rt, grid.put_measured(0, column, text, low, high));
            check_equal(rt, (text, measured), (text, columns));
        }
        What::Spaces(width) => grid.put_blank(0, column, width, low, high),
    }
}

/// Puts on a row of `width` columns what `row` says, and checks what that shows.
fn check_put(rt: &impl Abort, alloc: Global, width: u16, row: Put) {
    let mut grid = grid_with(rt, alloc, width, 1, row.0);
    put_what(rt, &mut grid, row);
    check_view(rt, &grid, row.5);
}

/// Texts on a blank row of six columns, then texts and spaces over wide symbols.
const PUTS: &[Put] = &[
    ("", -1, What::Text("日a"), 0, 6, "\" a    \"\n"),
    ("", 4, What::Text("a日b"), 0, 6, "\"    a \"\n"),
    ("", 0, What::Text("a\nb"), 0, 6, "\"ab    \"\n"),
    ("", -2, What::Text("日a"), 0, 6, "\"a     \"\n"),
    ("", 0, What::Text("日本語"), 1, 5, "\"  本  \"\n"),
    ("", 0, What::Text("日本語"), 3, 6, "\"    語\"\n"),
    ("", 2, What::Text("日"), 3, 6, "\"      \"\n"),
    ("", 0, What::Text("abcdef"), 2, 4, "\"  cd  \"\n"),
    ("", 0, What::Text("a日本c"), 0, 4, "\"a日   \"\n"),
    ("", 0, What::Text("ab"), 4, 2, "\"      \"\n"),
    ("", 7, What::Text("ab"), 0, 6, "\"      \"\n"),
    ("", isize::MAX, What::Text("ab"), 0, 6, "\"      \"\n"),
    ("", isize::MIN, What::Text("ab"), 0, 6, "\"      \"\n"),
    ("", 0, What::Text("e\u{301}x"), 0, 6, "\"e\u{301}x    \"\n"),
    ("", -1, What::Text("👩\u{200D}👧b"), 0, 6, "\" b    \"\n"),
    ("", -2, What::Text("abc"), 0, 6, "\"c     \"\n"),
    ("", 4, What::Text("abc"), 0, 6, "\"    ab\"\n"),
    ("", 1, What::Text("abcd"), 2, 4, "\"  bc  \"\n"),
    ("", -3, What::Text("abc"), 0, 6, "\"      \"\n"),
    ("", -1, What::Text("[●]…⏎"), 0, 6, "\"●]…⏎  \"\n"),
    ("", 1, What::Text("←±⋮→•"), 2, 5, "\"  ±⋮→ \"\n"),
    ("日本語", 1, What::Text("x"), 0, 6, "\" x本語\"\n"),
    ("日本語", 0, What::Text("日"), 1, 6, "\"  本語\"\n"),
    ("  本語", 3, What::Text("字"), 0, 6, "\"   字 \"\n"),
    ("日本語", 2, What::Spaces(2), 0, 6, "\"日  語\"\n"),
    ("日本語", 1, What::Spaces(2), 0, 6, "\"    語\"\n"),
    ("日本語", 3, What::Spaces(1), 0, 6, "\"日  語\"\n"),
    ("日本語", -3, What::Spaces(4), 0, 6, "\"  本語\"\n"),
    ("日本語", -3, What::Spaces(3), 0, 6, "\"日本語\"\n"),
    ("日本語", 5, What::Spaces(usize::MAX), 0, 6, "\"日本  \"\n"),
    ("日本語", -1, What::Spaces(usize::MAX), 0, 6, "\"      \"\n"),
    ("日本語", 0, What::Spaces(6), 2, 4, "\"日  語\"\n"),
    ("日本語", 0, What::Spaces(6), 1, 3, "\"    語\"\n"),
    ("日本語", 0, What::Spaces(6), 4, 2, "\"日本語\"\n"),
    ("日本語", 0, What::Spaces(0), 0, 6, "\"日本語\"\n"),
    ("日本語", 6, What::Spaces(1), 0, 6, "\"日本語\"\n"),
    (
        "日本語",
        isize::MAX,
        What::Spaces(usize::MAX),
        0,
        6,
        "\"日本語\"\n",
    ),
    ("日本語", isize::MIN, What::Spaces(9), 0, 6, "\"日本語\"\n"),
];

/// Texts on a row of four columns, which are measured whole.
const MEASURED: &[Put] = &[
    ("", 0, What::Measured("", 0), 0, 4, "\"    \"\n"),
    ("", 1, What::Measured("ab", 2), 0, 4, "\" ab \"\n"),
    ("", 2, What::Measured("abcd", 4), 0, 4, "\"  ab\"\n"),
    ("", -1, What::Measured("日本語", 6), 0, 4, "\" 本 \"\n"),
    ("", 9, What::Measured("e\u{301}日", 3), 0, 4, "\"    \"\n"),
];

#[test]
fn texts_on_a_grid(rt: HostRuntime) {
    for row in PUTS {
        check_put(&rt, rt.alloc(), 6, *row);
    }
    for row in MEASURED {
        check_put(&rt, rt.alloc(), 4, *row);
    }
}

#[test]
fn rows_are_apart(rt: HostRuntime) {
    let mut grid = grid_with(&rt, rt.alloc(), 6, 2, "   字");
    check_view(&rt, &grid, "\"      \"\n\"   字 \"\n");
    made(&rt, put(&rt, &mut grid, 0, 0, "abcdef", 0, 6));
    check_equal(&rt, (grid.width(), grid.height()), (6, 2));
    check_view(&rt, &grid, "\"abcdef\"\n\"   字 \"\n");
}

/// Returns `text`, repeated `times` times.
pub(crate) fn repeated(rt: &impl Abort, alloc: Global, text: &str, times: usize) -> String {
    let mut long = String::new(alloc);
    for _ in 0..times {
        made(rt, long.push_str(text));
    }
    long
}

/// Returns the number of bytes of the view of `grid`.
fn bytes_of(rt: &impl Abort, grid: &Grid) -> usize {
    made(rt, grid.view()).len()
}

/// Columns and rows of blank grids, and the bytes of their views.
const BLANK: &[(u16, u16, usize)] = &[(0, 0, 0), (0, 3, 0), (3, 0, 0), (1, 1, 4), (400, 50, 20150)];

/// A text, how many times it is repeated, the bytes of the view of a row with it, and the number of
/// its spans.
type Long = (&'static str, usize, usize, usize);

/// Texts on a row of 400 columns.
const LONG: &[Long] = &[
    ("", 1, 403, 0),
    ("a", 1, 403, 1),
    ("a", 5000, 403, 1),
    ("日", 5000, 603, 1),
    ("a日", 5000, 536, 1),
    ("\t", 5000, 403, 10000),
];

/// Checks the text of `row`, repeated.
fn check_long(rt: &impl Abort, alloc: Global, row: Long) {
    let long = repeated(rt, alloc, row.0, row.1);
    let bytes = bytes_of(rt, &grid_with(rt, alloc, 400, 1, long.as_str()));
    let spans = line_spans(rt, alloc, long.as_str()).len();
    check_equal(rt, (row.0, bytes, spans), (row.0, row.2, row.3));
}

/// Checks the bytes of the view of a blank grid.
fn check_blank(rt: &impl Abort, alloc: Global, row: (u16, u16, usize)) {
    let (width, height, bytes) = row;
    let found = bytes_of(rt, &made(rt, Grid::new(alloc, width, height)));
    check_equal(rt, (width, height, found), (width, height, bytes));
}

#[test]
fn empty_small_and_large_values(rt: HostRuntime) {
    for row in BLANK {
        check_blank(&rt, rt.alloc(), *row);
    }
    for row in LONG {
        check_long(&rt, rt.alloc(), *row);
    }
}

/// Returns the symbol of the column at `index`, and its byte if it is printable ASCII.
fn symbol_of(columns: &[Column], index: usize) -> Option<(&str, Option<u8>)> {
    let column = columns.get(index)?;
    Some((column.symbol(), column.ascii()))
}

/// Columns of a row, their symbols, and their bytes if they are printable ASCII.
const SYMBOLS: &[(usize, &str, Option<u8>)] = &[
    (0, "a", Some(b'a')),
    (1, "日", None),
    (2, "", None),
    (3, " ", Some(b' ')),
    (4, "~", Some(b'~')),
    (5, "e\u{301}", None),
    (6, "─", None),
    (7, " ", Some(b' ')),
];

/// Checks the columns of the second row of `grid`, which has no third row.
fn check_symbols(rt: &impl Abort, grid: &Grid) {
    for (index, symbol, ascii) in SYMBOLS {
        check_equal(
            rt,
            symbol_of(grid.columns(1), *index),
            Some((*symbol, *ascii)),
        );
    }
    check_equal(rt, grid.columns(2).len(), 0);
}

/// Rows and columns of a grid of two rows and four columns, and the symbols there, if any.
const PLACES: &[(usize, usize, Option<&str>)] = &[
    (1, 0, Some("日")),
    (1, 1, None),
    (1, 2, Some("e\u{301}")),
    (1, 3, Some(" ")),
    (1, 4, None),
    (0, 0, Some(" ")),
    (2, 0, None),
    (usize::MAX, usize::MAX, None),
];

/// Checks the symbols of `grid`.
fn check_places(rt: &impl Abort, grid: &Grid) {
    for (row, column, symbol) in PLACES {
        check_equal(rt, grid.symbol(*row, *column), *symbol);
    }
}

#[test]
fn columns_have_symbols(rt: HostRuntime) {
    check_symbols(&rt, &grid_with(&rt, rt.alloc(), 8, 2, "a日 ~e\u{301}─"));
    check_places(&rt, &grid_with(&rt, rt.alloc(), 4, 2, "日e\u{301}"));
}
