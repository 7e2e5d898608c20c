//! The first spans of a line beside all of its spans: eight columns show the same of both.
use crate::cells::{line_spans, put, repeated};
use crate::checks::{check_equal, check_view, made};
use scm_cells::{Grid, Span, push_first_spans, text_width};
use std::alloc::Global;
use std::process::Abort;

/// Puts `spans` side by side on a row of eight columns, and checks that it shows `view`. Returns the
/// columns of all spans.
fn check_row(rt: &impl Abort, alloc: Global, spans: &[Span<'_>], view: &str) -> usize {
    let mut grid = made(rt, Grid::new(alloc, 8, 1));
    let mut column = 0_usize;
    for span in spans {
        let first = column.min(10_000) as isize;
        made(rt, put(rt, &mut grid, 0, first, span.0, 0, 8));
        column = column.saturating_add(text_width(span.0));
    }
    check_view(rt, &grid, view);
    column
}

/// A line: a text and how many times it is repeated, the number of its first spans, the most bytes
/// of one of them, and what eight columns show.
type Row = (&'static str, usize, usize, usize, &'static str);

/// Checks that there are as many first spans as `row` says, and that each is short.
fn check_short(rt: &impl Abort, spans: &[Span<'_>], row: Row) {
    check_equal(rt, (row.0, spans.len()), (row.0, row.2));
    for span in spans {
        check_equal(rt, (row.0, span.0.len() <= row.3), (row.0, true));
    }
}

/// Puts the first spans of `line`, the line of `row`, on a row, as `check_row` does.
fn check_first(rt: &impl Abort, alloc: Global, line: &str, row: Row) -> usize {
    let mut spans = Vec::new(alloc);
    made(rt, push_first_spans(line, 8, &mut spans));
    check_short(rt, spans.as_slice(), row);
    check_row(rt, alloc, spans.as_slice(), row.4)
}

/// Checks that all spans of the line of `row` show the same as the first ones. Those exceed the
/// columns if all do.
fn check_line(rt: &impl Abort, alloc: Global, row: Row) {
    let line = repeated(rt, alloc, row.0, row.1);
    let all = line_spans(rt, alloc, line.as_str());
    let columns = check_row(rt, alloc, all.as_slice(), row.4);
    let first_columns = check_first(rt, alloc, line.as_str(), row);
    check_equal(rt, (row.0, 8 < first_columns), (row.0, 8 < columns));
}

/// The lines.
const ROWS: &[Row] = &[
    ("", 1, 0, 0, "\"        \"\n"),
    ("abc\n", 1, 2, 3, "\"abc⏎    \"\n"),
    ("abcdefgh", 1, 1, 8, "\"abcdefgh\"\n"),
    ("abcdefgh\n", 1, 2, 8, "\"abcdefgh\"\n"),
    ("a", 1000, 1, 9, "\"aaaaaaaa\"\n"),
    ("\t", 1000, 6, 6, "\"→   →   \"\n"),
    ("ab\t", 1000, 4, 6, "\"ab→   ab\"\n"),
    ("日", 1000, 1, 15, "\"日日日日\"\n"),
    ("a日", 1000, 1, 20, "\"a日a日a \"\n"),
    (
        "e\u{301}",
        1000,
        10,
        3,
        "\"e\u{FFFD}e\u{FFFD}e\u{FFFD}e\u{FFFD}\"\n",
    ),
    ("🇩🇪", 1000, 1, 40, "\"🇩🇪🇩🇪🇩🇪🇩🇪\"\n"),
    ("👍🏽", 1000, 1, 40, "\"👍🏽👍🏽👍🏽👍🏽\"\n"),
    ("─", 1000, 1, 27, "\"────────\"\n"),
];

#[test]
fn first_spans_show_what_all_spans_show(rt: HostRuntime) {
    for row in ROWS {
        check_line(&rt, rt.alloc(), *row);
    }
}
