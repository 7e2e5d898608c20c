//! The rule for the rows of a section.
use crate::checks::{check_equal, made};
use scm_rows::section_heights::{height_of, is_section_open, is_section_visible, shown_height};
use scm_rows::section_shape::{is_changed, shape_of};
use scm_rows::{SectionPlace, SectionShape};
use scm_samples::{ADDED, changed, context};
use scm_types::{FileMode, Section};
use std::process::Abort;

/// Returns the place of section `index` of `total`.
fn place(total: usize, index: usize) -> SectionPlace {
    SectionPlace { index, total }
}

/// A number of sections and the index of one of them, its number of lines, how many are above the
/// dots, the rows of dots, the index of the first line below them, and the number of all rows.
type Row = (usize, usize, usize, usize, usize, usize, usize);

/// Sections of context.
const ROWS: &[Row] = &[
    (3, 0, 0, 0, 0, 0, 1),
    (3, 0, 3, 0, 0, 0, 3),
    (3, 0, 4, 0, 1, 1, 4),
    (3, 0, 9, 0, 1, 6, 4),
    (3, 1, 6, 6, 0, 6, 6),
    (3, 1, 7, 3, 1, 4, 7),
    (3, 1, 20, 3, 1, 17, 7),
    (3, 2, 3, 3, 0, 3, 3),
    (3, 2, 4, 3, 1, 4, 4),
    (1, 0, 3, 0, 0, 3, 0),
    (1, 0, 4, 0, 1, 4, 1),
];

/// Checks the rows of a section of context.
fn check_row(rt: &impl Abort, row: Row) {
    let (total, index, count, above, dots, below, rows) = row;
    let place = place(total, index);
    check_equal(rt, place.lines_above(count), above);
    check_equal(rt, place.has_dots(count), dots == 1);
    check_equal(rt, place.dots_height(count), dots);
    check_equal(rt, place.first_below(count), below);
    check_equal(rt, place.context_height(count), rows);
}

#[test]
fn context_is_shown_by_place(rt: HostRuntime) {
    for row in ROWS {
        check_row(&rt, *row);
    }
}

/// A mode change.
const MODE: Section<'static> = Section::FileMode {
    is_checked: false,
    mode: FileMode::Absent,
};

/// Returns whether `shape` is that of two lines of context.
fn is_context(shape: SectionShape) -> bool {
    matches!(shape, SectionShape::Context { lines: 2 })
}

/// Checks the rows of two lines of context.
fn check_context(rt: &impl Abort, lines: &Section<'_>) {
    check_equal(rt, is_context(shape_of(lines)), true);
    check_equal(rt, is_section_open(true, lines), false);
    check_equal(rt, is_section_visible(false, lines, true), true);
    check_equal(rt, is_section_visible(false, lines, false), false);
}

/// Checks the row of a mode change. `height_of` needs what is asserted.
fn check_mode(rt: &impl Abort, mode: &Section<'_>) {
    assert!(rt; matches!(shape_of(mode), SectionShape::Mark));
    assert!(rt; !is_changed(mode));
    check_equal(rt, is_section_visible(false, mode, false), true);
    check_equal(rt, height_of(place(3, 1), true, mode), 1);
    check_equal(rt, shown_height(place(3, 1), true, false, mode, false), 1);
}

/// Returns whether `shape` is that of changed lines.
fn is_lines(shape: SectionShape) -> bool {
    matches!(shape, SectionShape::Changed)
}

/// Checks the rows of changes.
fn check_changes(rt: &impl Abort, changes: &Section<'_>) {
    check_equal(rt, is_lines(shape_of(changes)), true);
    check_equal(rt, is_changed(changes), true);
    check_equal(rt, is_section_open(true, changes), true);
}

#[test]
fn sections_are_shown_by_neighbours(rt: HostRuntime) {
    let lines = made(&rt, context(rt.alloc(), &["a\n", "b\n"]));
    check_context(&rt, &lines);
    let changes = made(&rt, changed(rt.alloc(), &[(false, ADDED, "c\n")]));
    check_changes(&rt, &changes);
    check_mode(&rt, &MODE);
}
