//! The counts and rows of one small file, and the searches for a row.
ghost use Rattle.std.specs.Prelude.{◌≡◌, ◌≤◌};
ghost use Rattle.scm_layout.specs.Layouts.{layout_of, IsLayoutOf};
ghost use Rattle.scm_types.specs.Limits.{max_items, state_size};

use crate::checks::{check_equal, made};
use crate::samples::small_state;
use crate::selection::{Key, key_of};
use scm_layout::row_search::file_on;
use scm_layout::{FileCounts, FileRows, Layout, SectionCounts};
use scm_selection::key_lists::all_keys;
use scm_selection::key_set::{KeySet, key_set_of};
use scm_types::{Items, RecordState};
use std::alloc::Global;
use std::process::Abort;

/// Returns the counts of the only file.
fn file_counts<'a>(rt: &impl Abort, layout: &'a Layout) -> &'a FileCounts {
    let files = layout.counts.files.as_slice();
    assert!(rt; files.len() == 1);
    &files[0]
}

/// Checks that the file has `checked` checked items: `lines` lines and `modes` modes, and the totals that
/// follow.
fn check_marks(rt: &impl Abort, layout: &Layout, checked: usize, lines: usize, modes: usize) {
    let counts = file_counts(rt, layout);
    let sections = counts.sections.as_slice();
    assert!(rt; sections.len() == 4);
    let found = [counts.checked, sections[1].checked, sections[2].checked];
    check_equal(rt, found, [checked, lines, modes]);
    let totals = (layout.counts.checked_lines, layout.counts.changed_files);
    check_equal(rt, totals, (lines, checked.min(1)));
}

/// Checks that `found` has `numbers`: its items, checked items, and the editable sections and lines
/// of the old file before it.
fn check_section(rt: &impl Abort, found: &SectionCounts, numbers: [usize; 4]) {
    let counted = [
        found.items,
        found.checked,
        found.editable_before,
        found.lines_before,
    ];
    check_equal(rt, counted, numbers);
}

/// Checks the counts of `small_state`, as it is first.
fn check_counts(rt: &impl Abort, layout: &Layout) {
    let counts = file_counts(rt, layout);
    check_equal(rt, (counts.editable, counts.modes), (2, 1));
    check_equal(rt, (counts.items, counts.checked), (3, 2));
    let totals = (layout.counts.checked_lines, layout.counts.changed_files);
    check_equal(rt, totals, (1, 1));
    let sections = counts.sections.as_slice();
    assert!(rt; sections.len() == 4);
    check_section(rt, &sections[0], [0, 0, 0, 0]);
    check_section(rt, &sections[1], [2, 1, 0, 2]);
    check_section(rt, &sections[2], [1, 1, 1, 3]);
    check_section(rt, &sections[3], [0, 0, 2, 3]);
}

/// Checks the counts of the layout of `state`, which is `small_state`.
fn check_layout(rt: &impl Abort, alloc: Global, state: &RecordState<'_>) {
    assert!(rt; state.is_accepted());
    let layout = made(rt, Layout::new(alloc, state, &KeySet::new(alloc)));
    check_counts(rt, &layout);
}

#[test]
fn a_layout_has_counts(rt: HostRuntime) {
    let state = small_state(&rt, rt.alloc());
    check_layout(&rt, rt.alloc(), &state);
}

/// A change of marks.
#[derive(Clone, Copy)]
enum Change {
    /// Toggles the item of a key.
    Toggle(Key),
    /// Inverts all marks.
    Invert,
    /// Checks all items, or unchecks them.
    Set,
}

/// Makes `change` in `state` and its layout.
fn change_marks(layout: &mut Layout, state: &mut RecordState<'_>, change: Change)
    requires layout { IsLayoutOf layout.old state.old }
    requires size { state_size state.old ≤ max_items }
{
    match change {
        Change::Toggle(key) => layout.toggle_key(state, key_of(key)),
        Change::Invert => layout.invert_all(state),
        Change::Set => layout.set_all(state),
    }
}

/// A change of marks, and how many items, lines and modes are checked after it.
type Changed = (Change, usize, usize, usize);

/// Changes of `small_state`, one after the other.
const CHANGES: &[Changed] = &[
    // the deletion is unchecked with the removed line
    (Change::Toggle(Key::Line(0, 1, 0)), 0, 0, 0),
    (Change::Toggle(Key::Line(0, 1, 1)), 1, 1, 0),
    (Change::Toggle(Key::Section(0, 1)), 0, 0, 0),
    // each line is checked with the deletion
    (Change::Toggle(Key::Section(0, 2)), 3, 2, 1),
    (Change::Toggle(Key::File(0)), 0, 0, 0),
    (Change::Invert, 3, 2, 1),
    (Change::Set, 0, 0, 0),
];

/// Makes the change of `row` in `state` and its layout, and checks the counts.
fn check_change(rt: &impl Abort, alloc: Global, state: &mut RecordState<'_>, row: Changed) {
    assert!(rt; state.is_accepted());
    let mut layout = made(rt, Layout::new(alloc, state, &KeySet::new(alloc)));
    change_marks(&mut layout, state, row.0);
    check_marks(rt, &layout, row.1, row.2, row.3);
}

#[test]
fn toggles_keep_counts(rt: HostRuntime) {
    let mut state = small_state(&rt, rt.alloc());
    for row in CHANGES {
        check_change(&rt, rt.alloc(), &mut state, *row);
    }
}

/// The rows of the file, from its header to the row below it, how many of its sections are folded, and the
/// rows below these sections, counted from the row below the header.
type Rows = (usize, usize, usize, [usize; 4]);

/// Checks that the sections of a file end above the rows `ends`.
fn check_ends(rt: &impl Abort, rows: &FileRows, ends: [usize; 4]) {
    check_equal(rt, rows.sections.count(), 4);
    let mut next = 0;
    for (index, end) in ends.iter().enumerate() {
        let section = rows.sections.get(index);
        check_equal(
            rt,
            section.map(|rows| (rows.top, rows.end)),
            Some((next, *end)),
        );
        next = *end;
    }
}

/// Checks that the only file of `layout` has the rows `wanted`.
fn check_rows(rt: &impl Abort, layout: &Layout, wanted: Rows) {
    let files = layout.rows.files.as_slice();
    assert!(rt; files.len() == 1);
    let found = (files[0].top, files[0].end, files[0].folded);
    check_equal(rt, found, (wanted.0, wanted.1, wanted.2));
    check_ends(rt, &files[0], wanted.3);
}

/// A fold of a key.
#[derive(Clone, Copy)]
enum Fold {
    /// Unfolds the key if it is folded, else folds it.
    Flip(Key),
    /// Unfolds the key.
    Unfold(Key),
    /// Folds the key.
    Fold(Key),
}

/// Makes `step` in the layout of `state`, and in `expanded`, the keys that are unfolded.
fn fold_key(
    rt: &impl Abort,
    layout: &mut Layout,
    state: &RecordState<'_>,
    expanded: &mut KeySet,
    step: Fold,
)
    requires layout { layout.old ≡ layout_of state.now expanded.old }
    requires size { state_size state.now ≤ max_items }
{
    match step {
        Fold::Flip(key) => made(rt, layout.flip(state, expanded, key_of(key))),
        Fold::Unfold(key) => made(rt, layout.unfold(state, expanded, key_of(key))),
        Fold::Fold(key) => layout.fold(state, expanded, key_of(key)),
    }
}

/// Folds of `small_state`, one after the other, and the rows after each. All is folded at first.
const FOLDS: &[(Fold, Rows)] = &[
    (Fold::Fold(Key::File(0)), (4, 5, 1, [0, 1, 2, 2])),
    (Fold::Flip(Key::File(0)), (4, 7, 1, [0, 1, 2, 2])),
    (Fold::Unfold(Key::Section(0, 1)), (4, 11, 0, [2, 5, 6, 6])),
    (Fold::Unfold(Key::Section(0, 1)), (4, 11, 0, [2, 5, 6, 6])),
    (Fold::Fold(Key::Section(0, 1)), (4, 7, 1, [0, 1, 2, 2])),
];

/// Makes a fold in the layout of `state` and in `expanded`, and checks the rows.
fn check_fold(
    rt: &impl Abort,
    alloc: Global,
    state: &RecordState<'_>,
    expanded: &mut KeySet,
    row: (Fold, Rows),
) {
    assert!(rt; state.is_accepted());
    let mut layout = made(rt, Layout::new(alloc, state, expanded));
    fold_key(rt, &mut layout, state, expanded, row.0);
    check_rows(rt, &layout, row.1);
}

#[test]
fn folds_keep_rows(rt: HostRuntime) {
    let state = small_state(&rt, rt.alloc());
    let mut expanded = KeySet::new(rt.alloc());
    for row in FOLDS {
        check_fold(&rt, rt.alloc(), &state, &mut expanded, *row);
    }
}

/// Returns the keys of `state`, all unfolded.
fn all_unfolded(rt: &impl Abort, alloc: Global, state: &RecordState<'_>) -> KeySet {
    let keys = made(rt, all_keys(alloc, state.files.as_slice()));
    made(rt, key_set_of(alloc, &keys))
}

/// Returns the layout of `state`, made with all folded, and then with the keys `unfolded` unfolded.
fn refolded(rt: &impl Abort, alloc: Global, state: &RecordState<'_>, unfolded: &KeySet) -> Layout
    requires { state_size state.now ≤ max_items }
    ensures { result ≡ layout_of state.now unfolded.now }
{
    let mut layout = made(rt, Layout::new(alloc, state, &KeySet::new(alloc)));
    layout.refold(state, unfolded);
    layout
}

#[test]
fn rows_move_with_the_message(rt: HostRuntime) {
    let mut state = small_state(&rt, rt.alloc());
    assert!(rt; state.is_accepted());
    let unfolded = all_unfolded(&rt, rt.alloc(), &state);
    let mut layout = refolded(&rt, rt.alloc(), &state, &unfolded);
    check_rows(&rt, &layout, (4, 12, 0, [2, 5, 6, 7]));
    state.commits = Items::new(rt.alloc());
    layout.restack(&state);
    check_rows(&rt, &layout, (1, 9, 0, [2, 5, 6, 7]));
}

/// Returns the index of the file of `layout` that has row `row`, if any.
fn file_at(layout: &Layout, state: &RecordState<'static>, set: &KeySet, row: usize) -> Option<usize>
    requires { layout.now ≡ layout_of state.now set.now }
{
    file_on(layout.rows.files.as_slice(), row)
}

/// Rows, and the index of the file that has them.
const FOUND: &[(usize, Option<usize>)] = &[(3, None), (4, Some(0)), (11, Some(0)), (12, None)];

#[test]
fn rows_are_found(rt: HostRuntime) {
    let alloc = rt.alloc();
    let state = small_state(&rt, alloc);
    assert!(rt; state.is_accepted());
    let expanded = all_unfolded(&rt, alloc, &state);
    let layout = made(&rt, Layout::new(alloc, &state, &expanded));
    for (row, found) in FOUND {
        check_equal(&rt, file_at(&layout, &state, &expanded, *row), *found);
    }
}
