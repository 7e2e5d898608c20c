//! Lists and sets of keys, moves among them, toggles and counts, mostly on a file with one section
//! of two lines.
use crate::checks::{check_equal, made};
use crate::samples::state_of;
use scm_samples::{ADDED, Held, file_holding, file_with};
use scm_selection::key_lists::{
    all_keys, file_key, first_key, line_key, section_key, section_keys,
};
use scm_selection::key_set::{KeySet, key_set_of};
use scm_selection::moves::{
    first_inside, is_visible_key, next_of_kind, next_visible, previous_of_kind, previous_visible,
};
use scm_selection::{counts, toggles};
use scm_types::{File, Items, LineKey, RecordError, RecordState, SelectionKey, Tristate};
use std::alloc::Global;
use std::process::Abort;

/// Returns a file of a line of context and a section of two unchecked lines.
fn sample_file(rt: &impl Abort, alloc: Global) -> File<'static> {
    let lines = [(false, ADDED, "b\n"), (false, ADDED, "c\n")];
    made(rt, file_with(alloc, &["a\n"], &lines))
}

/// Returns one file: that of `sample_file`.
fn samples(rt: &impl Abort, alloc: Global) -> Items<File<'static>> {
    let file = sample_file(rt, alloc);
    Items::from(made(rt, vec![in alloc; file]))
}

/// A key of the first commit, as a constant.
#[derive(Clone, Copy)]
pub(crate) enum Key {
    /// No key.
    None,
    /// A file.
    File(usize),
    /// A file and one of its sections.
    Section(usize, usize),
    /// A file, one of its sections and one of that section's lines.
    Line(usize, usize, usize),
}

/// Returns the key `key`.
pub(crate) fn key_of(key: Key) -> SelectionKey {
    match key {
        Key::None => SelectionKey::None,
        Key::File(file) => file_key(file),
        Key::Section(file, section) => section_key(file, section),
        Key::Line(file, section, line) => line_key(file, section, line),
    }
}

/// The keys of the file of `samples`, in order.
const SAMPLE_KEYS: &[Key] = &[
    Key::File(0),
    Key::Section(0, 1),
    Key::Line(0, 1, 0),
    Key::Line(0, 1, 1),
];

/// Checks that `found` are the keys `wanted`.
fn check_keys(rt: &impl Abort, found: &[SelectionKey], wanted: &[Key]) {
    check_equal(rt, found.len(), wanted.len());
    for (key, name) in found.iter().zip(wanted) {
        check_equal(rt, *key, key_of(*name));
    }
}

/// Checks the lists of the keys of `files`.
fn check_lists(rt: &impl Abort, alloc: Global, files: &[File<'_>]) {
    check_keys(rt, made(rt, all_keys(alloc, files)).as_slice(), SAMPLE_KEYS);
    let sections = made(rt, section_keys(alloc, files));
    check_keys(rt, sections.as_slice(), &[Key::Section(0, 1)]);
    check_equal(rt, first_key(files), file_key(0));
    check_equal(rt, first_key(&[]), SelectionKey::None);
}

#[test]
fn lists_of_keys(rt: HostRuntime) {
    let files = samples(&rt, rt.alloc());
    check_lists(&rt, rt.alloc(), files.as_slice());
}

/// Checks that `set` has the keys `wanted` and no others.
fn check_set(rt: &impl Abort, alloc: Global, set: &KeySet, wanted: &[SelectionKey]) {
    let wanted = made(rt, key_set_of(alloc, wanted));
    check_equal(rt, set.is_same(&wanted), true);
}

/// Returns the set of a line and a file.
fn two_keys(rt: &impl Abort, alloc: Global) -> KeySet {
    let mut set = KeySet::new(alloc);
    made(rt, set.insert(line_key(0, 1, 0)));
    made(rt, set.insert(file_key(0)));
    set
}

/// Leaves the section of the file alone in the set of `two_keys`.
fn change_keys(rt: &impl Abort, set: &mut KeySet) {
    made(rt, set.flip(section_key(0, 1)));
    made(rt, set.flip(file_key(0)));
    set.remove(line_key(0, 1, 0));
}

#[test]
fn sets_of_keys(rt: HostRuntime) {
    let mut set = two_keys(&rt, rt.alloc());
    let found = (set.contains(file_key(0)), set.contains(section_key(0, 1)));
    check_equal(&rt, found, (true, false));
    check_set(&rt, rt.alloc(), &set, &[file_key(0), line_key(0, 1, 0)]);
    change_keys(&rt, &mut set);
    check_set(&rt, rt.alloc(), &set, &[section_key(0, 1)]);
}

/// Checks whether `set` has exactly the keys of all `files` and of all their sections.
fn check_exact(rt: &impl Abort, alloc: Global, set: &KeySet, files: &[File<'_>], is_exact: bool) {
    let found = made(rt, set.has_exactly_files(alloc, files));
    check_equal(rt, found, is_exact);
}

/// Checks the set of the keys of all sections of `files`.
fn check_sections(rt: &impl Abort, alloc: Global, set: &KeySet, files: &[File<'_>]) {
    let sections = made(rt, section_keys(alloc, files));
    check_set(rt, alloc, set, sections.as_slice());
}

/// Adds the keys of all `files` to the set of the keys of their sections.
fn add_files(rt: &impl Abort, alloc: Global, set: &mut KeySet, files: &[File<'_>]) {
    for file in 0..files.len() {
        check_exact(rt, alloc, set, files, false);
        made(rt, set.insert(file_key(file)));
    }
    let all = made(rt, KeySet::of_files(alloc, files));
    check_equal(rt, set.is_same(&all), true);
    check_exact(rt, alloc, set, files, true);
}

/// Adds a key to the set of all keys of `files` and sections, and removes it and another one.
fn change_sections(rt: &impl Abort, alloc: Global, set: &mut KeySet, files: &[File<'_>]) {
    made(rt, set.insert(section_key(1, 0)));
    check_equal(rt, set.contains(section_key(1, 0)), true);
    check_exact(rt, alloc, set, files, false);
    set.remove(section_key(1, 0));
    set.remove(section_key(0, 1));
    check_equal(rt, set.contains(section_key(0, 1)), false);
    check_exact(rt, alloc, set, files, false);
}

/// Adds the key of a section, and that of one of its lines, to the set of all other keys of `files`
/// and sections.
fn add_line(rt: &impl Abort, alloc: Global, set: &mut KeySet, files: &[File<'_>]) {
    made(rt, set.insert(section_key(0, 1)));
    made(rt, set.insert(line_key(0, 1, 0)));
    check_exact(rt, alloc, set, files, false);
}

/// Checks sets of all keys of `files` and sections.
fn check_files(rt: &impl Abort, alloc: Global, files: &[File<'_>]) {
    let mut set = made(rt, KeySet::of_sections(alloc, files));
    check_sections(rt, alloc, &set, files);
    add_files(rt, alloc, &mut set, files);
    change_sections(rt, alloc, &mut set, files);
    add_line(rt, alloc, &mut set, files);
}

#[test]
fn sets_of_all_files_and_sections(rt: HostRuntime) {
    let files = several_files(&rt, rt.alloc());
    check_files(&rt, rt.alloc(), files.as_slice());
}

/// Adds `file` at the end of `files`.
fn push(
    rt: &impl Abort,
    files: &mut Items<File<'static>>,
    file: Result<File<'static>, RecordError>,
) {
    made(rt, files.push(made(rt, file)));
}

/// Returns four files: that of `samples`, one of context and an empty section, one of context
/// without a line, and one of context and a section of one line.
fn several_files(rt: &impl Abort, alloc: Global) -> Items<File<'static>> {
    let mut files = samples(rt, alloc);
    push(rt, &mut files, file_with(alloc, &["d\n"], &[]));
    push(rt, &mut files, file_holding(alloc, Held::NoContext));
    let lines = [(false, ADDED, "f\n")];
    push(rt, &mut files, file_with(alloc, &["e\n"], &lines));
    files
}

/// A move of the selection.
#[derive(Clone, Copy)]
enum Move {
    Next,
    Previous,
    NextOfKind,
    PreviousOfKind,
    Inside,
}

/// Returns the key to which `step` moves from `key`, or none if the move needs a visible key and
/// `key` is hidden.
fn moved(expanded: &KeySet, files: &[File<'_>], step: Move, key: SelectionKey) -> SelectionKey {
    match step {
        Move::Next => next_visible(expanded, files, key, SelectionKey::None),
        Move::Previous => previous_visible(expanded, files, key, SelectionKey::None),
        Move::NextOfKind => next_of_kind(expanded, files, key, SelectionKey::None),
        Move::PreviousOfKind => previous_of_kind(expanded, files, key, SelectionKey::None),
        Move::Inside => first_inside(expanded, files, key),
    }
}

/// A move, the key from which it starts, and the key to which it moves.
type Moved = (Move, Key, Key);

/// Checks `moves` among `files` with the keys `unfolded` unfolded.
fn check_moves(
    rt: &impl Abort,
    alloc: Global,
    files: &[File<'_>],
    unfolded: &[SelectionKey],
    moves: &[Moved],
) {
    let expanded = made(rt, key_set_of(alloc, unfolded));
    for (step, from, to) in moves {
        let found = moved(&expanded, files, *step, key_of(*from));
        check_equal(rt, found, key_of(*to));
    }
}

/// Checks `moves` among the files of `several_files` with all keys unfolded.
fn check_unfolded(rt: &impl Abort, alloc: Global, moves: &[Moved]) {
    let files = several_files(rt, alloc);
    let unfolded = made(rt, all_keys(alloc, files.as_slice()));
    check_moves(rt, alloc, files.as_slice(), unfolded.as_slice(), moves);
}

/// Moves to the next and to the previous key, all unfolded.
const NEXT_AND_PREVIOUS: &[Moved] = &[
    (Move::Next, Key::File(0), Key::Section(0, 1)),
    (Move::Next, Key::Line(0, 1, 1), Key::File(1)),
    (Move::Next, Key::Section(1, 1), Key::File(2)),
    (Move::Next, Key::File(2), Key::File(3)),
    (Move::Next, Key::Line(3, 1, 0), Key::Line(3, 1, 0)),
    (Move::Next, Key::Section(0, 0), Key::None),
    (Move::Previous, Key::File(0), Key::File(0)),
    (Move::Previous, Key::File(1), Key::Line(0, 1, 1)),
    (Move::Previous, Key::File(2), Key::Section(1, 1)),
    (Move::Previous, Key::File(3), Key::File(2)),
    (Move::Previous, Key::Section(0, 0), Key::None),
];

#[test]
fn moves_among_unfolded_keys(rt: HostRuntime) {
    check_unfolded(&rt, rt.alloc(), NEXT_AND_PREVIOUS);
}

/// Moves to keys of the same kind, and to the first key inside another, all unfolded.
const OF_KIND: &[Moved] = &[
    (Move::NextOfKind, Key::File(2), Key::File(3)),
    (Move::NextOfKind, Key::Section(1, 1), Key::Section(3, 1)),
    (Move::NextOfKind, Key::Line(0, 1, 1), Key::Line(3, 1, 0)),
    (Move::NextOfKind, Key::Section(3, 1), Key::Section(3, 1)),
    (Move::PreviousOfKind, Key::File(1), Key::File(0)),
    (Move::PreviousOfKind, Key::Section(3, 1), Key::Section(1, 1)),
    (Move::PreviousOfKind, Key::Line(3, 1, 0), Key::Line(0, 1, 1)),
    (Move::PreviousOfKind, Key::Line(0, 1, 0), Key::Line(0, 1, 0)),
    (Move::Inside, Key::File(0), Key::Section(0, 1)),
    (Move::Inside, Key::File(2), Key::Section(3, 1)),
    (Move::Inside, Key::Section(1, 1), Key::Line(3, 1, 0)),
    (Move::Inside, Key::Line(0, 1, 0), Key::Line(0, 1, 0)),
];

#[test]
fn moves_to_keys_of_a_kind(rt: HostRuntime) {
    check_unfolded(&rt, rt.alloc(), OF_KIND);
}

/// Moves with no key unfolded.
const FOLDED: &[Moved] = &[
    (Move::Next, Key::File(0), Key::File(1)),
    (Move::Next, Key::Section(0, 1), Key::None),
    (Move::Previous, Key::File(1), Key::File(0)),
    (Move::NextOfKind, Key::File(3), Key::File(3)),
    (Move::PreviousOfKind, Key::Section(3, 1), Key::None),
    (Move::Inside, Key::File(0), Key::Section(0, 1)),
];

/// Moves with the first and the last file unfolded.
const PARTLY_FOLDED: &[Moved] = &[
    (Move::Next, Key::Section(0, 1), Key::File(1)),
    (Move::Previous, Key::File(1), Key::Section(0, 1)),
    (Move::NextOfKind, Key::Section(0, 1), Key::Section(3, 1)),
    (Move::PreviousOfKind, Key::Section(3, 1), Key::Section(0, 1)),
];

/// Moves without files.
const WITHOUT_FILES: &[Moved] = &[
    (Move::Next, Key::File(0), Key::None),
    (Move::Inside, Key::File(0), Key::File(0)),
];

/// Checks moves among `files`, some of them folded, and without files.
fn check_folded(rt: &impl Abort, alloc: Global, files: &[File<'_>]) {
    let unfolded = [file_key(0), file_key(3)];
    check_moves(rt, alloc, files, &[], FOLDED);
    check_moves(rt, alloc, files, &unfolded, PARTLY_FOLDED);
    check_moves(rt, alloc, &[], &[file_key(0)], WITHOUT_FILES);
}

#[test]
fn moves_among_folded_keys(rt: HostRuntime) {
    let files = several_files(&rt, rt.alloc());
    check_folded(&rt, rt.alloc(), files.as_slice());
}

/// Keys, and whether they are visible in the file of `samples`, which is unfolded.
const VISIBLE: &[(Key, bool)] = &[
    (Key::Section(0, 1), true),
    (Key::Section(0, 0), false),
    (Key::Line(0, 1, 0), false),
    (Key::File(1), false),
];

/// Checks which keys of `files` are visible.
fn check_visible(rt: &impl Abort, expanded: &KeySet, files: &[File<'_>]) {
    for (key, is_there) in VISIBLE {
        let is_visible = is_visible_key(expanded, files, key_of(*key));
        check_equal(rt, is_visible, *is_there);
    }
}

#[test]
fn keys_among_the_visible_ones(rt: HostRuntime) {
    let expanded = made(&rt, key_set_of(rt.alloc(), &[file_key(0)]));
    let files = samples(&rt, rt.alloc());
    check_visible(&rt, &expanded, files.as_slice());
}

/// Returns the mark of the first file.
fn first_mark(files: &[File<'_>]) -> Option<Tristate> {
    files.first().map(|file| file.tristate())
}

/// The first line of `samples`.
const FIRST_LINE: LineKey = LineKey {
    commit_idx: 0,
    file_idx: 0,
    section_idx: 1,
    line_idx: 0,
};

/// Toggles `files`, and checks the mark of the first one.
fn check_toggles(rt: &impl Abort, files: &mut [File<'_>]) {
    toggles::toggle_key(files, line_key(0, 1, 1));
    check_equal(rt, first_mark(files), Some(Tristate::Partial));
    toggles::invert_all(files);
    toggles::toggle_key(files, line_key(0, 1, 1));
    check_equal(rt, first_mark(files), Some(Tristate::True));
    toggles::set_all(files);
    check_equal(rt, first_mark(files), Some(Tristate::False));
    toggles::invert_line_alone(files, FIRST_LINE);
    check_equal(rt, first_mark(files), Some(Tristate::Partial));
}

#[test]
fn toggles_of_keys(rt: HostRuntime) {
    let mut files = samples(&rt, rt.alloc());
    check_toggles(&rt, files.as_mut_slice());
}

/// Returns a state of `samples`, whose first commit has a message.
fn sample_state(rt: &impl Abort, alloc: Global) -> RecordState<'static> {
    state_of(rt, alloc, false, sample_file(rt, alloc))
}

#[test]
fn counts_of_a_state(rt: HostRuntime) {
    let mut state = sample_state(&rt, rt.alloc());
    check_equal(&rt, counts::message_count(&state), 1);
    check_equal(&rt, counts::changed_count(&state), 0);
    toggles::toggle_key(state.files.as_mut_slice(), file_key(0));
    check_equal(&rt, counts::changed_count(&state), 1);
}
