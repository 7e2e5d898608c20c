//! Marks, splits, limits, errors, lists and texts, checked against the project's values.
use crate::checks::{check_copy, check_equal, check_text, made};
use crate::parts::{Part, file_with_parts};
use scm_samples::{ADDED, DEFAULT, HELD, Line, REMOVED, file_holding, file_with, owned};
use scm_types::consts::{DUMP_UI_STATE_FILENAME, ENV_VAR_DEBUG_UI, ENV_VAR_DUMP_UI_STATE};
use scm_types::helpers::make_binary_description;
use scm_types::repair::{check_modes, uncheck_deletions};
use scm_types::{
    ChangeType, Commit, File, FileMode, Items, OwnedText, RecordError, RecordState, Section,
    SectionChangedLine, SelectedChanges, SelectedContents, Text, laws,
};
use std::alloc::{AllocError, Global};
use std::borrow::CowStr;
use std::process::Abort;

/// A checked line of a new file.
const CHECKED: Part = Part::Changes(&[(true, ADDED, "n\n")]);

/// An unchecked line of a new file.
const UNCHECKED: Part = Part::Changes(&[(false, ADDED, "n\n")]);

/// The checked creation of a file.
const CREATED: Part = Part::Mode(true, DEFAULT);

/// The unchecked creation of a file.
const LEFT_OUT: Part = Part::Mode(false, DEFAULT);

/// A new file, of which all is checked.
const NEW: &[Part] = &[CHECKED, CREATED];

/// A new file, of which the creation is checked alone.
const NEW_EMPTY: &[Part] = &[UNCHECKED, CREATED];

/// A new file, of which the line is checked alone.
const NEW_LINE: &[Part] = &[CHECKED, LEFT_OUT];

/// A new file, of which nothing is checked.
const NOTHING_NEW: &[Part] = &[UNCHECKED, LEFT_OUT];

/// Added and removed lines: of each kind one checked and one unchecked.
const MIXED: &[Line] = &[
    (true, ADDED, "b\n"),
    (false, REMOVED, "c\n"),
    (false, ADDED, "d\n"),
    (true, REMOVED, "e\n"),
];

/// Returns a file of a line of context, and the lines of `MIXED`.
fn mixed_file(rt: &impl Abort, alloc: Global) -> File<'static> {
    made(rt, file_with(alloc, &["a\n"], MIXED))
}

/// A checked removed line.
const REMOVAL: Part = Part::Changes(&[(true, REMOVED, "x\n")]);

/// A file without its last line.
const EMPTIED: &[Part] = &[REMOVAL];

/// A file that is deleted.
const DELETED: &[Part] = &[REMOVAL, Part::Mode(true, FileMode::Absent)];

/// A checked binary change, and a line of context after it.
const BYTES: &[Part] = &[Part::Bytes(Some("old"), None), Part::Context(&["z\n"])];

/// The expected contents of a side.
#[derive(Clone, Copy)]
enum Side {
    Unchanged,
    OldBinary,
    Text(&'static str),
}

/// Returns whether `contents` are those of `side`.
fn is_side(contents: &SelectedContents<'_>, side: Side) -> bool {
    match (contents, side) {
        (SelectedContents::Unchanged, Side::Unchanged) => true,
        (
            SelectedContents::Binary {
                old_description: Some(old),
                new_description: None,
            },
            Side::OldBinary,
        ) => old.as_str() == "old",
        (SelectedContents::Text { contents }, Side::Text(text)) => contents.as_str() == text,
        _ => false,
    }
}

/// Checks that `changes` are the side `expected`.
fn check_side(rt: &impl Abort, changes: &SelectedChanges<'_>, expected: (FileMode, Side)) {
    check_equal(rt, changes.file_mode, expected.0);
    check_equal(rt, is_side(&changes.contents, expected.1), true);
}

/// Splits `file`, and checks that its sides are `selected` and `unselected`.
fn check_split(
    rt: &impl Abort,
    alloc: Global,
    file: &File<'_>,
    selected: (FileMode, Side),
    unselected: (FileMode, Side),
) {
    let sides = made(rt, file.get_selected_contents(alloc));
    check_side(rt, &sides.0, selected);
    check_side(rt, &sides.1, unselected);
}

#[test]
fn files_are_split(rt: HostRuntime) {
    let first = (DEFAULT, Side::Text("a\nb\nc\n"));
    let second = (DEFAULT, Side::Text("a\nd\ne\n"));
    let mut mixed = mixed_file(&rt, rt.alloc());
    check_split(&rt, rt.alloc(), &mixed, first, second);
    mixed.toggle_all();
    check_split(&rt, rt.alloc(), &mixed, second, first);
}

/// The old mode and the sections of a file, and the mode and the contents of its selected and of its
/// unselected side.
type Split = (
    FileMode,
    &'static [Part],
    (FileMode, Side),
    (FileMode, Side),
);

/// Files without their last line, deleted files, files with a binary change, and new files with each
/// pair of marks.
const SPLITS: &[Split] = &[
    (
        DEFAULT,
        EMPTIED,
        (DEFAULT, Side::Text("")),
        (DEFAULT, Side::Text("x\n")),
    ),
    (
        DEFAULT,
        DELETED,
        (FileMode::Absent, Side::Unchanged),
        (DEFAULT, Side::Text("x\n")),
    ),
    (
        DEFAULT,
        BYTES,
        (DEFAULT, Side::OldBinary),
        (DEFAULT, Side::Text("z\n")),
    ),
    (
        FileMode::Absent,
        NEW,
        (DEFAULT, Side::Text("n\n")),
        (FileMode::Absent, Side::Unchanged),
    ),
    (
        FileMode::Absent,
        NEW_EMPTY,
        (DEFAULT, Side::Text("")),
        (FileMode::Absent, Side::Text("n\n")),
    ),
    (
        FileMode::Absent,
        NOTHING_NEW,
        (FileMode::Absent, Side::Unchanged),
        (DEFAULT, Side::Text("n\n")),
    ),
    (
        FileMode::Absent,
        NEW_LINE,
        (FileMode::Absent, Side::Text("n\n")),
        (DEFAULT, Side::Text("")),
    ),
];

/// Splits the file of `row`, and checks its sides.
fn check_sides_of(rt: &impl Abort, alloc: Global, row: Split) {
    let file = made(rt, file_with_parts(alloc, row.0, row.1));
    check_split(rt, alloc, &file, row.2, row.3);
}

#[test]
fn sides_have_modes_and_contents(rt: HostRuntime) {
    for row in SPLITS {
        check_sides_of(&rt, rt.alloc(), *row);
    }
}

/// Returns the number of bytes of a side's text, or 0 if it is no text.
fn text_len(contents: &SelectedContents<'_>) -> usize {
    match contents {
        SelectedContents::Text { contents } => contents.len(),
        SelectedContents::Unchanged | SelectedContents::Binary { .. } => 0,
    }
}

/// Splits `file`, and checks that its selected text has `bytes` bytes.
fn check_size(rt: &impl Abort, alloc: Global, file: &File<'_>, bytes: usize) {
    let sides = made(rt, file.get_selected_contents(alloc));
    check_equal(rt, text_len(&sides.0.contents), bytes);
}

/// How many lines of context and how many added lines a file has, and how many bytes its selected text.
const COUNTS: &[(usize, usize)] = &[(0, 0), (1, 4), (10_000, 40_000)];

/// Splits a file of `count` lines of context and `count` checked added lines.
fn check_count(rt: &impl Abort, alloc: Global, count: usize, bytes: usize) {
    let texts = made(rt, vec![in alloc; "a\n"; count]);
    let lines = made(rt, vec![in alloc; (true, ADDED, "b\n"); count]);
    let file = made(rt, file_with(alloc, texts.as_slice(), lines.as_slice()));
    check_size(rt, alloc, &file, bytes);
}

#[test]
fn files_of_any_size_are_split(rt: HostRuntime) {
    for (count, bytes) in COUNTS {
        check_count(&rt, rt.alloc(), *count, *bytes);
    }
}

#[test]
fn laws_of_toggles_hold(rt: HostRuntime) {
    let file = mixed_file(&rt, rt.alloc());
    laws::toggle_twice(&file);
    laws::toggle_swaps(&file);
    laws::split_keeps_lines(&file);
}

/// Checks that copies of `sections` equal them.
fn check_sections(rt: &impl Abort, alloc: Global, sections: &[Section<'_>]) {
    for section in sections {
        check_copy(rt, section.try_clone(alloc), section);
    }
}

/// Checks that a copy of `texts` equals it.
fn check_list(rt: &impl Abort, alloc: Global, texts: &Items<Text<'static>>) {
    check_copy(rt, texts.try_clone(alloc), texts);
}

#[test]
fn copies_of_lists_equal_them(rt: HostRuntime) {
    let mut texts: Items<Text<'static>> = Items::new(rt.alloc());
    check_list(&rt, rt.alloc(), &texts);
    made(&rt, texts.extend([Text::from("a\n"), Text::from("")]));
    check_list(&rt, rt.alloc(), &texts);
}

#[test]
fn copies_of_lines_equal_them(rt: HostRuntime) {
    let line = SectionChangedLine {
        is_checked: false,
        change_type: ADDED,
        line: Text::from("n\n"),
    };
    check_copy(&rt, line.try_clone(rt.alloc()), &line);
}

/// Checks that copies of the contents of both sides equal them.
fn check_sides(rt: &impl Abort, alloc: Global, sides: &(SelectedChanges<'_>, SelectedChanges<'_>)) {
    let (selected, unselected) = (&sides.0.contents, &sides.1.contents);
    check_copy(rt, selected.try_clone(alloc), selected);
    check_copy(rt, unselected.try_clone(alloc), unselected);
}

/// Checks that copies of `file`, of its sections, and of the contents of both its sides equal them.
fn check_copies(rt: &impl Abort, alloc: Global, file: &File<'_>) {
    check_copy(rt, file.try_clone(alloc), file);
    check_sections(rt, alloc, file.sections.as_slice());
    let sides = made(rt, file.get_selected_contents(alloc));
    check_sides(rt, alloc, &sides);
}

#[test]
fn copies_of_files_equal_them(rt: HostRuntime) {
    check_copies(&rt, rt.alloc(), &mixed_file(&rt, rt.alloc()));
    for held in HELD {
        let file = made(&rt, file_holding(rt.alloc(), *held));
        check_copies(&rt, rt.alloc(), &file);
    }
}

/// An unchecked removed line.
const KEPT: Part = Part::Changes(&[(false, REMOVED, "x\n")]);

/// An unchecked removed line, and the unchecked deletion of its file.
const HALF: &[Part] = &[KEPT, Part::Mode(false, FileMode::Absent)];

/// An unchecked removed line, and the checked deletion of its file.
const HALF_DELETED: &[Part] = &[KEPT, Part::Mode(true, FileMode::Absent)];

/// Checks that `file` is the file of `parts`.
fn check_parts(rt: &impl Abort, alloc: Global, file: &File<'static>, parts: &[Part]) {
    check_equal(
        rt,
        file,
        &made(rt, file_with_parts(alloc, file.file_mode, parts)),
    );
}

/// The old mode of a file, its sections, and its sections after a repair.
type Repair = (FileMode, &'static [Part], &'static [Part]);

/// Repairs: a deletion is unchecked beside an unchecked line, and a creation is checked beside a checked one.
const REPAIRS: &[Repair] = &[
    (DEFAULT, HALF_DELETED, HALF),
    (DEFAULT, HALF, HALF),
    (FileMode::Absent, NEW_LINE, NEW),
    (FileMode::Absent, NEW_EMPTY, NEW_EMPTY),
];

/// Repairs the file of `row`, and checks its sections.
fn check_repair(rt: &impl Abort, alloc: Global, row: Repair) {
    let mut file = made(rt, file_with_parts(alloc, row.0, row.1));
    file.repair();
    check_parts(rt, alloc, &file, row.2);
}

#[test]
fn files_are_made_to_fit(rt: HostRuntime) {
    for row in REPAIRS {
        check_repair(&rt, rt.alloc(), *row);
    }
}

#[test]
fn marks_are_made_to_fit(rt: HostRuntime) {
    let mut file = made(&rt, file_with_parts(rt.alloc(), DEFAULT, HALF_DELETED));
    uncheck_deletions(file.sections.as_mut_slice());
    check_parts(&rt, rt.alloc(), &file, HALF);
    check_modes(file.sections.as_mut_slice());
    check_parts(&rt, rt.alloc(), &file, HALF_DELETED);
}

#[test]
fn three_commits_are_not_accepted(rt: HostRuntime) {
    let mut state = RecordState::empty(rt.alloc());
    for count in 0..4 {
        check_equal(&rt, state.is_accepted(), count < 3);
        made(&rt, state.commits.push(Commit::default()));
    }
}

/// Returns what `error` is displayed as.
fn error_text(alloc: Global, error: &RecordError) -> Result<String, AllocError> {
    format!(in alloc; "{error}")
}

/// Checks that `error` is displayed as `text`.
fn check_error(rt: &impl Abort, alloc: Global, error: RecordError, text: &str) {
    check_text(rt, error_text(alloc, &error), text);
}

/// Checks that the error that `error_of` makes of the cause `T` is displayed as `text`.
fn check_caused<F: FnOnce(String) -> RecordError>(
    rt: &impl Abort,
    alloc: Global,
    error_of: F,
    text: &str,
)
    requires { F.IsAlwaysCallable error_of }
{
    let cause = made(rt, String::from_str(alloc, "T"));
    check_error(rt, alloc, error_of(cause), text);
}

/// The texts of errors of a terminal and of files.
const SET_UP: &str = "failed to set up terminal: T";

const CLEAN_UP: &str = "failed to clean up terminal: T";

const RENDER: &str = "failed to render new frame: T";

const READ: &str = "failed to read user input: T";

const SERIALIZE: &str = "failed to serialize JSON: T";

const WRITE: &str = "failed to wrote file: T";

#[test]
fn errors_have_their_texts(rt: HostRuntime) {
    check_caused(&rt, rt.alloc(), RecordError::SetUpTerminal, SET_UP);
    check_caused(&rt, rt.alloc(), RecordError::CleanUpTerminal, CLEAN_UP);
    check_caused(&rt, rt.alloc(), RecordError::RenderFrame, RENDER);
    check_caused(&rt, rt.alloc(), RecordError::ReadInput, READ);
    check_caused(&rt, rt.alloc(), RecordError::SerializeJson, SERIALIZE);
    check_caused(&rt, rt.alloc(), RecordError::WriteFile, WRITE);
    check_caused(&rt, rt.alloc(), RecordError::Other, "T");
    check_caused(&rt, rt.alloc(), RecordError::Bug, "bug: T");
    check_error(&rt, rt.alloc(), RecordError::Cancelled, "cancelled by user");
    check_error(&rt, rt.alloc(), RecordError::OutOfMemory, "out of memory");
}

/// Returns what `mode` is printed as.
fn mode_text(alloc: Global, mode: FileMode) -> Result<String, AllocError> {
    format!(in alloc; "{mode}")
}

/// Checks that `mode` is printed as `text`.
fn check_mode(rt: &impl Abort, alloc: Global, mode: FileMode, text: &str) {
    check_text(rt, mode_text(alloc, mode), text);
    check_equal(rt, mode.is_absent(), text == "<absent>");
}

#[test]
fn modes_are_converted_and_printed(rt: HostRuntime) {
    let executable = FileMode::from(0o100755_usize);
    check_mode(&rt, rt.alloc(), executable, "100755");
    check_mode(
        &rt,
        rt.alloc(),
        made(&rt, FileMode::try_from(0o100644_u32)),
        "100644",
    );
    check_mode(&rt, rt.alloc(), made(&rt, FileMode::try_from(8_i32)), "10");
    check_mode(&rt, rt.alloc(), DEFAULT, "100644");
    check_mode(&rt, rt.alloc(), FileMode::Absent, "<absent>");
}

#[test]
fn names_are_those_of_the_crate(rt: HostRuntime) {
    check_equal(&rt, ENV_VAR_DUMP_UI_STATE, "SCM_RECORD_DUMP_UI_STATE");
    check_equal(&rt, DUMP_UI_STATE_FILENAME, "scm_record_ui_state.json");
    check_equal(&rt, ENV_VAR_DEBUG_UI, "SCM_RECORD_DEBUG_UI");
}

/// A hash, a size and their description.
type Described = (&'static str, u64, &'static str);

/// Descriptions of bytes.
const DESCRIBED: &[Described] = &[
    ("", 0, " (0 bytes)"),
    ("abc123", 42, "abc123 (42 bytes)"),
    ("é", u64::MAX, "é (18446744073709551615 bytes)"),
];

#[test]
fn bytes_are_described(rt: HostRuntime) {
    for (hash, size, text) in DESCRIBED {
        let description = make_binary_description(rt.alloc(), *hash, *size);
        check_text(&rt, description, *text);
    }
}

/// Returns a list of three numbers.
fn numbers(rt: &impl Abort, alloc: Global) -> Items<u8> {
    made(rt, [3_u8, 5, 8].into_iter().collect(alloc))
}

/// Changes a list of three numbers by each call that lends elements.
fn change_numbers(rt: &impl Abort, items: &mut Items<u8>) {
    assert!(rt; items.len() == 3);
    items[0] = 4;
    for item in items.as_mut_slice() {
        *item ^= 1;
    }
    if let Some(item) = items.get_mut(2) {
        *item = 7;
    }
}

/// Checks the list that `change_numbers` leaves.
fn check_numbers(rt: &impl Abort, items: &Items<u8>) {
    assert!(rt; items.len() == 3);
    check_equal(rt, items[0], 5);
    check_equal(rt, items.get(1).copied(), Some(4));
    check_equal(rt, items.get(3).copied(), None);
    check_equal(rt, items.iter().all(|item| *item > 3), true);
}

#[test]
fn lists_are_read_and_changed(rt: HostRuntime) {
    let mut items = numbers(&rt, rt.alloc());
    change_numbers(&rt, &mut items);
    check_numbers(&rt, &items);
    let list = items.into_inner();
    check_equal(&rt, list.as_slice(), [5, 4, 7].as_slice());
    check_numbers(&rt, &Items::from(list));
}

/// Returns the elements of `items` in a new list, in order.
fn gone_through(rt: &impl Abort, alloc: Global, items: Items<u8>) -> Items<u8> {
    let mut rest = Items::new(alloc);
    for item in items {
        made(rt, rest.push(item));
    }
    rest
}

/// Takes both elements from a list.
fn check_rest(rt: &impl Abort, rest: &mut Items<u8>) {
    check_equal(rt, rest.as_slice(), [2, 4].as_slice());
    check_equal(rt, rest.pop(), Some(4));
    check_equal(rt, rest.pop(), Some(2));
    check_equal(rt, rest.pop(), None);
}

#[test]
fn lists_are_collected_and_gone_through(rt: HostRuntime) {
    let mut items = numbers(&rt, rt.alloc());
    for item in &mut items {
        *item ^= 1;
    }
    check_equal(&rt, items.pop(), Some(9));
    let mut rest = gone_through(&rt, rt.alloc(), items);
    check_rest(&rt, &mut rest);
}

#[test]
fn lists_are_made_with_room_and_extended(rt: HostRuntime) {
    let mut items = made(&rt, Items::with_capacity(rt.alloc(), 4));
    check_equal(&rt, items.last().copied(), None);
    made(&rt, items.extend([3_u8, 5, 8]));
    check_equal(&rt, items.as_slice(), [3, 5, 8].as_slice());
    check_equal(&rt, items.last().copied(), Some(8));
}

/// Checks whether the error of a read that fails with `text` is that of a script that ends.
fn check_end(rt: &impl Abort, alloc: Global, text: &str, is_end: bool) {
    let error = RecordError::ReadInput(made(rt, String::from_str(alloc, text)));
    check_equal(rt, error.is_no_events_left(), is_end);
}

#[test]
fn a_script_that_ends_is_told_by_its_kind(rt: HostRuntime) {
    check_end(&rt, rt.alloc(), "no events left", true);
    check_end(&rt, rt.alloc(), "gone", false);
    check_equal(&rt, RecordError::Cancelled.is_no_events_left(), false);
}

/// Returns what `text` is displayed as.
fn shown(alloc: Global, text: &Text<'_>) -> Result<String, AllocError> {
    format!(in alloc; "{text}")
}

/// Checks that `text` is "né", by each call that borrows it.
fn check_borrowed(rt: &impl Abort, alloc: Global, text: &Text<'_>) {
    check_equal(rt, text.as_str(), "né");
    check_equal(rt, (text.len(), text.is_empty()), (3, false));
    check_equal(rt, text.borrowed() == *text, true);
    check_text(rt, shown(alloc, text), "né");
}

/// Checks that `text` is "né", by each call that reads it.
fn check_read(rt: &impl Abort, alloc: Global, text: Text<'_>) {
    check_borrowed(rt, alloc, &text);
    check_equal(rt, text.into_inner().as_str(), "né");
}

#[test]
fn texts_are_read(rt: HostRuntime) {
    let owned = made(&rt, String::from_str(rt.alloc(), "né"));
    check_read(&rt, rt.alloc(), Text::from("né"));
    check_read(&rt, rt.alloc(), Text::from(owned));
    check_read(&rt, rt.alloc(), Text::from(CowStr::Borrowed("né")));
}

/// Returns what `text` is displayed as.
fn owned_shown(alloc: Global, text: &OwnedText) -> Result<String, AllocError> {
    format!(in alloc; "{text}")
}

/// Checks that `text` is "né", by each call that borrows it.
fn check_owned(rt: &impl Abort, alloc: Global, text: &OwnedText) {
    check_equal(rt, (text.len(), text.is_empty()), (3, false));
    check_copy(rt, text.try_clone(alloc), text);
    check_text(rt, owned_shown(alloc, text), "né");
}

#[test]
fn owned_texts_are_read(rt: HostRuntime) {
    let text = made(&rt, owned(rt.alloc(), "né"));
    check_owned(&rt, rt.alloc(), &text);
    check_equal(&rt, text.into_inner().as_str(), "né");
}
