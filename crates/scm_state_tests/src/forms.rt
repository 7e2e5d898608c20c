//! What the `serde` derives read and write: each JSON form of a state, and refused forms.
use crate::checks::{check_equal, made};
use crate::parts::{Part, sections_of};
use crate::samples::state_of;
use scm_samples::{ADDED, DEFAULT, Line, REMOVED, changed, context, file_of, owned};
use scm_types::{
    ChangeType, Commit, File, FileMode, Items, OwnedText, RecordError, RecordState, Section,
    SectionChangedLine, Text,
};
use serde::{Deserialize, Serialize};
use std::alloc::Global;
use std::process::Abort;

/// Checks that `value` is read from `text`, and that `text` is written for `value`.
fn check_form<'a, T: Deserialize<'a> + Serialize + PartialEq + Drop>(
    rt: &impl Abort,
    alloc: Global,
    text: &'a str,
    value: T,
) {
    let written = made(rt, serde_json::to_string(alloc, &value));
    check_equal(rt, written.as_str(), text);
    let read: T = made(rt, serde_json::from_str(alloc, text));
    check_equal(rt, (text, read == value), (text, true));
}

/// Checks that no value is read from any of `texts`.
fn check_refused<'a, T: Deserialize<'a> + Drop>(rt: &impl Abort, alloc: Global, texts: &[&'a str]) {
    for text in texts {
        let read: Result<T, serde_json::Error> = serde_json::from_str(alloc, *text);
        check_equal(rt, (*text, read.is_err()), (*text, true));
    }
}

/// Returns a changed line.
fn line_of(line: Line) -> SectionChangedLine<'static> {
    SectionChangedLine {
        is_checked: line.0,
        change_type: line.1,
        line: Text::from(line.2),
    }
}

/// Returns the text `given`, if there is one.
pub(crate) fn optional_text(given: Option<&'static str>) -> Option<Text<'static>> {
    given.map(|text| Text::from(text))
}

/// Returns a binary change with the descriptions `old` and `new`.
pub(crate) fn binary(
    is_checked: bool,
    old: Option<&'static str>,
    new: Option<&'static str>,
) -> Section<'static> {
    Section::Binary {
        is_checked,
        old_description: optional_text(old),
        new_description: optional_text(new),
    }
}

/// Returns a mode change to `mode`.
fn mode_change(is_checked: bool, mode: FileMode) -> Section<'static> {
    Section::FileMode { is_checked, mode }
}

/// A section of each kind.
const PARTS: &[Part] = &[
    Part::Context(&["a\n"]),
    Part::Changes(&[(true, ADDED, "b\n")]),
    Part::Mode(false, FileMode::Absent),
    Part::Bytes(None, Some("x")),
];

/// Returns a renamed file with a section of each kind.
fn renamed_file(alloc: Global) -> Result<File<'static>, RecordError> {
    Ok(File {
        old_path: Some(Text::from("o")),
        path: Text::from("a/日本.txt"),
        file_mode: FileMode::Absent,
        sections: Items::from(sections_of(alloc, PARTS)?),
    })
}

/// The JSON of `renamed_file`.
const RENAMED: &str =
    r#"{"old_path":"o","path":"a/日本.txt","file_mode":"Absent","sections":[{"Unchanged":{"lines":["a\n"]}},{"Changed":{"lines":[{"is_checked":true,"change_type":"Added","line":"b\n"}]}},{"FileMode":{"is_checked":false,"mode":"Absent"}},{"Binary":{"is_checked":true,"old_description":null,"new_description":"x"}}]}"#;

/// The JSON of `state_with_file`.
const WITH_FILE: &str =
    r#"{"is_read_only":true,"commits":[{"message":"m"},{"message":null}],"files":[{"old_path":null,"path":"f","file_mode":{"Unix":33188},"sections":[]}]}"#;

/// Returns a state with two commits and a file without sections.
fn state_with_file(rt: &impl Abort, alloc: Global) -> RecordState<'static> {
    state_of(rt, alloc, true, file_of(DEFAULT, Vec::new(alloc)))
}

/// The JSON of both sides of a changed line.
const CHANGES: &[(&str, ChangeType)] = &[(r#""Added""#, ADDED), (r#""Removed""#, REMOVED)];

/// The JSON of modes.
const MODES: &[(&str, FileMode)] = &[
    (r#"{"Unix":33188}"#, DEFAULT),
    (r#"{"Unix":0}"#, FileMode::Unix(0)),
    (
        r#"{"Unix":18446744073709551615}"#,
        FileMode::Unix(usize::MAX),
    ),
    (r#""Absent""#, FileMode::Absent),
];

/// The JSON of changed lines.
const LINES: &[(&str, Line)] = &[
    (
        r#"{"is_checked":true,"change_type":"Added","line":"b\n"}"#,
        (true, ADDED, "b\n"),
    ),
    (
        r#"{"is_checked":false,"change_type":"Removed","line":""}"#,
        (false, REMOVED, ""),
    ),
];

#[test]
fn modes_and_lines_have_their_forms(rt: HostRuntime) {
    for (text, change_type) in CHANGES {
        check_form(&rt, rt.alloc(), *text, *change_type);
    }
    for (text, mode) in MODES {
        check_form(&rt, rt.alloc(), *text, *mode);
    }
    for (text, line) in LINES {
        check_form(&rt, rt.alloc(), *text, line_of(*line));
    }
}

/// The JSON of sections of context, and their lines.
const CONTEXTS: &[(&str, &[&str])] = &[
    (r#"{"Unchanged":{"lines":[]}}"#, &[]),
    (
        r#"{"Unchanged":{"lines":["a\n","","日\"\\"]}}"#,
        &["a\n", "", "日\"\\"],
    ),
];

/// The JSON of sections of changed lines, and these lines.
const CHANGED: &[(&str, &[Line])] = &[
    (r#"{"Changed":{"lines":[]}}"#, &[]),
    (
        r#"{"Changed":{"lines":[{"is_checked":true,"change_type":"Added","line":"b\n"},{"is_checked":false,"change_type":"Removed","line":"c"}]}}"#,
        &[(true, ADDED, "b\n"), (false, REMOVED, "c")],
    ),
];

#[test]
fn sections_of_lines_have_their_forms(rt: HostRuntime) {
    for (text, lines) in CONTEXTS {
        let section = made(&rt, context(rt.alloc(), *lines));
        check_form(&rt, rt.alloc(), *text, section);
    }
    for (text, lines) in CHANGED {
        let section = made(&rt, changed(rt.alloc(), *lines));
        check_form(&rt, rt.alloc(), *text, section);
    }
}

/// The JSON of mode changes, their marks and their modes.
const MODE_CHANGES: &[(&str, bool, FileMode)] = &[
    (
        r#"{"FileMode":{"is_checked":true,"mode":{"Unix":33261}}}"#,
        true,
        FileMode::Unix(0o100755),
    ),
    (
        r#"{"FileMode":{"is_checked":false,"mode":"Absent"}}"#,
        false,
        FileMode::Absent,
    ),
];

/// The JSON of a binary change, its mark, and its old and its new description.
type BytesForm = (
    &'static str,
    bool,
    Option<&'static str>,
    Option<&'static str>,
);

/// The JSON of binary changes.
const BYTES: &[BytesForm] = &[
    (
        r#"{"Binary":{"is_checked":true,"old_description":"a","new_description":"b"}}"#,
        true,
        Some("a"),
        Some("b"),
    ),
    (
        r#"{"Binary":{"is_checked":false,"old_description":"","new_description":null}}"#,
        false,
        Some(""),
        None,
    ),
    (
        r#"{"Binary":{"is_checked":true,"old_description":null,"new_description":"x"}}"#,
        true,
        None,
        Some("x"),
    ),
    (
        r#"{"Binary":{"is_checked":false,"old_description":null,"new_description":null}}"#,
        false,
        None,
        None,
    ),
];

#[test]
fn sections_of_modes_and_bytes_have_their_forms(rt: HostRuntime) {
    for (text, is_checked, mode) in MODE_CHANGES {
        check_form(&rt, rt.alloc(), *text, mode_change(*is_checked, *mode));
    }
    for (text, is_checked, old, new) in BYTES {
        check_form(&rt, rt.alloc(), *text, binary(*is_checked, *old, *new));
    }
}

/// Returns a commit with `message`.
fn commit_with(message: OwnedText) -> Commit {
    Commit {
        message: Some(message),
    }
}

/// The JSON of commits, and their messages.
const MESSAGES: &[(&str, &str)] = &[(r#"{"message":"m\n"}"#, "m\n"), (r#"{"message":""}"#, "")];

/// The JSON of a file without sections.
const PLAIN: &str = r#"{"old_path":null,"path":"f","file_mode":{"Unix":33188},"sections":[]}"#;

/// The JSON of the empty state.
const EMPTY: &str = r#"{"is_read_only":false,"commits":[],"files":[]}"#;

/// Checks the JSON of a commit with `message`.
fn check_commit(rt: &impl Abort, alloc: Global, text: &'static str, message: &str) {
    let message = made(rt, owned(alloc, message));
    check_form(rt, alloc, text, commit_with(message));
}

/// Checks the JSON of files.
fn check_files(rt: &impl Abort, alloc: Global) {
    check_form(rt, alloc, PLAIN, file_of(DEFAULT, Vec::new(alloc)));
    check_form(rt, alloc, RENAMED, made(rt, renamed_file(alloc)));
}

/// Checks the JSON of states.
fn check_states(rt: &impl Abort, alloc: Global) {
    check_form(rt, alloc, EMPTY, RecordState::empty(alloc));
    check_form(rt, alloc, WITH_FILE, state_with_file(rt, alloc));
}

#[test]
fn files_and_states_have_their_forms(rt: HostRuntime) {
    for (text, message) in MESSAGES {
        check_commit(&rt, rt.alloc(), *text, *message);
    }
    check_form(&rt, rt.alloc(), r#"{"message":null}"#, Commit::default());
    check_files(&rt, rt.alloc());
    check_states(&rt, rt.alloc());
}

/// No JSON of a side of a changed line.
const NO_CHANGES: &[&str] = &[r#""Moved""#, "null", r#"["Added"]"#];

/// No JSON of a mode.
const NO_MODES: &[&str] = &[r#""Gone""#, r#"{"Mode":1}"#, r#"{"Unix":-1}"#, "33188"];

/// No JSON of a changed line.
const NO_LINES: &[&str] = &[
    r#"{"is_checked":true,"change_type":"Added"}"#,
    r#"{"is_checked":true,"change_type":"Moved","line":"b\n"}"#,
];

/// No JSON of a section.
const NO_SECTIONS: &[&str] = &[
    r#"{"Moved":{"lines":[]}}"#,
    r#"{"Changed":{}}"#,
    r#"{"Unchanged":{"lines":[1]}}"#,
    r#"{"FileMode":{"is_checked":true}}"#,
    r#"{"Binary":{"old_description":null,"new_description":null}}"#,
];

/// No JSON of a commit.
const NO_COMMITS: &[&str] = &[r#"{"message":1}"#, r#""m""#];

/// No JSON of a file.
const NO_FILES: &[&str] = &[
    r#"{"old_path":null,"file_mode":"Absent","sections":[]}"#,
    r#"{"old_path":null,"path":"f","file_mode":"Gone","sections":[]}"#,
];

/// No JSON of a state.
const NO_STATES: &[&str] = &[
    r#"{"is_read_only":false,"commits":[]}"#,
    r#"{"is_read_only":null,"commits":[],"files":[]}"#,
    "",
];

#[test]
fn other_forms_are_refused(rt: HostRuntime) {
    check_refused::<ChangeType>(&rt, rt.alloc(), NO_CHANGES);
    check_refused::<FileMode>(&rt, rt.alloc(), NO_MODES);
    check_refused::<SectionChangedLine<'static>>(&rt, rt.alloc(), NO_LINES);
    check_refused::<Section<'static>>(&rt, rt.alloc(), NO_SECTIONS);
    check_refused::<Commit>(&rt, rt.alloc(), NO_COMMITS);
    check_refused::<File<'static>>(&rt, rt.alloc(), NO_FILES);
    check_refused::<RecordState<'static>>(&rt, rt.alloc(), NO_STATES);
}
