//! A session call by call: its screen, a new size, an edited message, and ends in an error.
use crate::checks::{check_equal, made};
use crate::sessions::{session_of, waiting_of};
use scm_record::{
    Commit, ComponentId, Editing, Event, FileKey, LineKey, LiveSession, RecordError, RecordState,
    SelectionKey, ShownLines, TerminalKind, TestingScreenshot, Turn,
};
use std::alloc::Global;
use std::process::Abort;

/// The size of the first screen.
const NARROW: TerminalKind = TerminalKind::Testing {
    width: 12,
    height: 3,
};

/// The size of the second screen.
const WIDE: TerminalKind = TerminalKind::Testing {
    width: 14,
    height: 2,
};

/// The size of a screen on which an unfolded file stands.
const HIGH: TerminalKind = TerminalKind::Testing {
    width: 20,
    height: 6,
};

/// The line of the states.
const LINE: LineKey = LineKey {
    commit_idx: 0,
    file_idx: 0,
    section_idx: 0,
    line_idx: 0,
};

/// The file of the states.
const FILE: FileKey = FileKey {
    commit_idx: 0,
    file_idx: 0,
};

/// Checks that `owner` owns the place at `row` and `column` of the screen.
fn check_owner(
    rt: &impl Abort,
    session: &LiveSession<'_>,
    row: usize,
    column: usize,
    owner: Option<ComponentId>,
) {
    check_equal(
        rt,
        (row, column, session.owner(row, column)),
        (row, column, owner),
    );
}

/// Checks owners on the first screen. Below the menu bar is the header of a folded file, with its
/// toggle box and its expand box.
fn check_owners(rt: &impl Abort, session: &LiveSession<'_>) {
    let file = SelectionKey::File(FILE);
    check_owner(rt, session, 0, 0, Some(ComponentId::Menu(0)));
    check_owner(rt, session, 1, 2, Some(ComponentId::ToggleBox(file)));
    check_owner(rt, session, 1, 4, Some(ComponentId::FileViewHeader(FILE)));
    check_owner(rt, session, 1, 9, Some(ComponentId::ExpandBox(file)));
    check_owner(rt, session, 1, 12, None);
    check_owner(rt, session, 2, 0, None);
    check_owner(rt, session, 3, 0, None);
}

/// Checks the screen and its size.
fn check_screen(rt: &impl Abort, session: &LiveSession<'_>, kind: TerminalKind, screen: &str) {
    check_equal(rt, session.kind(), kind);
    check_equal(rt, made(rt, session.grid().view()).as_str(), screen);
}

/// The first screen.
const NARROW_SCREEN: &str = r#""[File] [Edit"
"( ) f    (+)"
"            "
"#;

/// The second screen.
const WIDE_SCREEN: &str = r#""[File] [Edit] "
"( ) f      (+)"
"#;

#[test]
fn a_session_is_shown_on_each_size(rt: HostRuntime) {
    let mut session = session_of(&rt, rt.alloc(), NARROW, "x", "");
    check_screen(&rt, &session, NARROW, NARROW_SCREEN);
    check_owners(&rt, &session);
    made(&rt, session.resize(WIDE));
    check_screen(&rt, &session, WIDE, WIDE_SCREEN);
}

/// Returns the key of line `line_idx` of the states.
fn line(line_idx: usize) -> Option<LineKey> {
    Some(LineKey { line_idx, ..LINE })
}

/// Checks that rows of the screen show `first` from row `row` on, if any, and the lines that follow: `rows`
/// rows.
fn check_lines(
    rt: &impl Abort,
    session: &LiveSession<'_>,
    row: usize,
    first: Option<LineKey>,
    rows: usize,
) {
    let shown = session.lines_from(row);
    check_equal(rt, (row, shown), (row, ShownLines { first, rows }));
}

/// Checks that the third of the rows from row 3 on shows line 2.
fn check_third(rt: &impl Abort, session: &LiveSession<'_>) {
    let shown = session.lines_from(3);
    if 2 < shown.rows {
        check_equal(rt, shown.line(2), line(2));
    } else {
        panic!(rt; "fewer rows show lines");
    }
}

/// Checks the rows of an unfolded file: its header is on row 1, the header of its section on row 2, and its
/// lines begin on row 3. The screen shows three of them.
fn check_rows(rt: &impl Abort, session: &LiveSession<'_>) {
    check_lines(rt, session, 2, None, 1);
    check_lines(rt, session, 3, line(0), 3);
    check_third(rt, session);
    check_lines(rt, session, 5, line(2), 1);
    check_lines(rt, session, 6, None, 1);
}

#[test]
fn rows_show_lines(rt: HostRuntime) {
    let session = session_of(&rt, rt.alloc(), HIGH, "t", "F");
    check_rows(&rt, &session);
}

/// The open menu `Edit` lies over rows 1 to 5.
#[test]
fn a_row_below_a_menu_shows_no_line(rt: HostRuntime) {
    let session = session_of(&rt, rt.alloc(), HIGH, "t", "FB");
    check_lines(&rt, &session, 3, None, 1);
}

/// A folded file has its header on row 1, and nothing is below it.
#[test]
fn rows_below_the_document_show_no_line(rt: HostRuntime) {
    let session = session_of(&rt, rt.alloc(), HIGH, "t", "");
    check_lines(&rt, &session, 1, None, 1);
    check_lines(&rt, &session, 2, None, 4);
}

#[test]
fn a_screen_begins_where_it_is_scrolled_to(rt: HostRuntime) {
    let session = session_of(&rt, rt.alloc(), HIGH, "t", "F");
    check_equal(&rt, session.scroll(), 0);
    let session = waiting_of(&rt, made(&rt, session.handle(Event::ScrollDown)));
    check_equal(&rt, session.scroll(), 1);
}

/// Returns the message of the first commit, or an empty text.
fn message_in<'a>(state: &'a RecordState<'_>) -> &'a str {
    match state.commits.as_slice().first() {
        Some(
            Commit {
                message: Some(message),
            },
        ) => message.as_str(),
        _ => "",
    }
}

/// Asks for an edit of the first commit's message, which is `message`.
fn editing_of<'a>(rt: &impl Abort, session: LiveSession<'a>, message: &str) -> Editing<'a> {
    check_equal(rt, message_in(session.state()), message);
    let Turn::Editing(editing) = made(rt, session.handle(Event::EditCommitMessage)) else {
        panic!(rt; "no message is asked for");
    };
    check_equal(rt, (editing.commit(), editing.message()), (0, message));
    editing
}

/// Answers `bye` to the question for the message `hello`.
fn answer<'a>(rt: &impl Abort, alloc: Global, session: LiveSession<'a>) -> LiveSession<'a> {
    let editing = editing_of(rt, session, "hello");
    let answer = made(rt, String::from_str(alloc, "bye"));
    waiting_of(rt, made(rt, editing.answer(answer)))
}

/// Keeps the message `bye`.
fn keep<'a>(rt: &impl Abort, session: LiveSession<'a>) -> LiveSession<'a> {
    let editing = editing_of(rt, session, "bye");
    waiting_of(rt, made(rt, editing.keep()))
}

#[test]
fn a_message_is_edited(rt: HostRuntime) {
    let session = session_of(&rt, rt.alloc(), NARROW, "!x", "");
    check_equal(&rt, session.state().commits.len(), 2);
    let session = keep(&rt, answer(&rt, rt.alloc(), session));
    check_equal(&rt, message_in(session.state()), "bye");
}

/// Returns the error that ends a session on a file of one unchecked line at `event`.
fn error_of(rt: &impl Abort, alloc: Global, event: Event) -> RecordError {
    let session = session_of(rt, alloc, NARROW, "x", "");
    match session.handle(event) {
        Err(error) => error,
        Ok(_) => panic!(rt; "the session goes on"),
    }
}

/// Returns whether `error` is that of a cancelled session.
fn is_cancelled(error: &RecordError) -> bool {
    matches!(error, RecordError::Cancelled)
}

/// Returns whether `error` is that of a place that is missing.
fn is_placeless(error: &RecordError) -> bool {
    matches!(error, RecordError::Other(text) if text.as_str() == "no such screenshot place")
}

/// A screenshot. A session that a program drives has no place for one.
const SHOT: Event = Event::TakeScreenshot(TestingScreenshot { place: 0 });

#[test]
fn a_session_ends_in_an_error(rt: HostRuntime) {
    let error = error_of(&rt, rt.alloc(), Event::QuitCancel);
    check_equal(&rt, is_cancelled(&error), true);
    let error = error_of(&rt, rt.alloc(), SHOT);
    check_equal(&rt, is_placeless(&error), true);
}
