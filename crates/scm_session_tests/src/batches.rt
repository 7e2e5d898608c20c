//! Batches of events that a program hands in to a live session, and jumps to a key.
use crate::checks::{check_equal, check_text, made};
use crate::given::state_of;
use crate::scripts::{ACCEPT, EDIT, FAR, HELLO, INNER, TOGGLE, words};
use crate::sessions::waiting_of;
use scm_record::{
    Event, FileKey, LineKey, LiveSession, RecordError, SectionKey, SelectionKey, TerminalKind, Turn,
};
use std::alloc::{AllocError, Global};
use std::process::Abort;

/// A session: the first commit's message, the batches, and the outcome in words.
type Row = (
    Option<&'static str>,
    &'static [&'static [Event]],
    &'static str,
);

/// Opens the menu Edit.
const MENU_EDIT: Event = Event::Click { row: 0, column: 8 };

/// Chooses the first item of the menu Edit, which edits the message.
const ITEM_EDIT: Event = Event::Click { row: 1, column: 8 };

/// Chooses the second item of the menu Edit, which toggles the selected item.
const ITEM_TOGGLE: Event = Event::Click { row: 2, column: 8 };

/// Opens the menu File.
const MENU_FILE: Event = Event::Click { row: 0, column: 1 };

/// Presses the button of the message, if no menu is open.
const BUTTON: Event = Event::Click { row: 2, column: 2 };

/// Chooses the first item of the menu File, which accepts, if that menu is open.
const ITEM_CONFIRM: Event = Event::Click { row: 1, column: 2 };

/// How many messages a session asks for at most.
const MESSAGES: usize = 4;

/// The outcome of a session that still waits.
const WAITS: &'static str = "waits";

/// Sessions that end.
const ENDED: &[Row] = &[
    // all events of a batch are handled, in order
    (
        None,
        &[&[INNER, INNER, TOGGLE, Event::FocusNext, TOGGLE], &[ACCEPT]],
        "accepted 11",
    ),
    (
        None,
        &[&[INNER, INNER, Event::FocusNext], &[TOGGLE, ACCEPT]],
        "accepted 01",
    ),
    // events after the accepting one are dropped
    (None, &[&[TOGGLE, ACCEPT, TOGGLE]], "accepted 11"),
    (
        HELLO,
        &[&[TOGGLE, ACCEPT, Event::QuitCancel]],
        "accepted 11 hello",
    ),
    // a batch may be empty
    (None, &[&[TOGGLE], &[], &[ACCEPT]], "accepted 11"),
    // a message is asked for at the end of a batch
    (HELLO, &[&[TOGGLE, EDIT], &[ACCEPT]], "accepted 11 bye"),
    // by what a batch leaves pending, too, also if it leaves more before it
    (
        HELLO,
        &[&[MENU_EDIT], &[INNER, ITEM_EDIT], &[TOGGLE, ACCEPT]],
        "accepted 11 bye",
    ),
    // without a message nothing is asked for
    (None, &[&[EDIT, FAR, TOGGLE], &[ACCEPT]], "accepted 11"),
    // a click acts on the frame before its batch, where the menu is closed
    (None, &[&[MENU_EDIT, ITEM_TOGGLE], &[ACCEPT]], "accepted 00"),
    (
        None,
        &[&[MENU_EDIT], &[ITEM_TOGGLE], &[ACCEPT]],
        "accepted 11",
    ),
    // what a click leaves pending is handled after the rest of its batch
    (
        None,
        &[&[MENU_EDIT], &[ITEM_TOGGLE, INNER, INNER], &[ACCEPT]],
        "accepted 10",
    ),
    (None, &[&[FAR, FAR, ACCEPT, FAR]], "accepted 00"),
    (HELLO, &[&[FAR, ACCEPT]], "accepted 00 hello"),
    // a click acts on the frame before the batch, where the menu is closed
    (
        HELLO,
        &[&[MENU_FILE, ITEM_CONFIRM], &[TOGGLE, ACCEPT]],
        "accepted 11 hello",
    ),
    (HELLO, &[&[MENU_FILE, BUTTON], &[ACCEPT]], "accepted 00 bye"),
    (
        HELLO,
        &[&[BUTTON, TOGGLE, MENU_FILE], &[ACCEPT]],
        "accepted 11 bye",
    ),
    // after a message the rest of the batch is handled
    (HELLO, &[&[EDIT, ACCEPT]], "accepted 00 bye"),
    (
        HELLO,
        &[&[EDIT, INNER, INNER, TOGGLE], &[ACCEPT]],
        "accepted 10 bye",
    ),
    // it may ask for a message again
    (
        HELLO,
        &[&[TOGGLE], &[EDIT, TOGGLE, EDIT, EDIT], &[ACCEPT]],
        "accepted 00 bye",
    ),
    // its clicks act on the frame before the batch: there the menu is closed, or open
    (
        HELLO,
        &[&[MENU_EDIT, EDIT, ITEM_TOGGLE], &[ACCEPT]],
        "accepted 00 bye",
    ),
    (
        HELLO,
        &[&[MENU_EDIT], &[MENU_EDIT, EDIT, ITEM_TOGGLE], &[ACCEPT]],
        "accepted 11 bye",
    ),
    // so it is with events that a batch leaves pending
    (
        HELLO,
        &[&[MENU_EDIT], &[ITEM_EDIT, ITEM_TOGGLE], &[ACCEPT]],
        "accepted 11 bye",
    ),
    (
        HELLO,
        &[&[MENU_EDIT], &[ITEM_EDIT, ITEM_EDIT, TOGGLE], &[ACCEPT]],
        "accepted 11 bye",
    ),
    // it may end the session
    (
        HELLO,
        &[&[EDIT, Event::QuitCancel, TOGGLE]],
        "cancelled by user",
    ),
    (
        None,
        &[&[INNER, Event::QuitCancel, TOGGLE]],
        "cancelled by user",
    ),
    (
        None,
        &[&[TOGGLE, Event::QuitInterrupt, Event::QuitInterrupt, ACCEPT]],
        "cancelled by user",
    ),
];

/// Sessions that wait for an event.
const WAITING: &[&[&[Event]]] = &[
    &[&[]],
    &[&[], &[TOGGLE, FAR]],
    &[&[FAR, FAR]],
    &[&[EDIT, TOGGLE, EDIT]],
];

/// The size of the screen.
const KIND: TerminalKind = TerminalKind::Testing {
    width: 80,
    height: 24,
};

/// Returns a session on a state whose commit has `message`.
fn session_of(
    rt: &impl Abort,
    alloc: Global,
    message: Option<&'static str>,
) -> LiveSession<'static> {
    let state = made(rt, state_of(alloc, (message, None)));
    assert!(rt; state.is_accepted());
    made(rt, LiveSession::new(alloc, KIND, state))
}

/// Answers `bye` as long as `turn` asks for a message, and returns the turn after that.
fn answered<'a>(alloc: Global, turn: Turn<'a>) -> Result<Turn<'a>, RecordError> {
    let mut turn = turn;
    for _ in 0..MESSAGES {
        turn = match turn {
            Turn::Editing(editing) => editing.answer(String::from_str(alloc, "bye")?)?,
            other => return Ok(other),
        };
    }
    Ok(turn)
}

/// Hands in `batches` to `session`, and returns the last turn.
fn pressed<'a>(
    alloc: Global,
    session: LiveSession<'a>,
    batches: &[&[Event]],
) -> Result<Turn<'a>, RecordError> {
    let mut session = session;
    for batch in batches {
        let turn = session.handle_all(batch)?;
        session = match answered(alloc, turn)? {
            Turn::Waiting(session) => session,
            ended => return Ok(ended),
        };
    }
    Ok(Turn::Waiting(session))
}

/// Returns the outcome of a session in words.
fn turn_words(
    alloc: Global,
    turn: Result<Turn<'static>, RecordError>,
) -> Result<String, AllocError> {
    match turn {
        Ok(Turn::Accepted(state)) => words(alloc, &Ok(state)),
        Ok(_) => String::from_str(alloc, WAITS),
        Err(error) => words(alloc, &Err(error)),
    }
}

/// Checks the outcome of `session` on `batches`.
fn check_pressed(
    rt: &impl Abort,
    alloc: Global,
    session: LiveSession<'static>,
    batches: &[&[Event]],
    wanted: &str,
) {
    let turn = pressed(alloc, session, batches);
    check_text(rt, turn_words(alloc, turn), wanted);
}

/// Checks the outcome of a session on the batches of `row`.
fn check_live(rt: &impl Abort, alloc: Global, row: Row) {
    let session = session_of(rt, alloc, row.0);
    check_pressed(rt, alloc, session, row.1, row.2);
}

#[test]
fn batches_are_handled_as_one_read(rt: HostRuntime) {
    for row in ENDED {
        check_live(&rt, rt.alloc(), *row);
    }
    for batches in WAITING {
        check_live(&rt, rt.alloc(), (HELLO, *batches, WAITS));
    }
}

/// The first line of the file.
const FIRST: LineKey = LineKey {
    commit_idx: 0,
    file_idx: 0,
    section_idx: 0,
    line_idx: 0,
};

/// The second line of the file.
const SECOND: SelectionKey = SelectionKey::Line(LineKey {
    line_idx: 1,
    ..FIRST
});

/// A line that the file does not have.
const THIRD: SelectionKey = SelectionKey::Line(LineKey {
    line_idx: 2,
    ..FIRST
});

/// A jump: the batches before it, the key, the batches after it, and the outcome in words.
type Jump = (
    &'static [&'static [Event]],
    SelectionKey,
    &'static [&'static [Event]],
    &'static str,
);

/// Toggles the selected item, and accepts.
const TOGGLED: &'static [&'static [Event]] = &[&[TOGGLE], &[ACCEPT]];

/// The jumps. If a key cannot be selected, the selection stays on the file.
const JUMPS: &[Jump] = &[
    (&[], SECOND, TOGGLED, "accepted 01"),
    (&[], SelectionKey::Line(FIRST), TOGGLED, "accepted 10"),
    // the section is unfolded, and so is the file: the next item is the first line
    (
        &[],
        SelectionKey::Section(SectionKey {
            commit_idx: 0,
            file_idx: 0,
            section_idx: 0,
        }),
        &[&[Event::FocusNext, TOGGLE, ACCEPT]],
        "accepted 10",
    ),
    // no marks change
    (&[&[TOGGLE]], SECOND, &[&[ACCEPT]], "accepted 11"),
    // the state has no such key
    (&[], THIRD, TOGGLED, "accepted 11"),
    (&[], SelectionKey::None, TOGGLED, "accepted 11"),
    (
        &[],
        SelectionKey::Section(SectionKey {
            commit_idx: 0,
            file_idx: 0,
            section_idx: 1,
        }),
        TOGGLED,
        "accepted 11",
    ),
    (
        &[&[INNER]],
        SelectionKey::File(FileKey {
            commit_idx: 1,
            file_idx: 0,
        }),
        &[&[INNER, TOGGLE, ACCEPT]],
        "accepted 10",
    ),
    // the quit dialog is open: the file stays selected, and is unchecked
    (
        &[&[TOGGLE, Event::QuitCancel]],
        SECOND,
        &[&[Event::QuitEscape, TOGGLE, ACCEPT]],
        "accepted 00",
    ),
];

/// Returns the session after the batches before the jump.
fn session_before(rt: &impl Abort, alloc: Global, batches: &[&[Event]]) -> LiveSession<'static> {
    let session = session_of(rt, alloc, None);
    waiting_of(rt, made(rt, pressed(alloc, session, batches)))
}

/// Jumps to `key`, and checks whether `session` selects it.
fn select(
    rt: &impl Abort,
    session: LiveSession<'static>,
    key: SelectionKey,
) -> LiveSession<'static> {
    let can_select = session.can_select(key);
    let session = made(rt, session.select(key));
    check_equal(rt, session.view_state().selection == key, can_select);
    session
}

/// Checks the outcome of a session with a jump, and whether it selects the key.
fn check_jump(rt: &impl Abort, alloc: Global, row: Jump) {
    let session = select(rt, session_before(rt, alloc, row.0), row.1);
    check_pressed(rt, alloc, session, row.2, row.3);
}

#[test]
fn a_key_is_selected_at_once(rt: HostRuntime) {
    for row in JUMPS {
        check_jump(&rt, rt.alloc(), *row);
    }
}
