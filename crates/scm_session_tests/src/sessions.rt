//! Sessions written in letters: a state, and the user's events.
use crate::checks::made;
use scm_record::{Event, LiveSession, TerminalKind, Turn};
use scm_samples::state_of_letters;
use std::alloc::Global;
use std::process::Abort;

/// The events of letters. The capitals `A` to `D` open a menu.
const EVENTS: &[(char, Event)] = &[
    ('l', Event::FocusInner),
    ('h', Event::FocusOuter { fold_section: true }),
    ('j', Event::FocusNext),
    ('f', Event::ExpandItem),
    ('F', Event::ExpandAll),
    ('d', Event::ScrollDown),
    ('u', Event::ScrollUp),
    ('p', Event::PageDown),
    ('q', Event::QuitCancel),
    ('?', Event::Help),
    ('v', Event::ToggleCommitViewMode),
    ('A', Event::Click { row: 0, column: 1 }),
    ('B', Event::Click { row: 0, column: 8 }),
    ('C', Event::Click { row: 0, column: 15 }),
    ('D', Event::Click { row: 0, column: 24 }),
];

/// Returns the event of `letter`, or `None` for `-`.
fn event_of(letter: char) -> Event {
    for (name, event) in EVENTS {
        if *name == letter {
            return *event;
        }
    }
    Event::None
}

/// Returns the session that waits after `turn`.
pub(crate) fn waiting_of<'a>(rt: &impl Abort, turn: Turn<'a>) -> LiveSession<'a> {
    match turn {
        Turn::Waiting(session) => session,
        Turn::Editing(_) | Turn::Accepted(_) => panic!(rt; "the session waits for no event"),
    }
}

/// Returns a session on the state `state` after the events `letters`.
pub(crate) fn session_of(
    rt: &impl Abort,
    alloc: Global,
    kind: TerminalKind,
    state: &str,
    letters: &str,
) -> LiveSession<'static> {
    let state = made(rt, state_of_letters(alloc, state));
    assert!(rt; state.is_accepted());
    let mut session = made(rt, LiveSession::new(alloc, kind, state));
    for letter in letters.chars() {
        session = waiting_of(rt, made(rt, session.handle(event_of(letter))));
    }
    session
}
