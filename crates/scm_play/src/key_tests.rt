//! The key table: each key with all modifiers and all kinds of key events, and all that the mouse
//! may do.

use scm_record::{
    Event, KeyCode, KeyEvent, KeyEventKind, KeyModifiers, MouseButton, MouseEvent, MouseEventKind,
    TerminalEvent,
};
use std::process::Abort;

/// No modifier.
const NONE: KeyModifiers = KeyModifiers::NONE;

/// Shift alone.
const SHIFT: KeyModifiers = KeyModifiers::SHIFT;

/// Control alone.
const CONTROL: KeyModifiers = KeyModifiers::CONTROL;

/// The rows of the table: the modifiers, the key, and its event.
const KEYS: [(KeyModifiers, KeyCode, Event); 36] = [
    (NONE, KeyCode::Char('q'), Event::QuitCancel),
    (NONE, KeyCode::Esc, Event::QuitEscape),
    (CONTROL, KeyCode::Char('c'), Event::QuitInterrupt),
    (NONE, KeyCode::Char('c'), Event::QuitAccept),
    (NONE, KeyCode::Char('?'), Event::Help),
    (CONTROL, KeyCode::Up, Event::ScrollUp),
    (CONTROL, KeyCode::Char('y'), Event::ScrollUp),
    (CONTROL, KeyCode::Down, Event::ScrollDown),
    (CONTROL, KeyCode::Char('e'), Event::ScrollDown),
    (CONTROL, KeyCode::PageUp, Event::PageUp),
    (CONTROL, KeyCode::Char('b'), Event::PageUp),
    (CONTROL, KeyCode::PageDown, Event::PageDown),
    (CONTROL, KeyCode::Char('f'), Event::PageDown),
    (NONE, KeyCode::Up, Event::FocusPrev),
    (NONE, KeyCode::Char('k'), Event::FocusPrev),
    (NONE, KeyCode::Down, Event::FocusNext),
    (NONE, KeyCode::Char('j'), Event::FocusNext),
    (NONE, KeyCode::PageUp, Event::FocusPrevSameKind),
    (NONE, KeyCode::PageDown, Event::FocusNextSameKind),
    (
        SHIFT,
        KeyCode::Left,
        Event::FocusOuter {
            fold_section: false,
        },
    ),
    (
        SHIFT,
        KeyCode::Char('h'),
        Event::FocusOuter {
            fold_section: false,
        },
    ),
    (
        NONE,
        KeyCode::Left,
        Event::FocusOuter { fold_section: true },
    ),
    (
        NONE,
        KeyCode::Char('h'),
        Event::FocusOuter { fold_section: true },
    ),
    (NONE, KeyCode::Right, Event::FocusInner),
    (SHIFT, KeyCode::Right, Event::FocusInner),
    (NONE, KeyCode::Char('l'), Event::FocusInner),
    (SHIFT, KeyCode::Char('l'), Event::FocusInner),
    (CONTROL, KeyCode::Char('u'), Event::FocusPrevPage),
    (CONTROL, KeyCode::Char('d'), Event::FocusNextPage),
    (NONE, KeyCode::Char(' '), Event::ToggleItem),
    (NONE, KeyCode::Enter, Event::ToggleItemAndAdvance),
    (NONE, KeyCode::Char('a'), Event::ToggleAll),
    (SHIFT, KeyCode::Char('A'), Event::ToggleAllUniform),
    (NONE, KeyCode::Char('f'), Event::ExpandItem),
    (SHIFT, KeyCode::Char('F'), Event::ExpandAll),
    (NONE, KeyCode::Char('e'), Event::EditCommitMessage),
];

/// Keys without a row.
const OTHER_KEYS: [KeyCode; 10] = [
    KeyCode::Other,
    KeyCode::Home,
    KeyCode::End,
    KeyCode::Char('Q'),
    KeyCode::Char('C'),
    KeyCode::Char('H'),
    KeyCode::Char('x'),
    KeyCode::Char('1'),
    KeyCode::Char('\n'),
    KeyCode::Char('é'),
];

/// The kinds of key events.
const KINDS: [KeyEventKind; 3] = [
    KeyEventKind::Press,
    KeyEventKind::Repeat,
    KeyEventKind::Release,
];

/// What the mouse may do, and its event at row 3 and column 65535.
const MOUSE: [(MouseEventKind, Event); 13] = [
    (MouseEventKind::ScrollUp, Event::ScrollUp),
    (MouseEventKind::ScrollDown, Event::ScrollDown),
    (
        MouseEventKind::Down(MouseButton::Left),
        Event::Click {
            row: 3,
            column: 65535,
        },
    ),
    (MouseEventKind::Down(MouseButton::Right), Event::None),
    (MouseEventKind::Down(MouseButton::Middle), Event::None),
    (MouseEventKind::Up(MouseButton::Left), Event::None),
    (MouseEventKind::Up(MouseButton::Right), Event::None),
    (MouseEventKind::Up(MouseButton::Middle), Event::None),
    (MouseEventKind::Drag(MouseButton::Left), Event::None),
    (MouseEventKind::Drag(MouseButton::Right), Event::None),
    (MouseEventKind::Drag(MouseButton::Middle), Event::None),
    (MouseEventKind::Moved, Event::None),
    (MouseEventKind::Other, Event::None),
];

/// Returns the modifiers of the four lowest bits of `bits`.
fn held_of(bits: u8) -> KeyModifiers {
    KeyModifiers {
        shift: bits & 1 != 0,
        control: bits & 2 != 0,
        alt: bits & 4 != 0,
        other: bits & 8 != 0,
    }
}

/// Returns the event of the row of `code` with exactly the modifiers `held`, or `Event::None` if
/// there is no such row.
fn event_in_table(held: KeyModifiers, code: KeyCode) -> Event {
    for (row_held, row_code, event) in KEYS {
        if row_held == held && row_code == code {
            return event;
        }
    }
    Event::None
}

/// Checks the event of `code` with all modifiers and all kinds of key events. Only a press with
/// exactly the modifiers of a row has its event.
fn check_key(rt: &impl Abort, code: KeyCode) {
    for bits in 0..16 {
        let modifiers = held_of(bits);
        for kind in KINDS {
            let wanted = match kind {
                KeyEventKind::Press => event_in_table(modifiers, code),
                KeyEventKind::Repeat | KeyEventKind::Release => Event::None,
            };
            let key = KeyEvent {
                code,
                modifiers,
                kind,
            };
            assert_eq!(rt; Event::from(TerminalEvent::Key(key)), wanted, "{key:?}");
        }
    }
}

#[test]
fn each_key_has_its_event(rt: HostRuntime) {
    for (held, code, event) in KEYS {
        assert_eq!(rt; event_in_table(held, code), event, "{code:?} stands twice");
        check_key(&rt, code);
    }
    for code in OTHER_KEYS {
        check_key(&rt, code);
    }
}

#[test]
fn the_mouse_has_its_events(rt: HostRuntime) {
    assert_eq!(rt; Event::from(TerminalEvent::Other), Event::None);
    for (kind, event) in MOUSE {
        for bits in 0..16 {
            let mouse = MouseEvent {
                kind,
                column: 65535,
                row: 3,
                modifiers: held_of(bits),
            };
            assert_eq!(rt;
                Event::from(TerminalEvent::Mouse(mouse)),
                event,
                "{mouse:?}"
            );
        }
    }
}
