//! The key table: the event for each key and mouse action of a terminal.
ghost use Rattle.std.specs.Prelude.{◌≡◌};
ghost use Rattle.scm_input.specs.KeyTable.{event_of, event_of_key, event_of_mouse, event_of_press};

use crate::events::Event;
use crate::terminal::{
    KeyCode, KeyEvent, KeyEventKind, KeyModifiers, MouseButton, MouseEvent, MouseEventKind,
    TerminalEvent,
};

/// No modifier is held.
const NONE: KeyModifiers = KeyModifiers::NONE;

/// Only shift is held.
const SHIFT: KeyModifiers = KeyModifiers::SHIFT;

/// Only control is held.
const CONTROL: KeyModifiers = KeyModifiers::CONTROL;

impl From<TerminalEvent> for Event {
    ghost from_gives = { λ terminal_event event. event ≡ event_of terminal_event };

    /// Converts by the key table; what is not in the table becomes `None`. It takes no memory.
    fn from(terminal_event: TerminalEvent) -> Event {
        match terminal_event {
            TerminalEvent::Key(key) => key_event(key),
            TerminalEvent::Mouse(mouse) => mouse_event(mouse),
            TerminalEvent::Other => Event::None,
        }
    }
}

/// Returns the event of a key action. Only a press counts.
fn key_event(key: KeyEvent) -> Event
    ensures { result ≡ event_of_key key }
{
    match key.kind {
        KeyEventKind::Press => press_event(key.modifiers, key.code),
        KeyEventKind::Repeat | KeyEventKind::Release => Event::None,
    }
}

/// Returns the event of pressing the key `code` while exactly `modifiers` are held.
fn press_event(modifiers: KeyModifiers, code: KeyCode) -> Event
    ensures { result ≡ event_of_press modifiers code }
{
    match (modifiers, code) {
        (NONE, KeyCode::Char('q')) => Event::QuitCancel,
        (NONE, KeyCode::Esc) => Event::QuitEscape,
        (CONTROL, KeyCode::Char('c')) => Event::QuitInterrupt,
        (NONE, KeyCode::Char('c')) => Event::QuitAccept,
        (NONE, KeyCode::Char('?')) => Event::Help,
        (CONTROL, KeyCode::Up | KeyCode::Char('y')) => Event::ScrollUp,
        (CONTROL, KeyCode::Down | KeyCode::Char('e')) => Event::ScrollDown,
        (CONTROL, KeyCode::PageUp | KeyCode::Char('b')) => Event::PageUp,
        (CONTROL, KeyCode::PageDown | KeyCode::Char('f')) => Event::PageDown,
        (NONE, KeyCode::Up | KeyCode::Char('k')) => Event::FocusPrev,
        (NONE, KeyCode::Down | KeyCode::Char('j')) => Event::FocusNext,
        (NONE, KeyCode::PageUp) => Event::FocusPrevSameKind,
        (NONE, KeyCode::PageDown) => Event::FocusNextSameKind,
        (SHIFT, KeyCode::Left | KeyCode::Char('h')) => Event::FocusOuter {
            fold_section: false,
        },
        (NONE, KeyCode::Left | KeyCode::Char('h')) => Event::FocusOuter { fold_section: true },
        (NONE | SHIFT, KeyCode::Right | KeyCode::Char('l')) => Event::FocusInner,
        (CONTROL, KeyCode::Char('u')) => Event::FocusPrevPage,
        (CONTROL, KeyCode::Char('d')) => Event::FocusNextPage,
        (NONE, KeyCode::Char(' ')) => Event::ToggleItem,
        (NONE, KeyCode::Enter) => Event::ToggleItemAndAdvance,
        (NONE, KeyCode::Char('a')) => Event::ToggleAll,
        (SHIFT, KeyCode::Char('A')) => Event::ToggleAllUniform,
        (NONE, KeyCode::Char('f')) => Event::ExpandItem,
        (SHIFT, KeyCode::Char('F')) => Event::ExpandAll,
        (NONE, KeyCode::Char('e')) => Event::EditCommitMessage,
        _ => Event::None,
    }
}

/// Returns the event of a mouse action: the wheel or a press of the left button.
///
/// Modifiers do not matter.
fn mouse_event(mouse: MouseEvent) -> Event
    ensures { result ≡ event_of_mouse mouse }
{
    match mouse.kind {
        MouseEventKind::ScrollUp => Event::ScrollUp,
        MouseEventKind::ScrollDown => Event::ScrollDown,
        MouseEventKind::Down(MouseButton::Left) => Event::Click {
            row: mouse.row as usize,
            column: mouse.column as usize,
        },
        MouseEventKind::Down(MouseButton::Right | MouseButton::Middle)
        | MouseEventKind::Up(_)
        | MouseEventKind::Drag(_)
        | MouseEventKind::Moved
        | MouseEventKind::Other => Event::None,
    }
}
