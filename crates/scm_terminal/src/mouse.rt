//! Mouse reports in xterm's SGR form: the events of their three parameters.
ghost use Rattle.std.specs.Prelude.{◌≡◌, ◌<◌};
ghost use Rattle.scm_terminal.specs.Mouse.{
  button_of,
  button_modifiers,
  mouse_event,
  mouse_kind,
  motion_kind,
  button_kind,
  wheel_kind,
};

use crate::bytes::has_bit;
use scm_input::{KeyModifiers, MouseButton, MouseEvent, MouseEventKind, TerminalEvent};

/// Returns the event of a mouse report. `is_down` is whether it ends with `M`. `button` has the
/// button, its modifiers, and whether the mouse moves. `column` and `row` are counted from 1, those
/// of the event from 0.
#[tactic(auto, unfolding(crate::specs::Mouse::mouse_event))]
pub(crate) fn mouse_event(is_down: bool, button: u16, column: u16, row: u16) -> TerminalEvent
    ensures { result ≡ mouse_event is_down button column row }
{
    if column == 0 || row == 0 {
        TerminalEvent::Other
    } else {
        TerminalEvent::Mouse(MouseEvent {
            kind: mouse_kind(is_down, button),
            column: column - 1,
            row: row - 1,
            modifiers: button_modifiers(button),
        })
    }
}

/// Returns the modifiers in the bits of `button`: 4 for shift, 8 for alt, 16 for control.
fn button_modifiers(button: u16) -> KeyModifiers
    ensures { result ≡ button_modifiers button }
{
    KeyModifiers {
        shift: has_bit(4, button),
        control: has_bit(16, button),
        alt: has_bit(8, button),
        other: false,
    }
}

/// Returns the kind of the event of `button`: bit 32 is a movement, bit 64 a wheel.
fn mouse_kind(is_down: bool, button: u16) -> MouseEventKind
    ensures { result ≡ mouse_kind is_down button }
{
    if button < 64 {
        if has_bit(32, button) {
            motion_kind(button % 4)
        } else {
            button_kind(is_down, button % 4)
        }
    } else if button < 96 && is_down {
        wheel_kind(button % 4)
    } else {
        MouseEventKind::Other
    }
}

/// Returns the button of `number`, if any: 0 is left, 1 middle, 2 right.
fn button_of(number: u16) -> Option<MouseButton>
    ensures { result ≡ button_of number }
{
    match number {
        0 => Some(MouseButton::Left),
        1 => Some(MouseButton::Middle),
        2 => Some(MouseButton::Right),
        _ => None,
    }
}

/// Returns a drag with the button of `number`, or a move without a button if there is none.
fn motion_kind(number: u16) -> MouseEventKind
    ensures { result ≡ motion_kind number }
{
    match button_of(number) {
        Some(button) => MouseEventKind::Drag(button),
        None => MouseEventKind::Moved,
    }
}

/// Returns a press of the button of `number` if `is_down`, and otherwise a release.
fn button_kind(is_down: bool, number: u16) -> MouseEventKind
    ensures { result ≡ button_kind is_down number }
{
    match button_of(number) {
        Some(button) => {
            if is_down {
                MouseEventKind::Down(button)
            } else {
                MouseEventKind::Up(button)
            }
        }
        None => MouseEventKind::Other,
    }
}

/// Returns the scroll of the wheel button `number`: 0 is up, 1 down.
fn wheel_kind(number: u16) -> MouseEventKind
    ensures { result ≡ wheel_kind number }
{
    match number {
        0 => MouseEventKind::ScrollUp,
        1 => MouseEventKind::ScrollDown,
        _ => MouseEventKind::Other,
    }
}
