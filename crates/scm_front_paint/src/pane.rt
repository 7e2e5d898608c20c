//! Where a terminal stands over a session, and the keys that move it sideways.
ghost use Rattle.std.specs.Prelude.{◌≡◌, ℕ, ◌+◌, ◌≤◌, ◌<◌};
ghost use Rattle.scm_input.specs.declared.terminal.KeyEventKind.TheVariants.{Press};
ghost use Rattle.scm_input.specs.declared.terminal.MouseEvent.{MouseEvent};
ghost use Rattle.scm_input.specs.declared.terminal.TerminalEvent.TheVariants.{Mouse};
ghost use Rattle.scm_front_paint.specs.Pane.{heard_as, is_free, kind_for, left_of, moved, offset, right_of, sideways_event, sideways_key, sideways_mouse, sideways_wheel, step, with_size, with_x};

use scm_record::{
    KeyCode, KeyEvent, KeyEventKind, KeyModifiers, LiveSession, MouseEvent, MouseEventKind,
    TerminalEvent, TerminalKind,
};

/// Where a terminal stands over a session.
#[derive(Clone, Copy, Debug, PartialEq, Eq)]
pub struct Pane {
    /// The columns of the window to the left of the terminal, while no dialog is open.
    pub x: u16,
    /// The width of the terminal, in columns.
    pub width: u16,
    /// The height of the terminal, in rows, with the status row.
    pub height: u16,
}

/// What an event of the terminal is.
#[derive(Clone, Copy, Debug, PartialEq, Eq)]
pub enum Heard {
    /// Shows the window from this column on.
    Show(u16),
    /// Is an event of the front.
    Hand(TerminalEvent),
}

/// Returns whether no dialog of `session` is open.
pub(crate) fn is_free(session: &LiveSession<'_>) -> bool
    ensures { result ≡ is_free session.now }
{
    let view = session.view_state();
    !view.quit_dialog.is_some() && !view.is_help_open
}

/// Returns how many columns of the window of `session` stand to the left of the terminal.
pub(crate) fn offset(pane: Pane, session: &LiveSession<'_>) -> u16
    ensures { result ≡ offset pane session.now }
{
    if is_free(session) { pane.x } else { 0 }
}

/// Returns the screen of `session` for the terminal.
pub(crate) fn kind_for(pane: Pane, session: &LiveSession<'_>) -> TerminalKind
    ensures { result ≡ kind_for pane session.now }
{
    let x = offset(pane, session) as usize;
    TerminalKind::Testing {
        width: x + pane.width as usize,
        height: (pane.height as usize).saturating_sub(1),
    }
}

/// Returns how far a key moves the terminal: half its width, and at least a column.
fn step(pane: Pane) -> u16
    ensures { result ≡ step pane }
{
    (pane.width / 2).max(1)
}

/// Returns `pane` with `x` columns to its left, as far as a screen can be wide.
pub(crate) fn with_x(pane: Pane, x: u16) -> Pane
    ensures value { result ≡ with_x pane x }
    ensures narrow { result.x + result.width ≤ 65535 }
{
    Pane {
        x: x.min(u16::MAX - pane.width),
        ..pane
    }
}

/// Returns `pane` for a terminal of `width` columns and `height` rows.
pub(crate) fn with_size(pane: Pane, width: u16, height: u16) -> Pane
    ensures value { result ≡ with_size pane width height }
    ensures narrow { result.x + result.width ≤ 65535 }
{
    let sized = Pane {
        width,
        height,
        ..pane
    };
    with_x(sized, pane.x)
}

/// Returns the first column that is shown after a step to the right.
fn right_of(pane: Pane) -> u16
    ensures { result ≡ right_of pane }
{
    pane.x.saturating_add(step(pane))
}

/// Returns the first column that is shown after a step to the left.
fn left_of(pane: Pane) -> u16
    ensures { result ≡ left_of pane }
{
    pane.x.saturating_sub(step(pane))
}

/// Returns `event` with the mouse `x` columns further right: in the window.
fn moved(x: u16, event: TerminalEvent) -> TerminalEvent
    ensures { result ≡ moved x event }
{
    match event {
        TerminalEvent::Key(key) => TerminalEvent::Key(key),
        TerminalEvent::Mouse(mouse) => TerminalEvent::Mouse(MouseEvent {
            column: x.saturating_add(mouse.column),
            ..mouse
        }),
        TerminalEvent::Other => TerminalEvent::Other,
    }
}

/// Returns the column that the press of a key shows first, if it is `>` or `<`.
fn pressed(pane: Pane, modifiers: KeyModifiers, code: KeyCode) -> Option<u16>
    ensures { result ≡ sideways_key pane Press modifiers code }
{
    match (modifiers, code) {
        (KeyModifiers::NONE | KeyModifiers::SHIFT, KeyCode::Char('>')) => Some(right_of(pane)),
        (KeyModifiers::NONE | KeyModifiers::SHIFT, KeyCode::Char('<')) => Some(left_of(pane)),
        _ => None,
    }
}

/// Returns the column that a key shows first, if it is `>` or `<`.
fn sideways_key(pane: Pane, key: KeyEvent) -> Option<u16>
    ensures { result ≡ sideways_key pane key.kind key.modifiers key.code }
{
    match key.kind {
        KeyEventKind::Press => pressed(pane, key.modifiers, key.code),
        KeyEventKind::Repeat | KeyEventKind::Release => None,
    }
}

/// Returns the column that the wheel shows first: down is to the right, and up to the left.
fn sideways_wheel(pane: Pane, kind: MouseEventKind) -> Option<u16>
    ensures { result ≡ sideways_wheel pane kind }
{
    match kind {
        MouseEventKind::ScrollUp => Some(left_of(pane)),
        MouseEventKind::ScrollDown => Some(right_of(pane)),
        MouseEventKind::Down(_)
        | MouseEventKind::Up(_)
        | MouseEventKind::Drag(_)
        | MouseEventKind::Moved
        | MouseEventKind::Other => None,
    }
}

/// Returns the column that the mouse shows first, if it is the wheel with shift alone.
fn sideways_mouse(pane: Pane, mouse: MouseEvent) -> Option<u16>
    ensures { result ≡ sideways_mouse pane mouse }
{
    if KeyModifiers::SHIFT == mouse.modifiers {
        sideways_wheel(pane, mouse.kind)
    } else {
        None
    }
}

/// Returns the column that `event` shows first, if it is a key `>` or `<`, or the wheel with shift.
fn sideways_event(pane: Pane, event: TerminalEvent) -> Option<u16>
    ensures { result ≡ sideways_event pane event }
{
    match event {
        TerminalEvent::Key(key) => sideways_key(pane, key),
        TerminalEvent::Mouse(mouse) => sideways_mouse(pane, mouse),
        TerminalEvent::Other => None,
    }
}

/// Returns what `event` of the terminal is, while `x` columns of the window stand to its left.
///
/// `is_own` says that `>`, `<` and the wheel with shift are the view's: no text is asked for, no dialog is
/// open, and the event is none of the user's own keys.
pub fn heard_as(pane: Pane, is_own: bool, x: u16, event: TerminalEvent) -> Heard
    ensures { result ≡ heard_as pane is_own x event }
{
    let event_of_front = moved(x, event);
    if !is_own {
        return Heard::Hand(event_of_front);
    }
    match sideways_event(pane, event) {
        Some(x) => Heard::Show(x),
        None => Heard::Hand(event_of_front),
    }
}

/// Proves that a click moves with the screen.
///
/// While the window is shown from column `x` on, a press of the mouse at column `c` of a terminal of
/// `width` columns is one at column `x + c` of the window, if `x + width` is at most 65,535.
///
/// This is a law: the function does nothing, and is there for its contract.
pub fn clicks_are_moved()
    ensures { (x width : ℕ) (e : MouseEvent) → x + width ≤ 65535 → e.column < width
        → moved x (Mouse e) ≡ Mouse (record e { column = x + e.column }) }
{}
