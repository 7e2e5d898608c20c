//! The keys of a pager.
ghost use Rattle.std.specs.Prelude.{◌≡◌};
ghost use Rattle.scm_pager.specs.Keys.{deed_of, deed_of_key, deed_of_mouse, deed_of_press, first_deed, step_keys};
ghost use Rattle.scm_pager.specs.declared.keys.Deed.TheVariants.{Stay};

use scm_input::{KeyCode, KeyEvent, KeyEventKind, KeyModifiers, MouseEventKind, TerminalEvent};

/// A step up or down.
#[derive(Clone, Copy, Debug, PartialEq, Eq)]
pub enum Step {
    /// A line down.
    Down,
    /// A line up.
    Up,
    /// Half a page down.
    HalfPageDown,
    /// Half a page up.
    HalfPageUp,
    /// A page down.
    PageDown,
    /// A page up.
    PageUp,
    /// To the first line.
    First,
    /// To the last page.
    Last,
}

/// A step sideways.
#[derive(Clone, Copy, Debug, PartialEq, Eq)]
pub enum Turn {
    /// Half a screen to the right.
    Right,
    /// Half a screen to the left.
    Left,
}

/// What an event of the terminal does to a pager.
#[derive(Clone, Copy, Debug, PartialEq, Eq)]
pub enum Deed {
    /// Steps up or down.
    Step(Step),
    /// Steps sideways.
    Turn(Turn),
    /// Shows the selected side, or the other one. If that is shown, closes.
    Show(bool),
    /// Closes.
    Close,
    /// Does nothing.
    Stay,
}

/// No modifier is held.
const NONE: KeyModifiers = KeyModifiers::NONE;

/// Only shift is held.
const SHIFT: KeyModifiers = KeyModifiers::SHIFT;

/// Only control is held.
const CONTROL: KeyModifiers = KeyModifiers::CONTROL;

/// Returns what pressing the key `code` with exactly `modifiers` does, if it steps up or down.
fn step_of_press(modifiers: KeyModifiers, code: KeyCode) -> Deed
    ensures { result ≡ first_deed step_keys modifiers code Stay }
{
    match (modifiers, code) {
        (NONE, KeyCode::Char('j')) => Deed::Step(Step::Down),
        (NONE, KeyCode::Down) => Deed::Step(Step::Down),
        (NONE, KeyCode::Char('k')) => Deed::Step(Step::Up),
        (NONE, KeyCode::Up) => Deed::Step(Step::Up),
        (CONTROL, KeyCode::Char('d')) => Deed::Step(Step::HalfPageDown),
        (CONTROL, KeyCode::Char('u')) => Deed::Step(Step::HalfPageUp),
        (CONTROL, KeyCode::Char('f')) => Deed::Step(Step::PageDown),
        (NONE, KeyCode::PageDown) => Deed::Step(Step::PageDown),
        (CONTROL, KeyCode::Char('b')) => Deed::Step(Step::PageUp),
        (NONE, KeyCode::PageUp) => Deed::Step(Step::PageUp),
        (NONE, KeyCode::Char('g')) => Deed::Step(Step::First),
        (NONE, KeyCode::Home) => Deed::Step(Step::First),
        (SHIFT, KeyCode::Char('G')) => Deed::Step(Step::Last),
        (NONE, KeyCode::End) => Deed::Step(Step::Last),
        _ => Deed::Stay,
    }
}

/// Returns what pressing the key `code` with exactly `modifiers` does.
fn deed_of_press(modifiers: KeyModifiers, code: KeyCode) -> Deed
    ensures { result ≡ deed_of_press modifiers code }
{
    match (modifiers, code) {
        (NONE, KeyCode::Char('>')) => Deed::Turn(Turn::Right),
        (SHIFT, KeyCode::Char('>')) => Deed::Turn(Turn::Right),
        (NONE, KeyCode::Char('<')) => Deed::Turn(Turn::Left),
        (SHIFT, KeyCode::Char('<')) => Deed::Turn(Turn::Left),
        (NONE, KeyCode::Char('p')) => Deed::Show(true),
        (SHIFT, KeyCode::Char('P')) => Deed::Show(false),
        (NONE, KeyCode::Char('?')) => Deed::Close,
        (NONE, KeyCode::Esc) => Deed::Close,
        (NONE, KeyCode::Char('q')) => Deed::Close,
        (CONTROL, KeyCode::Char('c')) => Deed::Close,
        _ => step_of_press(modifiers, code),
    }
}

/// Returns what a key does. Only a press counts.
fn deed_of_key(key: KeyEvent) -> Deed
    ensures { result ≡ deed_of_key key.kind key.modifiers key.code }
{
    match key.kind {
        KeyEventKind::Press => deed_of_press(key.modifiers, key.code),
        KeyEventKind::Repeat | KeyEventKind::Release => Deed::Stay,
    }
}

/// Returns what the mouse does: the wheel steps a line.
fn deed_of_mouse(kind: MouseEventKind) -> Deed
    ensures { result ≡ deed_of_mouse kind }
{
    match kind {
        MouseEventKind::ScrollUp => Deed::Step(Step::Up),
        MouseEventKind::ScrollDown => Deed::Step(Step::Down),
        MouseEventKind::Down(_)
        | MouseEventKind::Up(_)
        | MouseEventKind::Drag(_)
        | MouseEventKind::Moved
        | MouseEventKind::Other => Deed::Stay,
    }
}

/// Returns what `event` does.
pub(crate) fn deed_of(event: TerminalEvent) -> Deed
    ensures { result ≡ deed_of event }
{
    match event {
        TerminalEvent::Key(key) => deed_of_key(key),
        TerminalEvent::Mouse(mouse) => deed_of_mouse(mouse.kind),
        TerminalEvent::Other => Deed::Stay,
    }
}
