//! The key table of the layer: what it does with each event of a terminal.
ghost use Rattle.std.specs.Prelude.{◌≡◌};
ghost use Rattle.std.specs.List.{list_any};
ghost use Rattle.scm_input.specs.KeyTable.{same_key, same_modifiers};
ghost use Rattle.scm_front.specs.Actions.{action_by, action_of, acts_at_once, adding, asking_action, asking_key, dialog_key, first_action, free_key, has_key, hears_drags, is_pressed, is_selecting, last_action, mouse_action, moving_keys, own_action, ranging_action, session_action};

use crate::asking::Typing;
use scm_front_items::{Place, Way};
use scm_record::{
    Event, KeyCode, KeyEvent, KeyEventKind, KeyModifiers, MouseButton, MouseEvent, MouseEventKind,
    TerminalEvent,
};

/// No modifier is held.
const NONE: KeyModifiers = KeyModifiers::NONE;

/// Only shift is held.
const SHIFT: KeyModifiers = KeyModifiers::SHIFT;

/// Only control is held.
const CONTROL: KeyModifiers = KeyModifiers::CONTROL;

/// What the layer does with an event of the terminal.
#[derive(Clone, Copy)]
pub enum Action {
    /// Hands an event to the session beneath.
    Pass(Event),
    /// Types the text to search for.
    Edit(Typing),
    /// Ends the question, and searches downwards for its text.
    Seek,
    /// Searches for the last text again.
    Again(Way),
    /// Selects the item at a place.
    Go(Place),
    /// Clicks at a place of the screen, counted from 0; on the box of an item a second time, if the first
    /// click merely selects the item.
    Click {
        /// The row of the screen.
        row: usize,
        /// The column of the screen.
        column: usize,
    },
    /// Moves the end of a range to the item at a place of the screen, counted from 0. If no range is begun and
    /// the last key was a click on a line, begins one there.
    Drag {
        /// The row of the screen.
        row: usize,
        /// The column of the screen.
        column: usize,
    },
    /// Begins a range at the selected line, or ends the range.
    Range,
    /// Sets the marks of the lines of the range, and ends it.
    Mark,
    /// Undoes the last change of marks.
    Undo,
    /// Does again what was undone last.
    Redo,
    /// Does nothing.
    Ignore,
}

/// A key of the user's own.
#[derive(Clone, Copy)]
pub enum OwnKey {
    /// A key of the keyboard.
    Key {
        /// The key.
        code: KeyCode,
        /// The modifiers that are held with it.
        modifiers: KeyModifiers,
        /// What it does.
        action: Action,
    },
    /// A click on the box of an item selects the item first, and acts on the box if the item is selected.
    ClickSelects,
}

/// Who hears a key.
#[derive(Clone, Copy, Debug, PartialEq, Eq)]
pub enum Mode {
    /// The layer alone: a text is being typed.
    Asking,
    /// The session: a dialog is open.
    Dialog,
    /// The layer first: a range is begun.
    Ranging,
    /// The layer first.
    Free,
}

/// Returns the action of pressing a key that may type a character: of a letter with shift, its capital.
fn adding(modifiers: KeyModifiers, code: KeyCode) -> Action
    ensures { result ≡ adding modifiers code }
{
    match (modifiers, code) {
        (NONE, KeyCode::Char(character)) => Action::Edit(Typing::Add(character)),
        (SHIFT, KeyCode::Char(character)) => {
            Action::Edit(Typing::Add(character.to_ascii_uppercase()))
        }
        _ => Action::Ignore,
    }
}

/// Returns the action of pressing the key `code` with exactly `modifiers` while a text is asked for.
fn asking_action(modifiers: KeyModifiers, code: KeyCode) -> Action
    ensures { result ≡ asking_action modifiers code }
{
    match (modifiers, code) {
        (NONE, KeyCode::Enter) => Action::Seek,
        (NONE, KeyCode::Esc) | (CONTROL, KeyCode::Char('c')) => Action::Edit(Typing::Leave),
        (CONTROL, KeyCode::Char('u')) => Action::Edit(Typing::Erase),
        _ => adding(modifiers, code),
    }
}

/// Returns the action of a key while a text is asked for. Only a press counts.
fn asking_key(key: KeyEvent) -> Action
    ensures { result ≡ asking_key key.kind key.modifiers key.code }
{
    match key.kind {
        KeyEventKind::Press => asking_action(key.modifiers, key.code),
        KeyEventKind::Repeat | KeyEventKind::Release => Action::Ignore,
    }
}

/// Returns whether the two have the same modifiers.
fn is_same(held: KeyModifiers, modifiers: KeyModifiers) -> bool
    ensures { result ≡ same_modifiers held modifiers }
{
    held == modifiers
}

/// Returns whether the two keys are equal.
fn is_same_key(key: KeyCode, code: KeyCode) -> bool
    ensures { result ≡ same_key key code }
{
    code == key
}

/// Returns whether `key` is `code` with exactly `modifiers`.
fn is_pressed(key: OwnKey, modifiers: KeyModifiers, code: KeyCode) -> bool
    ensures { result ≡ is_pressed modifiers code key }
{
    match key {
        OwnKey::Key {
            code: own,
            modifiers: held,
            action: _,
        } => {
            let is_held = is_same(held, modifiers);
            let is_code = is_same_key(own, code);
            is_held & is_code
        }
        OwnKey::ClickSelects => false,
    }
}

/// Returns whether one of `keys` is `code` with exactly `modifiers`.
fn is_any_pressed(keys: &[OwnKey], modifiers: KeyModifiers, code: KeyCode) -> bool
    ensures { result ≡ list_any (is_pressed modifiers code) keys.now }
{
    keys.iter().any(|key| is_pressed(*key, modifiers, code))
}

/// Returns whether `event` is one of `keys`.
pub(crate) fn has_key(keys: &[OwnKey], event: TerminalEvent) -> bool
    ensures { result ≡ has_key keys.now event }
{
    match event {
        TerminalEvent::Key(key) => is_any_pressed(keys, key.modifiers, key.code),
        TerminalEvent::Mouse(_) | TerminalEvent::Other => false,
    }
}

/// Returns the action of `key` if it is `code` with exactly `modifiers`, and else `otherwise`.
fn action_by(key: OwnKey, modifiers: KeyModifiers, code: KeyCode, otherwise: Action) -> Action
    ensures { result ≡ action_by key modifiers code otherwise }
{
    match key {
        OwnKey::Key {
            code: own,
            modifiers: held,
            action,
        } => {
            let is_held = is_same(held, modifiers);
            let is_code = is_same_key(own, code);
            if is_held & is_code { action } else { otherwise }
        }
        OwnKey::ClickSelects => otherwise,
    }
}

/// Returns the action of the last of `keys` that is `code` with exactly `modifiers`, or `otherwise` if
/// there is none.
fn last_action(keys: &[OwnKey], modifiers: KeyModifiers, code: KeyCode, otherwise: Action) -> Action
    ensures { result ≡ last_action keys.now modifiers code otherwise }
{
    let mut action = otherwise;
    for key in keys {
        action = action_by(*key, modifiers, code, action);
    }
    action
}

/// Returns the action of pressing the key `code` with exactly `modifiers` if it moves the selection, and else
/// `pass`.
fn moving_action(modifiers: KeyModifiers, code: KeyCode, pass: Action) -> Action
    ensures { result ≡ first_action moving_keys modifiers code pass }
{
    match (modifiers, code) {
        (NONE, KeyCode::Char('g')) => Action::Go(Place::First),
        (NONE, KeyCode::Home) => Action::Go(Place::First),
        (SHIFT, KeyCode::Char('G')) => Action::Go(Place::Last),
        (NONE, KeyCode::End) => Action::Go(Place::Last),
        (NONE, KeyCode::Char(']')) => Action::Go(Place::Section(Way::Down)),
        (NONE, KeyCode::Char('[')) => Action::Go(Place::Section(Way::Up)),
        (NONE, KeyCode::Char('}')) => Action::Go(Place::File(Way::Down)),
        (NONE, KeyCode::Char('{')) => Action::Go(Place::File(Way::Up)),
        (CONTROL, KeyCode::Char('n')) => Action::Pass(Event::FocusNext),
        (CONTROL, KeyCode::Char('p')) => Action::Pass(Event::FocusPrev),
        _ => pass,
    }
}

/// Returns the action of pressing the key `code` with exactly `modifiers`: `pass` if the layer has no
/// such key.
fn own_action(modifiers: KeyModifiers, code: KeyCode, pass: Action) -> Action
    ensures { result ≡ own_action modifiers code pass }
{
    match (modifiers, code) {
        (NONE, KeyCode::Char('/')) => Action::Edit(Typing::Ask),
        (NONE, KeyCode::Char('n')) => Action::Again(Way::Down),
        (SHIFT, KeyCode::Char('N')) => Action::Again(Way::Up),
        (NONE, KeyCode::Char('v')) => Action::Range,
        (NONE, KeyCode::Char('u')) => Action::Undo,
        (CONTROL, KeyCode::Char('r')) => Action::Redo,
        _ => moving_action(modifiers, code, pass),
    }
}

/// Returns the action of pressing the key `code` with exactly `modifiers` while a range is begun.
fn ranging_action(modifiers: KeyModifiers, code: KeyCode, pass: Action) -> Action
    ensures { result ≡ ranging_action modifiers code pass }
{
    match (modifiers, code) {
        (NONE, KeyCode::Char(' ')) => Action::Mark,
        (NONE, KeyCode::Esc) => Action::Range,
        _ => own_action(modifiers, code, pass),
    }
}

/// Returns the action of a key that the layer hears first: of the user's own `keys`, then of the layer's,
/// and else `pass`.
fn free_key(is_ranging: bool, keys: &[OwnKey], key: KeyEvent, pass: Action) -> Action
    ensures { result ≡ free_key is_ranging keys.now key pass }
{
    match key.kind {
        KeyEventKind::Press => {
            let built_in = if is_ranging {
                ranging_action(key.modifiers, key.code, pass)
            } else {
                own_action(key.modifiers, key.code, pass)
            };
            last_action(keys, key.modifiers, key.code, built_in)
        }
        KeyEventKind::Repeat | KeyEventKind::Release => pass,
    }
}

/// Returns `action` if it is an event of the session, and else `pass`.
fn session_action(action: Action, pass: Action) -> Action
    ensures { result ≡ session_action action pass }
{
    match action {
        Action::Pass(event) => Action::Pass(event),
        Action::Edit(_)
        | Action::Seek
        | Action::Again(_)
        | Action::Go(_)
        | Action::Click { .. }
        | Action::Drag { .. }
        | Action::Range
        | Action::Mark
        | Action::Undo
        | Action::Redo
        | Action::Ignore => pass,
    }
}

/// Returns the action of a key while a dialog is open: of the user's own `keys`, if that is an event of
/// the session, and else `pass`.
fn dialog_key(keys: &[OwnKey], key: KeyEvent, pass: Action) -> Action
    ensures { result ≡ dialog_key keys.now key pass }
{
    match key.kind {
        KeyEventKind::Press => {
            session_action(last_action(keys, key.modifiers, key.code, pass), pass)
        }
        KeyEventKind::Repeat | KeyEventKind::Release => pass,
    }
}

/// Returns whether `key` says that a click selects first.
fn is_selecting(key: OwnKey) -> bool
    ensures { result ≡ is_selecting key }
{
    match key {
        OwnKey::Key { .. } => false,
        OwnKey::ClickSelects => true,
    }
}

/// Returns whether one of `keys` says that a click selects first.
fn is_any_selecting(keys: &[OwnKey]) -> bool
    ensures { result ≡ list_any is_selecting keys.now }
{
    keys.iter().any(|key| is_selecting(*key))
}

/// Returns whether one click acts on a box: no dialog is open, and none of `keys` says that a click selects
/// first.
fn acts_at_once(mode: Mode, keys: &[OwnKey]) -> bool
    ensures { result ≡ acts_at_once mode keys.now }
{
    match mode {
        Mode::Dialog => false,
        Mode::Asking | Mode::Ranging | Mode::Free => !is_any_selecting(keys),
    }
}

/// Returns whether a drag is the layer's: no dialog is open, and no text is asked for.
fn hears_drags(mode: Mode) -> bool
    ensures { result ≡ hears_drags mode }
{
    match mode {
        Mode::Asking | Mode::Dialog => false,
        Mode::Ranging | Mode::Free => true,
    }
}

/// Returns the action of a mouse event: a click, if `is_acting`, a drag, if `is_dragging`, and else `pass`.
fn mouse_action(is_acting: bool, is_dragging: bool, mouse: MouseEvent, pass: Action) -> Action
    ensures { result ≡ mouse_action is_acting is_dragging mouse.kind mouse.row mouse.column pass }
{
    match mouse.kind {
        MouseEventKind::Down(MouseButton::Left) => {
            if is_acting {
                Action::Click {
                    row: mouse.row as usize,
                    column: mouse.column as usize,
                }
            } else {
                pass
            }
        }
        MouseEventKind::Drag(MouseButton::Left) => {
            if is_dragging {
                Action::Drag {
                    row: mouse.row as usize,
                    column: mouse.column as usize,
                }
            } else {
                pass
            }
        }
        MouseEventKind::Down(MouseButton::Right | MouseButton::Middle)
        | MouseEventKind::Drag(MouseButton::Right | MouseButton::Middle)
        | MouseEventKind::Up(_)
        | MouseEventKind::Moved
        | MouseEventKind::ScrollUp
        | MouseEventKind::ScrollDown
        | MouseEventKind::Other => pass,
    }
}

/// Returns what the layer does with `event`.
///
/// While a text is asked for, the session hears no key. While a dialog is open, the layer has no keys of
/// its own, and of the user's `keys` those alone that are events of the session. Of two keys of `keys` that
/// are equal the last one counts. One click acts on a box, unless a dialog is open or one of `keys` says that
/// a click selects first. A drag makes a range, unless a dialog is open or a text is asked for. The session
/// hears all else of the mouse.
pub fn action_of(mode: Mode, keys: &[OwnKey], event: TerminalEvent) -> Action
    ensures { result ≡ action_of mode keys.now event }
{
    let pass = Action::Pass(Event::from(event));
    match event {
        TerminalEvent::Key(key) => match mode {
            Mode::Asking => asking_key(key),
            Mode::Dialog => dialog_key(keys, key, pass),
            Mode::Ranging => free_key(true, keys, key, pass),
            Mode::Free => free_key(false, keys, key, pass),
        },
        TerminalEvent::Mouse(mouse) => mouse_action(
            acts_at_once(mode, keys),
            hears_drags(mode),
            mouse,
            pass,
        ),
        TerminalEvent::Other => pass,
    }
}
