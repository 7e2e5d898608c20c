//! Keys of the user's own, as words name them.
ghost use Rattle.std.specs.Prelude.{◌≡◌, ◌<◌, IfErr, IfNone, IfOk, IfSome, Option, Some, false, true};
ghost use Rattle.std.specs.List.{after_first, before_first};
ghost use Rattle.scm_open_session.specs.declared.open_session.OpenSession.{OpenSession};
ghost use Rattle.scm_c_values.specs.Pieces.{Adds, all_of, pieces_of};
ghost use Rattle.scm_open_session.specs.OwnKeys.{action_of_word, click_pieces, code_of_keys, has_equals, is_equals, key_of_word, key_with, keys_of_bytes, keys_of_piece, layer_actions, other_keys, own_key_of, press, pressed_key_of, with_action};
ghost use Rattle.scm_c_values.specs.Codes.{IsCode};
ghost use Rattle.scm_script.specs.Words.{find_row};

use scm_c_values::batches::split_piece;
use scm_c_values::codes;
use scm_front::{Action, OwnKey, Place, Typing, Way};
use scm_record::{KeyCode, KeyEvent, KeyEventKind, KeyModifiers, TerminalEvent};
use scm_script::{read_event, read_key};
use std::alloc::{AllocError, Global};

/// Only alt is held.
const ALT: KeyModifiers = KeyModifiers {
    shift: false,
    control: false,
    alt: true,
    other: false,
};

/// Returns the action of the layer with the name `word`, if there is one.
fn layer_action(word: &str) -> Option<Action>
    ensures { result ≡ find_row layer_actions word.now }
{
    match word {
        "search" => Some(Action::Edit(Typing::Ask)),
        "next" => Some(Action::Again(Way::Down)),
        "previous" => Some(Action::Again(Way::Up)),
        "first" => Some(Action::Go(Place::First)),
        "last" => Some(Action::Go(Place::Last)),
        "next-section" => Some(Action::Go(Place::Section(Way::Down))),
        "previous-section" => Some(Action::Go(Place::Section(Way::Up))),
        "next-file" => Some(Action::Go(Place::File(Way::Down))),
        "previous-file" => Some(Action::Go(Place::File(Way::Up))),
        "range" => Some(Action::Range),
        "mark" => Some(Action::Mark),
        "undo" => Some(Action::Undo),
        "redo" => Some(Action::Redo),
        "nothing" => Some(Action::Ignore),
        _ => None,
    }
}

/// Returns the action of `word`: of the layer, or an event of the session.
fn action_of(word: &str) -> Option<Action>
    ensures { result ≡ action_of_word word.now }
{
    match layer_action(word) {
        Some(action) => Some(action),
        None => match read_event(word) {
            Some(event) => Some(Action::Pass(event)),
            None => None,
        },
    }
}

/// Returns the event of pressing the key `code` while exactly `modifiers` are held.
fn press(modifiers: KeyModifiers, code: KeyCode) -> TerminalEvent
    ensures { result ≡ press modifiers code }
{
    TerminalEvent::Key(KeyEvent {
        code,
        modifiers,
        kind: KeyEventKind::Press,
    })
}

/// Returns the key of `word`, if scripts have no word for that key.
fn other_key(word: &str) -> Option<TerminalEvent>
    ensures { result ≡ find_row other_keys word.now }
{
    match word {
        "home" => Some(press(KeyModifiers::NONE, KeyCode::Home)),
        "shift-home" => Some(press(KeyModifiers::SHIFT, KeyCode::Home)),
        "ctrl-home" => Some(press(KeyModifiers::CONTROL, KeyCode::Home)),
        "alt-home" => Some(press(ALT, KeyCode::Home)),
        "end" => Some(press(KeyModifiers::NONE, KeyCode::End)),
        "shift-end" => Some(press(KeyModifiers::SHIFT, KeyCode::End)),
        "ctrl-end" => Some(press(KeyModifiers::CONTROL, KeyCode::End)),
        "alt-end" => Some(press(ALT, KeyCode::End)),
        _ => None,
    }
}

/// Returns the key of `word`: of a script's word, or of Home or End.
fn key_of(word: &str) -> Option<TerminalEvent>
    ensures { result ≡ key_of_word word.now }
{
    match other_key(word) {
        Some(key) => Some(key),
        None => read_key(word),
    }
}

/// Returns the key `key` with what it does.
fn with_action(key: TerminalEvent, action: Action) -> Option<OwnKey>
    ensures { result ≡ with_action key action }
{
    match key {
        TerminalEvent::Key(key) => Some(OwnKey::Key {
            code: key.code,
            modifiers: key.modifiers,
            action,
        }),
        TerminalEvent::Mouse(_) | TerminalEvent::Other => None,
    }
}

/// Returns the key `key` with what it does, if both are known.
fn key_with(key: Option<TerminalEvent>, action: Option<Action>) -> Option<OwnKey>
    ensures { result ≡ key_with key action }
{
    match (key, action) {
        (Some(key), Some(action)) => with_action(key, action),
        (Some(_), None) => None,
        (None, Some(_)) => None,
        (None, None) => None,
    }
}

/// Returns the two parts of `piece` before and behind its first `=`, if it has one.
fn split_at_equals(piece: &str) -> Option<(&str, &str)>
    ensures none { IfNone result (has_equals piece.now ≡ false) }
    ensures some { IfSome result (λ parts. has_equals piece.now ≡ true) }
    ensures front { IfSome result (λ parts.
        parts.0.now ≡ before_first is_equals piece.now) }
    ensures back { IfSome result (λ parts.
        parts.1.now ≡ after_first is_equals piece.now) }
{
    piece.split_once('=')
}

/// Returns the key of `piece`, written `KEY=WORD`.
fn pressed_key(piece: &str) -> Option<OwnKey>
    ensures { result ≡ pressed_key_of piece.now }
{
    match split_at_equals(piece) {
        Some((key, word)) => key_with(key_of(key), action_of(word)),
        None => None,
    }
}

/// Returns what `piece` says of a click on a box, if it says something.
fn own_click(piece: &str) -> Option<OwnKey>
    ensures { result ≡ find_row click_pieces piece.now }
{
    match piece {
        "click=select" => Some(OwnKey::ClickSelects),
        _ => None,
    }
}

/// Returns what `piece` says: of a click, or of a key.
fn own_key(piece: &str) -> Option<OwnKey>
    ensures { result ≡ own_key_of piece.now }
{
    match own_click(piece) {
        Some(key) => Some(key),
        None => pressed_key(piece),
    }
}

/// Adds the key of `piece` to `keys`, if `piece` is not empty. Returns whether it is empty or names a key.
fn push_piece(keys: &mut Vec<OwnKey>, piece: &str) -> Result<bool, AllocError>
    ensures { IfOk result (λ is_known.
        Adds (keys_of_piece piece.now) keys.old.items keys.new.items is_known) }
{
    if piece.is_empty() {
        return Ok(true);
    }
    match own_key(piece) {
        Some(key) => {
            keys.push(key)?;
            Ok(true)
        }
        None => Ok(false),
    }
}

/// Adds the keys of `text` to `keys`. Returns whether each piece names one.
fn push_keys(keys: &mut Vec<OwnKey>, text: &str) -> Result<bool, AllocError>
    ensures { IfOk result (λ is_known.
        Adds (all_of keys_of_piece (pieces_of text.now)) keys.old.items keys.new.items is_known) }
{
    let mut rest = text;
    'cuts: while let Some((piece, after)) = split_piece(rest) {
        if !push_piece(keys, piece)? {
            return Ok(false);
        }
        rest = after;
    }
    push_piece(keys, rest)
}

/// Returns the keys of `text`, which are written `KEY=WORD` and separated by spaces. `click=select` says
/// that a click on the box of an item selects the item first.
///
/// # Errors
/// The code of the failure: `NO_KEY` or `NO_MEMORY`.
pub fn keys_of(alloc: Global, text: &[u8]) -> Result<Vec<OwnKey>, u32>
    ensures ok { IfOk result (λ keys. keys_of_bytes text.now ≡ Some keys.items) }
    ensures err { IfErr result (λ code. (inner : Option OpenSession)
        → IsCode true (code_of_keys (keys_of_bytes text.now) inner) code) }
    ensures refused { IfErr result (λ code. 0 < code) }
{
    let Ok(text) = str::from_utf8(text) else {
        return Err(codes::NO_KEY);
    };
    let mut keys = Vec::new(alloc);
    let Ok(is_known) = push_keys(&mut keys, text) else {
        return Err(codes::NO_MEMORY);
    };
    if is_known {
        Ok(keys)
    } else {
        Err(codes::NO_KEY)
    }
}
