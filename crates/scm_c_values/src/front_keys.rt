//! Keys that the key table lacks, for a front end.
ghost use Rattle.std.specs.Prelude.{◌≡◌, ◌-◌, ◌==◌, ◌≤◌, if◌then◌else◌, length, option_to_list};
ghost use Rattle.scm_input.specs.KeyTable.{control, none, same_modifiers, shift};
ghost use Rattle.scm_terminal.specs.Decoders.{events_of};
ghost use Rattle.scm_c_values.specs.KeyCodes.{StopsAt, code_of_char, code_of_key, first_front_key, front_key, is_letter, is_no_event};

use scm_input::{Event, KeyCode, KeyEvent, KeyModifiers, TerminalEvent};
use scm_terminal::{Decoder, EventPair};

/// Returns whether `event` is `None`, that of a key that is not in the table.
fn is_no_event(event: Event) -> bool
    ensures { result ≡ is_no_event event }
{
    match event {
        Event::None => true,
        Event::QuitAccept
        | Event::QuitCancel
        | Event::QuitInterrupt
        | Event::QuitEscape
        | Event::TakeScreenshot(_)
        | Event::Redraw
        | Event::EnsureSelectionInViewport
        | Event::ScrollUp
        | Event::ScrollDown
        | Event::PageUp
        | Event::PageDown
        | Event::FocusPrev
        | Event::FocusPrevSameKind
        | Event::FocusPrevPage
        | Event::FocusNext
        | Event::FocusNextSameKind
        | Event::FocusNextPage
        | Event::FocusInner
        | Event::FocusOuter { .. }
        | Event::ToggleItem
        | Event::ToggleItemAndAdvance
        | Event::ToggleAll
        | Event::ToggleAllUniform
        | Event::ExpandItem
        | Event::ExpandAll
        | Event::Click { .. }
        | Event::ToggleCommitViewMode
        | Event::EditCommitMessage
        | Event::Help => false,
    }
}

/// Returns whether the two have the same modifiers.
fn is_same(held: KeyModifiers, modifiers: KeyModifiers) -> bool
    ensures { result ≡ same_modifiers held modifiers }
{
    held == modifiers
}

/// Returns whether `character` is a small letter of ASCII.
fn is_letter(character: char) -> bool
    ensures { result ≡ is_letter character }
{
    'a' <= character && character <= 'z'
}

/// Returns the code of a character's key: the character, or with control the control character of a
/// letter. Returns 0 with other modifiers.
fn char_code(modifiers: KeyModifiers, character: char) -> u32
    ensures { result ≡ code_of_char modifiers character }
{
    if is_same(KeyModifiers::NONE, modifiers) || is_same(KeyModifiers::SHIFT, modifiers) {
        character as u32
    } else if is_same(KeyModifiers::CONTROL, modifiers) && is_letter(character) {
        character as u32 - 96
    } else {
        0
    }
}

/// Returns the code of a key: that of its character, and 0 for a key without one.
fn key_code(key: KeyEvent) -> u32
    ensures { result ≡ code_of_key key.modifiers key.code }
{
    match key.code {
        KeyCode::Char(character) => char_code(key.modifiers, character),
        KeyCode::Up
        | KeyCode::Down
        | KeyCode::Left
        | KeyCode::Right
        | KeyCode::PageUp
        | KeyCode::PageDown
        | KeyCode::Home
        | KeyCode::End
        | KeyCode::Enter
        | KeyCode::Esc
        | KeyCode::Other => 0,
    }
}

/// Returns the code of `event` for a front end: that of a key that is not in the table. Returns 0 for
/// any other event.
fn front_key(event: TerminalEvent) -> u32
    ensures { result ≡ front_key event }
{
    match event {
        TerminalEvent::Key(key) => {
            if is_no_event(Event::from(event)) {
                key_code(key)
            } else {
                0
            }
        }
        TerminalEvent::Mouse(_) | TerminalEvent::Other => 0,
    }
}

/// Returns the code of the first of two keys that is not 0.
fn first_of(first: u32, second: u32) -> u32
    ensures { result ≡ (if first == 0 then second else first) }
{
    if first == 0 { second } else { first }
}

/// Returns the code of `event` for a front end. Returns 0 without an event.
fn key_if_any(event: Option<TerminalEvent>) -> u32
    ensures { result ≡ first_front_key (option_to_list event) }
{
    match event {
        Some(event) => front_key(event),
        None => 0,
    }
}

/// Returns the code of the first key for a front end among the events of a byte.
fn key_of_pair(pair: EventPair) -> u32
    ensures { result ≡ first_front_key (events_of pair) }
{
    first_of(key_if_any(pair.first), key_if_any(pair.second))
}

/// Returns how many of `bytes` `decoder` reads up to the first key for a front end, and the code of
/// that key. If they complete no such key, returns their number, and the code 0.
pub fn stop(decoder: Decoder, bytes: &[u8]) -> (usize, u32)
    ensures stops { StopsAt decoder bytes.now result.0 result.1 }
    ensures within { result.0 ≤ length bytes.now }
{
    let mut decoder = decoder;
    for (index, byte) in bytes.iter().enumerate() {
        let key = key_of_pair(decoder.push(*byte));
        if key != 0 {
            return (index + 1, key);
        }
    }
    (bytes.len(), 0)
}

/// Returns how many bytes a front end is told of: `taken` if the session still waits for an event, or all of
/// them.
pub fn told_length(is_waiting: bool, taken: usize, all: usize) -> usize
    ensures { result ≡ (if is_waiting then taken else all) }
{
    if is_waiting { taken } else { all }
}

/// Returns the key that a front end is told of: `key` if it is to be told, or 0.
pub fn told_key(is_told: bool, key: u32) -> u32
    ensures { result ≡ (if is_told then key else 0) }
{
    if is_told { key } else { 0 }
}
