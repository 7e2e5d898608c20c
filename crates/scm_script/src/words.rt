//! The words of a line, and the screenshot or event of each word of a batch.
ghost use Rattle.std.specs.Prelude.{◌≡◌, codes};
ghost use Rattle.std.specs.Option.{option_copied};
ghost use Rattle.scm_script.specs.Words.{PartialKey, rest_after, rest_after_new, click_event_of, key_code_of, decimal_of, event_of_word, key_event_of, mouse_event_at, only, read_prefix, read_prefixes, terminal_event_of, word_of};
ghost use Rattle.std.specs.Char.{is_ascii_digit};
ghost use Rattle.std.specs.List.{list_all};
ghost use Rattle.std.specs.Str.{chars};

use scm_record::{
    Event, KeyCode, KeyEvent, KeyEventKind, KeyModifiers, MouseButton, MouseEvent, MouseEventKind,
    TerminalEvent,
};
use std::alloc::{AllocError, Global};

/// Returns the words of `line`, which are separated by one or more spaces.
///
/// # Errors
/// `AllocError`: an allocation failed.
pub fn words_of(alloc: Global, line: &str) -> Result<Vec<&str>, AllocError> {
    line.split(' ')
        .filter(|word| !word.is_empty())
        .collect(alloc)
}

/// The meaning of a word of a batch.
#[derive(Clone, Copy)]
pub enum Word {
    /// A screenshot, which gets a new place in the store.
    Shot,
    /// An event.
    Event(Event),
}

/// Returns the meaning of `word` by the table of words, or `None` if it has none. Allocates nothing.
#[tactic(auto, unfolding(crate::specs::Words::word_of))]
pub fn read_word(word: &str) -> Option<Word>
    ensures { result ≡ word_of word.now }
{
    Some(match word {
        "shot" => Word::Shot,
        "redraw" => Word::Event(Event::Redraw),
        "ensure" => Word::Event(Event::EnsureSelectionInViewport),
        "view" => Word::Event(Event::ToggleCommitViewMode),
        "none" => Word::Event(Event::None),
        _ => Word::Event(Event::from(read_terminal_event(word)?)),
    })
}

/// Returns the event of `word` by the table of words. Returns `None` for `shot`, and if `word` is not in the table.
pub fn read_event(word: &str) -> Option<Event>
    ensures { result ≡ event_of_word word.now }
{
    match read_word(word) {
        Some(Word::Event(event)) => Some(event),
        Some(Word::Shot) | None => None,
    }
}

/// Returns the number from 0 to 65535 that `word` is in digits alone, or `None`.
pub fn read_decimal(word: &str) -> Option<u16>
    ensures { result ≡ decimal_of word.now }
{
    if is_digits(word) {
        word.parse().ok()
    } else {
        None
    }
}

/// Returns whether `text` is digits alone.
fn is_digits(text: &str) -> bool
    ensures { result ≡ list_all is_ascii_digit text.now }
{
    text.as_bytes().iter().all(|byte| byte.is_ascii_digit())
}

/// Returns the event that a terminal sends for `word`: a turn of the wheel, a click or a key.
fn read_terminal_event(word: &str) -> Option<TerminalEvent>
    ensures { result ≡ terminal_event_of word.now }
{
    match word {
        "wheel-up" => Some(mouse_event(MouseEventKind::ScrollUp, 0, 0)),
        "wheel-down" => Some(mouse_event(MouseEventKind::ScrollDown, 0, 0)),
        _ => match strip("click:", word) {
            Some(place) => read_click(place),
            None => read_key(word),
        },
    }
}

/// Returns the event of the mouse at `row`, `column`, with no modifiers.
fn mouse_event(kind: MouseEventKind, row: u16, column: u16) -> TerminalEvent
    ensures { result ≡ mouse_event_at kind row column }
{
    TerminalEvent::Mouse(MouseEvent {
        kind,
        column,
        row,
        modifiers: KeyModifiers::NONE,
    })
}

/// Returns a click of the left button at `place`, written `ROW:COLUMN`.
fn read_click(place: &str) -> Option<TerminalEvent>
    ensures { result ≡ click_event_of place.now }
{
    let (row, column) = place.split_once(':')?;
    let row = read_decimal(row)?;
    let column = read_decimal(column)?;
    let kind = MouseEventKind::Down(MouseButton::Left);
    Some(mouse_event(kind, row, column))
}

/// Returns the event of a key that goes down, by its prefixes and its name.
pub fn read_key(word: &str) -> Option<TerminalEvent>
    ensures { result ≡ key_event_of word.now }
{
    let (modifiers, name) = split_prefixes(word);
    let code = read_code(name)?;
    Some(TerminalEvent::Key(KeyEvent {
        code,
        modifiers,
        kind: KeyEventKind::Press,
    }))
}

/// Returns the modifiers of all prefixes of `word`, and the rest of `word`.
fn split_prefixes(word: &str) -> (KeyModifiers, &str)
    ensures modifiers { result.0 ≡ (read_prefixes word.now).modifiers }
    ensures rest { result.1.now ≡ (read_prefixes word.now).rest }
{
    let (modifiers, rest) = split_prefix(KeyModifiers::NONE, word);
    let (modifiers, rest) = split_prefix(modifiers, rest);
    split_prefix(modifiers, rest)
}

/// Adds the modifier of the first prefix of `word`, unless it is in `modifiers` already. Returns the modifiers and the
/// rest of `word`.
fn split_prefix(modifiers: KeyModifiers, word: &str) -> (KeyModifiers, &str)
    ensures modifiers { result.0
        ≡ (read_prefix (record { modifiers = modifiers; rest = word.now })).modifiers }
    ensures rest { result.1.now
        ≡ (read_prefix (record { modifiers = modifiers; rest = word.now })).rest }
{
    if let Some(rest) = strip_new(modifiers.control, "ctrl-", word) {
        let control = true;
        (
            KeyModifiers {
                control,
                ..modifiers
            },
            rest,
        )
    } else if let Some(rest) = strip_new(modifiers.alt, "alt-", word) {
        let alt = true;
        (KeyModifiers { alt, ..modifiers }, rest)
    } else if let Some(rest) = strip_new(modifiers.shift, "shift-", word) {
        let shift = true;
        (KeyModifiers { shift, ..modifiers }, rest)
    } else {
        (modifiers, word)
    }
}

/// Returns the rest of `word` after `prefix`. Returns `None` if `prefix` is read already, or `word` doesn't begin with it.
fn strip_new<'a>(is_read: bool, prefix: &str, word: &'a str) -> Option<&'a str>
    ensures { option_copied result ≡ rest_after_new is_read prefix.now word.now }
{
    if is_read { None } else { strip(prefix, word) }
}

/// Returns the rest of `word` after `prefix`, or `None` if `word` doesn't begin with it.
fn strip<'a>(prefix: &str, word: &'a str) -> Option<&'a str>
    ensures { option_copied result ≡ rest_after prefix.now word.now }
{
    word.strip_prefix(prefix)
}

/// Returns the key with the name `name`, or the key of one character.
fn read_code(name: &str) -> Option<KeyCode>
    ensures { result ≡ key_code_of name.now }
{
    Some(match name {
        "up" => KeyCode::Up,
        "down" => KeyCode::Down,
        "left" => KeyCode::Left,
        "right" => KeyCode::Right,
        "pageup" => KeyCode::PageUp,
        "pagedown" => KeyCode::PageDown,
        "enter" => KeyCode::Enter,
        "esc" => KeyCode::Esc,
        "space" => KeyCode::Char(' '),
        _ => KeyCode::Char(only_char(name)?),
    })
}

/// Returns the character of `text` if it has exactly one.
fn only_char(text: &str) -> Option<char>
    ensures { result ≡ only (chars text.now) }
{
    let mut chars = text.chars();
    let first = chars.next()?;
    match chars.next() {
        Some(_) => None,
        None => Some(first),
    }
}
