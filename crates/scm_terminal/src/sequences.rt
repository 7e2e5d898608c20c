//! Escape sequences: CSI (`ESC [`) or SS3 (`ESC O`), parameters between semicolons, a final byte.
//! Their meanings are those of xterm's control sequences, as far as the key table needs them.
ghost use Rattle.std.specs.Prelude.{◌≡◌, ◌<◌};
ghost use Rattle.scm_terminal.specs.Sequences.{
  lettered_key,
  lettered_token,
  capital,
  control_numbered_token,
  counted,
  is_mark,
  new_sequence,
  trailing_bytes,
  key_modifiers,
  is_blank,
  key_number,
  key_token,
  key_with,
  modifiers_of,
  mouse_token,
  old_mouse_token,
  numbered_key,
  printable_key,
  tilde_token,
  typed_key,
  typed_token,
  with_parameter,
  token_of,
  with_digit,
  with_semicolon,
};

use crate::byte_keys::code_of;
use crate::bytes::{has_bit, is_between, is_digit};
use crate::mouse::mouse_event;
use crate::tokens::Token;
use scm_input::{KeyCode, KeyEvent, KeyEventKind, KeyModifiers, TerminalEvent};

/// The kind of an escape sequence.
#[derive(Clone, Copy)]
pub enum SequenceKind {
    /// A control sequence: `ESC [` (CSI).
    Csi,
    /// A key of application mode: `ESC O` (SS3).
    Ss3,
    /// A mouse report in xterm's SGR form: `ESC [ <`.
    Mouse,
    /// A sequence that is not recognized.
    Unknown,
}

/// An unfinished escape sequence: its kind, and its last three parameters. A parameter that is
/// left out is 0.
#[derive(Clone, Copy)]
pub struct Sequence {
    /// The kind of the sequence.
    pub kind: SequenceKind,
    /// The number of parameter bytes so far; 4 stands for 4 or more.
    pub bytes: u8,
    /// The number of semicolons so far, at most 2.
    pub semicolons: u8,
    /// The parameter before `second`, if the sequence has two semicolons so far.
    pub first: u16,
    /// The parameter before `last`, if the sequence has a semicolon so far.
    pub second: u16,
    /// The last parameter of the sequence so far.
    pub last: u16,
}

/// The first parameter of a typed key in the form of xterm's `modifyOtherKeys`.
const OTHER_KEY: u16 = 27;

/// Makes a sequence of `kind` without parameters.
#[tactic(auto, unfolding(crate::specs::Sequences::new_sequence))]
pub(crate) fn new_sequence(kind: SequenceKind) -> Sequence
    ensures { result ≡ new_sequence kind }
{
    Sequence {
        kind,
        bytes: 0,
        semicolons: 0,
        first: 0,
        second: 0,
        last: 0,
    }
}

/// Returns whether `sequence` is `ESC [` with no parameter, or with zeros alone.
fn is_blank(sequence: Sequence) -> bool
    ensures { result ≡ is_blank sequence }
{
    match sequence.kind {
        SequenceKind::Csi => sequence.semicolons == 0 && sequence.last == 0,
        SequenceKind::Ss3 | SequenceKind::Mouse | SequenceKind::Unknown => false,
    }
}

/// Counts one more parameter byte of `sequence`.
fn counted(sequence: Sequence) -> Sequence
    ensures { result ≡ counted sequence }
{
    let bytes = if sequence.bytes < 4 {
        sequence.bytes + 1
    } else {
        sequence.bytes
    };
    Sequence { bytes, ..sequence }
}

/// Adds the parameter byte `byte` to `sequence`: a digit, a semicolon or a leading `<`. Any other
/// byte makes the sequence unknown.
#[tactic(auto, unfolding(crate::specs::Sequences::with_parameter))]
pub(crate) fn with_parameter(sequence: Sequence, byte: u8) -> Sequence
    ensures { result ≡ with_parameter sequence byte }
{
    let sequence = counted(sequence);
    if is_digit(byte) {
        with_digit(sequence, byte - b'0')
    } else if byte == b';' {
        with_semicolon(sequence)
    } else if byte == b'<' && is_blank(sequence) {
        Sequence {
            kind: SequenceKind::Mouse,
            ..sequence
        }
    } else {
        Sequence {
            kind: SequenceKind::Unknown,
            ..sequence
        }
    }
}

/// Adds `digit` to the last parameter of `sequence`. A parameter above 65,535 makes it unknown.
fn with_digit(sequence: Sequence, digit: u8) -> Sequence
    ensures { result ≡ with_digit sequence digit }
{
    let number = sequence.last as u32 * 10 + digit as u32;
    if number <= 65535 {
        Sequence {
            last: number as u16,
            ..sequence
        }
    } else {
        Sequence {
            kind: SequenceKind::Unknown,
            ..sequence
        }
    }
}

/// Adds a semicolon to `sequence`. A third semicolon makes it unknown.
fn with_semicolon(sequence: Sequence) -> Sequence
    ensures { result ≡ with_semicolon sequence }
{
    if sequence.semicolons < 2 {
        Sequence {
            kind: sequence.kind,
            bytes: sequence.bytes,
            semicolons: sequence.semicolons + 1,
            first: sequence.second,
            second: sequence.last,
            last: 0,
        }
    } else {
        Sequence {
            kind: SequenceKind::Unknown,
            ..sequence
        }
    }
}

/// Returns the number of bytes after the final byte `last` that belong to `sequence`: 3 in xterm's
/// old mouse report `ESC [ M`, 1 in a function key `ESC [ [` of the Linux console.
#[tactic(auto, unfolding(crate::specs::Sequences::trailing_bytes))]
pub(crate) fn trailing_bytes(sequence: Sequence, last: u8) -> u8
    ensures { result ≡ trailing_bytes sequence last }
{
    if !is_blank(sequence) {
        0
    } else if last == b'M' {
        3
    } else if last == b'[' {
        1
    } else {
        0
    }
}

/// Returns the token of `sequence` with the final byte `last`.
#[tactic(auto, unfolding(crate::specs::Sequences::token_of))]
pub(crate) fn token_of(sequence: Sequence, last: u8) -> Token
    ensures { result ≡ token_of sequence last }
{
    match sequence.kind {
        SequenceKind::Csi => key_token(sequence, last),
        SequenceKind::Ss3 => lettered_token(KeyModifiers::CONTROL, sequence, last),
        SequenceKind::Mouse => mouse_token(sequence, last),
        SequenceKind::Unknown => Token::UNRECOGNIZED,
    }
}

/// Returns the token of the mouse report `sequence`: button, column and row, then `M` or `m`.
fn mouse_token(sequence: Sequence, last: u8) -> Token
    ensures { result ≡ mouse_token sequence last }
{
    if sequence.semicolons == 2 && (last == b'M' || last == b'm') {
        Token::Event(mouse_event(last == b'M', sequence.first, sequence.second, sequence.last))
    } else {
        Token::UNRECOGNIZED
    }
}

/// Returns the token of the control sequence `sequence` with the final byte `last`.
fn key_token(sequence: Sequence, last: u8) -> Token
    ensures { result ≡ key_token sequence last }
{
    match last {
        b'~' => tilde_token(sequence),
        b'^' => control_numbered_token(sequence),
        b'u' => typed_token(sequence),
        b'M' => old_mouse_token(sequence),
        _ => lettered_token(KeyModifiers::SHIFT, sequence, last),
    }
}

/// Returns the token of the control sequence `sequence` with the final byte `~`: a mark of a
/// bracketed paste, a numbered key, or a typed key in xterm's form `27 ; modifiers ; code`.
fn tilde_token(sequence: Sequence) -> Token
    ensures { result ≡ tilde_token sequence }
{
    if is_mark(sequence, 200) {
        Token::PasteBegins
    } else if is_mark(sequence, 201) {
        Token::PasteEnds
    } else if sequence.semicolons < 2 {
        key_with(key_modifiers(sequence), numbered_key(key_number(sequence)))
    } else if sequence.first == OTHER_KEY {
        typed_key(modifiers_of(sequence.second), sequence.last)
    } else {
        Token::UNRECOGNIZED
    }
}

/// Returns the token of rxvt's numbered key with control: `sequence` has the number of the key
/// alone, and its final byte is `^`.
fn control_numbered_token(sequence: Sequence) -> Token
    ensures { result ≡ control_numbered_token sequence }
{
    if sequence.semicolons == 0 {
        key_with(KeyModifiers::CONTROL, numbered_key(sequence.last))
    } else {
        Token::UNRECOGNIZED
    }
}

/// Returns the token of the typed key `code ; modifiers u`.
fn typed_token(sequence: Sequence) -> Token
    ensures { result ≡ typed_token sequence }
{
    if sequence.semicolons < 2 {
        typed_key(key_modifiers(sequence), key_number(sequence))
    } else {
        Token::UNRECOGNIZED
    }
}

/// Returns the token of a mouse report in rxvt's form `button ; column ; row M`. The button is 32
/// more than in xterm's SGR form.
fn old_mouse_token(sequence: Sequence) -> Token
    ensures { result ≡ old_mouse_token sequence }
{
    if sequence.semicolons == 2 && 32 <= sequence.first {
        Token::Event(mouse_event(true, sequence.first - 32, sequence.second, sequence.last))
    } else {
        Token::UNRECOGNIZED
    }
}

/// Returns whether the parameter bytes of `sequence` are the three digits of `number`.
fn is_mark(sequence: Sequence, number: u16) -> bool
    ensures { result ≡ is_mark sequence number }
{
    // `&`: one branch for the prover
    (sequence.bytes == 3) & (sequence.semicolons == 0) & (sequence.last == number)
}

/// Returns the parameter of `sequence` that is the number of the key.
fn key_number(sequence: Sequence) -> u16
    ensures { result ≡ key_number sequence }
{
    if sequence.semicolons == 0 {
        sequence.last
    } else {
        sequence.second
    }
}

/// Returns the modifiers of `sequence`: those of its second parameter, or none without one.
fn key_modifiers(sequence: Sequence) -> KeyModifiers
    ensures { result ≡ key_modifiers sequence }
{
    if sequence.semicolons == 0 {
        KeyModifiers::NONE
    } else {
        modifiers_of(sequence.last)
    }
}

/// Returns the modifiers of the parameter `number`. As in xterm, it is 1 plus 1 for shift, 2 for
/// alt, 4 for control, and 8 or more for others; 0 is none.
fn modifiers_of(number: u16) -> KeyModifiers
    ensures { result ≡ modifiers_of number }
{
    if number == 0 {
        KeyModifiers::NONE
    } else {
        let bits = number - 1;
        KeyModifiers {
            shift: has_bit(1, bits),
            control: has_bit(4, bits),
            alt: has_bit(2, bits),
            other: 8 <= bits,
        }
    }
}

/// Returns the token of a lettered key: an arrow (`A` to `D`), Home (`H`) or End (`F`) with the
/// modifiers of the last parameter, or one of rxvt's arrows (`a` to `d`) with the modifiers `held`.
fn lettered_token(held: KeyModifiers, sequence: Sequence, last: u8) -> Token
    ensures { result ≡ lettered_token held sequence last }
{
    if is_between(b'a', b'd', last) {
        if sequence.bytes == 0 {
            key_with(held, lettered_key(last - 32))
        } else {
            Token::UNRECOGNIZED
        }
    } else if sequence.semicolons < 2 && sequence.second <= 1 {
        key_with(modifiers_of(sequence.last), lettered_key(last))
    } else {
        Token::UNRECOGNIZED
    }
}

/// Returns the arrow of the letter `last`, Home or End, if any.
fn lettered_key(last: u8) -> Option<KeyCode>
    ensures { result ≡ lettered_key last }
{
    match last {
        b'A' => Some(KeyCode::Up),
        b'B' => Some(KeyCode::Down),
        b'C' => Some(KeyCode::Right),
        b'D' => Some(KeyCode::Left),
        b'H' => Some(KeyCode::Home),
        b'F' => Some(KeyCode::End),
        _ => None,
    }
}

/// Returns the key of the parameter `number`, if any: Home, End, Page Up or Page Down. The older
/// terminals disagree about the numbers of Home and End, so each has two.
fn numbered_key(number: u16) -> Option<KeyCode>
    ensures { result ≡ numbered_key number }
{
    match number {
        1 | 7 => Some(KeyCode::Home),
        4 | 8 => Some(KeyCode::End),
        5 => Some(KeyCode::PageUp),
        6 => Some(KeyCode::PageDown),
        _ => None,
    }
}

/// Returns the token of `key` with `modifiers`, or of no key.
fn key_with(modifiers: KeyModifiers, key: Option<KeyCode>) -> Token
    ensures { result ≡ key_with modifiers key }
{
    match key {
        Some(code) => Token::Event(TerminalEvent::Key(KeyEvent {
            code,
            modifiers,
            kind: KeyEventKind::Press,
        })),
        None => Token::UNRECOGNIZED,
    }
}

/// Returns the token of the key that types the character `code`, with `modifiers`: Esc, Tab, Enter
/// or printable ASCII.
fn typed_key(modifiers: KeyModifiers, code: u16) -> Token
    ensures { result ≡ typed_key modifiers code }
{
    match code {
        27 => key_with(modifiers, Some(KeyCode::Esc)),
        9 | 13 => key_with(modifiers, Some(code_of(code as u8))),
        32..=126 => printable_key(modifiers, capital(modifiers.shift, code as u8)),
        _ => Token::UNRECOGNIZED,
    }
}

/// Returns the capital letter if `byte` is a small letter and `is_shift`, and otherwise `byte`.
fn capital(is_shift: bool, byte: u8) -> u8
    requires { byte < 128 }
    ensures { result ≡ capital is_shift byte }
{
    if is_shift && is_between(b'a', b'z', byte) {
        byte - 32
    } else {
        byte
    }
}

/// Returns the token of the key of `byte`, with `modifiers`. As when the byte itself is typed, a
/// capital letter has shift, and other characters have none.
fn printable_key(modifiers: KeyModifiers, byte: u8) -> Token
    ensures { result ≡ printable_key modifiers byte }
{
    let shift = is_between(b'A', b'Z', byte);
    key_with(KeyModifiers { shift, ..modifiers }, Some(code_of(byte)))
}
