//! Keys that a terminal sends as one byte: printable ASCII, C0 controls and DEL.
ghost use Rattle.std.specs.Prelude.{◌≡◌, ◌<◌};
ghost use Rattle.scm_terminal.specs.ByteKeys.{code_of, is_with_control, byte_key};

use crate::bytes::{SPACE, is_between};
use scm_input::{KeyCode, KeyEvent, KeyEventKind, KeyModifiers};

/// The byte of Backspace on some terminals; others send DEL, 127.
const BACKSPACE: u8 = 8;

/// Returns the key event of `byte`, which is below 128. `alt` is whether an escape preceded it. As
/// in `crossterm`, a capital letter has shift.
#[tactic(auto, unfolding(crate::specs::ByteKeys::byte_key))]
pub(crate) fn byte_key(alt: bool, byte: u8) -> KeyEvent
    ensures { result ≡ byte_key alt byte }
{
    KeyEvent {
        code: code_of(byte),
        modifiers: KeyModifiers {
            shift: is_between(b'A', b'Z', byte),
            control: is_with_control(byte),
            alt,
            other: false,
        },
        kind: KeyEventKind::Press,
    }
}

/// Returns the key code of `byte`. `H` and `L` are the small letters, as the key table names them
/// with shift. A C0 control from 1 to 26 is the letter that is typed with control, except for Tab,
/// Enter and Backspace.
pub(crate) fn code_of(byte: u8) -> KeyCode
    ensures { result ≡ code_of byte }
{
    if byte == b'\r' {
        KeyCode::Enter
    } else if byte == b'\t' {
        KeyCode::Char('\t')
    } else if byte == b'H' || byte == b'L' {
        KeyCode::Char((byte + 32) as char)
    } else if is_between(b' ', b'~', byte) {
        KeyCode::Char(byte as char)
    } else if byte == BACKSPACE {
        KeyCode::Other
    } else if is_between(1, 26, byte) {
        KeyCode::Char((byte + 96) as char)
    } else {
        KeyCode::Other
    }
}

/// Returns whether `byte` is a key typed with control: any C0 control but Backspace, Tab and
/// Enter.
fn is_with_control(byte: u8) -> bool
    ensures { result ≡ is_with_control byte }
{
    byte < SPACE && byte != BACKSPACE && byte != b'\t' && byte != b'\r'
}
