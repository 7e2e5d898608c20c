//! Characters of several bytes, decoded from UTF-8 byte by byte.
ghost use Rattle.std.specs.Prelude.{◌≡◌};
ghost use Rattle.scm_terminal.specs.Characters.{char_token, with_continuation, lead_character};

use crate::tokens::Token;
use scm_input::{KeyCode, KeyEvent, KeyEventKind, KeyModifiers, TerminalEvent};

/// The unfinished character of a lead byte and the continuation bytes so far.
#[derive(Clone, Copy)]
pub struct Character {
    /// Whether an escape preceded the character: it is typed with alt.
    pub alt: bool,
    /// The number of continuation bytes that are missing.
    pub left: u8,
    /// The least code point that needs this number of bytes: a lesser one is overlong.
    pub least: u32,
    /// The bits of the code point so far.
    pub bits: u16,
}

/// The outcome of one more continuation byte.
#[derive(Clone, Copy)]
pub enum CharacterProgress {
    /// The token of a complete character, or of an ill-formed one.
    Whole(Token),
    /// A character of which more bytes are missing.
    Part(Character),
}

/// Returns the unfinished character of the lead byte `byte`, which is at least 128. Returns `None`
/// if `byte` is no lead byte. `alt` is whether an escape preceded it.
#[tactic(auto, unfolding(crate::specs::Characters::lead_character))]
pub(crate) fn lead_character(alt: bool, byte: u8) -> Option<Character>
    ensures { result ≡ lead_character alt byte }
{
    if byte < 192 {
        None
    } else if byte < 224 {
        Some(Character {
            alt,
            left: 1,
            least: 128,
            bits: (byte - 192) as u16,
        })
    } else if byte < 240 {
        Some(Character {
            alt,
            left: 2,
            least: 2048,
            bits: (byte - 224) as u16,
        })
    } else if byte < 248 {
        Some(Character {
            alt,
            left: 3,
            least: 65536,
            bits: (byte - 240) as u16,
        })
    } else {
        None
    }
}

/// Adds the six bits of the continuation byte `byte` to `character`, and ends the character if
/// that was its last byte.
#[tactic(auto, unfolding(crate::specs::Characters::with_continuation))]
pub(crate) fn with_continuation(character: Character, byte: u8) -> CharacterProgress
    ensures { result ≡ with_continuation character byte }
{
    let bits = character.bits as u32 * 64 + (byte % 64) as u32;
    if character.left <= 1 {
        CharacterProgress::Whole(char_token(character.alt, character.least, bits))
    } else if bits <= 65535 {
        CharacterProgress::Part(Character {
            alt: character.alt,
            left: character.left - 1,
            least: character.least,
            bits: bits as u16,
        })
    } else {
        CharacterProgress::Whole(Token::UNRECOGNIZED)
    }
}

/// Returns the token of the code point `code`. It is unrecognized if `code` is no character or
/// below `least`.
fn char_token(alt: bool, least: u32, code: u32) -> Token
    ensures { result ≡ char_token alt least code }
{
    match char::from_u32(code) {
        Some(character) if least <= code => Token::Event(TerminalEvent::Key(KeyEvent {
            code: KeyCode::Char(character),
            modifiers: KeyModifiers {
                shift: false,
                control: false,
                alt,
                other: false,
            },
            kind: KeyEventKind::Press,
        })),
        _ => Token::UNRECOGNIZED,
    }
}
