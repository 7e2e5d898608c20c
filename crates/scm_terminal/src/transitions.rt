//! The state machine of the decoder: the state of an unfinished token, and its transition at each
//! byte. They follow the syntax of ECMA-48 and of UTF-8.
ghost use Rattle.std.specs.Prelude.{◌≡◌};
ghost use Rattle.scm_terminal.specs.Transitions.{
  trailing_transition,
  character_transition,
  final_transition,
  effect_of_silence,
  ended_escape_transition,
  escape_transition,
  ground_transition,
  progress_transition,
  lead_transition,
  transition_of,
  sequence_transition,
  start_transition,
  control_string_transition,
};

use crate::byte_keys::byte_key;
use crate::bytes::{
    ESCAPE, SPACE, begins_control_string, begins_sequence, is_continuation, is_final, is_parameter,
};
use crate::characters::{Character, CharacterProgress, lead_character, with_continuation};
use crate::sequences::{
    Sequence, SequenceKind, new_sequence, token_of, trailing_bytes, with_parameter,
};
use crate::tokens::Token;
use scm_input::{KeyCode, KeyEvent, KeyEventKind, KeyModifiers, TerminalEvent};

/// The bell, which ends a control string.
const BELL: u8 = 7;

/// The state of an unfinished token.
#[derive(Clone, Copy)]
pub enum State {
    /// Between tokens.
    Ground,
    /// After an escape.
    Escape,
    /// After an escape that a silence has made the Esc key.
    EndedEscape,
    /// After the two bytes that begin a control string.
    StringBegun,
    /// Within an escape sequence: its parameters so far.
    Sequence(Sequence),
    /// After the final byte of a sequence: the number of its bytes that are missing.
    Trailing(u8),
    /// Within a character of several bytes.
    Character(Character),
    /// Within a control string.
    ControlString,
}

/// The effect of one byte on the state.
#[derive(Clone, Copy)]
pub enum Transition {
    /// The token is still unfinished, in this state.
    Continue(State),
    /// The token ends with this byte.
    Emit(Token),
    /// The token ended before this byte, which begins the next token.
    EmitAndRetry(Token),
}

/// The effect of a silence of the terminal on the unfinished token.
#[derive(Clone, Copy)]
pub enum SilenceEffect {
    /// The token stays unfinished.
    Keep,
    /// The token is the Esc key. The rest of its sequence may still come.
    EndEscape,
    /// The token is a key that is not recognized.
    Drop,
}

/// The Esc key.
pub(crate) const ESCAPE_EVENT: TerminalEvent = TerminalEvent::Key(KeyEvent {
    code: KeyCode::Esc,
    modifiers: KeyModifiers::NONE,
    kind: KeyEventKind::Press,
});

/// The token of the Esc key.
const ESCAPE_KEY: Token = Token::Event(ESCAPE_EVENT);

/// Returns the transition of `byte` in `state`.
#[tactic(auto, unfolding(crate::specs::Transitions::transition_of))]
pub(crate) fn transition_of(state: State, byte: u8) -> Transition
    ensures { result ≡ transition_of state byte }
{
    match state {
        State::Ground => ground_transition(byte),
        State::Escape => escape_transition(byte),
        State::EndedEscape => ended_escape_transition(byte),
        State::Sequence(sequence) => sequence_transition(sequence, byte),
        State::Trailing(left) => trailing_transition(left, byte),
        State::Character(character) => character_transition(character, byte),
        State::StringBegun | State::ControlString => control_string_transition(byte),
    }
}

/// Returns the transition of `byte` between tokens.
pub(crate) fn ground_transition(byte: u8) -> Transition
    ensures { result ≡ ground_transition byte }
{
    if byte == ESCAPE {
        Transition::Continue(State::Escape)
    } else {
        start_transition(false, byte)
    }
}

/// Returns the transition of the first byte of a key or character, which is no escape. `alt` is
/// whether an escape preceded it.
fn start_transition(alt: bool, byte: u8) -> Transition
    ensures { result ≡ start_transition alt byte }
{
    if byte < 128 {
        Transition::Emit(Token::Event(TerminalEvent::Key(byte_key(alt, byte))))
    } else {
        lead_transition(lead_character(alt, byte))
    }
}

/// Returns the transition of a lead byte: its unfinished character, or unrecognized if `None`.
fn lead_transition(character: Option<Character>) -> Transition
    ensures { result ≡ lead_transition character }
{
    match character {
        Some(character) => Transition::Continue(State::Character(character)),
        None => Transition::Emit(Token::UNRECOGNIZED),
    }
}

/// Returns the transition of `byte` after an escape.
fn escape_transition(byte: u8) -> Transition
    ensures { result ≡ escape_transition byte }
{
    if byte == ESCAPE {
        Transition::EmitAndRetry(ESCAPE_KEY)
    } else if byte == b'[' {
        Transition::Continue(State::Sequence(new_sequence(SequenceKind::Csi)))
    } else if byte == b'O' {
        Transition::Continue(State::Sequence(new_sequence(SequenceKind::Ss3)))
    } else if byte == b'\\' {
        Transition::Emit(Token::UNRECOGNIZED)
    } else if begins_control_string(byte) {
        Transition::Continue(State::StringBegun)
    } else {
        start_transition(true, byte)
    }
}

/// Returns the transition of `byte` after an escape that a silence has made the Esc key: `[` or `O`
/// continues the escape's sequence, and any other byte begins a token.
fn ended_escape_transition(byte: u8) -> Transition
    ensures { result ≡ ended_escape_transition byte }
{
    if begins_sequence(byte) {
        escape_transition(byte)
    } else {
        ground_transition(byte)
    }
}

/// Returns the transition of `byte` within `sequence`.
fn sequence_transition(sequence: Sequence, byte: u8) -> Transition
    ensures { result ≡ sequence_transition sequence byte }
{
    if is_parameter(byte) {
        Transition::Continue(State::Sequence(with_parameter(sequence, byte)))
    } else if is_final(byte) {
        final_transition(sequence, byte)
    } else {
        Transition::EmitAndRetry(Token::UNRECOGNIZED)
    }
}

/// Returns the transition of the final byte `byte` of `sequence`.
fn final_transition(sequence: Sequence, byte: u8) -> Transition
    ensures { result ≡ final_transition sequence byte }
{
    let left = trailing_bytes(sequence, byte);
    if left == 0 {
        Transition::Emit(token_of(sequence, byte))
    } else {
        Transition::Continue(State::Trailing(left))
    }
}

/// Returns the transition of `byte` after a final byte, where `left` bytes are missing.
fn trailing_transition(left: u8, byte: u8) -> Transition
    ensures { result ≡ trailing_transition left byte }
{
    if byte < SPACE {
        Transition::EmitAndRetry(Token::UNRECOGNIZED)
    } else if left <= 1 {
        Transition::Emit(Token::UNRECOGNIZED)
    } else {
        Transition::Continue(State::Trailing(left - 1))
    }
}

/// Returns the transition of `byte` within `character`.
fn character_transition(character: Character, byte: u8) -> Transition
    ensures { result ≡ character_transition character byte }
{
    if is_continuation(byte) {
        progress_transition(with_continuation(character, byte))
    } else {
        Transition::EmitAndRetry(Token::UNRECOGNIZED)
    }
}

/// Returns the transition of a continuation byte with the outcome `progress`.
fn progress_transition(progress: CharacterProgress) -> Transition
    ensures { result ≡ progress_transition progress }
{
    match progress {
        CharacterProgress::Whole(token) => Transition::Emit(token),
        CharacterProgress::Part(character) => Transition::Continue(State::Character(character)),
    }
}

/// Returns the transition of `byte` within a control string. A bell ends it, as in xterm. Any other
/// C0 control ends it before that byte.
fn control_string_transition(byte: u8) -> Transition
    ensures { result ≡ control_string_transition byte }
{
    if byte == BELL {
        Transition::Emit(Token::UNRECOGNIZED)
    } else if byte < SPACE {
        Transition::EmitAndRetry(Token::UNRECOGNIZED)
    } else {
        Transition::Continue(State::ControlString)
    }
}

/// Returns the effect of a silence on the unfinished token in `state`.
pub(crate) fn effect_of_silence(state: State) -> SilenceEffect
    ensures { result ≡ effect_of_silence state }
{
    match state {
        State::Escape => SilenceEffect::EndEscape,
        State::StringBegun => SilenceEffect::Drop,
        State::Ground
        | State::EndedEscape
        | State::Sequence(_)
        | State::Trailing(_)
        | State::Character(_)
        | State::ControlString => SilenceEffect::Keep,
    }
}
