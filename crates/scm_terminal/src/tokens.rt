//! Tokens: the meaning of the bytes of one key, character, escape sequence or control string.
use scm_input::TerminalEvent;

/// The meaning of one token.
#[derive(Clone, Copy)]
pub enum Token {
    /// A key or mouse event.
    Event(TerminalEvent),
    /// The start mark of a bracketed paste, `ESC [ 200 ~`.
    PasteBegins,
    /// The end mark of a bracketed paste, `ESC [ 201 ~`.
    PasteEnds,
}

impl Token {
    /// The token of bytes that are not recognized: the event `Other`.
    pub(crate) const UNRECOGNIZED: Token = Token::Event(TerminalEvent::Other);
}
