//! The tokenizer: finds the ends of tokens byte by byte, and returns their events.
ghost use Rattle.std.specs.Prelude.{◌≡◌};
ghost use Rattle.scm_terminal.specs.Streams.{pasted_after, token_event};
ghost use Rattle.scm_terminal.specs.Transitions.{ground_transition};
ghost use Rattle.scm_terminal.specs.Decoders.{new_tokenizer, step, step_retry, tokenizer};

use crate::decoder::EventPair;
use crate::tokens::Token;
use crate::transitions::{State, Transition, ground_transition, transition_of};
use scm_input::TerminalEvent;

/// The unfinished token, and whether it is part of a bracketed paste.
#[derive(Clone, Copy)]
pub struct Tokenizer {
    /// Whether the next byte is part of a bracketed paste.
    pub(crate) is_pasted: bool,
    /// The state of the unfinished token.
    pub(crate) state: State,
}

impl Tokenizer {
    /// Makes a tokenizer that has read no bytes.
    pub(crate) fn new() -> Tokenizer
        ensures { result ≡ new_tokenizer }
    {
        Tokenizer {
            is_pasted: false,
            state: State::Ground,
        }
    }

    /// Decodes `byte` by its transition, and returns its events.
    #[tactic(auto, unfolding(crate::specs::Decoders::step))]
    pub(crate) fn step(&mut self, byte: u8) -> EventPair
        ensures events { result ≡ (step self.old byte).events }
        ensures tokenizer { self.new ≡ (step self.old byte).tokenizer }
    {
        match transition_of(self.state, byte) {
            Transition::Continue(state) => {
                self.state = state;
                EventPair {
                    first: None,
                    second: None,
                }
            }
            Transition::Emit(token) => {
                let event = self.emit(token);
                EventPair {
                    first: Some(event),
                    second: None,
                }
            }
            Transition::EmitAndRetry(token) => {
                let event = self.emit(token);
                self.retry(event, byte)
            }
        }
    }

    /// Decodes `byte` as the first byte of a token, and returns `event` and its event, if any.
    fn retry(&mut self, event: TerminalEvent, byte: u8) -> EventPair
        ensures events { let after = step_retry event self.old.is_pasted (ground_transition byte) in
            result ≡ after.events }
        ensures tokenizer { let after = step_retry event self.old.is_pasted
            (ground_transition byte) in self.new ≡ after.tokenizer }
    {
        match ground_transition(byte) {
            Transition::Continue(state) => {
                self.state = state;
                EventPair {
                    first: Some(event),
                    second: None,
                }
            }
            Transition::Emit(token) | Transition::EmitAndRetry(token) => {
                let next = self.emit(token);
                EventPair {
                    first: Some(event),
                    second: Some(next),
                }
            }
        }
    }

    /// Ends `token`, and returns its event. Within a bracketed paste that is `Other`.
    fn emit(&mut self, token: Token) -> TerminalEvent
        ensures event { result ≡ token_event self.old.is_pasted token }
        ensures tokenizer { self.new
            ≡ tokenizer (pasted_after self.old.is_pasted token) State.Ground }
    {
        self.state = State::Ground;
        match token {
            Token::Event(event) => {
                if self.is_pasted {
                    TerminalEvent::Other
                } else {
                    event
                }
            }
            Token::PasteBegins => {
                self.is_pasted = true;
                TerminalEvent::Other
            }
            Token::PasteEnds => {
                self.is_pasted = false;
                TerminalEvent::Other
            }
        }
    }
}
