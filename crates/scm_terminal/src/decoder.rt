//! The decoder: turns the bytes of a terminal into key and mouse events.
ghost use Rattle.std.specs.Prelude.{◌≡◌};
ghost use Rattle.scm_terminal.specs.Decoders.{burst_after};

use crate::bytes::INTERRUPT;
use crate::tokenizer::Tokenizer;
use crate::transitions::{ESCAPE_EVENT, SilenceEffect, State, effect_of_silence};
use scm_input::{KeyCode, KeyEvent, KeyEventKind, KeyModifiers, TerminalEvent};
use std::alloc::{AllocError, Global};

/// The events of one byte, two at most. A byte that cannot continue a token ends it, and is
/// decoded again as the first byte of the next token.
///
/// After `ESC [ 1 ;` the byte 3 has two events: `Other` for the broken sequence, and the key
/// Ctrl+C.
#[derive(Clone, Copy, Debug, PartialEq, Eq)]
pub struct EventPair {
    /// The first event of the byte, if any.
    pub first: Option<TerminalEvent>,
    /// The second event of the byte, if any.
    pub second: Option<TerminalEvent>,
}

impl EventPair {
    ghost use Rattle.std.specs.Prelude.{◌≡◌, ◌++◌, OnOk, OnErr};
    ghost use Rattle.scm_terminal.specs.Decoders.{IsFront, events_of};

    /// Appends the events to `events`.
    ///
    /// # Errors
    /// `AllocError`: an allocation failed; some of the events may have been appended.
    fn add_to(self, events: &mut Vec<TerminalEvent>) -> Result<(), AllocError>
        ensures ok { OnOk result (events.new.items ≡ events.old.items ++ events_of self) }
        ensures err { OnErr result (IsFront events.old.items events.new.items) }
    {
        if let Some(event) = self.first {
            events.push(event)?;
        }
        if let Some(event) = self.second {
            events.push(event)?;
        }
        Ok(())
    }
}

/// The key Ctrl-C.
const INTERRUPT_EVENT: TerminalEvent = TerminalEvent::Key(KeyEvent {
    code: KeyCode::Char('c'),
    modifiers: KeyModifiers::CONTROL,
    kind: KeyEventKind::Press,
});

/// The bytes since the last silence of the terminal.
#[derive(Clone, Copy)]
pub enum Burst {
    /// No byte.
    Empty,
    /// The byte of Ctrl-C alone.
    Interrupt,
    /// Any other bytes.
    Other,
}

/// Returns the burst `burst` with `byte` after it.
fn burst_after(burst: Burst, byte: u8) -> Burst
    ensures { result ≡ burst_after burst byte }
{
    match burst {
        Burst::Empty => {
            if byte == INTERRUPT {
                Burst::Interrupt
            } else {
                Burst::Other
            }
        }
        Burst::Interrupt | Burst::Other => Burst::Other,
    }
}

/// A decoder of the bytes that a terminal sends, which may come in pieces of any length. Its size
/// is fixed, however long an escape sequence is.
///
/// The bytes `ESC [ A` are the Up key. A lone `ESC` is the Esc key, once `idle` reports a silence.
/// If `[ A` comes after that silence, it is still the Up key, and `A` is not.
#[derive(Clone, Copy)]
pub struct Decoder {
    /// The unfinished token.
    tokenizer: Tokenizer,
    /// The bytes since the last silence.
    burst: Burst,
}

impl Decoder {
    ghost use Rattle.std.specs.Prelude.{◌≡◌, ◌++◌, ◌∷◌, [], ℕ, List, false, IfOk, OnOk, OnErr};
    ghost use Rattle.scm_terminal.specs.Silences.{Start};
    ghost use Rattle.scm_terminal.specs.Decoders.{
      Adds,
      HasHeard,
      HasRead,
      Hears,
      IsFront,
      Rests,
      events_of,
    };

    /// Makes a decoder that has read no bytes.
    #[tactic(auto, unfolding(crate::specs::Decoders::HasRead))]
    pub fn new() -> Decoder
        ensures { HasHeard result false [] }
    {
        Decoder {
            tokenizer: Tokenizer::new(),
            burst: Burst::Empty,
        }
    }

    /// Decodes `byte`, and returns the events that it completes.
    pub fn push(&mut self, byte: u8) -> EventPair
        ensures { (start : Start) (bytes : List ℕ) → HasRead self.old start bytes
            → Hears self.new (byte ∷ []) (events_of result) start bytes }
    {
        self.burst = burst_after(self.burst, byte);
        self.tokenizer.step(byte)
    }

    /// Decodes `bytes`, and appends the events that they complete to `events`.
    ///
    /// # Errors
    /// `AllocError`: an allocation failed; the decoder and `events` are unchanged.
    pub fn feed(&mut self, bytes: &[u8], events: &mut Vec<TerminalEvent>) -> Result<(), AllocError>
        ensures ok { OnOk result
            (Adds self.old self.new bytes.now events.old.items events.new.items) }
        ensures err { OnErr result ((self.new ≡ self.old) × (events.new.items ≡ events.old.items)) }
    {
        let count = events.len();
        let mut decoder = *self;
        match decoder.add(bytes, events) {
            Ok(()) => {
                *self = decoder;
                Ok(())
            }
            Err(refused) => {
                events.truncate(count);
                Err(refused)
            }
        }
    }

    /// Decodes `bytes`, and returns the events that they complete.
    ///
    /// # Errors
    /// `AllocError`: an allocation failed; the decoder is unchanged.
    pub fn decode(&mut self, alloc: Global, bytes: &[u8]) -> Result<Vec<TerminalEvent>, AllocError>
        ensures ok { IfOk result (λ found. Adds self.old self.new bytes.now [] found.items) }
        ensures err { OnErr result (self.new ≡ self.old) }
    {
        let mut found = Vec::new(alloc);
        self.feed(bytes, &mut found)?;
        Ok(found)
    }

    /// Decodes `bytes`, and appends the events that they complete to `events`.
    ///
    /// # Errors
    /// `AllocError`: an allocation failed; some of the events may have been appended.
    fn add(&mut self, bytes: &[u8], events: &mut Vec<TerminalEvent>) -> Result<(), AllocError>
        ensures ok { OnOk result
            (Adds self.old self.new bytes.now events.old.items events.new.items) }
        ensures err { OnErr result (IsFront events.old.items events.new.items) }
    {
        for byte in bytes {
            self.push(*byte).add_to(events)?;
        }
        Ok(())
    }

    /// Handles a silence of the terminal, and returns the event that it completes, if any.
    ///
    /// - A lone escape is the Esc key. If `[` or `O` comes next, it continues that escape's
    ///   sequence.
    /// - An escape with a byte that begins a control string is `Other`.
    /// - Any other unfinished token stays unfinished.
    ///
    /// Within a bracketed paste, a byte 3 with silences around it ends the paste, and is the key
    /// Ctrl-C: the paste's end mark may be lost. Any other silence within a paste is a no-op.
    pub fn idle(&mut self) -> Option<TerminalEvent>
        ensures { (start : Start) (bytes : List ℕ) → HasRead self.old start bytes
            → Rests self.new result start bytes }
    {
        let burst = self.burst;
        self.burst = Burst::Empty;
        if self.tokenizer.is_pasted {
            match burst {
                Burst::Interrupt => {
                    self.tokenizer = Tokenizer::new();
                    Some(INTERRUPT_EVENT)
                }
                Burst::Empty | Burst::Other => None,
            }
        } else {
            match effect_of_silence(self.tokenizer.state) {
                SilenceEffect::Keep => None,
                SilenceEffect::EndEscape => {
                    self.tokenizer.state = State::EndedEscape;
                    Some(ESCAPE_EVENT)
                }
                SilenceEffect::Drop => {
                    self.tokenizer.state = State::Ground;
                    Some(TerminalEvent::Other)
                }
            }
        }
    }
}
