//! The events of words that are handed in as one batch.
ghost use Rattle.std.specs.Prelude.{◌≡◌, ℕ, ◌<◌, [], ◌∷◌, IfErr, IfNone, IfOk, IfSome, Some, length, true};
ghost use Rattle.scm_c_values.specs.Codes.{IsCode, code_of_words};
ghost use Rattle.scm_c_values.specs.Pieces.{Adds, events_of_bytes, events_of_piece, events_of_pieces, pieces_of};

use crate::codes;
use scm_record::Event;
use scm_script::read_event;
use std::alloc::{AllocError, Global};

/// Returns the first piece of `words`, which ends at a space, and the text after that space. Returns `None` if there is no
/// space.
pub fn split_piece(words: &str) -> Option<(&str, &str)>
    ensures none { IfNone result (pieces_of words.now ≡ words.now ∷ []) }
    ensures some { IfSome result (λ parts.
        pieces_of words.now ≡ parts.0.now ∷ pieces_of parts.1.now) }
    ensures shorter { IfSome result (λ parts. length parts.1.now < length words.now) }
{
    words.split_once(' ')
}

/// Adds the event of `piece` to `events`, if `piece` is not empty. Returns whether it is empty or the word of an event.
fn push_piece(events: &mut Vec<Event>, piece: &str) -> Result<bool, AllocError>
    ensures { IfOk result (λ is_known.
        Adds (events_of_piece piece.now) events.old.items events.new.items is_known) }
{
    if piece.is_empty() {
        return Ok(true);
    }
    match read_event(piece) {
        Some(event) => {
            events.push(event)?;
            Ok(true)
        }
        None => Ok(false),
    }
}

/// Adds the events of `words` to `events`. Returns whether each word has one.
fn push_words(events: &mut Vec<Event>, words: &str) -> Result<bool, AllocError>
    ensures { IfOk result (λ is_known.
        Adds (events_of_pieces (pieces_of words.now)) events.old.items events.new.items is_known) }
{
    let mut rest = words;
    'cuts: while let Some((piece, after)) = split_piece(rest) {
        if !push_piece(events, piece)? {
            return Ok(false);
        }
        rest = after;
    }
    push_piece(events, rest)
}

/// Returns the events of `words`, which are separated by spaces.
///
/// # Errors
/// The code of the failure: `NO_WORD` or `NO_MEMORY`.
pub fn events_of(alloc: Global, words: &[u8]) -> Result<Vec<Event>, u32>
    ensures ok { IfOk result (λ events. events_of_bytes words.now ≡ Some events.items) }
    ensures err { IfErr result (λ code. (otherwise : ℕ)
        → IsCode true (code_of_words (events_of_bytes words.now) otherwise) code) }
    ensures refused { IfErr result (λ code. 0 < code) }
{
    let Ok(words) = str::from_utf8(words) else {
        return Err(codes::NO_WORD);
    };
    let mut events = Vec::new(alloc);
    let Ok(is_known) = push_words(&mut events, words) else {
        return Err(codes::NO_MEMORY);
    };
    if is_known {
        Ok(events)
    } else {
        Err(codes::NO_WORD)
    }
}
