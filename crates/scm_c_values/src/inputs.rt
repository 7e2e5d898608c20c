//! What a caller hands in as bytes: the word of an event, and a message.
ghost use Rattle.std.specs.Prelude.{◌≡◌, ℕ, ◌<◌, IfErr, IfOk, IsTrue, string_bytes};
ghost use Rattle.scm_c_values.specs.Codes.{IsCode, code_of_message, is_message};
ghost use Rattle.scm_c_values.specs.Pieces.{event_of_bytes};

use crate::codes;
use scm_record::{Event, RecordState};
use scm_script::read_event;
use std::alloc::Global;

/// Returns the event of a script's word, or `None` if the bytes are not such a word.
pub fn event_of(word: &[u8]) -> Option<Event>
    ensures { result ≡ event_of_bytes word.now }
{
    match str::from_utf8(word) {
        Ok(word) => read_event(word),
        Err(_) => None,
    }
}

/// Returns `text` as a message.
///
/// # Errors
/// The code of the failure: `TOO_LONG`, `NOT_TEXT` or `NO_MEMORY`.
pub fn message_of(alloc: Global, text: &[u8]) -> Result<String, u32>
    ensures ok { IfOk result (λ message. string_bytes message ≡ text.now) }
    ensures good { IfOk result (λ message. IsTrue (is_message text.now)) }
    ensures err { IfErr result (λ code. (otherwise : ℕ)
        → IsCode (is_message text.now) (code_of_message text.now otherwise) code) }
    ensures refused { IfErr result (λ code. 0 < code) }
{
    if text.len() > RecordState::MAX_TEXT {
        return Err(codes::TOO_LONG);
    }
    let Ok(text) = str::from_utf8(text) else {
        return Err(codes::NOT_TEXT);
    };
    let Ok(message) = String::from_str(alloc, text) else {
        return Err(codes::NO_MEMORY);
    };
    Ok(message)
}
