//! Calls that tell how many events of a batch were handled. `include/gabrosty.h` documents each function.
ghost use Rattle.std.specs.Prelude.{◌≡◌, ◌<◌, true};
ghost use Rattle.scm_c_values.specs.Codes.{IsCode, code_of_message, is_message};
ghost use Rattle.scm_c_values.specs.Pieces.{events_of_bytes};
ghost use Rattle.scm_open_session.specs.Counting.{HandsInAndCounts, SaysAndCounts, code_of_counted, is_plain_editing};
ghost use Rattle.scm_open_session.specs.Results.{code_where};
ghost use Rattle.scm_open_session.specs.Stages.{ChangesStage};

use crate::c_session::{CSession, give_back, take};
use scm_open_session::count_calls;
use std::alloc::Global;

/// Handles the events of `words`, which are separated by spaces, as one batch, and writes to `handled` how many of
/// them were handled. Returns the code of the call.
#[unsafe(no_mangle)]
pub extern "C" fn gabro_press_and_count(
    alloc: Global,
    session: &mut CSession,
    words: &[u8],
    handled: &mut usize,
) -> u32
    ensures code { IsCode true
        (code_of_counted (events_of_bytes words.now) session.old.pointer.value) result }
    ensures pressed { result ≡ 0 → HandsInAndCounts (events_of_bytes words.now) handled.new
        session.old.pointer.value session.new.pointer.value }
    ensures kept { 0 < result → session.new.pointer.value ≡ session.old.pointer.value }
    ensures unwritten { 0 < result → handled.new ≡ handled.old }
{
    let mut inner = take(alloc, session);
    let code = count_calls::press_and_count(alloc, &mut inner, words, handled);
    give_back(alloc, session, inner);
    code
}

/// Answers with the message `text`, if the session waits for a message, and writes to `handled` how many events of
/// the rest of its batch were handled. Returns the code of the call.
#[unsafe(no_mangle)]
pub extern "C" fn gabro_answer_and_count(
    alloc: Global,
    session: &mut CSession,
    text: &[u8],
    handled: &mut usize,
) -> u32
    ensures code { IsCode (is_message text.now) (code_of_message text.now
        (code_where is_plain_editing session.old.pointer.value)) result }
    ensures said { result ≡ 0 → ChangesStage (SaysAndCounts text.now handled.new)
        session.old.pointer.value session.new.pointer.value }
    ensures kept { 0 < result → session.new.pointer.value ≡ session.old.pointer.value }
    ensures unwritten { 0 < result → handled.new ≡ handled.old }
{
    let mut inner = take(alloc, session);
    let code = count_calls::answer_and_count(alloc, &mut inner, text, handled);
    give_back(alloc, session, inner);
    code
}
