//! Calls on a session, open or closed. Each returns its code.
ghost use Rattle.std.specs.Prelude.{◌≡◌, ◌<◌, None, Some, is_some, length, true};
ghost use Rattle.std.specs.Str.{is_utf8};
ghost use Rattle.scm_open_session.specs.Boxes.{box_value};
ghost use Rattle.scm_open_session.specs.Stages.{Begins, ChangesStage, Clicks, HandsIn, Idles, IsOpenAt, ChangesDecoder, Presses, Resizes, Says, Types, code_of_session, end_of_session};
ghost use Rattle.scm_c_values.specs.Screens.{screen_of};
ghost use Rattle.scm_c_values.specs.Codes.{IsCode, code_of_json, is_message, words_of_code};
ghost use Rattle.scm_open_session.specs.Results.{Writes, code_of_answer, code_of_call, code_of_press, code_of_repaint, is_session_waiting};
ghost use Rattle.scm_c_values.specs.Pieces.{event_of_bytes, events_of_bytes};
ghost use Rattle.scm_c_values.specs.Buffers.{over};
ghost use Rattle.scm_open_session.specs.Owners.{key_of_session, owner_of_session, selected_of_session};
ghost use Rattle.scm_open_session.specs.Batches.{HandsInAll, PressesAll, code_of_batch};
ghost use Rattle.scm_open_session.specs.Decoding.{Decodes};
ghost use Rattle.scm_c_values.specs.EventWords.{HearsBytes, HearsSilence};
ghost use Rattle.scm_open_session.specs.Paint.{Fills, Forgets, PaintsOpenSession, PaintsSession};
ghost use Rattle.scm_open_session.specs.FrontKeys.{ChangesToKey};

use crate::open_session::{OpenSession, Session};
use scm_c_values::batches::events_of;
use scm_c_values::buffers::write_text;
use scm_c_values::codes;
use scm_c_values::codes::done_or_not_now;
use scm_c_values::inputs::{event_of, message_of};
use scm_c_values::owners::Key;
use scm_record::Event;
use std::alloc::Global;

/// Returns a session over the state with the JSON form `json`, and the code of the call. Its screen has `width` columns and
/// `height` rows. A failed call returns a closed session.
pub fn open(alloc: Global, json: &[u8], width: u16, height: u16) -> (Session, u32)
    ensures code { IsCode (is_utf8 json.now) (code_of_json json.now) result.1 }
    ensures begun { result.1 ≡ 0 → IsOpenAt (Begins json.now width height) (box_value result.0) }
    ensures refused { 0 < result.1 → box_value result.0 ≡ None }
{
    match OpenSession::new(alloc, json, width, height) {
        Ok(inner) => (Some(inner), codes::DONE),
        Err(code) => (None, code),
    }
}

/// Returns the stage of `session`: the code of what it waits for, or of how it ended.
pub fn stage(session: &Session) -> u32
    ensures { result ≡ code_of_session (box_value session.now) }
{
    match session {
        Some(inner) => inner.stage(),
        None => codes::NONE,
    }
}

/// Returns the code of how `session` ended, or `NOT_ENDED`.
pub fn end(session: &Session) -> u32
    ensures { result ≡ end_of_session (box_value session.now) }
{
    match session {
        Some(inner) => inner.end(),
        None => codes::NOT_ENDED,
    }
}

/// Handles `bytes`, which a terminal sent. Returns the code of the call.
pub fn type_bytes(alloc: Global, session: &mut Session, bytes: &[u8]) -> u32
    ensures code { result ≡ code_of_call (box_value session.old) }
    ensures typed { result ≡ 0
        → ChangesDecoder (Types bytes.now) (box_value session.old) (box_value session.new) }
    ensures kept { 0 < result → box_value session.new ≡ box_value session.old }
{
    match session {
        Some(inner) => done_or_not_now(inner.hear(alloc, bytes)),
        None => codes::CLOSED,
    }
}

/// Handles `bytes`, which a terminal sent, up to the first key that the table lacks. Writes the number
/// of bytes that it took to `taken`, and the code of that key to `key`, 0 without one. Returns the code
/// of the call.
pub fn type_to_key(
    alloc: Global,
    session: &mut Session,
    bytes: &[u8],
    taken: &mut usize,
    key: &mut u32,
) -> u32
    ensures code { result ≡ code_of_call (box_value session.old) }
    ensures typed { result ≡ 0 → ChangesToKey bytes.now
        (box_value session.old) (box_value session.new) taken.new key.new }
    ensures kept { 0 < result → box_value session.new ≡ box_value session.old }
    ensures unwritten { 0 < result → (taken.new ≡ taken.old) × (key.new ≡ key.old) }
{
    match session {
        Some(inner) => match inner.hear_to_key(alloc, bytes) {
            Some((sent, found)) => {
                *taken = sent;
                *key = found;
                codes::DONE
            }
            None => codes::NOT_NOW,
        },
        None => codes::CLOSED,
    }
}

/// Handles the silence of the terminal. Returns the code of the call.
pub fn idle(session: &mut Session) -> u32
    ensures code { result ≡ code_of_call (box_value session.old) }
    ensures silent { result ≡ 0
        → ChangesDecoder Idles (box_value session.old) (box_value session.new) }
    ensures kept { 0 < result → box_value session.new ≡ box_value session.old }
{
    match session {
        Some(inner) => done_or_not_now(inner.idle()),
        None => codes::CLOSED,
    }
}

/// Handles the event of `word`, a word of scripts. Returns the code of the call.
pub fn press(session: &mut Session, word: &[u8]) -> u32
    ensures code { result ≡ code_of_press (event_of_bytes word.now) (box_value session.old) }
    ensures pressed { result ≡ 0
        → HandsIn (event_of_bytes word.now) (box_value session.old) (box_value session.new) }
    ensures kept { 0 < result → box_value session.new ≡ box_value session.old }
{
    match event_of(word) {
        Some(event) => hand_in(session, event),
        None => codes::NO_WORD,
    }
}

/// Handles a click at `row`, `column` of the screen, both counted from 0. Returns the code of the
/// call.
pub fn click(session: &mut Session, row: u16, column: u16) -> u32
    ensures code { result ≡ code_of_call (box_value session.old) }
    ensures clicked { result ≡ 0
        → ChangesStage (Clicks row column) (box_value session.old) (box_value session.new) }
    ensures kept { 0 < result → box_value session.new ≡ box_value session.old }
{
    match session {
        Some(inner) => done_or_not_now(inner.click(row, column)),
        None => codes::CLOSED,
    }
}

/// Handles `event`. Returns the code of the call.
fn hand_in(session: &mut Session, event: Event) -> u32
    ensures code { result ≡ code_of_call (box_value session.old) }
    ensures pressed { result ≡ 0
        → ChangesStage (Presses event) (box_value session.old) (box_value session.new) }
    ensures kept { 0 < result → box_value session.new ≡ box_value session.old }
{
    match session {
        Some(inner) => done_or_not_now(inner.press(event)),
        None => codes::CLOSED,
    }
}

/// Handles the events of `words`, which are separated by spaces, as one batch. Returns the code of the call.
pub fn press_all(alloc: Global, session: &mut Session, words: &[u8]) -> u32
    ensures code { IsCode true
        (code_of_batch (events_of_bytes words.now) (box_value session.old)) result }
    ensures pressed { result ≡ 0 → HandsInAll (events_of_bytes words.now)
        (box_value session.old) (box_value session.new) }
    ensures kept { 0 < result → box_value session.new ≡ box_value session.old }
{
    match events_of(alloc, words) {
        Ok(events) => hand_in_all(session, events.as_slice()),
        Err(code) => code,
    }
}

/// Handles `events` as one batch. Returns the code of the call.
fn hand_in_all(session: &mut Session, events: &[Event]) -> u32
    ensures code { result ≡ code_of_call (box_value session.old) }
    ensures pressed { result ≡ 0 → ChangesStage (PressesAll events.now)
        (box_value session.old) (box_value session.new) }
    ensures kept { 0 < result → box_value session.new ≡ box_value session.old }
{
    match session {
        Some(inner) => done_or_not_now(inner.press_all(events)),
        None => codes::CLOSED,
    }
}

/// Writes to `out` the words of the events that `bytes` of a terminal complete, if they fit, and their
/// length to `written`. No event is handled. Returns the code of the call.
pub fn decode(
    alloc: Global,
    session: &mut Session,
    bytes: &[u8],
    out: &mut [u8],
    written: &mut usize,
) -> u32
    ensures { Decodes (HearsBytes bytes.now) (box_value session.old) (box_value session.new)
        out.old out.new result written.old written.new }
{
    match session {
        Some(inner) => match inner.decode(alloc, bytes, out) {
            Some(len) => {
                *written = len;
                codes::DONE
            }
            None => codes::NO_MEMORY,
        },
        None => codes::CLOSED,
    }
}

/// Writes to `out` the word of the event that a silence of the terminal completes, if it fits, and its
/// length to `written`. No event is handled. Returns the code of the call.
pub fn decode_silence(
    alloc: Global,
    session: &mut Session,
    out: &mut [u8],
    written: &mut usize,
) -> u32
    ensures { Decodes HearsSilence (box_value session.old) (box_value session.new)
        out.old out.new result written.old written.new }
{
    match session {
        Some(inner) => match inner.decode_silence(alloc, out) {
            Some(len) => {
                *written = len;
                codes::DONE
            }
            None => codes::NO_MEMORY,
        },
        None => codes::CLOSED,
    }
}

/// Answers with the message `text`, if the session waits for a message. Returns the code of the
/// call.
pub fn answer(alloc: Global, session: &mut Session, text: &[u8]) -> u32
    ensures code { IsCode (is_message text.now)
        (code_of_answer text.now (box_value session.old)) result }
    ensures said { result ≡ 0
        → ChangesStage (Says text.now) (box_value session.old) (box_value session.new) }
    ensures kept { 0 < result → box_value session.new ≡ box_value session.old }
{
    let message = match message_of(alloc, text) {
        Ok(message) => message,
        Err(code) => return code,
    };
    match session {
        Some(inner) => done_or_not_now(inner.answer(message)),
        None => codes::CLOSED,
    }
}

/// Resizes the screen to `width` columns and `height` rows. Returns the code of the call.
pub fn resize(session: &mut Session, width: u16, height: u16) -> u32
    ensures code { IsCode (is_session_waiting (box_value session.old))
        (code_of_call (box_value session.old)) result }
    ensures resized { result ≡ 0
        → ChangesStage (Resizes (screen_of width height)) (box_value session.old)
        (box_value session.new) }
    ensures kept { 0 < result → box_value session.new ≡ box_value session.old }
{
    match session {
        Some(inner) => inner.resize(width, height),
        None => codes::CLOSED,
    }
}

/// Writes to `out` the update that makes the terminal show the session, if it fits, and its length
/// in bytes to `written`. Returns the code of the call.
pub fn paint(alloc: Global, session: &mut Session, out: &mut [u8], written: &mut usize) -> u32
    ensures { PaintsSession (box_value session.old) (box_value session.new)
        out.old out.new result written.old written.new }
{
    match session {
        Some(inner) => match paint_open_session(alloc, inner, out) {
            Ok(len) => {
                *written = len;
                codes::DONE
            }
            Err(code) => code,
        },
        None => codes::CLOSED,
    }
}

/// Writes the update that makes the terminal show `inner` to `out`, if it fits. Returns the length
/// of the update in bytes.
///
/// # Errors
/// The code of the failure: `NOT_NOW` or `NO_MEMORY`.
fn paint_open_session(alloc: Global, inner: &mut OpenSession, out: &mut [u8]) -> Result<usize, u32>
    ensures { PaintsOpenSession inner.old inner.new out.old out.new result }
{
    match inner.paint(alloc) {
        Ok(update) => Ok(write_update(inner, update.as_bytes(), out)),
        Err(code) => Err(code),
    }
}

/// Writes `update` to `out` if it fits, or else makes the next update have every row. Returns the
/// length of `update` in bytes.
fn write_update(inner: &mut OpenSession, update: &[u8], out: &mut [u8]) -> usize
    ensures len { result ≡ length update.now }
    ensures filled { Fills inner.old inner.new update.now out.old out.new }
{
    if update.len() <= out.len() {
        write_text(update, out)
    } else {
        inner.repaint();
        update.len()
    }
}

/// Makes the next update write every row. Returns the code of the call.
pub fn repaint(session: &mut Session) -> u32
    ensures code { result ≡ code_of_repaint (box_value session.old) }
    ensures forgotten { Forgets (box_value session.old) (box_value session.new) }
{
    match session {
        Some(inner) => {
            inner.repaint();
            codes::DONE
        }
        None => codes::CLOSED,
    }
}

/// Writes to `out` the text of the stage, clipped to the length of `out`, and its whole length in
/// bytes to `written`: the screen's rows with a layer's status row, the message to edit, the accepted
/// state and its sides, or the error. Returns the code of the call.
pub fn text(alloc: Global, session: &Session, out: &mut [u8], written: &mut usize) -> u32
    ensures code { IsCode (is_some (box_value session.now))
        (code_of_repaint (box_value session.now)) result }
    ensures text { result ≡ 0
        → Writes (box_value session.now) out.old out.new written.new }
    ensures unwritten { 0 < result → (out.new ≡ out.old) × (written.new ≡ written.old) }
{
    match session {
        Some(inner) => match inner.text(alloc) {
            Some(text) => {
                *written = write_text(text.as_bytes(), out);
                codes::DONE
            }
            None => codes::NO_MEMORY,
        },
        None => codes::CLOSED,
    }
}

/// Returns the code of the owner at `row` and `column` of the screen, both counted from 0. Writes
/// to `key` the indices of the item that the place belongs to.
pub fn owner(session: &Session, row: u16, column: u16, key: &mut Key) -> u32
    ensures owner { result ≡ owner_of_session (box_value session.now) row column }
    ensures key { key.new ≡ key_of_session (box_value session.now) row column }
{
    match session {
        Some(inner) => {
            let (owner, owner_key) = inner.owner(row, column);
            *key = owner_key;
            owner
        }
        None => {
            *key = Key::none();
            codes::NOBODY
        }
    }
}

/// Writes the key of the selected item to `key`. Returns the code of the call.
pub fn selected(session: &Session, key: &mut Key) -> u32
    ensures code { result ≡ code_of_call (box_value session.now) }
    ensures key { result ≡ 0 → selected_of_session (box_value session.now) ≡ Some key.new }
    ensures unwritten { 0 < result → key.new ≡ key.old }
{
    match session {
        Some(inner) => match inner.selected() {
            Some(selected) => {
                *key = selected;
                codes::DONE
            }
            None => codes::NOT_NOW,
        },
        None => codes::CLOSED,
    }
}

/// Writes to `out` the sentence of `code`, clipped to the length of `out`. Returns the whole
/// length, in bytes.
pub fn words(code: u32, out: &mut [u8]) -> usize
    ensures len { result ≡ length (words_of_code code) }
    ensures written { out.new ≡ over (words_of_code code) out.old }
{
    write_text(codes::words(code).as_bytes(), out)
}
