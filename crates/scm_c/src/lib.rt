//! A session for C. `include/gabrosty.h` documents each function. What a call does is in `scm_open_session`; here it is reached from
//! the pointer of a C program.
#![tactic(auto)]

ghost use Rattle.std.specs.Prelude.{◌≡◌, ℕ, ◌<◌, None, Some, is_some, length, true};
ghost use Rattle.std.specs.Str.{is_utf8};
ghost use Rattle.scm_open_session.specs.Boxes.{box_value};
ghost use Rattle.scm_open_session.specs.Stages.{Begins, ChangesDecoder, ChangesStage, Clicks, HandsIn, Idles, IsOpenAt, Resizes, Says, Types, code_of_session, end_of_session};
ghost use Rattle.scm_open_session.specs.Dialogs.{dialog_of};
ghost use Rattle.scm_c_values.specs.Screens.{screen_of};
ghost use Rattle.scm_c_values.specs.Codes.{IsCode, code_of_json, is_message, words_of_code};
ghost use Rattle.scm_open_session.specs.Results.{Writes, WritesOrFails, code_of_answer, code_of_call, code_of_press, code_of_repaint, is_session_waiting, is_status_row, symbol_of_session};
ghost use Rattle.scm_c_values.specs.Pieces.{event_of_bytes, events_of_bytes};
ghost use Rattle.scm_c_values.specs.Buffers.{over};
ghost use Rattle.scm_open_session.specs.Owners.{key_of_session, owner_of_session, selected_of_session};
ghost use Rattle.scm_open_session.specs.Batches.{HandsInAll, code_of_batch};
ghost use Rattle.scm_open_session.specs.Decoding.{Decodes};
ghost use Rattle.scm_c_values.specs.EventWords.{HearsBytes, HearsSilence};
ghost use Rattle.scm_open_session.specs.Paint.{Forgets, PaintsSession};
ghost use Rattle.scm_open_session.specs.FrontKeys.{ChangesToKey};

pub mod blank_calls;
pub mod c_session;
pub mod cell_calls;
pub mod count_calls;
pub mod heading_calls;
pub mod layer_calls;
pub mod line_calls;
pub mod mark_calls;
pub mod merge_calls;
pub mod pager_calls;
pub mod question_calls;
mod raw_box;
pub mod state_calls;
pub mod structure_calls;
pub mod tree_calls;

use crate::c_session::{CSession, give_back, take};
use scm_c_values::owners::Key;
use scm_open_session::{calls, dialog_calls, screen_calls};
use std::alloc::Global;

/// Opens `session` over the state with the JSON form `json`. Its screen has `width` columns and
/// `height` rows. If `session` is open, closes it first. Returns the code of the call.
#[unsafe(no_mangle)]
pub extern "C" fn gabro_new(
    alloc: Global,
    session: &mut CSession,
    json: &[u8],
    width: u16,
    height: u16,
) -> u32
    ensures code { IsCode (is_utf8 json.now) (code_of_json json.now) result }
    ensures begun { result ≡ 0
        → IsOpenAt (Begins json.now width height) session.new.pointer.value }
    // a failed call leaves the session closed
    ensures refused { 0 < result → session.new.pointer.value ≡ None }
{
    drop(take(alloc, session));
    let (inner, code) = calls::open(alloc, json, width, height);
    give_back(alloc, session, inner);
    code
}

/// Returns the stage of `session`: the code of what it waits for, or of how it ended.
#[unsafe(no_mangle)]
pub extern "C" fn gabro_stage(alloc: Global, session: &mut CSession) -> u32
    ensures code { result ≡ code_of_session session.old.pointer.value }
    ensures kept { session.new.pointer.value ≡ session.old.pointer.value }
{
    let inner = take(alloc, session);
    let stage = calls::stage(&inner);
    give_back(alloc, session, inner);
    stage
}

/// Returns the code of how `session` ended. 0 if it goes on or is closed.
#[unsafe(no_mangle)]
pub extern "C" fn gabro_end(alloc: Global, session: &mut CSession) -> u32
    ensures code { result ≡ end_of_session session.old.pointer.value }
    ensures kept { session.new.pointer.value ≡ session.old.pointer.value }
{
    let inner = take(alloc, session);
    let end = calls::end(&inner);
    give_back(alloc, session, inner);
    end
}

/// Returns the code of the dialog that `session` shows. 0 without one.
#[unsafe(no_mangle)]
pub extern "C" fn gabro_dialog(alloc: Global, session: &mut CSession) -> u32
    ensures code { result ≡ dialog_of session.old.pointer.value }
    ensures kept { session.new.pointer.value ≡ session.old.pointer.value }
{
    let inner = take(alloc, session);
    let dialog = dialog_calls::dialog(&inner);
    give_back(alloc, session, inner);
    dialog
}

/// Handles `bytes`, which a terminal sent. Returns the code of the call.
#[unsafe(no_mangle)]
pub extern "C" fn gabro_type(alloc: Global, session: &mut CSession, bytes: &[u8]) -> u32
    ensures code { result ≡ code_of_call session.old.pointer.value }
    ensures typed { result ≡ 0
        → ChangesDecoder (Types bytes.now) session.old.pointer.value session.new.pointer.value }
    ensures kept { 0 < result → session.new.pointer.value ≡ session.old.pointer.value }
{
    let mut inner = take(alloc, session);
    let code = calls::type_bytes(alloc, &mut inner, bytes);
    give_back(alloc, session, inner);
    code
}

/// Handles `bytes`, which a terminal sent, up to the first key that the table lacks. Writes the number
/// of bytes that it took to `taken`, and the code of that key to `key`, 0 without one. Returns the code
/// of the call.
#[unsafe(no_mangle)]
pub extern "C" fn gabro_type_to_key(
    alloc: Global,
    session: &mut CSession,
    bytes: &[u8],
    taken: &mut usize,
    key: &mut u32,
) -> u32
    ensures code { result ≡ code_of_call session.old.pointer.value }
    ensures typed { result ≡ 0 → ChangesToKey bytes.now
        session.old.pointer.value session.new.pointer.value taken.new key.new }
    ensures kept { 0 < result → session.new.pointer.value ≡ session.old.pointer.value }
    ensures unwritten { 0 < result → (taken.new ≡ taken.old) × (key.new ≡ key.old) }
{
    let mut inner = take(alloc, session);
    let code = calls::type_to_key(alloc, &mut inner, bytes, taken, key);
    give_back(alloc, session, inner);
    code
}

/// Handles the silence of the terminal. Returns the code of the call.
#[unsafe(no_mangle)]
pub extern "C" fn gabro_idle(alloc: Global, session: &mut CSession) -> u32
    ensures code { result ≡ code_of_call session.old.pointer.value }
    ensures silent { result ≡ 0
        → ChangesDecoder Idles session.old.pointer.value session.new.pointer.value }
    ensures kept { 0 < result → session.new.pointer.value ≡ session.old.pointer.value }
{
    let mut inner = take(alloc, session);
    let code = calls::idle(&mut inner);
    give_back(alloc, session, inner);
    code
}

/// Handles the event of `word`, a word of scripts. Returns the code of the call.
#[unsafe(no_mangle)]
pub extern "C" fn gabro_press(alloc: Global, session: &mut CSession, word: &[u8]) -> u32
    ensures code { result ≡ code_of_press (event_of_bytes word.now) session.old.pointer.value }
    ensures pressed { result ≡ 0
        → HandsIn (event_of_bytes word.now) session.old.pointer.value session.new.pointer.value }
    ensures kept { 0 < result → session.new.pointer.value ≡ session.old.pointer.value }
{
    let mut inner = take(alloc, session);
    let code = calls::press(&mut inner, word);
    give_back(alloc, session, inner);
    code
}

/// Handles the events of `words`, which are separated by spaces, as one batch. Returns the code of the
/// call.
#[unsafe(no_mangle)]
pub extern "C" fn gabro_press_all(alloc: Global, session: &mut CSession, words: &[u8]) -> u32
    ensures code { IsCode true
        (code_of_batch (events_of_bytes words.now) session.old.pointer.value) result }
    ensures pressed { result ≡ 0 → HandsInAll (events_of_bytes words.now)
        session.old.pointer.value session.new.pointer.value }
    ensures kept { 0 < result → session.new.pointer.value ≡ session.old.pointer.value }
{
    let mut inner = take(alloc, session);
    let code = calls::press_all(alloc, &mut inner, words);
    give_back(alloc, session, inner);
    code
}

/// Writes to `out` the words of the events that `bytes` of a terminal complete, if they fit, and their
/// length to `written`. No event is handled. Returns the code of the call.
#[unsafe(no_mangle)]
pub extern "C" fn gabro_decode(
    alloc: Global,
    session: &mut CSession,
    bytes: &[u8],
    out: &mut [u8],
    written: &mut usize,
) -> u32
    ensures { Decodes (HearsBytes bytes.now) session.old.pointer.value session.new.pointer.value
        out.old out.new result written.old written.new }
{
    let mut inner = take(alloc, session);
    let code = calls::decode(alloc, &mut inner, bytes, out, written);
    give_back(alloc, session, inner);
    code
}

/// Writes to `out` the word of the event that a silence of the terminal completes, if it fits, and its
/// length to `written`. No event is handled. Returns the code of the call.
#[unsafe(no_mangle)]
pub extern "C" fn gabro_decode_idle(
    alloc: Global,
    session: &mut CSession,
    out: &mut [u8],
    written: &mut usize,
) -> u32
    ensures { Decodes HearsSilence session.old.pointer.value session.new.pointer.value
        out.old out.new result written.old written.new }
{
    let mut inner = take(alloc, session);
    let code = calls::decode_silence(alloc, &mut inner, out, written);
    give_back(alloc, session, inner);
    code
}

/// Handles a click at `row`, `column` of the screen, both counted from 0. Returns the code of the
/// call.
#[unsafe(no_mangle)]
pub extern "C" fn gabro_click(alloc: Global, session: &mut CSession, row: u16, column: u16) -> u32
    ensures code { result ≡ code_of_call session.old.pointer.value }
    ensures clicked { result ≡ 0
        → ChangesStage (Clicks row column) session.old.pointer.value session.new.pointer.value }
    ensures kept { 0 < result → session.new.pointer.value ≡ session.old.pointer.value }
{
    let mut inner = take(alloc, session);
    let code = calls::click(&mut inner, row, column);
    give_back(alloc, session, inner);
    code
}

/// Answers with the message `text`, if the session waits for a message. Returns the code of the
/// call.
#[unsafe(no_mangle)]
pub extern "C" fn gabro_answer(alloc: Global, session: &mut CSession, text: &[u8]) -> u32
    ensures code { IsCode (is_message text.now)
        (code_of_answer text.now session.old.pointer.value) result }
    ensures said { result ≡ 0
        → ChangesStage (Says text.now) session.old.pointer.value session.new.pointer.value }
    ensures kept { 0 < result → session.new.pointer.value ≡ session.old.pointer.value }
{
    let mut inner = take(alloc, session);
    let code = calls::answer(alloc, &mut inner, text);
    give_back(alloc, session, inner);
    code
}

/// Resizes the screen to `width` columns and `height` rows. Returns the code of the call.
#[unsafe(no_mangle)]
pub extern "C" fn gabro_resize(
    alloc: Global,
    session: &mut CSession,
    width: u16,
    height: u16,
) -> u32
    ensures code { IsCode (is_session_waiting session.old.pointer.value)
        (code_of_call session.old.pointer.value) result }
    ensures resized { result ≡ 0
        → ChangesStage (Resizes (screen_of width height)) session.old.pointer.value
        session.new.pointer.value }
    ensures kept { 0 < result → session.new.pointer.value ≡ session.old.pointer.value }
{
    let mut inner = take(alloc, session);
    let code = calls::resize(&mut inner, width, height);
    give_back(alloc, session, inner);
    code
}

/// Writes to `out` the update that makes the terminal show the session, if it fits, and its length
/// in bytes to `written`. Returns the code of the call.
#[unsafe(no_mangle)]
pub extern "C" fn gabro_paint(
    alloc: Global,
    session: &mut CSession,
    out: &mut [u8],
    written: &mut usize,
) -> u32
    ensures { PaintsSession session.old.pointer.value session.new.pointer.value
        out.old out.new result written.old written.new }
{
    let mut inner = take(alloc, session);
    let code = calls::paint(alloc, &mut inner, out, written);
    give_back(alloc, session, inner);
    code
}

/// Makes the next update write every row. Returns the code of the call.
#[unsafe(no_mangle)]
pub extern "C" fn gabro_repaint(alloc: Global, session: &mut CSession) -> u32
    ensures code { result ≡ code_of_repaint session.old.pointer.value }
    ensures forgotten { Forgets session.old.pointer.value session.new.pointer.value }
{
    let mut inner = take(alloc, session);
    let code = calls::repaint(&mut inner);
    give_back(alloc, session, inner);
    code
}

/// Writes to `out` the text of the stage, clipped to the length of `out`, and its whole length in
/// bytes to `written`: the screen's rows with a layer's status row, the message to edit, the accepted
/// state and its sides, or the error. Returns the code of the call.
#[unsafe(no_mangle)]
pub extern "C" fn gabro_text(
    alloc: Global,
    session: &mut CSession,
    out: &mut [u8],
    written: &mut usize,
) -> u32
    ensures code { IsCode (is_some session.old.pointer.value)
        (code_of_repaint session.old.pointer.value) result }
    ensures text { result ≡ 0
        → Writes session.old.pointer.value out.old out.new written.new }
    ensures unwritten { 0 < result → (out.new ≡ out.old) × (written.new ≡ written.old) }
    ensures kept { session.new.pointer.value ≡ session.old.pointer.value }
{
    let inner = take(alloc, session);
    let code = calls::text(alloc, &inner, out, written);
    give_back(alloc, session, inner);
    code
}

/// Returns the code of the owner at `row` and `column` of the screen, both counted from 0. Writes
/// to `key` the indices of the item that the place belongs to.
#[unsafe(no_mangle)]
pub extern "C" fn gabro_owner(
    alloc: Global,
    session: &mut CSession,
    row: u16,
    column: u16,
    key: &mut Key,
) -> u32
    ensures owner { result ≡ owner_of_session session.old.pointer.value row column }
    ensures key { key.new ≡ key_of_session session.old.pointer.value row column }
    ensures kept { session.new.pointer.value ≡ session.old.pointer.value }
{
    let inner = take(alloc, session);
    let owner = calls::owner(&inner, row, column, key);
    give_back(alloc, session, inner);
    owner
}

/// Writes the key of the selected item to `key`. Returns the code of the call.
#[unsafe(no_mangle)]
pub extern "C" fn gabro_selected(alloc: Global, session: &mut CSession, key: &mut Key) -> u32
    ensures code { result ≡ code_of_call session.old.pointer.value }
    ensures key { result ≡ 0 → selected_of_session session.old.pointer.value ≡ Some key.new }
    ensures unwritten { 0 < result → key.new ≡ key.old }
    ensures kept { session.new.pointer.value ≡ session.old.pointer.value }
{
    let inner = take(alloc, session);
    let code = calls::selected(&inner, key);
    give_back(alloc, session, inner);
    code
}

/// Writes to `out` the symbol that begins at `row` and `column` of the screen, both counted from 0,
/// clipped to the length of `out`. Returns the whole length, in bytes, and 0 on a layer's status row if an
/// allocation failed.
#[unsafe(no_mangle)]
pub extern "C" fn gabro_symbol(
    alloc: Global,
    session: &mut CSession,
    row: u16,
    column: u16,
    out: &mut [u8],
) -> usize
    ensures symbol { WritesOrFails (is_status_row session.old.pointer.value row)
        (symbol_of_session session.old.pointer.value row column) out.old out.new result }
    ensures kept { session.new.pointer.value ≡ session.old.pointer.value }
{
    let inner = take(alloc, session);
    let len = screen_calls::symbol(alloc, &inner, row, column, out);
    give_back(alloc, session, inner);
    len
}

/// Writes to `out` the sentence of `code`, clipped to the length of `out`. Returns the whole
/// length, in bytes.
#[unsafe(no_mangle)]
pub extern "C" fn gabro_words(code: u32, out: &mut [u8]) -> usize
    ensures len { result ≡ length (words_of_code code) }
    ensures written { out.new ≡ over (words_of_code code) out.old }
{
    calls::words(code, out)
}

/// Returns the version of the library: 10,000 times the major number, 100 times the minor number,
/// and the patch number.
#[unsafe(no_mangle)]
pub extern "C" fn gabro_version() -> u32
    ensures { result ≡ 10100 }
{
    10_100
}

/// Closes `session`, and frees its memory. `gabro_free` of `terminal/run.c` is this call for a session that
/// is not null.
#[unsafe(no_mangle)]
pub extern "C" fn gabrosty_close(alloc: Global, session: &mut CSession)
    ensures closed { session.new.pointer.value ≡ None }
{
    drop(take(alloc, session));
}
