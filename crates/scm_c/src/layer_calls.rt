//! Calls of the layer: search, ranges, undo, columns to the right, themes, labels. `include/gabrosty.h` documents each function.
ghost use Rattle.std.specs.Prelude.{◌≡◌, ◌<◌, None, true};
ghost use Rattle.std.specs.Str.{is_utf8};
ghost use Rattle.scm_open_session.specs.LayerCalls.{BeginsLayer, ChangesPainters, HasStart, HasTheme, StartsLayer, code_of_layer, is_view};
ghost use Rattle.scm_c_values.specs.Keys.{item_of_key};
ghost use Rattle.scm_c_values.specs.Codes.{code_of_number, IsCode, code_of_json, code_of_message, is_message};
ghost use Rattle.scm_open_session.specs.Layered.{folds_of, theme_of};
ghost use Rattle.scm_open_session.specs.OwnKeys.{HasKeys, code_of_keys, keys_of_bytes};
ghost use Rattle.scm_open_session.specs.Painters.{HaveLabel, HaveWords, label_of};
ghost use Rattle.scm_open_session.specs.Results.{code_where};
ghost use Rattle.scm_open_session.specs.Stages.{IsOpenAt};
ghost use Rattle.scm_open_session.specs.Logging.{IsLogCode, IsLoggedCode, WritesScript};

use crate::c_session::{CSession, give_back, take};
use scm_c_values::owners::Key;
use scm_open_session::layer_calls;
use std::alloc::Global;

/// Opens `session` with a layer over the state with the JSON form `json`. Its terminal has `width` columns
/// and `height` rows. If `session` is open, closes it first. Returns the code of the call.
#[unsafe(no_mangle)]
pub extern "C" fn gabro_new_layer(
    alloc: Global,
    session: &mut CSession,
    json: &[u8],
    width: u16,
    height: u16,
) -> u32
    ensures code { IsCode (is_utf8 json.now) (code_of_json json.now) result }
    ensures begun { result ≡ 0
        → IsOpenAt (BeginsLayer json.now width height) session.new.pointer.value }
    // a failed call leaves the session closed
    ensures refused { 0 < result → session.new.pointer.value ≡ None }
{
    drop(take(alloc, session));
    let (inner, code) = layer_calls::open(alloc, json, width, height);
    give_back(alloc, session, inner);
    code
}

/// Begins the session with the state that is made and with a layer, on a terminal of `width` columns and
/// `height` rows. Returns the code of the call.
#[unsafe(no_mangle)]
pub extern "C" fn gabro_begin_layer(
    alloc: Global,
    session: &mut CSession,
    width: u16,
    height: u16,
) -> u32
    ensures { StartsLayer width height
        session.old.pointer.value session.new.pointer.value result }
{
    let mut inner = take(alloc, session);
    let code = layer_calls::begin(alloc, &mut inner, width, height);
    give_back(alloc, session, inner);
    code
}

/// Sets the theme of the layer to that with the number `theme`. Returns the code of the call.
#[unsafe(no_mangle)]
pub extern "C" fn gabro_theme(alloc: Global, session: &mut CSession, theme: u32) -> u32
    ensures code { result ≡ code_of_number (theme_of theme)
        (code_of_layer session.old.pointer.value) }
    ensures themed { result ≡ 0
        → HasTheme (theme_of theme) session.old.pointer.value session.new.pointer.value }
    ensures kept { 0 < result → session.new.pointer.value ≡ session.old.pointer.value }
{
    let mut inner = take(alloc, session);
    let code = layer_calls::set_theme(&mut inner, theme);
    give_back(alloc, session, inner);
    code
}

/// Sets the words by which the status row says what accepting does. Returns the code of the call.
#[unsafe(no_mangle)]
pub extern "C" fn gabro_accept_text(alloc: Global, session: &mut CSession, text: &[u8]) -> u32
    ensures code { IsCode (is_message text.now)
        (code_of_message text.now (code_of_layer session.old.pointer.value)) result }
    ensures named { result ≡ 0 → ChangesPainters (HaveWords text.now)
        session.old.pointer.value session.new.pointer.value }
    ensures kept { 0 < result → session.new.pointer.value ≡ session.old.pointer.value }
{
    let mut inner = take(alloc, session);
    let code = layer_calls::name_accepting(alloc, &mut inner, text);
    give_back(alloc, session, inner);
    code
}

/// Shows `text` in the header of section `section` of file `file` in place of its number. Returns the code of
/// the call.
#[unsafe(no_mangle)]
pub extern "C" fn gabro_label(
    alloc: Global,
    session: &mut CSession,
    file: usize,
    section: usize,
    text: &[u8],
) -> u32
    ensures code { IsCode (is_message text.now)
        (code_of_message text.now (code_of_layer session.old.pointer.value)) result }
    ensures labelled { result ≡ 0 → ChangesPainters (HaveLabel (label_of file section text.now))
        session.old.pointer.value session.new.pointer.value }
    ensures kept { 0 < result → session.new.pointer.value ≡ session.old.pointer.value }
{
    let mut inner = take(alloc, session);
    let code = layer_calls::label(alloc, &mut inner, file, section, text);
    give_back(alloc, session, inner);
    code
}

/// Unfolds what the number `folds` says, and selects what `first` names. Returns the code of the call.
#[unsafe(no_mangle)]
pub extern "C" fn gabro_start(alloc: Global, session: &mut CSession, folds: u32, first: &Key) -> u32
    ensures code { result ≡ code_of_number (folds_of folds)
        (code_where is_view session.old.pointer.value) }
    ensures set { result ≡ 0
        → HasStart (folds_of folds) (item_of_key first.now) session.old.pointer.value session.new.pointer.value }
    ensures kept { 0 < result → session.new.pointer.value ≡ session.old.pointer.value }
{
    let mut inner = take(alloc, session);
    let code = layer_calls::start(&mut inner, folds, first);
    give_back(alloc, session, inner);
    code
}

/// Sets the keys of the user's own to those of `text`. Returns the code of the call.
#[unsafe(no_mangle)]
pub extern "C" fn gabro_keys(alloc: Global, session: &mut CSession, text: &[u8]) -> u32
    ensures code { IsCode true
        (code_of_keys (keys_of_bytes text.now) session.old.pointer.value) result }
    ensures set { result ≡ 0 → HasKeys (keys_of_bytes text.now)
        session.old.pointer.value session.new.pointer.value }
    ensures kept { 0 < result → session.new.pointer.value ≡ session.old.pointer.value }
{
    let mut inner = take(alloc, session);
    let code = layer_calls::set_keys(alloc, &mut inner, text);
    give_back(alloc, session, inner);
    code
}

/// Begins to log the calls of the session beneath the layer, if none was made yet. Returns the code of the
/// call.
#[unsafe(no_mangle)]
pub extern "C" fn gabro_log(alloc: Global, session: &mut CSession) -> u32
    ensures code { IsLogCode session.old.pointer.value result }
    ensures kept { session.new.pointer.value ≡ session.old.pointer.value }
{
    let mut inner = take(alloc, session);
    let code = layer_calls::log(&mut inner);
    give_back(alloc, session, inner);
    code
}

/// Writes to `out` the script of the logged calls, clipped to the length of `out`, and its whole length in
/// bytes to `written`. Returns the code of the call.
#[unsafe(no_mangle)]
pub extern "C" fn gabro_logged(
    alloc: Global,
    session: &mut CSession,
    out: &mut [u8],
    written: &mut usize,
) -> u32
    ensures code { IsLoggedCode session.old.pointer.value result }
    ensures script { result ≡ 0
        → WritesScript session.old.pointer.value out.old out.new written.new }
    ensures unwritten { 0 < result → (out.new ≡ out.old) × (written.new ≡ written.old) }
    ensures kept { session.new.pointer.value ≡ session.old.pointer.value }
{
    let inner = take(alloc, session);
    let code = layer_calls::logged(alloc, &inner, out, written);
    give_back(alloc, session, inner);
    code
}
