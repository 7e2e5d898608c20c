//! Calls of a layer. Each returns its code.
ghost use Rattle.std.specs.Prelude.{◌≡◌, ◌<◌, None, true};
ghost use Rattle.std.specs.Str.{is_utf8};
ghost use Rattle.scm_open_session.specs.Boxes.{box_value};
ghost use Rattle.scm_open_session.specs.LayerCalls.{BeginsLayer, ChangesPainters, HasStart, HasTheme, SetsStart, StartsLayer, code_of_layer, is_view};
ghost use Rattle.scm_c_values.specs.Keys.{item_of_key};
ghost use Rattle.scm_c_values.specs.Codes.{code_of_number, IsCode, code_of_json, code_of_message, is_message};
ghost use Rattle.scm_open_session.specs.Layered.{folds_of, theme_of};
ghost use Rattle.scm_open_session.specs.OwnKeys.{HasKeys, SetsKeys, code_of_keys, keys_of_bytes};
ghost use Rattle.scm_open_session.specs.Painters.{HaveLabel, HaveTheme, HaveWords, label_of};
ghost use Rattle.scm_open_session.specs.Results.{code_where};
ghost use Rattle.scm_open_session.specs.Stages.{ChangesStage, IsOpenAt};
ghost use Rattle.scm_open_session.specs.Logging.{IsLogCode, IsLoggedCode, WritesScript};

use crate::layer::{folds_of, theme_of};
use crate::open_session::{OpenSession, Session};
use crate::own_keys::keys_of;
use scm_c_values::buffers::write_text;
use scm_c_values::codes;
use scm_c_values::codes::done_or_not_now;
use scm_c_values::inputs::message_of;
use scm_c_values::owners::{Key, item_of_key};
use scm_front::{Folds, OwnKey};
use scm_front_paint::{Label, Theme};
use scm_record::{Items, OwnedText, SelectionKey};
use std::alloc::Global;

/// Returns a session with a layer over the state with the JSON form `json`, and the code of the call. Its
/// terminal has `width` columns and `height` rows. A failed call returns a closed session.
pub fn open(alloc: Global, json: &[u8], width: u16, height: u16) -> (Session, u32)
    ensures code { IsCode (is_utf8 json.now) (code_of_json json.now) result.1 }
    ensures begun { result.1 ≡ 0
        → IsOpenAt (BeginsLayer json.now width height) (box_value result.0) }
    ensures refused { 0 < result.1 → box_value result.0 ≡ None }
{
    match OpenSession::layered(alloc, json, width, height) {
        Ok(inner) => (Some(inner), codes::DONE),
        Err(code) => (None, code),
    }
}

/// Begins the session with the state that is made and with a layer, on a terminal of `width` columns and
/// `height` rows. Returns the code of the call.
pub fn begin(alloc: Global, session: &mut Session, width: u16, height: u16) -> u32
    ensures { StartsLayer width height (box_value session.old) (box_value session.new) result }
{
    match session {
        Some(inner) => inner.begin_layer(alloc, width, height),
        None => codes::CLOSED,
    }
}

/// Sets the theme of the layer to that with the number `code`. Returns the code of the call.
pub fn set_theme(session: &mut Session, code: u32) -> u32
    ensures code { result ≡ code_of_number (theme_of code)
        (code_of_layer (box_value session.old)) }
    ensures themed { result ≡ 0
        → HasTheme (theme_of code) (box_value session.old) (box_value session.new) }
    ensures kept { 0 < result → box_value session.new ≡ box_value session.old }
{
    match theme_of(code) {
        Some(theme) => paint_in(session, theme),
        None => codes::NO_NUMBER,
    }
}

/// Sets the theme of the layer. Returns the code of the call.
fn paint_in(session: &mut Session, theme: Theme) -> u32
    ensures code { result ≡ code_of_layer (box_value session.old) }
    ensures themed { result ≡ 0 → ChangesPainters (HaveTheme theme)
        (box_value session.old) (box_value session.new) }
    ensures kept { 0 < result → box_value session.new ≡ box_value session.old }
{
    match session {
        Some(inner) => done_or_not_now(inner.set_theme(theme)),
        None => codes::CLOSED,
    }
}

/// Sets the words by which the status row says what accepting does. Returns the code of the call.
pub fn name_accepting(alloc: Global, session: &mut Session, text: &[u8]) -> u32
    ensures code { IsCode (is_message text.now)
        (code_of_message text.now (code_of_layer (box_value session.old))) result }
    ensures named { result ≡ 0 → ChangesPainters (HaveWords text.now)
        (box_value session.old) (box_value session.new) }
    ensures kept { 0 < result → box_value session.new ≡ box_value session.old }
{
    let words = match message_of(alloc, text) {
        Ok(words) => words,
        Err(code) => return code,
    };
    match session {
        Some(inner) => done_or_not_now(inner.name_accepting(OwnedText::from(words))),
        None => codes::CLOSED,
    }
}

/// Shows `text` in the header of section `section` of file `file`, both counted from 0, in place of its number.
/// Returns the code of the call.
pub fn label(alloc: Global, session: &mut Session, file: usize, section: usize, text: &[u8]) -> u32
    ensures code { IsCode (is_message text.now)
        (code_of_message text.now (code_of_layer (box_value session.old))) result }
    ensures labelled { result ≡ 0 → ChangesPainters (HaveLabel (label_of file section text.now))
        (box_value session.old) (box_value session.new) }
    ensures kept { 0 < result → box_value session.new ≡ box_value session.old }
{
    let text = match message_of(alloc, text) {
        Ok(text) => OwnedText::from(text),
        Err(code) => return code,
    };
    put_label(
        session,
        Label {
            file,
            section,
            text,
        },
    )
}

/// Shows `label` in the header of its section. Returns the code of the call.
fn put_label(session: &mut Session, label: Label) -> u32
    ensures code { IsCode true (code_of_layer (box_value session.old)) result }
    ensures labelled { result ≡ 0 → ChangesPainters (HaveLabel label)
        (box_value session.old) (box_value session.new) }
    ensures kept { 0 < result → box_value session.new ≡ box_value session.old }
{
    match session {
        Some(inner) => inner.label(label),
        None => codes::CLOSED,
    }
}

/// Unfolds what the number `code` says, and selects what `key` names. Returns the code of the call.
pub fn start(session: &mut Session, code: u32, key: &Key) -> u32
    ensures code { result ≡ code_of_number (folds_of code)
        (code_where is_view (box_value session.old)) }
    ensures set { result ≡ 0
        → HasStart (folds_of code) (item_of_key key.now) (box_value session.old) (box_value session.new) }
    ensures kept { 0 < result → box_value session.new ≡ box_value session.old }
{
    match folds_of(code) {
        Some(folds) => start_at(session, folds, item_of_key(key)),
        None => codes::NO_NUMBER,
    }
}

/// Unfolds what `folds` says, and selects `first`. Returns the code of the call.
fn start_at(session: &mut Session, folds: Folds, first: SelectionKey) -> u32
    ensures code { result ≡ code_where is_view (box_value session.old) }
    ensures set { result ≡ 0
        → ChangesStage (SetsStart folds first) (box_value session.old) (box_value session.new) }
    ensures kept { 0 < result → box_value session.new ≡ box_value session.old }
{
    match session {
        Some(inner) => done_or_not_now(inner.start(folds, first)),
        None => codes::CLOSED,
    }
}

/// Begins to log the calls beneath the layer, if none was made yet. Returns the code of the call.
pub fn log(session: &mut Session) -> u32
    ensures code { IsLogCode (box_value session.old) result }
    ensures kept { box_value session.new ≡ box_value session.old }
{
    match session {
        Some(inner) => done_or_not_now(inner.begin_log()),
        None => codes::CLOSED,
    }
}

/// Writes to `out` the script of the logged calls, clipped to the length of `out`, and its whole length in
/// bytes to `written`. Returns the code of the call.
pub fn logged(alloc: Global, session: &Session, out: &mut [u8], written: &mut usize) -> u32
    ensures code { IsLoggedCode (box_value session.now) result }
    ensures script { result ≡ 0
        → WritesScript (box_value session.now) out.old out.new written.new }
    ensures unwritten { 0 < result → (out.new ≡ out.old) × (written.new ≡ written.old) }
{
    match session {
        Some(inner) => match inner.script(alloc) {
            Ok(script) => {
                *written = write_text(script.as_slice(), out);
                codes::DONE
            }
            Err(code) => code,
        },
        None => codes::CLOSED,
    }
}

/// Sets the keys of the user's own to those of `text`. Returns the code of the call.
pub fn set_keys(alloc: Global, session: &mut Session, text: &[u8]) -> u32
    ensures code { IsCode true
        (code_of_keys (keys_of_bytes text.now) (box_value session.old)) result }
    ensures set { result ≡ 0 → HasKeys (keys_of_bytes text.now)
        (box_value session.old) (box_value session.new) }
    ensures kept { 0 < result → box_value session.new ≡ box_value session.old }
{
    match keys_of(alloc, text) {
        Ok(keys) => take_keys(session, Items::from(keys)),
        Err(code) => code,
    }
}

/// Sets the keys of the user's own. Returns the code of the call.
fn take_keys(session: &mut Session, keys: Items<OwnKey>) -> u32
    ensures code { result ≡ code_where is_view (box_value session.old) }
    ensures set { result ≡ 0
        → ChangesStage (SetsKeys keys) (box_value session.old) (box_value session.new) }
    ensures kept { 0 < result → box_value session.new ≡ box_value session.old }
{
    match session {
        Some(inner) => done_or_not_now(inner.set_keys(keys)),
        None => codes::CLOSED,
    }
}
