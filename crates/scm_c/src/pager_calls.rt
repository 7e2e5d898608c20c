//! Calls of a pager, which shows what accepting gives. `include/gabrosty.h` documents each function.
ghost use Rattle.std.specs.Prelude.{◌≡◌, ◌<◌, IfErr, IfSome, MatchResult, Some, string_bytes, true};
ghost use Rattle.scm_c_values.specs.Codes.{IsCode};
ghost use Rattle.scm_c_values.specs.States.{answer_of, code_of_question};
ghost use Rattle.scm_open_session.specs.Boxes.{box_value};
ghost use Rattle.scm_open_session.specs.Questions.{asked_state};
ghost use Rattle.scm_pager.specs.Heard.{IsTyped};
ghost use Rattle.scm_pager.specs.Moves.{opened};
ghost use Rattle.scm_c.specs.Pages.{HearsInPager, PaintsPage, ShowsPage, TellsPage, file_at, most, shown_in};

use crate::c_session::{CSession, give_back, take};
use scm_c_values::buffers::write_text;
use scm_c_values::codes::{DONE, NO_ITEM, NO_MEMORY};
use scm_c_values::updates::update_of;
use scm_open_session::Session;
use scm_open_session::question_calls::state_of;
use scm_pager::{Pager, hear, paint};
use scm_types::File;
use std::alloc::Global;

/// The most columns of a page, and the most rows.
const MOST: u16 = 1000;

/// Returns the columns or the rows of a page on a terminal that has `length` of them.
fn most(length: u16) -> u16
    ensures { result ≡ most length }
{
    length.min(MOST)
}

/// Returns file `file` of the state of an open session, counted from 0.
///
/// # Errors
/// The code of the failure: `CLOSED`, `NOT_NOW` or `NO_ITEM`.
fn file_of(session: &Session, file: usize) -> Result<&File<'static>, u32>
    ensures file { MatchResult result
        (λ found. answer_of (file_at file) (asked_state (box_value session.now)) ≡ Some found.now)
        (λ code. code ≡ code_of_question (file_at file) (asked_state (box_value session.now))) }
    ensures fails { IfErr result (λ code. 0 < code) }
{
    match state_of(session)?.files.as_slice().get(file) {
        Some(found) => Ok(found),
        None => Err(NO_ITEM),
    }
}

/// Opens `pager` at the top of file `file` of `session`, on its selected side if `selected`, or on the other
/// one. Returns the code of the call.
fn open_pager(session: &Session, file: usize, selected: bool, pager: &mut Pager) -> u32
    ensures code { result
        ≡ code_of_question (file_at file) (asked_state (box_value session.now)) }
    ensures opened { result ≡ 0 → pager.new ≡ opened file selected }
    ensures kept { 0 < result → pager.new ≡ pager.old }
{
    match file_of(session, file) {
        Ok(_) => {
            *pager = Pager::open(file, selected);
            DONE
        }
        Err(code) => code,
    }
}

/// Opens `pager` at the top of file `file`, counted from 0, on the side that is selected now if `selected`,
/// or on the other one. Returns the code of the call.
#[unsafe(no_mangle)]
pub extern "C" fn gabro_pager_open(
    alloc: Global,
    session: &mut CSession,
    file: usize,
    selected: bool,
    pager: &mut Pager,
) -> u32
    ensures code { result
        ≡ code_of_question (file_at file) (asked_state session.old.pointer.value) }
    ensures opened { result ≡ 0 → pager.new ≡ opened file selected }
    ensures unopened { 0 < result → pager.new ≡ pager.old }
    ensures kept { session.new.pointer.value ≡ session.old.pointer.value }
{
    let inner = take(alloc, session);
    let code = open_pager(&inner, file, selected, pager);
    give_back(alloc, session, inner);
    code
}

/// Moves `pager` so that line `line` of section `index` of its file is on a screen of `height` rows. Returns the
/// code of the call.
fn show_in_pager(
    session: &Session,
    pager: &mut Pager,
    index: usize,
    line: usize,
    height: u16,
) -> u32
    ensures code { result
        ≡ code_of_question (file_at pager.old.file) (asked_state (box_value session.now)) }
    ensures shown { result ≡ 0 → pager.new
        ≡ shown_in (answer_of (file_at pager.old.file) (asked_state (box_value session.now)))
        pager.old index line height }
    ensures kept { 0 < result → pager.new ≡ pager.old }
{
    match file_of(session, pager.file) {
        Ok(file) => {
            *pager = pager.show(file, index, line, most(height));
            DONE
        }
        Err(code) => code,
    }
}

/// Moves `pager` so that line `line` of section `index` of its file, both counted from 0, is on a screen of `height`
/// rows. Returns the code of the call.
#[unsafe(no_mangle)]
pub extern "C" fn gabro_pager_show(
    alloc: Global,
    session: &mut CSession,
    pager: &mut Pager,
    index: usize,
    line: usize,
    height: u16,
) -> u32
    ensures code { result
        ≡ code_of_question (file_at pager.old.file) (asked_state session.old.pointer.value) }
    ensures shown { result ≡ 0 → pager.new
        ≡ shown_in (answer_of (file_at pager.old.file) (asked_state session.old.pointer.value))
        pager.old index line height }
    ensures unshown { 0 < result → pager.new ≡ pager.old }
    ensures kept { session.new.pointer.value ≡ session.old.pointer.value }
{
    let inner = take(alloc, session);
    let code = show_in_pager(&inner, pager, index, line, height);
    give_back(alloc, session, inner);
    code
}

/// Returns `pager` over `file` after `bytes`, which a terminal of `width` columns and `height` rows sent before a
/// silence. Returns `None` if an allocation failed.
fn typed_pager(
    alloc: Global,
    pager: Pager,
    file: &File<'_>,
    bytes: &[u8],
    width: u16,
    height: u16,
) -> Option<Pager>
    ensures { IfSome result
        (λ next. IsTyped pager file.now bytes.now (most width) (most height) next) }
{
    let next = hear(alloc, pager, file, bytes, most(width), most(height)).ok()?;
    Some(next)
}

/// Hands `bytes`, which a terminal of `width` columns and `height` rows sent before a silence, to `pager`.
/// Returns the code of the call.
fn type_in_pager(
    alloc: Global,
    session: &Session,
    pager: &mut Pager,
    bytes: &[u8],
    width: u16,
    height: u16,
) -> u32
    ensures code { IsCode true
        (code_of_question (file_at pager.old.file) (asked_state (box_value session.now))) result }
    ensures typed { result ≡ 0
        → HearsInPager (answer_of (file_at pager.old.file) (asked_state (box_value session.now)))
        pager.old bytes.now width height pager.new }
    ensures kept { 0 < result → pager.new ≡ pager.old }
{
    match file_of(session, pager.file) {
        Ok(file) => match typed_pager(alloc, *pager, file, bytes, width, height) {
            Some(next) => {
                *pager = next;
                DONE
            }
            None => NO_MEMORY,
        },
        Err(code) => code,
    }
}

/// Hands `bytes`, which a terminal of `width` columns and `height` rows sent before a silence, to `pager`.
/// Returns the code of the call.
#[unsafe(no_mangle)]
pub extern "C" fn gabro_pager_type(
    alloc: Global,
    session: &mut CSession,
    pager: &mut Pager,
    bytes: &[u8],
    width: u16,
    height: u16,
) -> u32
    ensures code { IsCode true (code_of_question (file_at pager.old.file)
        (asked_state session.old.pointer.value)) result }
    ensures typed { result ≡ 0
        → HearsInPager (answer_of (file_at pager.old.file) (asked_state session.old.pointer.value))
        pager.old bytes.now width height pager.new }
    ensures untyped { 0 < result → pager.new ≡ pager.old }
    ensures kept { session.new.pointer.value ≡ session.old.pointer.value }
{
    let inner = take(alloc, session);
    let code = type_in_pager(alloc, &inner, pager, bytes, width, height);
    give_back(alloc, session, inner);
    code
}

/// Returns the update that makes a terminal of `width` columns and `height` rows show `pager` over `file`,
/// whatever it shows before. Returns `None` if an allocation failed.
fn page_update(
    alloc: Global,
    pager: Pager,
    file: &File<'_>,
    width: u16,
    height: u16,
) -> Option<String>
    ensures { IfSome result
        (λ update. ShowsPage pager file.now width height (string_bytes update)) }
{
    let bytes = paint(alloc, pager, file, most(width), most(height)).ok()?;
    let update = update_of(alloc, &bytes)?;
    Some(update)
}

/// Writes to `out` the update that makes a terminal of `width` columns and `height` rows show `pager`, clipped
/// to the length of `out`, and its length to `written`. Returns the code of the call.
fn paint_pager(
    alloc: Global,
    session: &Session,
    pager: Pager,
    width: u16,
    height: u16,
    out: &mut [u8],
    written: &mut usize,
) -> u32
    ensures code { IsCode true
        (code_of_question (file_at pager.file) (asked_state (box_value session.now))) result }
    ensures painted { result ≡ 0
        → TellsPage (answer_of (file_at pager.file) (asked_state (box_value session.now)))
        pager width height out.old out.new written.new }
    ensures unwritten { 0 < result → (out.new ≡ out.old) × (written.new ≡ written.old) }
{
    match file_of(session, pager.file) {
        Ok(file) => match page_update(alloc, pager, file, width, height) {
            Some(update) => {
                *written = write_text(update.as_bytes(), out);
                DONE
            }
            None => NO_MEMORY,
        },
        Err(code) => code,
    }
}

/// Writes to `out` the bytes that make a terminal of `width` columns and `height` rows show `pager`, whatever
/// it shows before, clipped to the length of `out`, and their number to `written`. Returns the code of the call.
#[unsafe(no_mangle)]
pub extern "C" fn gabro_pager_paint(
    alloc: Global,
    session: &mut CSession,
    pager: &Pager,
    width: u16,
    height: u16,
    out: &mut [u8],
    written: &mut usize,
) -> u32
    ensures code { IsCode true (code_of_question (file_at pager.now.file)
        (asked_state session.old.pointer.value)) result }
    ensures painted { result ≡ 0
        → TellsPage (answer_of (file_at pager.now.file) (asked_state session.old.pointer.value))
        pager.now width height out.old out.new written.new }
    ensures unwritten { 0 < result → (out.new ≡ out.old) × (written.new ≡ written.old) }
    ensures kept { session.new.pointer.value ≡ session.old.pointer.value }
{
    let inner = take(alloc, session);
    let code = paint_pager(alloc, &inner, *pager, width, height, out, written);
    give_back(alloc, session, inner);
    code
}
