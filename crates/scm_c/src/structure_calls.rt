//! Calls that ask for the items of a session's state, and the one that selects an item. `include/gabrosty.h`
//! documents each function.
ghost use Rattle.std.specs.Prelude.{◌≡◌, ◌<◌, Some};
ghost use Rattle.scm_open_session.specs.Questions.{asked_state};
ghost use Rattle.scm_open_session.specs.Selecting.{Selects, code_of_select};
ghost use Rattle.scm_open_session.specs.Stages.{ChangesStage};
ghost use Rattle.scm_c_values.specs.Buffers.{TellsText};
ghost use Rattle.scm_c_values.specs.Keys.{item_of_key};
ghost use Rattle.scm_c_values.specs.States.{answer_of, code_of_question};
ghost use Rattle.scm_c_values.specs.Structure.{item_at, path_at};

use crate::c_session::{CSession, give_back, take};
use scm_c_values::owners::Key;
use scm_open_session::{select_calls, structure_calls};
use std::alloc::Global;

/// Writes the kind of the file, the section or the line that `key` names to `kind`, and the number of its
/// parts to `parts`. Returns the code of the call.
#[unsafe(no_mangle)]
pub extern "C" fn gabro_item(
    alloc: Global,
    session: &mut CSession,
    key: &Key,
    kind: &mut u32,
    parts: &mut usize,
) -> u32
    ensures code { result
        ≡ code_of_question (item_at key.now) (asked_state session.old.pointer.value) }
    ensures item { result ≡ 0
        → answer_of (item_at key.now) (asked_state session.old.pointer.value)
        ≡ Some (record { kind = kind.new; parts = parts.new }) }
    ensures unwritten { 0 < result → (kind.new ≡ kind.old) × (parts.new ≡ parts.old) }
    ensures kept { session.new.pointer.value ≡ session.old.pointer.value }
{
    let inner = take(alloc, session);
    let code = structure_calls::ask_item(&inner, key, kind, parts);
    give_back(alloc, session, inner);
    code
}

/// Writes the path of file `file`, or if `is_old` its path before a rename or a copy, to `out`, clipped to
/// its length, and the whole length in bytes to `written`. Returns the code of the call.
#[unsafe(no_mangle)]
pub extern "C" fn gabro_path(
    alloc: Global,
    session: &mut CSession,
    file: usize,
    is_old: bool,
    out: &mut [u8],
    written: &mut usize,
) -> u32
    ensures code { result
        ≡ code_of_question (path_at file is_old) (asked_state session.old.pointer.value) }
    ensures path { result ≡ 0
        → TellsText (answer_of (path_at file is_old) (asked_state session.old.pointer.value))
        out.old out.new written.new }
    ensures unwritten { 0 < result → (out.new ≡ out.old) × (written.new ≡ written.old) }
    ensures kept { session.new.pointer.value ≡ session.old.pointer.value }
{
    let inner = take(alloc, session);
    let code = structure_calls::ask_path(&inner, file, is_old, out, written);
    give_back(alloc, session, inner);
    code
}

/// Selects the item that `key` names, unfolds what it lies in, and scrolls to it. Returns the code of the
/// call.
#[unsafe(no_mangle)]
pub extern "C" fn gabro_select(alloc: Global, session: &mut CSession, key: &Key) -> u32
    ensures code { result ≡ code_of_select (item_of_key key.now) session.old.pointer.value }
    ensures selected { result ≡ 0 → ChangesStage (Selects (item_of_key key.now))
        session.old.pointer.value session.new.pointer.value }
    ensures kept { 0 < result → session.new.pointer.value ≡ session.old.pointer.value }
{
    let mut inner = take(alloc, session);
    let code = select_calls::select(&mut inner, key);
    give_back(alloc, session, inner);
    code
}
