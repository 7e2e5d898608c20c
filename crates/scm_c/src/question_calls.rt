//! Calls that ask for the state of a session. `include/gabrosty.h` documents each function.
ghost use Rattle.std.specs.Prelude.{◌≡◌, ◌<◌, Some, true};
ghost use Rattle.scm_open_session.specs.Boxes.{box_value};
ghost use Rattle.scm_c_values.specs.Codes.{IsCode};
ghost use Rattle.scm_c_values.specs.States.{TellsSide, answer_of, code_of_question, file_count, line_at, mark_at, marks_at, message_at, side_at};
ghost use Rattle.scm_c_values.specs.Buffers.{TellsText};
ghost use Rattle.scm_open_session.specs.Questions.{asked_state};
ghost use Rattle.scm_c_values.specs.Texts.{side_bytes_at};

use crate::c_session::{CSession, give_back, take};
use scm_c_values::owners::Key;
use scm_c_values::sides::Side;
use scm_open_session::question_calls;
use std::alloc::Global;

/// Writes the number of files to `count`. Returns the code of the call.
#[unsafe(no_mangle)]
pub extern "C" fn gabro_files(alloc: Global, session: &mut CSession, count: &mut usize) -> u32
    ensures code { result
        ≡ code_of_question file_count (asked_state session.old.pointer.value) }
    ensures count { result ≡ 0
        → answer_of file_count (asked_state session.old.pointer.value) ≡ Some count.new }
    ensures unwritten { 0 < result → count.new ≡ count.old }
    ensures kept { session.new.pointer.value ≡ session.old.pointer.value }
{
    let inner = take(alloc, session);
    let code = question_calls::count_files(&inner, count);
    give_back(alloc, session, inner);
    code
}

/// Writes the bytes of the selected side of file `file` if `selected`, or of the other side, to
/// `out`, clipped to its length. Writes the side's kind, mode and number of bytes to `told`. Returns
/// the code of the call.
#[unsafe(no_mangle)]
pub extern "C" fn gabro_side(
    alloc: Global,
    session: &mut CSession,
    file: usize,
    selected: bool,
    out: &mut [u8],
    told: &mut Side,
) -> u32
    ensures code { IsCode true
        (code_of_question (side_at file selected) (asked_state session.old.pointer.value))
        result }
    ensures told { result ≡ 0
        → TellsSide (answer_of (side_at file selected) (asked_state session.old.pointer.value))
        out.old out.new told.new }
    ensures unwritten { 0 < result → (out.new ≡ out.old) × (told.new ≡ told.old) }
    ensures kept { session.new.pointer.value ≡ session.old.pointer.value }
{
    let inner = take(alloc, session);
    let code = question_calls::ask_side(alloc, &inner, file, selected, out, told);
    give_back(alloc, session, inner);
    code
}

/// Writes the mark of the file, the section or the line that `key` names to `mark`. Returns the code
/// of the call.
#[unsafe(no_mangle)]
pub extern "C" fn gabro_mark(
    alloc: Global,
    session: &mut CSession,
    key: &Key,
    mark: &mut u32,
) -> u32
    ensures code { result
        ≡ code_of_question (mark_at key.now) (asked_state session.old.pointer.value) }
    ensures mark { result ≡ 0
        → answer_of (mark_at key.now) (asked_state session.old.pointer.value) ≡ Some mark.new }
    ensures unwritten { 0 < result → mark.new ≡ mark.old }
    ensures kept { session.new.pointer.value ≡ session.old.pointer.value }
{
    let inner = take(alloc, session);
    let code = question_calls::ask_mark(&inner, key, mark);
    give_back(alloc, session, inner);
    code
}

/// Writes the message of commit `commit` to `out`, clipped to its length, and the whole length in
/// bytes to `written`. Returns the code of the call.
#[unsafe(no_mangle)]
pub extern "C" fn gabro_message(
    alloc: Global,
    session: &mut CSession,
    commit: usize,
    out: &mut [u8],
    written: &mut usize,
) -> u32
    ensures code { result
        ≡ code_of_question (message_at commit) (asked_state session.old.pointer.value) }
    ensures text { result ≡ 0
        → TellsText (answer_of (message_at commit) (asked_state session.old.pointer.value))
        out.old out.new written.new }
    ensures unwritten { 0 < result → (out.new ≡ out.old) × (written.new ≡ written.old) }
    ensures kept { session.new.pointer.value ≡ session.old.pointer.value }
{
    let inner = take(alloc, session);
    let code = question_calls::ask_message(&inner, commit, out, written);
    give_back(alloc, session, inner);
    code
}

/// Writes the marks of file `file` to `out`, a byte each, clipped to its length, and their number to
/// `written`. Returns the code of the call.
#[unsafe(no_mangle)]
pub extern "C" fn gabro_marks(
    alloc: Global,
    session: &mut CSession,
    file: usize,
    out: &mut [u8],
    written: &mut usize,
) -> u32
    ensures code { IsCode true
        (code_of_question (marks_at file) (asked_state session.old.pointer.value)) result }
    ensures marks { result ≡ 0
        → TellsText (answer_of (marks_at file) (asked_state session.old.pointer.value))
        out.old out.new written.new }
    ensures unwritten { 0 < result → (out.new ≡ out.old) × (written.new ≡ written.old) }
    ensures kept { session.new.pointer.value ≡ session.old.pointer.value }
{
    let inner = take(alloc, session);
    let code = question_calls::ask_marks(alloc, &inner, file, out, written);
    give_back(alloc, session, inner);
    code
}

/// Writes the text of the line that `key` names to `out`, clipped to its length, and the whole length
/// in bytes to `written`. Returns the code of the call.
#[unsafe(no_mangle)]
pub extern "C" fn gabro_line(
    alloc: Global,
    session: &mut CSession,
    key: &Key,
    out: &mut [u8],
    written: &mut usize,
) -> u32
    ensures code { result
        ≡ code_of_question (line_at key.now) (asked_state session.old.pointer.value) }
    ensures text { result ≡ 0
        → TellsText (answer_of (line_at key.now) (asked_state session.old.pointer.value))
        out.old out.new written.new }
    ensures unwritten { 0 < result → (out.new ≡ out.old) × (written.new ≡ written.old) }
    ensures kept { session.new.pointer.value ≡ session.old.pointer.value }
{
    let inner = take(alloc, session);
    let code = question_calls::ask_line(&inner, key, out, written);
    give_back(alloc, session, inner);
    code
}

/// Writes the bytes of the selected side of file `file` if `selected`, or of the other side, to `out`,
/// clipped to its length, and the whole length in bytes to `written`. Returns the code of the call.
#[unsafe(no_mangle)]
pub extern "C" fn gabro_side_bytes(
    alloc: Global,
    session: &mut CSession,
    file: usize,
    selected: bool,
    out: &mut [u8],
    written: &mut usize,
) -> u32
    ensures code { IsCode true
        (code_of_question (side_bytes_at file selected)
        (asked_state session.old.pointer.value)) result }
    ensures bytes { result ≡ 0
        → TellsText (answer_of (side_bytes_at file selected)
        (asked_state session.old.pointer.value)) out.old out.new written.new }
    ensures unwritten { 0 < result → (out.new ≡ out.old) × (written.new ≡ written.old) }
    ensures kept { session.new.pointer.value ≡ session.old.pointer.value }
{
    let inner = take(alloc, session);
    let code = question_calls::ask_side_bytes(alloc, &inner, file, selected, out, written);
    give_back(alloc, session, inner);
    code
}
