//! Calls that ask for the state of a session. Each returns its code.
ghost use Rattle.std.specs.Prelude.{◌≡◌, ◌<◌, Err, IfErr, MatchResult, None, Ok, Some, true};
ghost use Rattle.scm_open_session.specs.Boxes.{box_value};
ghost use Rattle.scm_c_values.specs.Codes.{IsCode};
ghost use Rattle.scm_c_values.specs.States.{TellsSide, answer_of, code_of_question, file_count, line_at, mark_at, marks_at, message_at, side_at};
ghost use Rattle.scm_c_values.specs.Buffers.{TellsText};
ghost use Rattle.scm_open_session.specs.Questions.{asked_state};
ghost use Rattle.scm_c_values.specs.Texts.{side_bytes_at};

use crate::open_session::Session;
use scm_c_values::codes;
use scm_c_values::owners::Key;
use scm_c_values::sides::Side;
use scm_c_values::states::{
    tell_line_at, tell_mark_at, tell_marks_at, tell_message_at, tell_side_at, tell_side_bytes_at,
};
use scm_types::RecordState;
use std::alloc::Global;

/// Returns the state of an open session.
///
/// # Errors
/// The code of the failure: `CLOSED`, or `NOT_NOW` if the session has no state to ask.
pub fn state_of(session: &Session) -> Result<&RecordState<'static>, u32>
    ensures state { MatchResult result (λ state. asked_state (box_value session.now) ≡ Ok state.now)
        (λ code. asked_state (box_value session.now) ≡ Err code) }
    ensures fails { IfErr result (λ code. 0 < code) }
{
    match session {
        Some(inner) => match inner.state() {
            Some(state) => Ok(state),
            None => Err(codes::NOT_NOW),
        },
        None => Err(codes::CLOSED),
    }
}

/// Writes the number of files to `count`. Returns the code of the call.
pub fn count_files(session: &Session, count: &mut usize) -> u32
    ensures code { result ≡ code_of_question file_count (asked_state (box_value session.now)) }
    ensures count { result ≡ 0
        → answer_of file_count (asked_state (box_value session.now)) ≡ Some count.new }
    ensures unwritten { 0 < result → count.new ≡ count.old }
{
    match state_of(session) {
        Ok(state) => {
            *count = state.files.len();
            codes::DONE
        }
        Err(code) => code,
    }
}

/// Writes a side of file `file` to `out` and `told`. Returns the code of the call.
pub fn ask_side(
    alloc: Global,
    session: &Session,
    file: usize,
    selected: bool,
    out: &mut [u8],
    told: &mut Side,
) -> u32
    ensures code { IsCode true
        (code_of_question (side_at file selected) (asked_state (box_value session.now))) result }
    ensures told { result ≡ 0
        → TellsSide (answer_of (side_at file selected) (asked_state (box_value session.now)))
        out.old out.new told.new }
    ensures unwritten { 0 < result → (out.new ≡ out.old) × (told.new ≡ told.old) }
{
    match state_of(session) {
        Ok(state) => tell_side_at(alloc, state, file, selected, out, told),
        Err(code) => code,
    }
}

/// Writes the mark of what `key` names to `mark`. Returns the code of the call.
pub fn ask_mark(session: &Session, key: &Key, mark: &mut u32) -> u32
    ensures code { result
        ≡ code_of_question (mark_at key.now) (asked_state (box_value session.now)) }
    ensures mark { result ≡ 0
        → answer_of (mark_at key.now) (asked_state (box_value session.now)) ≡ Some mark.new }
    ensures unwritten { 0 < result → mark.new ≡ mark.old }
{
    match state_of(session) {
        Ok(state) => tell_mark_at(state, key, mark),
        Err(code) => code,
    }
}

/// Writes the message of commit `commit` to `out` and `written`. Returns the code of the call.
pub fn ask_message(session: &Session, commit: usize, out: &mut [u8], written: &mut usize) -> u32
    ensures code { result
        ≡ code_of_question (message_at commit) (asked_state (box_value session.now)) }
    ensures text { result ≡ 0
        → TellsText (answer_of (message_at commit) (asked_state (box_value session.now)))
        out.old out.new written.new }
    ensures unwritten { 0 < result → (out.new ≡ out.old) × (written.new ≡ written.old) }
{
    match state_of(session) {
        Ok(state) => tell_message_at(state, commit, out, written),
        Err(code) => code,
    }
}

/// Writes the marks of file `file` to `out` and `written`. Returns the code of the call.
pub fn ask_marks(
    alloc: Global,
    session: &Session,
    file: usize,
    out: &mut [u8],
    written: &mut usize,
) -> u32
    ensures code { IsCode true
        (code_of_question (marks_at file) (asked_state (box_value session.now))) result }
    ensures marks { result ≡ 0
        → TellsText (answer_of (marks_at file) (asked_state (box_value session.now)))
        out.old out.new written.new }
    ensures unwritten { 0 < result → (out.new ≡ out.old) × (written.new ≡ written.old) }
{
    match state_of(session) {
        Ok(state) => tell_marks_at(alloc, state, file, out, written),
        Err(code) => code,
    }
}

/// Writes the text of the line that `key` names to `out` and `written`. Returns the code of the call.
pub fn ask_line(session: &Session, key: &Key, out: &mut [u8], written: &mut usize) -> u32
    ensures code { result
        ≡ code_of_question (line_at key.now) (asked_state (box_value session.now)) }
    ensures text { result ≡ 0
        → TellsText (answer_of (line_at key.now) (asked_state (box_value session.now)))
        out.old out.new written.new }
    ensures unwritten { 0 < result → (out.new ≡ out.old) × (written.new ≡ written.old) }
{
    match state_of(session) {
        Ok(state) => tell_line_at(state, key, out, written),
        Err(code) => code,
    }
}

/// Writes the bytes of a side of file `file` to `out` and `written`. Returns the code of the call.
pub fn ask_side_bytes(
    alloc: Global,
    session: &Session,
    file: usize,
    selected: bool,
    out: &mut [u8],
    written: &mut usize,
) -> u32
    ensures code { IsCode true
        (code_of_question (side_bytes_at file selected) (asked_state (box_value session.now)))
        result }
    ensures bytes { result ≡ 0
        → TellsText (answer_of (side_bytes_at file selected) (asked_state (box_value session.now)))
        out.old out.new written.new }
    ensures unwritten { 0 < result → (out.new ≡ out.old) × (written.new ≡ written.old) }
{
    match state_of(session) {
        Ok(state) => tell_side_bytes_at(alloc, state, file, selected, out, written),
        Err(code) => code,
    }
}
