//! Calls that ask for the items of a session's state. Each returns its code.
ghost use Rattle.std.specs.Prelude.{◌≡◌, ◌<◌, Some};
ghost use Rattle.scm_open_session.specs.Boxes.{box_value};
ghost use Rattle.scm_open_session.specs.Questions.{asked_state};
ghost use Rattle.scm_c_values.specs.Buffers.{TellsText};
ghost use Rattle.scm_c_values.specs.States.{answer_of, code_of_question};
ghost use Rattle.scm_c_values.specs.Structure.{item_at, path_at};

use crate::open_session::Session;
use crate::question_calls::state_of;
use scm_c_values::owners::Key;
use scm_c_values::structure::{tell_item_at, tell_path_at};

/// Writes the kind of the file, the section or the line that `key` names to `kind`, and the number of its
/// parts to `parts`. Returns the code of the call.
pub fn ask_item(session: &Session, key: &Key, kind: &mut u32, parts: &mut usize) -> u32
    ensures code { result
        ≡ code_of_question (item_at key.now) (asked_state (box_value session.now)) }
    ensures item { result ≡ 0
        → answer_of (item_at key.now) (asked_state (box_value session.now))
        ≡ Some (record { kind = kind.new; parts = parts.new }) }
    ensures unwritten { 0 < result → (kind.new ≡ kind.old) × (parts.new ≡ parts.old) }
{
    match state_of(session) {
        Ok(state) => tell_item_at(state, key, kind, parts),
        Err(code) => code,
    }
}

/// Writes the path of file `file`, or if `is_old` its path before a rename or a copy, to `out` and
/// `written`. Returns the code of the call.
pub fn ask_path(
    session: &Session,
    file: usize,
    is_old: bool,
    out: &mut [u8],
    written: &mut usize,
) -> u32
    ensures code { result
        ≡ code_of_question (path_at file is_old) (asked_state (box_value session.now)) }
    ensures path { result ≡ 0
        → TellsText (answer_of (path_at file is_old) (asked_state (box_value session.now)))
        out.old out.new written.new }
    ensures unwritten { 0 < result → (out.new ≡ out.old) × (written.new ≡ written.old) }
{
    match state_of(session) {
        Ok(state) => tell_path_at(state, file, is_old, out, written),
        Err(code) => code,
    }
}
