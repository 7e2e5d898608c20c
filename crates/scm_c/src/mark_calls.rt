//! The call that sets the marks of a file of a state that is made. `include/gabrosty.h` documents it.
ghost use Rattle.std.specs.Prelude.{◌≡◌, ◌<◌};
ghost use Rattle.scm_open_session.specs.Marking.{SetsMarks, code_of_marks};
ghost use Rattle.scm_open_session.specs.Stages.{ChangesStage};

use crate::c_session::{CSession, give_back, take};
use scm_open_session::mark_calls;
use std::alloc::Global;

/// Sets the marks of file `file` of the state that is made to `marks`, a byte for each of its items, in
/// order: 1 for a checked one. Returns the code of the call.
#[unsafe(no_mangle)]
pub extern "C" fn gabro_state_marks(
    alloc: Global,
    session: &mut CSession,
    file: usize,
    marks: &[u8],
) -> u32
    ensures code { result ≡ code_of_marks file marks.now session.old.pointer.value }
    ensures set { result ≡ 0 → ChangesStage (SetsMarks file marks.now)
        session.old.pointer.value session.new.pointer.value }
    ensures kept { 0 < result → session.new.pointer.value ≡ session.old.pointer.value }
{
    let mut inner = take(alloc, session);
    let code = mark_calls::set_marks(&mut inner, file, marks);
    give_back(alloc, session, inner);
    code
}
