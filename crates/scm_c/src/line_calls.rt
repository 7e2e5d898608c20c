//! The call that tells the line of a file at which the selected item is. `include/gabrosty.h` documents it.
ghost use Rattle.std.specs.Prelude.{◌≡◌, ◌<◌, Some};
ghost use Rattle.scm_open_session.specs.LineCalls.{code_of_selected_line, selected_place};

use crate::c_session::{CSession, give_back, take};
use scm_open_session::line_calls;
use std::alloc::Global;

/// Writes the index of the selected item's file to `file`, and the numbers of its first line in the old and in the new
/// version to `old_line` and `new_line`. Returns the code of the call.
#[unsafe(no_mangle)]
pub extern "C" fn gabro_selected_line(
    alloc: Global,
    session: &mut CSession,
    file: &mut usize,
    old_line: &mut usize,
    new_line: &mut usize,
) -> u32
    ensures code { result ≡ code_of_selected_line session.old.pointer.value }
    ensures place { result ≡ 0 → selected_place session.old.pointer.value
        ≡ Some (record { file = file.new; old_line = old_line.new; new_line = new_line.new }) }
    ensures unwritten { 0 < result → (file.new ≡ file.old)
        × ((old_line.new ≡ old_line.old) × (new_line.new ≡ new_line.old)) }
    ensures kept { session.new.pointer.value ≡ session.old.pointer.value }
{
    let inner = take(alloc, session);
    let code = line_calls::selected_line(&inner, file, old_line, new_line);
    give_back(alloc, session, inner);
    code
}
