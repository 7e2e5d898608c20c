//! The call that tells the screen of a session as cells. `include/gabrosty.h` documents it.
ghost use Rattle.std.specs.Prelude.{◌≡◌};
ghost use Rattle.scm_open_session.specs.Cells.{TellsCells};

use crate::c_session::{CSession, give_back, take};
use scm_open_session::cell_calls;
use scm_shown_cells::{Cell, ScreenInfo};
use std::alloc::Global;

/// Writes the cells of the screen to `cells`, row by row, and the text of their symbols to `out`, both clipped
/// to their lengths, and the size of the screen to `told`. Returns the code of the call.
#[unsafe(no_mangle)]
pub extern "C" fn gabro_cells(
    alloc: Global,
    session: &mut CSession,
    cells: &mut [Cell],
    out: &mut [u8],
    told: &mut ScreenInfo,
) -> u32
    ensures told { TellsCells session.old.pointer.value cells.old cells.new out.old out.new
        told.old told.new result }
    ensures kept { session.new.pointer.value ≡ session.old.pointer.value }
{
    let inner = take(alloc, session);
    let code = cell_calls::cells(alloc, &inner, cells, out, told);
    give_back(alloc, session, inner);
    code
}
