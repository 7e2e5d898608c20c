//! A call of the layer: headings of sections. `include/gabrosty.h` documents it.
ghost use Rattle.scm_open_session.specs.Headings.{NamesSections};

use crate::c_session::{CSession, give_back, take};
use scm_open_session::headings;
use std::alloc::Global;

/// Shows the heading above each section: the line that the section stands in. Returns the code of the call.
#[unsafe(no_mangle)]
pub extern "C" fn gabro_name_sections(alloc: Global, session: &mut CSession) -> u32
    ensures { NamesSections session.old.pointer.value session.new.pointer.value result }
{
    let mut inner = take(alloc, session);
    let code = headings::name_sections(&mut inner);
    give_back(alloc, session, inner);
    code
}
