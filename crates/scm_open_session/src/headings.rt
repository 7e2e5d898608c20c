//! Headings of sections, which a layer shows: the lines that sections stand in.
ghost use Rattle.std.specs.Prelude.{◌≡◌};
ghost use Rattle.scm_open_session.specs.declared.open_session.Stage.TheVariants.{Waiting};
ghost use Rattle.scm_open_session.specs.Boxes.{box_value};
ghost use Rattle.scm_open_session.specs.Headings.{NamesAt, NamesSections};

use crate::open_session::{OpenSession, Session, Stage};
use crate::painters::Painters;
use crate::running::Running;
use scm_c_values::codes;
use scm_c_values::codes::resize_code;

/// Has `painters` show the heading above each section of `session`, if that has a layer. Returns the code of the call.
fn name_running(session: &Running, painters: &mut Painters) -> u32
    ensures { NamesAt painters.old painters.new (Waiting session.now) result }
{
    match session {
        Running::Plain(_) => codes::NOT_NOW,
        Running::Layered(view) => resize_code(painters.name_sections(view)),
    }
}

/// Has `painters` show the heading above each section of the session at `stage`, if that waits for an event with a
/// layer. Returns the code of the call.
fn name_at(stage: &Stage, painters: &mut Painters) -> u32
    ensures { NamesAt painters.old painters.new stage.now result }
{
    match stage {
        Stage::Waiting(session) => name_running(session, painters),
        Stage::Building(_) => codes::NOT_NOW,
        Stage::Editing(_) => codes::NOT_NOW,
        Stage::Accepted(_) => codes::NOT_NOW,
        Stage::Ended(_) => codes::NOT_NOW,
    }
}

impl OpenSession {
    /// Shows the heading above each section from the next update on, if the session waits for an event with a layer.
    /// Returns the code of the call.
    pub fn name_sections(&mut self) -> u32
        ensures named { NamesAt self.old.painter self.new.painter self.old.stage result }
        ensures stage { self.new.stage ≡ self.old.stage }
        ensures decoder { self.new.decoder ≡ self.old.decoder }
    {
        name_at(&self.stage, &mut self.painter)
    }
}

/// Shows the heading above each section of `session`: the line that the section stands in. Returns the code of the call.
pub fn name_sections(session: &mut Session) -> u32
    ensures { NamesSections (box_value session.old) (box_value session.new) result }
{
    match session {
        Some(inner) => inner.name_sections(),
        None => codes::CLOSED,
    }
}
