//! The call that sets the marks of a file of the state that is made.
ghost use Rattle.std.specs.Prelude.{◌≡◌, ◌<◌};
ghost use Rattle.scm_open_session.specs.Boxes.{box_value};
ghost use Rattle.scm_open_session.specs.Marking.{SetsMarks, code_of_marks, code_of_marks_at};
ghost use Rattle.scm_open_session.specs.Stages.{ChangesStage};

use crate::open_session::{OpenSession, Session, Stage};
use scm_c_values::codes;
use scm_c_values::marks::mark_builder;

/// Sets the marks of file `file` of the state that is made at `stage` to `marks`. Returns the code of the
/// call.
fn mark_stage(stage: &mut Stage, file: usize, marks: &[u8]) -> u32
    ensures code { result ≡ code_of_marks_at file marks.now stage.old }
    ensures set { result ≡ 0 → SetsMarks file marks.now stage.old stage.new }
    ensures kept { 0 < result → stage.new ≡ stage.old }
{
    match stage {
        Stage::Building(builder) => mark_builder(builder, file, marks),
        Stage::Waiting(_) => codes::NOT_NOW,
        Stage::Editing(_) => codes::NOT_NOW,
        Stage::Accepted(_) => codes::NOT_NOW,
        Stage::Ended(_) => codes::NOT_NOW,
    }
}

impl OpenSession {
    /// Sets the marks of file `file` of the state that is made to `marks`. Returns the code of the call.
    fn set_marks(&mut self, file: usize, marks: &[u8]) -> u32
        ensures code { result ≡ code_of_marks_at file marks.now self.old.stage }
        ensures set { result ≡ 0 → SetsMarks file marks.now self.old.stage self.new.stage }
        ensures decoder { self.new.decoder ≡ self.old.decoder }
        ensures painter { self.new.painter ≡ self.old.painter }
        ensures kept { 0 < result → self.new ≡ self.old }
    {
        mark_stage(&mut self.stage, file, marks)
    }
}

/// Sets the marks of file `file` of the state that is made to `marks`, a byte for each of its items, in
/// order: 1 for a checked one. Returns the code of the call.
pub fn set_marks(session: &mut Session, file: usize, marks: &[u8]) -> u32
    ensures code { result ≡ code_of_marks file marks.now (box_value session.old) }
    ensures set { result ≡ 0 → ChangesStage (SetsMarks file marks.now)
        (box_value session.old) (box_value session.new) }
    ensures kept { 0 < result → box_value session.new ≡ box_value session.old }
{
    match session {
        Some(inner) => inner.set_marks(file, marks),
        None => codes::CLOSED,
    }
}
