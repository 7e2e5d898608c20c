//! The call that tells the line of a file at which the selected item is.
ghost use Rattle.std.specs.Prelude.{◌≡◌, ◌<◌, Some};
ghost use Rattle.scm_open_session.specs.Boxes.{box_value};
ghost use Rattle.scm_open_session.specs.LineCalls.{code_of_place, code_of_selected_line, place_at_stage, place_in_live, selected_place};

use crate::line_place::{LinePlace, place_of};
use crate::open_session::{OpenSession, Session, Stage};
use scm_c_values::codes;
use scm_record::LiveSession;

/// Returns the place of the selected item of `session`, if an item of a file is selected.
fn place_in_live(session: &LiveSession<'static>) -> Option<LinePlace>
    ensures { result ≡ place_in_live session.now }
{
    place_of(session.state(), session.view_state().selection)
}

/// Returns the place of the selected item at `stage`, if the session waits for an event and an item is selected.
fn place_at_stage(stage: &Stage) -> Option<LinePlace>
    ensures { result ≡ place_at_stage stage.now }
{
    match stage {
        Stage::Waiting(session) => place_in_live(session.live()),
        Stage::Building(_) | Stage::Editing(_) | Stage::Accepted(_) | Stage::Ended(_) => None,
    }
}

impl OpenSession {
    /// Returns the place of the selected item, if the session waits for an event and an item is selected.
    fn selected_place(&self) -> Option<LinePlace>
        ensures { result ≡ place_at_stage self.now.stage }
    {
        place_at_stage(&self.stage)
    }
}

/// Writes `place` to `file`, `old_line` and `new_line`. Returns the code of the call.
fn tell_place(
    place: Option<LinePlace>,
    file: &mut usize,
    old_line: &mut usize,
    new_line: &mut usize,
) -> u32
    ensures code { result ≡ code_of_place place }
    ensures place { result ≡ 0 → place
        ≡ Some (record { file = file.new; old_line = old_line.new; new_line = new_line.new }) }
    ensures unwritten { 0 < result → (file.new ≡ file.old)
        × ((old_line.new ≡ old_line.old) × (new_line.new ≡ new_line.old)) }
{
    match place {
        Some(place) => {
            *file = place.file;
            *old_line = place.old_line;
            *new_line = place.new_line;
            codes::DONE
        }
        None => codes::NOT_NOW,
    }
}

/// Writes the index of the selected item's file to `file`, and the numbers of its first line in the old and in the new
/// version to `old_line` and `new_line`. Returns the code of the call.
pub fn selected_line(
    session: &Session,
    file: &mut usize,
    old_line: &mut usize,
    new_line: &mut usize,
) -> u32
    ensures code { result ≡ code_of_selected_line (box_value session.now) }
    ensures place { result ≡ 0 → selected_place (box_value session.now)
        ≡ Some (record { file = file.new; old_line = old_line.new; new_line = new_line.new }) }
    ensures unwritten { 0 < result → (file.new ≡ file.old)
        × ((old_line.new ≡ old_line.old) × (new_line.new ≡ new_line.old)) }
{
    match session {
        Some(inner) => tell_place(inner.selected_place(), file, old_line, new_line),
        None => codes::CLOSED,
    }
}
