//! The call that tells which dialog is open.
ghost use Rattle.std.specs.Prelude.{◌≡◌};
ghost use Rattle.scm_open_session.specs.Boxes.{box_value};
ghost use Rattle.scm_open_session.specs.Dialogs.{dialog_at, dialog_in, dialog_of};

use crate::open_session::{OpenSession, Session, Stage};
use scm_record::LiveSession;

/// No dialog is open.
const NO_DIALOG: u32 = 0;
/// The question before quitting is open.
const QUESTION: u32 = 1;
/// The help is open.
const HELP: u32 = 2;

/// Returns the code of the dialog that `session` shows.
fn dialog_in(session: &LiveSession<'static>) -> u32
    ensures { result ≡ dialog_in session.now }
{
    let view = session.view_state();
    if view.is_help_open {
        HELP
    } else if view.quit_dialog.is_some() {
        QUESTION
    } else {
        NO_DIALOG
    }
}

/// Returns the code of the dialog that a session at `stage` shows.
fn dialog_at(stage: &Stage) -> u32
    ensures { result ≡ dialog_at stage.now }
{
    match stage {
        Stage::Waiting(session) => dialog_in(session.live()),
        Stage::Building(_) | Stage::Editing(_) | Stage::Accepted(_) | Stage::Ended(_) => NO_DIALOG,
    }
}

impl OpenSession {
    /// Returns the code of the dialog that the session shows.
    fn dialog(&self) -> u32
        ensures { result ≡ dialog_at self.now.stage }
    {
        dialog_at(&self.stage)
    }
}

/// Returns the code of the dialog that `session` shows: 0 without one.
pub fn dialog(session: &Session) -> u32
    ensures { result ≡ dialog_of (box_value session.now) }
{
    match session {
        Some(inner) => inner.dialog(),
        None => NO_DIALOG,
    }
}
