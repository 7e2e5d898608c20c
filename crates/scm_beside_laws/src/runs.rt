//! Laws of runs and live sessions while they show two commits beside each other.
ghost use Rattle.scm_input.specs.Store.{Store};
ghost use Rattle.scm_record.specs.Headline.{StoreHasShots};
ghost use Rattle.scm_record.specs.Run.{Before, World};
ghost use Rattle.scm_record.specs.Session.{IsDrawable};
ghost use Rattle.scm_beside_laws.specs.Runs.{ClicksHitOwnersBeside, ScreensShowBeside, SessionsHitOwnersBeside, ShotsAreWindowsBeside, StoreHasShotsBeside};

use crate::laws::apps_show_windows_beside;
use scm_view::laws::ids_are_told_apart;

/// Proves that a screen of at least 21 columns and two rows that shows two commits has the rows of their window, and
/// that a click there hits the owner that the window names.
///
/// The grid of a [`LiveSession`](scm_record::LiveSession) has these rows.
///
/// This is a law: the function does nothing, and is there for its contract.
pub fn screens_show_beside()
    ensures { ScreensShowBeside }
{
    apps_show_windows_beside();
    ids_are_told_apart();
}

/// Proves of each live session what [`owner`](scm_record::LiveSession::owner) returns of two commits on at least 21
/// columns and two rows: the owner that their window names at the place.
///
/// This is a law: the function does nothing, and is there for its contract.
pub fn sessions_hit_owners_beside()
    ensures { SessionsHitOwnersBeside }
{
    screens_show_beside();
}

/// Proves of each run, as of a [`Recorder`](scm_record::Recorder), what its screenshots show of two commits: the
/// window of the session last drawn, or a blank screen after a `Redraw` in the batch.
///
/// The screen has at least 21 columns and two rows. If the store has only texts that it had and screenshots of the
/// run, as the headline says, those of two commits show their window.
///
/// This is a law: the function does nothing, and is there for its contract.
pub fn runs_show_windows_beside()
    ensures shots { (w : World) → ShotsAreWindowsBeside (Before w) }
    ensures stored { (w : World) (old new : Store)
        → StoreHasShots (Before w) old new → StoreHasShotsBeside (Before w) old new }
{
    screens_show_beside();
}

/// Proves of each run that a click on two commits acts on the owner that their window names at its place, on a screen
/// of at least 21 columns and two rows.
///
/// The run begins with a session that can be drawn, as each `Recorder` and `LiveSession` has one.
///
/// This is a law: the function does nothing, and is there for its contract.
pub fn runs_hit_owners_beside()
    ensures { (w : World) → IsDrawable w.session → ClicksHitOwnersBeside (Before w) }
{
    screens_show_beside();
}
