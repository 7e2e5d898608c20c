//! One commit shown, or two side by side.

use super::ActiveSession;
use scm_view::CommitViewMode;

impl<'state> ActiveSession<'state> {
    ghost use Rattle.std.specs.Prelude.{◌≡◌};
    ghost use Rattle.scm_record.specs.Session.{in_other_mode};

    /// Switches between one commit shown and two side by side.
    pub(super) fn flip_mode(&mut self)
        ensures { self.new ≡ in_other_mode self.old }
    {
        self.view_state.view_mode = match self.view_state.view_mode {
            CommitViewMode::Inline => CommitViewMode::Adjacent,
            CommitViewMode::Adjacent => CommitViewMode::Inline,
        };
    }
}
