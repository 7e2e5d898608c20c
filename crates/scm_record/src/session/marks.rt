//! Checking and unchecking items.

use super::{ActiveSession, Flow};
use scm_types::RecordError;

impl<'state> ActiveSession<'state> {
    ghost use Rattle.std.specs.Prelude.{◌≡◌, IfErr, IfOk};
    ghost use Rattle.scm_errors.specs.declared.error.RecordError.TheVariants.{OutOfMemory};
    ghost use Rattle.scm_record.specs.Session.{after_advance, after_toggle, after_toggle_all, after_toggle_all_uniform};
    ghost use Rattle.scm_record.specs.Change.{stays};
    ghost use Rattle.scm_record.specs.Dialogs.{dialog_pressed_or, help_closed_or};

    /// Toggles the selected item, unless the state is read-only.
    pub(super) fn toggle(&mut self)
        ensures { self.new ≡ after_toggle self.old }
    {
        if !self.view_state.state.is_read_only {
            let key = self.view_state.selection;
            self.layout.toggle_key(&mut self.view_state.state, key);
        }
    }

    /// Closes the help if it is open; otherwise presses the focused button of an open quit dialog;
    /// otherwise toggles the selected item.
    pub(super) fn toggle_item(&mut self) -> Flow
        ensures { help_closed_or self.old
            (dialog_pressed_or self.old (stays (after_toggle self.old)))
            ≡ record { session = self.new; flow = result } }
    {
        if self.view_state.is_help_open {
            self.view_state.is_help_open = false;
            Flow::GoOn
        } else if self.is_quit_dialog_open() {
            self.press()
        } else {
            self.toggle();
            Flow::GoOn
        }
    }

    /// Does what `toggle_item` does, and after a toggle selects the next key of the selection's
    /// kind.
    pub(super) fn toggle_item_and_advance(&mut self) -> Result<Flow, RecordError>
        ensures ok { IfOk result (λ flow. help_closed_or self.old
            (dialog_pressed_or self.old (stays (after_advance (after_toggle self.old))))
            ≡ record { session = self.new; flow = flow }) }
        ensures err { IfErr result (λ e. e ≡ OutOfMemory) }
    {
        if self.view_state.is_help_open {
            self.view_state.is_help_open = false;
            Ok(Flow::GoOn)
        } else if self.is_quit_dialog_open() {
            Ok(self.press())
        } else {
            self.toggle();
            self.advance()?;
            Ok(Flow::GoOn)
        }
    }

    /// Inverts the check of every item, unless the state is read-only.
    pub(super) fn toggle_all(&mut self)
        ensures { self.new ≡ after_toggle_all self.old }
    {
        if !self.view_state.state.is_read_only {
            self.layout.invert_all(&mut self.view_state.state);
        }
    }

    /// Unchecks every item if all are checked; otherwise checks every item. If the state is
    /// read-only, this is a no-op.
    pub(super) fn toggle_all_uniform(&mut self)
        ensures { self.new ≡ after_toggle_all_uniform self.old }
    {
        if !self.view_state.state.is_read_only {
            self.layout.set_all(&mut self.view_state.state);
        }
    }
}
