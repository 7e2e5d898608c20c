//! The help and the quit dialog: how they are opened, closed and used.
use super::{ActiveSession, Flow};
use scm_selection::counts::message_count;
use scm_view::{QuitDialog, QuitDialogButtonId};

impl<'state> ActiveSession<'state> {
    ghost use Rattle.std.specs.Prelude.{◌≡◌, ◌-◌, ◌^◌, min, not, None, option_map, if◌then◌else◌};
    ghost use Rattle.scm_selection.specs.Counts.{changed_count};
    ghost use Rattle.scm_record.specs.Marked.{checked_lines};
    ghost use Rattle.scm_record.specs.Session.{with_dialog, with_help};
    ghost use Rattle.scm_record.specs.Change.{accepts, cancels, stays};
    ghost use Rattle.scm_record.specs.Dialogs.{after_quit_request, button_of, dialog_closed_or, with_focus, help_closed_or, is_quit_dialog_open, after_press};

    /// Returns whether the quit dialog is open.
    pub(crate) fn is_quit_dialog_open(&self) -> bool
        ensures { result ≡ is_quit_dialog_open self.now }
    {
        self.view_state.quit_dialog.is_some()
    }

    /// Returns the number of files that are not wholly unchecked. Reads the layout's total, and no file.
    pub(crate) fn changed_files(&self) -> usize
        ensures { result ≡ changed_count self.now.shown.state }
    {
        self.layout.counts.changed_files
    }

    /// Returns the number of checked lines, at most `usize::MAX`. Reads the layout's total, and no file.
    pub(crate) fn checked_lines(&self) -> usize
        ensures { result ≡ min (checked_lines self.now.shown.state.files) (2 ^ 64 - 1) }
    {
        self.layout.counts.checked_lines
    }

    /// Opens the quit dialog if changes or messages would be lost; otherwise cancels.
    fn ask(&mut self) -> Flow
        ensures { after_quit_request self.old ≡ record { session = self.new; flow = result } }
    {
        let num_commit_messages = message_count(&self.view_state.state);
        let num_changed_files = self.changed_files();
        if num_commit_messages == 0 && num_changed_files == 0 {
            return Flow::Cancel;
        }
        self.view_state.quit_dialog = Some(QuitDialog {
            num_commit_messages,
            num_changed_files,
            focused_button: QuitDialogButtonId::Quit,
        });
        Flow::GoOn
    }

    /// Opens the help, or closes it if it is open.
    pub(super) fn flip_help(&mut self)
        ensures { self.new ≡ with_help self.old (not self.old.shown.is_help_open) }
    {
        self.view_state.is_help_open = !self.view_state.is_help_open;
    }

    /// Closes the help if it is open; otherwise accepts the changes.
    pub(super) fn accept(&mut self) -> Flow
        ensures { help_closed_or self.old (accepts self.old)
            ≡ record { session = self.new; flow = result } }
    {
        if self.view_state.is_help_open {
            self.view_state.is_help_open = false;
            Flow::GoOn
        } else {
            Flow::Accept
        }
    }

    /// Closes the help or the quit dialog if one is open; otherwise does what `ask` does.
    pub(super) fn cancel(&mut self) -> Flow
        ensures { help_closed_or self.old (dialog_closed_or self.old (after_quit_request self.old))
            ≡ record { session = self.new; flow = result } }
    {
        if self.view_state.is_help_open {
            self.view_state.is_help_open = false;
            Flow::GoOn
        } else if self.is_quit_dialog_open() {
            self.view_state.quit_dialog = None;
            Flow::GoOn
        } else {
            self.ask()
        }
    }

    /// Closes the help if it is open; otherwise closes the quit dialog.
    pub(super) fn escape(&mut self)
        ensures { help_closed_or self.old (stays (with_dialog self.old None)) ≡ stays self.new }
    {
        if self.view_state.is_help_open {
            self.view_state.is_help_open = false;
        } else {
            self.view_state.quit_dialog = None;
        }
    }

    /// Cancels if the quit dialog is open; otherwise does what `ask` does.
    pub(super) fn interrupt(&mut self) -> Flow
        ensures { (if is_quit_dialog_open self.old then cancels self.old
            else after_quit_request self.old) ≡ record { session = self.new; flow = result } }
    {
        if self.is_quit_dialog_open() {
            Flow::Cancel
        } else {
            self.ask()
        }
    }

    /// Moves the focus of the quit dialog, if it is open, to `button`.
    pub(super) fn focus(&mut self, button: QuitDialogButtonId)
        ensures { self.new
            ≡ with_dialog self.old (option_map (with_focus button) self.old.shown.quit_dialog) }
    {
        if let Some(dialog) = &mut self.view_state.quit_dialog {
            dialog.focused_button = button;
        }
    }

    /// Returns the focused button of the quit dialog, or Quit if the dialog is closed.
    fn focused_button(&self) -> QuitDialogButtonId
        ensures { result ≡ button_of self.now.shown.quit_dialog }
    {
        match &self.view_state.quit_dialog {
            None => QuitDialogButtonId::Quit,
            Some(dialog) => dialog.focused_button,
        }
    }

    /// Presses `button` of the quit dialog.
    pub(super) fn press_button(&mut self, button: QuitDialogButtonId) -> Flow
        ensures { after_press self.old button ≡ record { session = self.new; flow = result } }
    {
        match button {
            QuitDialogButtonId::Quit => Flow::Cancel,
            QuitDialogButtonId::GoBack => {
                self.view_state.quit_dialog = None;
                Flow::GoOn
            }
        }
    }

    /// Presses the focused button of the quit dialog.
    pub(super) fn press(&mut self) -> Flow
        ensures { after_press self.old (button_of self.old.shown.quit_dialog)
            ≡ record { session = self.new; flow = result } }
    {
        self.press_button(self.focused_button())
    }
}
