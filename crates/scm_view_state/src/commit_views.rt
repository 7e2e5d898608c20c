//! The views of the commits, and the view of the whole screen.
ghost use Rattle.std.specs.Prelude.{◌≡◌, [], length, IfOk, IfErr, IsTrue};
ghost use Rattle.scm_errors.specs.declared.error.RecordError.TheVariants.{OutOfMemory};
ghost use Rattle.scm_types.specs.Limits.{is_accepted_state};
ghost use Rattle.scm_overlay.specs.Tables.{menus_with};
ghost use Rattle.scm_view.specs.AppView.{ShowInOrder, ShowsSession, has_help};
ghost use Rattle.scm_document.specs.ViewColumns.{view_count};
ghost use Rattle.scm_view.specs.ViewState.{Shows, commit_at};

use crate::file_views::file_views;
use crate::menus::menu_bar;
use crate::view_state::ViewState;
use scm_types::{Commit, Items, RecordError};
use scm_view::{AppView, CommitMessageView, CommitView, CommitViewMode, HelpDialog};
use std::alloc::Global;

impl<'state> ViewState<'state> {
    /// Returns commit `commit_idx`, counted from 0, or one without a message if there is none.
    pub(crate) fn commit_at(&self, commit_idx: usize) -> &Commit
        ensures { result.now ≡ commit_at commit_idx self.now.state.commits }
    {
        match self.state.commits.get(commit_idx) {
            Some(commit) => commit,
            None => &self.empty_commit,
        }
    }

    /// Returns the view of the document of commit `commit_idx`, counted from 0. The state must be
    /// within the limits, see [`RecordState::is_accepted`](scm_types::RecordState::is_accepted).
    ///
    /// # Errors
    /// `OutOfMemory`: an allocation failed.
    pub fn commit_view(
        &self,
        alloc: Global,
        commit_idx: usize,
    ) -> Result<CommitView<'_>, RecordError>
        requires { IsTrue (is_accepted_state self.now.state) }
        ensures ok { IfOk result (λ view. Shows view self.now commit_idx) }
        ensures err { IfErr result (λ e. e ≡ OutOfMemory) }
    {
        let file_views = file_views(self, alloc, commit_idx, self.state.files.as_slice())?;
        Ok(CommitView {
            commit_message_view: CommitMessageView {
                commit_idx,
                commit: self.commit_at(commit_idx),
            },
            file_views,
        })
    }

    /// Returns the views of the commits: one, or two that are drawn side by side.
    fn commit_views(&self, alloc: Global) -> Result<Items<CommitView<'_>>, RecordError>
        requires { IsTrue (is_accepted_state self.now.state) }
        ensures ok { IfOk result (λ views. ShowInOrder views self.now 0) }
        ensures count { IfOk result (λ views. length views ≡ view_count self.now.view_mode) }
        ensures err { IfErr result (λ e. e ≡ OutOfMemory) }
    {
        let mut views = Vec::new(alloc);
        views.push(self.commit_view(alloc, 0)?)?;
        if let CommitViewMode::Adjacent = self.view_mode {
            views.push(self.commit_view(alloc, 1)?)?;
        }
        Ok(Items::from(views))
    }

    /// Returns the view of the whole screen, in which only the open menu has items. The state must
    /// be within the limits, see [`RecordState::is_accepted`](scm_types::RecordState::is_accepted).
    ///
    /// # Errors
    /// `OutOfMemory`: an allocation failed.
    pub fn app_view(&self, alloc: Global) -> Result<AppView<'_>, RecordError>
        requires { IsTrue (is_accepted_state self.now.state) }
        ensures ok { IfOk result (λ view. ShowsSession view self.now) }
        ensures err { IfErr result (λ e. e ≡ OutOfMemory) }
    {
        let menu_bar = menu_bar(alloc, self.open_menu)?;
        let commit_views = self.commit_views(alloc)?;
        Ok(AppView {
            menu_bar,
            commit_view_mode: self.view_mode,
            commit_views,
            quit_dialog: self.quit_dialog,
            help_dialog: self.is_help_open.then_some(HelpDialog()),
        })
    }

    /// Returns a view of the menu bar and of the open dialogs, without documents. It costs the same for each
    /// state.
    ///
    /// # Errors
    /// `OutOfMemory`: an allocation failed.
    pub fn overlay_view(&self, alloc: Global) -> Result<AppView<'_>, RecordError>
        ensures documents { IfOk result (λ view. view.commit_views ≡ []) }
        ensures menu_bar { IfOk result
            (λ view. view.menu_bar ≡ menus_with self.now.open_menu) }
        ensures quit { IfOk result (λ view. view.quit_dialog ≡ self.now.quit_dialog) }
        ensures help { IfOk result
            (λ view. has_help view.help_dialog ≡ self.now.is_help_open) }
        ensures err { IfErr result (λ e. e ≡ OutOfMemory) }
    {
        Ok(AppView {
            menu_bar: menu_bar(alloc, self.open_menu)?,
            commit_view_mode: self.view_mode,
            commit_views: Items::new(alloc),
            quit_dialog: self.quit_dialog,
            help_dialog: self.is_help_open.then_some(HelpDialog()),
        })
    }
}
