//! The view state of a session, and the boxes of its marks and folds.
ghost use Rattle.std.specs.Prelude.{◌≡◌};
ghost use Rattle.scm_types.specs.Keys.{is_key};
ghost use Rattle.scm_view.specs.ViewState.{expand_box_of, toggle_box_of};
ghost use Rattle.scm_view_state.specs.ViewState.{new_view_state};

use scm_selection::key_set::KeySet;
use scm_types::keys::is_key;
use scm_types::{Commit, RecordState, Tristate};
use scm_view::{CommitViewMode, ComponentId, QuitDialog, SelectionKey, TristateBox};
use std::marker::Model;

/// The view state of a session: all that the screen depends on, except its size and the scroll.
#[derive(Drop)]
pub struct ViewState<'state> {
    /// The state, with its current marks and messages.
    pub state: RecordState<'state>,
    /// The selected key.
    pub selection: SelectionKey,
    /// The expanded files and sections. After [`expand_all`](ViewState::expand_all) all lines are
    /// expanded too, but this set lacks them: ask [`is_expanded`](ViewState::is_expanded) about a line.
    pub expanded: KeySet,
    /// Whether one commit is shown, or two side by side.
    pub view_mode: CommitViewMode,
    /// The open menu, if any, counted from 0.
    pub open_menu: Option<usize>,
    /// The quit dialog, if it is open.
    pub quit_dialog: Option<QuitDialog>,
    /// Whether the help is open.
    pub is_help_open: bool,
    /// Whether all changed lines of the state are expanded, beside the keys of `expanded`.
    pub(crate) has_all_lines: bool,
    /// A commit without a message, shown for one that the state lacks.
    pub(crate) empty_commit: Commit,
}

impl<'state> Model for ViewState<'state> {
    ghost use Rattle.scm_view.specs.ViewState.{ViewState};

    ghost Value = { ViewState };

    ghost use Rattle.scm_view_state.specs.LineKeys.{with_lines};

    ghost view = { λ s. record {
      state = s.state;
      selection = s.selection;
      expanded = with_lines s.has_all_lines s.state.files s.expanded;
      view_mode = s.view_mode;
      open_menu = s.open_menu;
      quit_dialog = s.quit_dialog;
      is_help_open = s.is_help_open;
    } };

    ghost use Rattle.std.specs.Prelude.{◌≡◌, None};

    ghost invariant = { λ s. s.empty_commit.message ≡ None };
}

impl<'state> ViewState<'state> {
    /// Returns the view state of `state` in which `selection` is selected, and the files and
    /// sections of `expanded` are unfolded. One commit is shown, and no menu or dialog is open.
    pub fn new(
        state: RecordState<'state>,
        selection: SelectionKey,
        expanded: KeySet,
    ) -> ViewState<'state>
        ensures { result ≡ new_view_state state.entry selection expanded }
    {
        ViewState {
            state,
            selection,
            expanded,
            view_mode: CommitViewMode::Inline,
            open_menu: None,
            quit_dialog: None,
            is_help_open: false,
            has_all_lines: false,
            empty_commit: Commit { message: None },
        }
    }

    /// Returns whether `key` is selected.
    pub(crate) fn is_selected(&self, key: SelectionKey) -> bool
        ensures { result ≡ is_key key self.now.selection }
    {
        is_key(key, self.selection)
    }

    /// Returns the toggle box of `key` with the mark `mark`.
    pub fn toggle_box(&self, key: SelectionKey, mark: Tristate) -> TristateBox<ComponentId>
        ensures { result ≡ toggle_box_of self.now key mark }
    {
        TristateBox {
            is_focused: self.is_selected(key),
            is_read_only: self.state.is_read_only,
            ..TristateBox::toggle(key, mark)
        }
    }

    /// Returns the expand box of `key` with the fold `fold`. It is never read-only.
    pub fn expand_box(&self, key: SelectionKey, fold: Tristate) -> TristateBox<ComponentId>
        ensures { result ≡ expand_box_of self.now key fold }
    {
        TristateBox {
            is_focused: self.is_selected(key),
            ..TristateBox::expand(key, fold)
        }
    }
}
