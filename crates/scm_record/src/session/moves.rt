//! Moves of the selection.

use super::{ActiveSession, Flow};
use crate::frame::DrawnFrame;
use crate::pages::{Way, page_key};
use scm_selection::key_lists::first_key;
use scm_selection::moves::{
    first_inside, next_of_kind, next_visible, previous_of_kind, previous_visible,
};
use scm_types::RecordError;
use scm_view::{QuitDialogButtonId, SelectionKey};

impl<'state> ActiveSession<'state> {
    ghost use Rattle.std.specs.Prelude.{◌≡◌, IfErr, IfOk, OnOk};
    ghost use Rattle.scm_errors.specs.declared.error.RecordError.TheVariants.{OutOfMemory};
    ghost use Rattle.scm_widgets.specs.declared.ids.QuitDialogButtonId.TheVariants.{Quit, GoBack};
    ghost use Rattle.scm_selection.specs.KeyLists.{all_keys};
    ghost use Rattle.scm_selection.specs.Moves.{inner_key, next_key};
    ghost use Rattle.scm_types.specs.declared.keys.SelectionKey.TheVariants as keys;
    ghost use Rattle.scm_record.specs.Frames.{IsSceneOf, Scene};
    ghost use Rattle.scm_record.specs.Session.{after_advance, after_inner, after_outer, neighbour, visible, visible_of_kind};
    ghost use Rattle.scm_record.specs.Change.{stays};
    ghost use Rattle.scm_record.specs.Dialogs.{dialog_focused_or};
    ghost use Rattle.scm_record.specs.Pages.{page_key, towards};

    /// Returns the visible key next to the selection in direction `way`. If the selection isn't
    /// visible, returns the first file.
    pub(super) fn neighbour(&self, way: Way) -> SelectionKey
        ensures { result ≡ neighbour way (visible self.now) self.now }
    {
        let expanded = &self.view_state.expanded;
        let files = self.view_state.state.files.as_slice();
        let selection = self.view_state.selection;
        let otherwise = first_key(files);
        match way {
            Way::Up => previous_visible(expanded, files, selection, otherwise),
            Way::Down => next_visible(expanded, files, selection, otherwise),
        }
    }

    /// Returns the nearest visible key of the selection's kind in direction `way`. If the selection
    /// isn't visible, returns the first file.
    pub(super) fn neighbour_of_kind(&self, way: Way) -> SelectionKey
        ensures { result ≡ neighbour way (visible_of_kind self.now) self.now }
    {
        let expanded = &self.view_state.expanded;
        let files = self.view_state.state.files.as_slice();
        let selection = self.view_state.selection;
        let otherwise = first_key(files);
        match way {
            Way::Up => previous_of_kind(expanded, files, selection, otherwise),
            Way::Down => next_of_kind(expanded, files, selection, otherwise),
        }
    }

    /// Returns the next visible key of the selection's kind, or `None` if the selection isn't
    /// visible.
    fn key_to_advance_to(&self) -> SelectionKey
        ensures { result ≡ next_key (visible_of_kind self.now) self.now.shown.selection keys.None }
    {
        let files = self.view_state.state.files.as_slice();
        next_of_kind(
            &self.view_state.expanded,
            files,
            self.view_state.selection,
            SelectionKey::None,
        )
    }

    /// Returns the first key inside the selection, or the selection if there is none.
    fn inner_key(&self) -> SelectionKey
        ensures { result
            ≡ inner_key (all_keys self.now.shown.state.files) self.now.shown.selection }
    {
        first_inside(
            &self.view_state.expanded,
            self.view_state.state.files.as_slice(),
            self.view_state.selection,
        )
    }

    /// Returns the visible key half a screen or more away in direction `way`, as drawn on `frame`.
    pub(super) fn page_key(&self, frame: &DrawnFrame, way: Way) -> SelectionKey
        ensures { (scene : Scene) → IsSceneOf scene frame.now →
            result ≡ page_key scene way (towards way (visible self.now)) self.now.shown.selection }
    {
        page_key(
            frame,
            way,
            &self.view_state.expanded,
            self.view_state.state.files.as_slice(),
            self.view_state.selection,
        )
    }

    /// Focuses the button Quit of an open quit dialog; otherwise selects the first key inside the
    /// selection.
    pub(super) fn focus_inner(&mut self) -> Result<Flow, RecordError>
        ensures ok { IfOk result (λ flow.
            dialog_focused_or self.old Quit (stays (after_inner self.old))
            ≡ record { session = self.new; flow = flow }) }
        ensures err { IfErr result (λ e. e ≡ OutOfMemory) }
    {
        if self.is_quit_dialog_open() {
            self.focus(QuitDialogButtonId::Quit);
        } else {
            self.select(self.inner_key())?;
        }
        Ok(Flow::GoOn)
    }

    /// Folds the selected file, or selects the file or section that contains the selection. If
    /// `fold_section` is true, folds an expanded section that is selected.
    fn select_outer(&mut self, fold_section: bool) -> Result<(), RecordError>
        ensures ok { OnOk result (self.new ≡ after_outer self.old fold_section) }
        ensures err { IfErr result (λ e. e ≡ OutOfMemory) }
    {
        let selection = self.view_state.selection;
        match selection {
            SelectionKey::None => Ok(()),
            SelectionKey::File(_) => Ok(self.fold(selection)?),
            SelectionKey::Section(key) => {
                if fold_section && self.view_state.is_expanded(selection) {
                    Ok(self.fold(selection)?)
                } else {
                    self.select(SelectionKey::File(key.file()))
                }
            }
            SelectionKey::Line(key) => self.select(SelectionKey::Section(key.section())),
        }
    }

    /// Focuses the button Go Back of an open quit dialog; otherwise does what `select_outer` does.
    pub(super) fn focus_outer(&mut self, fold_section: bool) -> Result<Flow, RecordError>
        ensures ok { IfOk result (λ flow.
            dialog_focused_or self.old GoBack (stays (after_outer self.old fold_section))
            ≡ record { session = self.new; flow = flow }) }
        ensures err { IfErr result (λ e. e ≡ OutOfMemory) }
    {
        if self.is_quit_dialog_open() {
            self.focus(QuitDialogButtonId::GoBack);
        } else {
            self.select_outer(fold_section)?;
        }
        Ok(Flow::GoOn)
    }

    /// Selects the next visible key of the selection's kind, or nothing if the selection isn't
    /// visible.
    pub(super) fn advance(&mut self) -> Result<(), RecordError>
        ensures ok { OnOk result (self.new ≡ after_advance self.old) }
        ensures err { IfErr result (λ e. e ≡ OutOfMemory) }
    {
        self.select(self.key_to_advance_to())
    }
}
