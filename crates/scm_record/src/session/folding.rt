//! Folding and expanding files and sections.

use super::ActiveSession;
use scm_types::RecordError;
use scm_view::SelectionKey;
use std::alloc::AllocError;

impl<'state> ActiveSession<'state> {
    ghost use Rattle.std.specs.Prelude.{◌≡◌, [], false, IfErr, OnOk};
    ghost use Rattle.scm_errors.specs.declared.error.RecordError.TheVariants.{OutOfMemory};
    ghost use Rattle.scm_selection.specs.KeyLists.{all_keys, is_line};
    ghost use Rattle.scm_selection.specs.KeySet.{key_set, with_key_flipped};
    ghost use Rattle.scm_record.specs.SessionView.{with_expanded};
    ghost use Rattle.scm_record.specs.Session.{after_expand, after_expand_all, after_fold};

    /// Folds `key`, the key of a file or a section.
    pub(super) fn fold(&mut self, key: SelectionKey) -> Result<(), AllocError>
        requires { is_line key ≡ false }
        ensures { OnOk result (self.new ≡ after_fold self.old key) }
    {
        self.frame_rows.note(key);
        let shown = &mut self.view_state;
        self.layout.fold(&shown.state, &mut shown.expanded, key);
        self.ensure_selection_in_viewport()
    }

    /// Flips the fold of `key`, the key of a file or a section.
    fn flip(&mut self, key: SelectionKey) -> Result<(), RecordError>
        requires { is_line key ≡ false }
        ensures ok { OnOk result (self.new
            ≡ with_expanded self.old (with_key_flipped self.old.shown.expanded key)) }
        ensures err { IfErr result (λ e. e ≡ OutOfMemory) }
    {
        self.frame_rows.note(key);
        let shown = &mut self.view_state;
        self.layout.flip(&shown.state, &mut shown.expanded, key)
    }

    /// Folds everything.
    fn fold_all(&mut self)
        ensures { self.new ≡ with_expanded self.old [] }
    {
        let alloc = self.allocator();
        self.frame_rows.forget();
        self.view_state.fold_all(alloc);
        self.view_state.refold(&mut self.layout);
    }

    /// Expands all keys.
    fn expand_all(&mut self) -> Result<(), RecordError>
        ensures ok { OnOk result (self.new
            ≡ with_expanded self.old (key_set (all_keys self.old.shown.state.files))) }
        ensures err { IfErr result (λ e. e ≡ OutOfMemory) }
    {
        let alloc = self.allocator();
        self.view_state.expand_all(alloc)?;
        self.frame_rows.forget();
        self.view_state.refold_all(&mut self.layout);
        Ok(())
    }

    /// Flips the fold of the selected file or section.
    pub(super) fn flip_fold(&mut self) -> Result<(), RecordError>
        ensures ok { OnOk result (self.new ≡ after_expand self.old) }
        ensures err { IfErr result (λ e. e ≡ OutOfMemory) }
    {
        let selection = self.view_state.selection;
        match selection {
            SelectionKey::None | SelectionKey::Line(_) => {}
            SelectionKey::File(_) | SelectionKey::Section(_) => {
                self.flip(selection)?;
            }
        }
        self.ensure_selection_in_viewport()?;
        Ok(())
    }

    /// Folds everything if the expanded keys are exactly all keys; otherwise expands all keys.
    pub(super) fn flip_all_folds(&mut self) -> Result<(), RecordError>
        ensures ok { OnOk result (self.new ≡ after_expand_all self.old) }
        ensures err { IfErr result (λ e. e ≡ OutOfMemory) }
    {
        if self.view_state.are_all_keys_expanded(self.allocator())? {
            self.fold_all();
            self.view_state.selection = self.view_state.selection.file();
        } else {
            self.expand_all()?;
        }
        self.ensure_selection_in_viewport()?;
        Ok(())
    }
}
