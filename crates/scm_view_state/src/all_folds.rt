//! The folds of all keys at once. All lines together are one flag of the view state, so that no set has
//! a key for each of them.
ghost use Rattle.std.specs.Prelude.{◌≡◌, [], IfErr, IfOk, OnErr, OnOk};
ghost use Rattle.scm_errors.specs.declared.error.RecordError.TheVariants.{OutOfMemory};
ghost use Rattle.scm_types.specs.Keys.{has_key};
ghost use Rattle.scm_selection.specs.KeyLists.{all_keys};
ghost use Rattle.scm_selection.specs.KeySet.{is_same_set, key_set};

use crate::line_keys::{has_exactly_all, is_line_of};
use crate::view_state::ViewState;
use scm_selection::key_set::KeySet;
use scm_types::RecordError;
use scm_view::SelectionKey;
use std::alloc::Global;

impl<'state> ViewState<'state> {
    /// Returns whether `key` is expanded.
    pub fn is_expanded(&self, key: SelectionKey) -> bool
        ensures { result ≡ has_key self.now.expanded key }
    {
        let is_kept = self.expanded.contains(key);
        let is_line = is_line_of(self.state.files.as_slice(), key);
        is_kept | (self.has_all_lines & is_line)
    }

    /// Returns whether the expanded keys are exactly all keys of the state: those of its files, of its
    /// sections that are not context, and of its changed lines.
    ///
    /// # Errors
    /// `OutOfMemory`: an allocation failed.
    pub fn are_all_keys_expanded(&self, alloc: Global) -> Result<bool, RecordError>
        ensures ok { IfOk result (λ are_all. are_all
            ≡ is_same_set self.now.expanded (key_set (all_keys self.now.state.files))) }
        ensures err { IfErr result (λ e. e ≡ OutOfMemory) }
    {
        let files = self.state.files.as_slice();
        if self.has_all_lines {
            self.expanded.has_exactly_files(alloc, files)
        } else {
            has_exactly_all(alloc, &self.expanded, files)
        }
    }

    /// Expands all keys of the state.
    ///
    /// # Errors
    /// `OutOfMemory`: an allocation failed; nothing is changed.
    pub fn expand_all(&mut self, alloc: Global) -> Result<(), RecordError>
        ensures ok { OnOk result (self.new
            ≡ record self.old { expanded = key_set (all_keys self.old.state.files) }) }
        ensures unchanged { OnErr result (self.new ≡ self.old) }
        ensures err { IfErr result (λ e. e ≡ OutOfMemory) }
    {
        let others = KeySet::of_files(alloc, self.state.files.as_slice())?;
        self.expanded = others;
        self.has_all_lines = true;
        Ok(())
    }

    /// Folds everything. The set takes memory from `alloc` once keys are added.
    pub fn fold_all(&mut self, alloc: Global)
        ensures { self.new ≡ record self.old { expanded = [] } }
    {
        self.expanded = KeySet::new(alloc);
        self.has_all_lines = false;
    }
}
