//! The layout of a state, which each toggle and fold keeps.
ghost use Rattle.std.specs.Prelude.{◌≡◌, ◌≤◌, true, List, IfErr, IfOk, OnErr, OnOk};
ghost use Rattle.scm_errors.specs.declared.error.RecordError.TheVariants.{OutOfMemory};
ghost use Rattle.scm_selection.specs.KeySet.{with_key, with_key_flipped, without_key};
ghost use Rattle.scm_types.specs.declared.keys.SelectionKey.{SelectionKey};
ghost use Rattle.scm_types.specs.declared.state.Commit.{Commit};
ghost use Rattle.scm_types.specs.Keys.{has_key};
ghost use Rattle.scm_types.specs.Limits.{max_items, state_size};
ghost use Rattle.scm_selection.specs.Toggle.{with_all_inverted, with_all_set, with_key_toggled};
ghost use Rattle.scm_layout.specs.Layouts.{files_top, layout_of, IsLayoutBut, IsLayoutButCommits, IsLayoutOf};
ghost use Rattle.scm_layout.specs.Rows.{HasAllFiles};

use crate::state_counts::StateCounts;
use crate::state_rows::StateRows;
use scm_rows::message_rows::message_height;
use scm_selection::key_set::KeySet;
use scm_types::{Commit, RecordError, RecordState, SelectionKey};
use std::alloc::{AllocError, Global};

/// The layout of a state.
#[derive(Debug, Drop)]
pub struct Layout {
    /// The counts of its files.
    pub counts: StateCounts,
    /// The rows of its files.
    pub rows: StateRows,
}

/// Returns the first row of the files, if the message of the first of `commits` is above them.
fn files_top(commits: &[Commit]) -> usize
    ensures { result ≡ files_top commits.now }
{
    match commits.get(0) {
        Some(commit) => 1 + message_height(commit),
        None => 1,
    }
}

impl Layout {
    /// Returns the layout of `state`, which must be within the limit of its size, if the files and
    /// sections of `expanded` are unfolded.
    ///
    /// # Errors
    /// `AllocError`: an allocation failed.
    pub fn new(
        alloc: Global,
        state: &RecordState<'_>,
        expanded: &KeySet,
    ) -> Result<Layout, AllocError>
        requires { state_size state.now ≤ max_items }
        ensures { IfOk result (λ layout. layout ≡ layout_of state.now expanded.now) }
    {
        let files = state.files.as_slice();
        let top = files_top(state.commits.as_slice());
        let counts = StateCounts::new(alloc, files)?;
        let rows = StateRows::new(alloc, expanded, 0, top, files)?;
        Ok(Layout { counts, rows })
    }

    /// Finds the rows of `state` anew after the unfolded files and sections became those of
    /// `expanded`. It does not allocate.
    pub fn refold(&mut self, state: &RecordState<'_>, expanded: &KeySet)
        requires layout { IsLayoutOf self.old state.now }
        requires size { state_size state.now ≤ max_items }
        ensures { self.new ≡ layout_of state.now expanded.now }
    {
        let top = files_top(state.commits.as_slice());
        self.rows.refold(expanded, 0, top, state.files.as_slice());
    }

    /// Finds the rows of `state` anew after all its files were unfolded, and all their sections that are
    /// not context. It looks up no key of `expanded`, and does not allocate.
    pub fn refold_all(&mut self, state: &RecordState<'_>, expanded: &KeySet)
        requires layout { IsLayoutOf self.old state.now }
        requires size { state_size state.now ≤ max_items }
        requires all { HasAllFiles expanded.now 0 state.now.files }
        ensures { self.new ≡ layout_of state.now expanded.now }
    {
        let top = files_top(state.commits.as_slice());
        self.rows
            .refold_all(expanded, 0, top, state.files.as_slice());
    }

    /// Mends the rows of `state` after `expanded`, which had `key` if `was_unfolded`, changed at most by
    /// `key`: those of its file, and the files below it move. It does not allocate.
    fn refold_key(
        &mut self,
        state: &RecordState<'_>,
        expanded: &KeySet,
        key: SelectionKey,
        was_unfolded: bool,
    )
        requires layout { IsLayoutBut self.old state.now expanded.now key was_unfolded }
        requires size { state_size state.now ≤ max_items }
        ensures { self.new ≡ layout_of state.now expanded.now }
    {
        if expanded.contains(key) != was_unfolded {
            let files = state.files.as_slice();
            let top = files_top(state.commits.as_slice());
            self.rows.refold_key(expanded, 0, top, files, key);
        }
    }

    /// Removes `key` from `expanded` if it has it, else adds it, and mends the rows of `state`.
    ///
    /// # Errors
    /// `OutOfMemory`: an allocation failed; nothing is changed.
    pub fn flip(
        &mut self,
        state: &RecordState<'_>,
        expanded: &mut KeySet,
        key: SelectionKey,
    ) -> Result<(), RecordError>
        requires layout { self.old ≡ layout_of state.now expanded.old }
        requires size { state_size state.now ≤ max_items }
        ensures set { OnOk result (expanded.new ≡ with_key_flipped expanded.old key) }
        ensures layout { self.new ≡ layout_of state.now expanded.new }
        ensures unchanged { OnErr result (expanded.new ≡ expanded.old) }
        ensures err { IfErr result (λ e. e ≡ OutOfMemory) }
    {
        let was_unfolded = expanded.contains(key);
        expanded.flip(key)?;
        self.refold_key(state, expanded, key, was_unfolded);
        Ok(())
    }

    /// Adds `key` to `expanded`, and mends the rows of `state` if `expanded` lacked it.
    ///
    /// # Errors
    /// `OutOfMemory`: an allocation failed; nothing is changed.
    pub fn unfold(
        &mut self,
        state: &RecordState<'_>,
        expanded: &mut KeySet,
        key: SelectionKey,
    ) -> Result<(), RecordError>
        requires layout { self.old ≡ layout_of state.now expanded.old }
        requires size { state_size state.now ≤ max_items }
        ensures set { OnOk result (expanded.new ≡ with_key expanded.old key) }
        ensures layout { self.new ≡ layout_of state.now expanded.new }
        ensures kept { has_key expanded.old key ≡ true → self.new ≡ self.old }
        ensures unchanged { OnErr result (expanded.new ≡ expanded.old) }
        ensures err { IfErr result (λ e. e ≡ OutOfMemory) }
    {
        let was_folded = !expanded.contains(key);
        expanded.insert(key)?;
        if was_folded {
            self.refold_key(state, expanded, key, false);
        }
        Ok(())
    }

    /// Removes `key` from `expanded`, if it has it, and mends the rows of `state`.
    pub fn fold(&mut self, state: &RecordState<'_>, expanded: &mut KeySet, key: SelectionKey)
        requires layout { self.old ≡ layout_of state.now expanded.old }
        requires size { state_size state.now ≤ max_items }
        ensures set { expanded.new ≡ without_key expanded.old key }
        ensures layout { self.new ≡ layout_of state.now expanded.new }
    {
        let was_unfolded = expanded.contains(key);
        expanded.remove(key);
        self.refold_key(state, expanded, key, was_unfolded);
    }

    /// Moves the files of `state` below the message of its first commit, after commits changed. It
    /// does not allocate.
    pub fn restack(&mut self, state: &RecordState<'_>)
        requires layout { IsLayoutButCommits self.old state.now }
        requires size { state_size state.now ≤ max_items }
        ensures { (before : List Commit) (expanded : List SelectionKey)
            → self.old ≡ layout_of (record state.now { commits = before }) expanded
            → self.new ≡ layout_of state.now expanded }
    {
        let below_message = files_top(state.commits.as_slice());
        self.rows.restack(below_message);
    }

    /// Toggles what `key` names in `state`, and mends the counts. The rows stay as they are.
    pub fn toggle_key(&mut self, state: &mut RecordState<'_>, key: SelectionKey)
        requires layout { IsLayoutOf self.old state.old }
        requires size { state_size state.old ≤ max_items }
        ensures state { state.new
            ≡ record state.old { files = with_key_toggled key state.old.files } }
        ensures layout { (expanded : List SelectionKey)
            → self.old ≡ layout_of state.old expanded → self.new ≡ layout_of state.new expanded }
        ensures rows { self.new.rows ≡ self.old.rows }
        ensures size { state_size state.new ≡ state_size state.old }
    {
        self.counts.toggle_key(state.files.as_mut_slice(), key);
    }

    /// Inverts every mark of `state`, and mends the counts. The rows stay as they are.
    pub fn invert_all(&mut self, state: &mut RecordState<'_>)
        requires layout { IsLayoutOf self.old state.old }
        requires size { state_size state.old ≤ max_items }
        ensures state { state.new ≡ record state.old { files = with_all_inverted state.old.files } }
        ensures layout { (expanded : List SelectionKey)
            → self.old ≡ layout_of state.old expanded → self.new ≡ layout_of state.new expanded }
        ensures rows { self.new.rows ≡ self.old.rows }
        ensures size { state_size state.new ≡ state_size state.old }
    {
        self.counts.invert_all(state.files.as_mut_slice());
    }

    /// Sets every mark of `state` as [`scm_selection::toggles::set_all`] does, and mends the counts.
    /// The rows stay as they are.
    pub fn set_all(&mut self, state: &mut RecordState<'_>)
        requires layout { IsLayoutOf self.old state.old }
        requires size { state_size state.old ≤ max_items }
        ensures state { state.new ≡ record state.old { files = with_all_set state.old.files } }
        ensures layout { (expanded : List SelectionKey)
            → self.old ≡ layout_of state.old expanded → self.new ≡ layout_of state.new expanded }
        ensures rows { self.new.rows ≡ self.old.rows }
        ensures size { state_size state.new ≡ state_size state.old }
    {
        self.counts.set_all(state.files.as_mut_slice());
    }
}
