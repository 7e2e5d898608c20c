//! The copy of a layout's rows that a session lends its frames, and what changed since it was made.
ghost use Rattle.std.specs.Prelude.{◌≡◌, IfOk, IfSome};
ghost use Rattle.scm_layout.specs.declared.state_rows.StateRows.{StateRows};
ghost use Rattle.scm_layout_index.specs.FrameRows.{FitRows, HaveChanged, change_by, forgotten, noted};
ghost use Rattle.scm_layout_index.specs.SharedRows.{AreRowsOfState};

use crate::shared_rows::SharedRows;
use scm_layout::StateRows;
use scm_types::SelectionKey;
use std::alloc::{AllocError, Global};

/// What changed of the rows of a layout since they were copied.
#[derive(Clone, Copy)]
pub enum Change {
    /// Nothing.
    Nothing,
    /// Where files are, and how many rows and folded sections they have.
    Files,
    /// That, and the rows of the sections of this file, counted from 0.
    Sections(usize),
}

/// The copy of a layout's rows that a session lends its frames, if there is one, and what changed
/// since it was made.
#[derive(Drop)]
pub struct FrameRows {
    /// The copy.
    pub(crate) copy: Option<SharedRows>,
    /// What changed since.
    pub(crate) change: Change,
}

/// Returns what the fold of `key` changes.
fn change_by(key: SelectionKey) -> Change
    ensures { result ≡ change_by key }
{
    match key {
        SelectionKey::None | SelectionKey::File(_) | SelectionKey::Line(_) => Change::Files,
        SelectionKey::Section(key) => Change::Sections(key.file_idx),
    }
}

/// Returns `copy` if nothing changed since it was made; else brings it up to date with `rows`. Without
/// a copy, makes one.
fn current(
    alloc: Global,
    copy: Option<SharedRows>,
    change: Change,
    rows: &StateRows,
) -> Result<SharedRows, AllocError>
    requires rows { AreRowsOfState rows.now }
    requires changed { IfSome copy
        (λ (kept : StateRows). HaveChanged change kept.files rows.now.files) }
    ensures { IfOk result (λ shared. shared ≡ rows.now) }
{
    match copy {
        None => SharedRows::new(alloc, rows),
        Some(copy) => match change {
            Change::Nothing => Ok(copy),
            Change::Files => copy.renewed(alloc, rows, None),
            Change::Sections(file) => copy.renewed(alloc, rows, Some(file)),
        },
    }
}

impl FrameRows {
    /// Returns no copy.
    pub fn new() -> FrameRows
        ensures { result ≡ forgotten }
    {
        FrameRows {
            copy: None,
            change: Change::Nothing,
        }
    }

    /// Drops the copy, after other rows than those of one fold changed.
    pub fn forget(&mut self)
        ensures { self.new ≡ forgotten }
    {
        self.copy = None;
        self.change = Change::Nothing;
    }

    /// Notes that `key` was folded or unfolded. A second fold drops the copy.
    pub fn note(&mut self, key: SelectionKey)
        ensures { self.new ≡ noted key self.old.copy self.old.change }
    {
        match self.change {
            Change::Nothing => self.change = change_by(key),
            Change::Files | Change::Sections(_) => self.forget(),
        }
    }

    /// Returns a copy of `rows`, those of a session's layout, for a frame to keep. The copy is made
    /// anew, except for what did not change, if no frame has it.
    ///
    /// # Errors
    /// `AllocError`: an allocation failed; the copy is dropped.
    pub fn share(&mut self, alloc: Global, rows: &StateRows) -> Result<SharedRows, AllocError>
        requires rows { AreRowsOfState rows.now }
        requires fit { FitRows self.old rows.now }
        ensures ok { IfOk result (λ shared. shared ≡ rows.now) }
        ensures fit { FitRows self.new rows.now }
    {
        let copy = current(alloc, self.copy.take(), self.change, rows)?;
        let shared = copy.share()?;
        self.copy = Some(copy);
        self.change = Change::Nothing;
        Ok(shared)
    }
}
