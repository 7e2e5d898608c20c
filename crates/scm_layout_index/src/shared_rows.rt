//! Rows of a layout that a session and its frames share.
ghost use Rattle.std.specs.Prelude.{◌≡◌, false, IfOk};
ghost use Rattle.scm_layout.specs.SectionStack.{shapes_of};
ghost use Rattle.scm_layout_index.specs.FrameRows.{AreSectionsBut, is_named};
ghost use Rattle.scm_layout_index.specs.RowPieces.{RowsFit, rows_by_key, pieces_on};
ghost use Rattle.scm_layout_index.specs.SharedRows.{AreRowsOfState};

use crate::key_pieces::rows_by_key;
use crate::row_pieces::pieces_on;
use scm_document::index_pieces::RowPieces;
use scm_layout::{FileRows, StateRows};
use scm_types::{Items, SelectionKey};
use std::alloc::{AllocError, Global};
use std::marker::Model;
use std::rc::Rc;

/// A copy of the rows of a session's layout. The session and its frames share it, and nothing
/// changes it.
#[derive(Drop)]
pub struct SharedRows {
    /// The rows.
    rows: Rc<StateRows>,
}

impl Model for SharedRows {
    ghost use Rattle.scm_layout.specs.declared.state_rows.StateRows.{StateRows};
    ghost use Rattle.scm_layout_index.specs.RowPieces.{RowsFit};

    ghost Value = { StateRows };

    ghost view = { λ s. s.rows.value };

    ghost invariant = { λ s. RowsFit s.rows.value.files };
}

/// Returns a copy of `rows`.
fn copy_file(alloc: Global, rows: &FileRows) -> Result<FileRows, AllocError>
    ensures { IfOk result (λ copy. copy ≡ rows.now) }
{
    let sections = rows.sections.copy(alloc)?;
    Ok(FileRows {
        top: rows.top,
        end: rows.end,
        folded: rows.folded,
        sections,
    })
}

/// Returns a copy of `rows`.
fn copy_files(alloc: Global, rows: &[FileRows]) -> Result<Items<FileRows>, AllocError>
    ensures { IfOk result (λ copy. copy ≡ rows.now) }
{
    let mut copy = Vec::with_capacity(alloc, rows.len())?;
    for row in rows {
        copy.push(copy_file(alloc, row)?)?;
    }
    Ok(Items::from(copy))
}

/// Returns whether `index` is the file `named`, if one is named.
fn is_named(named: Option<usize>, index: usize) -> bool
    ensures { result ≡ is_named named index }
{
    match named {
        None => false,
        Some(file) => file == index,
    }
}

/// Makes `own` equal to `rows`. They have the same sections, and on the same rows unless `is_changed`.
fn renew_file(own: &mut FileRows, rows: &FileRows, is_changed: bool)
    requires same { is_changed ≡ false → own.old.sections ≡ rows.now.sections }
    requires shapes { shapes_of own.old.sections ≡ shapes_of rows.now.sections }
    ensures { own.new ≡ rows.now }
{
    own.top = rows.top;
    own.end = rows.end;
    own.folded = rows.folded;
    if is_changed {
        own.sections.move_as(&rows.sections);
    }
}

/// Makes `own` equal to `rows`. They have the same sections, and on the same rows except those of file
/// `changed`.
fn renew_files(own: &mut [FileRows], rows: &[FileRows], changed: Option<usize>)
    requires { AreSectionsBut own.old rows.now changed }
    ensures { own.new ≡ rows.now }
{
    for index in 0..rows.len() {
        let is_changed = is_named(changed, index);
        renew_file(&mut own[index], &rows[index], is_changed);
    }
}

impl SharedRows {
    /// Returns a copy of `rows`, which are those of a session's layout.
    ///
    /// # Errors
    /// `AllocError`: an allocation failed.
    pub fn new(alloc: Global, rows: &StateRows) -> Result<SharedRows, AllocError>
        requires { AreRowsOfState rows.now }
        ensures { IfOk result (λ copy. copy ≡ rows.now) }
    {
        let files = copy_files(alloc, rows.files.as_slice())?;
        let rows = Rc::new(alloc, StateRows { files })?;
        Ok(SharedRows { rows })
    }

    /// Returns a copy of `rows`, which are those of a session's layout. They have the same sections as
    /// this copy, and on the same rows except those of file `changed`. If this copy has no other owner,
    /// only the rows of that file are copied.
    ///
    /// # Errors
    /// `AllocError`: an allocation failed.
    pub(crate) fn renewed(
        self,
        alloc: Global,
        rows: &StateRows,
        changed: Option<usize>,
    ) -> Result<SharedRows, AllocError>
        requires rows { AreRowsOfState rows.now }
        requires same { AreSectionsBut self.files rows.now.files changed }
        ensures { IfOk result (λ copy. copy ≡ rows.now) }
    {
        match Rc::try_unwrap(self.rows) {
            Ok(own) => {
                let mut own = own;
                renew_files(own.files.as_mut_slice(), rows.files.as_slice(), changed);
                let rows = Rc::new(alloc, own)?;
                Ok(SharedRows { rows })
            }
            Err(_) => SharedRows::new(alloc, rows),
        }
    }

    /// Returns the same rows for another owner, without a copy.
    ///
    /// # Errors
    /// `AllocError`: there are too many owners to count.
    pub fn share(&self) -> Result<SharedRows, AllocError>
        ensures { IfOk result (λ rows. rows ≡ self.now) }
    {
        let rows = self.rows.clone()?;
        Ok(SharedRows { rows })
    }

    /// Returns the rows.
    pub(crate) fn layout_rows(&self) -> &StateRows
        ensures rows { result.now ≡ self.now }
        ensures fit { RowsFit result.now.files }
    {
        self.rows.as_ref()
    }

    /// Returns the pieces that have row `row` of the document, if any. A header may be pinned to
    /// row `pinned`, and `selection` is selected.
    pub(crate) fn pieces_on(
        &self,
        selection: SelectionKey,
        pinned: usize,
        row: usize,
    ) -> Option<RowPieces>
        ensures { result ≡ pieces_on selection pinned row self.now.files }
    {
        let rows = self.rows.as_ref();
        pieces_on(selection, pinned, &rows.files, row)
    }

    /// Returns the first row of `key` and its number of rows, if it has any.
    pub(crate) fn rows_by_key(&self, key: SelectionKey) -> Option<(usize, usize)>
        ensures { result ≡ rows_by_key self.now.files key }
    {
        let rows = self.rows.as_ref();
        rows_by_key(&rows.files, key)
    }
}
