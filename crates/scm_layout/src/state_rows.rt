//! The rows of the files of a state, which each fold keeps.
ghost use Rattle.std.specs.Prelude.{◌≡◌, ℕ, ◌+◌, ◌-◌, ◌≤◌, ◌<◌, ◌^◌, length, sum_by, IfOk, IsTrue};
ghost use Rattle.scm_types.specs.Limits.{file_size, max_items};
ghost use Rattle.scm_layout.specs.Rows.{HasAllFiles, each_file_rows, restacked, rows_of, stacked};
ghost use Rattle.scm_layout.specs.Refolds.{AreFilesButKey, AreRowsOfFiles, file_index, index_in, total_height};

use crate::file_rows::FileRows;
use crate::section_rows::Unfolded;
use scm_selection::key_set::KeySet;
use scm_types::keys::FileKey;
use scm_types::{File, Items, SelectionKey};
use std::alloc::{AllocError, Global};

/// The rows of the files of a state.
#[derive(Debug, Drop)]
pub struct StateRows {
    /// The rows of each file.
    pub files: Items<FileRows>,
}

/// Moves files one below the other, the first to row `top`. Each keeps its number of rows.
fn restack(rows: &mut [FileRows], top: usize)
    requires { top + total_height rows.old < 2 ^ 63 }
    ensures { rows.new ≡ stacked top rows.old }
{
    let mut next = top;
    let count = rows.len();
    for index in 0..count {
        let row = &mut rows[index];
        let height = row.end.saturating_sub(row.top);
        row.top = next;
        row.end = next + height;
        next += height;
    }
}

/// Finds the rows of each of `files` anew, from row 0 on.
fn refold_files(
    rows: &mut [FileRows],
    unfolded: Unfolded<'_>,
    commit_idx: usize,
    files: &[File<'_>],
)
    requires rows { AreRowsOfFiles rows.old files.now }
    requires all { IsTrue unfolded.are_all → HasAllFiles unfolded.keys.now commit_idx files.now }
    ensures { rows.new ≡ each_file_rows unfolded.entry.keys.now commit_idx 0 files.now }
{
    for (file_idx, file) in files.iter().enumerate() {
        let key = FileKey {
            commit_idx,
            file_idx,
        };
        rows[file_idx].refold(unfolded, key, file);
    }
}

/// Returns the index of file `key`, if it is a file of commit `commit_idx`.
fn index_in(commit_idx: usize, key: FileKey) -> Option<usize>
    ensures { result ≡ index_in commit_idx key }
{
    (key.commit_idx == commit_idx).then_some(key.file_idx)
}

/// Returns the index of the file of commit `commit_idx` whose rows the fold of `key` changes, if any.
fn file_index(commit_idx: usize, key: SelectionKey) -> Option<usize>
    ensures { result ≡ file_index commit_idx key }
{
    match key {
        SelectionKey::File(key) => index_in(commit_idx, key),
        SelectionKey::Section(key) => index_in(commit_idx, key.file()),
        SelectionKey::None | SelectionKey::Line(_) => None,
    }
}

/// Mends the rows of the file of `files` that `key` names or lies in, if there is one, after `key` was
/// folded or unfolded. Then they are from row 0 on.
fn refold_at(
    rows: &mut [FileRows],
    set: &KeySet,
    commit_idx: usize,
    files: &[File<'_>],
    key: SelectionKey,
)
    requires { AreFilesButKey rows.old set.now commit_idx files.now key }
    ensures stacked { (top : ℕ) → stacked top rows.new
        ≡ stacked top (each_file_rows set.now commit_idx 0 files.now) }
    ensures height { total_height rows.new
        ≡ total_height (each_file_rows set.now commit_idx 0 files.now) }
{
    if let Some(file_idx) = file_index(commit_idx, key) {
        if file_idx < files.len() {
            let file_key = FileKey {
                commit_idx,
                file_idx,
            };
            rows[file_idx].refold_key(set, file_key, &files[file_idx], key);
        }
    }
}

impl StateRows {
    /// Returns the rows of `files`, if the first begins on row `top` and the files and sections of
    /// `set` are unfolded. The sizes of `files` together must be within the limit for a state.
    ///
    /// # Errors
    /// `AllocError`: an allocation failed.
    pub fn new(
        alloc: Global,
        set: &KeySet,
        commit_idx: usize,
        top: usize,
        files: &[File<'_>],
    ) -> Result<StateRows, AllocError>
        requires top { top ≤ max_items }
        requires fits { length files.now + sum_by file_size files.now ≤ max_items }
        ensures { IfOk result (λ rows. rows ≡ rows_of set.now commit_idx top files.now) }
    {
        let mut rows = Vec::with_capacity(alloc, files.len())?;
        for (file_idx, file) in files.iter().enumerate() {
            let key = FileKey {
                commit_idx,
                file_idx,
            };
            rows.push(FileRows::new(alloc, set, key, file)?)?;
        }
        restack(rows.as_mut_slice(), top);
        Ok(StateRows {
            files: Items::from(rows),
        })
    }

    /// Finds all rows of `files` anew after the unfolded files and sections changed.
    fn refold_by(
        &mut self,
        unfolded: Unfolded<'_>,
        commit_idx: usize,
        top: usize,
        files: &[File<'_>],
    )
        requires top { top ≤ max_items }
        requires rows { AreRowsOfFiles self.old.files files.now }
        requires all { IsTrue unfolded.are_all
            → HasAllFiles unfolded.keys.now commit_idx files.now }
        ensures { self.new ≡ rows_of unfolded.entry.keys.now commit_idx top files.now }
    {
        refold_files(self.files.as_mut_slice(), unfolded, commit_idx, files);
        restack(self.files.as_mut_slice(), top);
    }

    /// Finds all rows of `files` anew after `set` changed, without an allocation.
    pub fn refold(&mut self, set: &KeySet, commit_idx: usize, top: usize, files: &[File<'_>])
        requires top { top ≤ max_items }
        requires rows { AreRowsOfFiles self.old.files files.now }
        ensures { self.new ≡ rows_of set.now commit_idx top files.now }
    {
        let unfolded = Unfolded {
            keys: set,
            are_all: false,
        };
        self.refold_by(unfolded, commit_idx, top, files);
    }

    /// Finds all rows of `files` anew after `set` changed, and got all of them and all their sections
    /// that are not context. It looks up no key, and does not allocate.
    pub fn refold_all(&mut self, set: &KeySet, commit_idx: usize, top: usize, files: &[File<'_>])
        requires top { top ≤ max_items }
        requires rows { AreRowsOfFiles self.old.files files.now }
        requires all { HasAllFiles set.now commit_idx files.now }
        ensures { self.new ≡ rows_of set.now commit_idx top files.now }
    {
        let unfolded = Unfolded {
            keys: set,
            are_all: true,
        };
        self.refold_by(unfolded, commit_idx, top, files);
    }

    /// Moves the first file to row `top`, and the others below it. Each keeps its number of rows. It
    /// does not allocate.
    pub fn restack(&mut self, top: usize)
        requires { top + total_height self.old.files < 2 ^ 63 }
        ensures { self.new ≡ restacked top self.old }
    {
        restack(self.files.as_mut_slice(), top);
    }

    /// Mends the rows of `files` after `key` was folded or unfolded, and `set` changed by it alone:
    /// those of its file, and the files below it move. It does not allocate.
    pub(crate) fn refold_key(
        &mut self,
        set: &KeySet,
        commit_idx: usize,
        top: usize,
        files: &[File<'_>],
        key: SelectionKey,
    )
        requires top { top ≤ max_items }
        requires rows { AreFilesButKey self.old.files set.now commit_idx files.now key }
        ensures { self.new ≡ rows_of set.now commit_idx top files.now }
    {
        refold_at(self.files.as_mut_slice(), set, commit_idx, files, key);
        restack(self.files.as_mut_slice(), top);
    }
}
