//! Searches by bisection for the file that has a row.
ghost use Rattle.std.specs.Prelude.{◌≡◌, ◌≤◌, length};
ghost use Rattle.std.specs.List.Sorted.{IsNonDecreasingBy};
ghost use Rattle.scm_layout.specs.declared.file_rows.FileRows.{FileRows};
ghost use Rattle.scm_layout.specs.Searches.{FilesFollow, count_to, file_on};

use crate::file_rows::FileRows;

/// Returns how many of `files` begin on row `row` or above, counted like their own rows.
pub fn files_begun(files: &[FileRows], row: usize) -> usize
    requires { IsNonDecreasingBy (λ (r : FileRows). r.top) files.now }
    ensures count { result ≡ count_to (λ (r : FileRows). r.top) row files.now }
    ensures most { result ≤ length files.now }
{
    files.partition_point(|file| file.top <= row)
}

/// Returns the index of the file of `files` that has row `row`, counted like their own rows, if any.
pub fn file_on(files: &[FileRows], row: usize) -> Option<usize>
    requires { FilesFollow files.now }
    ensures { result ≡ file_on row files.now }
{
    let count = files_begun(files, row);
    if count == 0 {
        return None;
    }
    let last = count - 1;
    if row < files[last].end {
        Some(last)
    } else {
        None
    }
}
