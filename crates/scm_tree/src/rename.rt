//! Renamed files.
ghost use Rattle.std.specs.Prelude.{◌≡◌, false, true};
ghost use Rattle.scm_tree.specs.Renames.{IsBadRename, IsRename, is_one, is_one_of};

use crate::row::Row;

/// The two paths of a renamed file, as numbers of rows.
#[derive(Clone, Copy)]
pub(crate) struct Rename {
    /// The row of the old path.
    pub(crate) old: usize,

    /// The row of the new path.
    pub(crate) new: usize,
}

/// Returns whether exactly one of the two holds.
fn is_one(first: bool, second: bool) -> bool
    ensures { result ≡ is_one first second }
{
    if first { !second } else { second }
}

/// Returns whether two paths have one file, which is there at one of them, and asked for at one of them.
fn is_one_of(old: &Row<'_>, new: &Row<'_>) -> bool
    ensures { result ≡ is_one_of old.now new.now }
{
    let now = is_one(old.current.is_some(), new.current.is_some());
    let wanted = is_one(old.wanted.is_some(), new.wanted.is_some());
    (old.file == new.file) & now & wanted
}

/// Returns whether the rows of `rename` are those of a renamed file.
pub(crate) fn is_rename(rows: &[Row<'_>], rename: Rename) -> bool
    ensures yes { result ≡ true → IsRename rows.now rename }
    ensures no { result ≡ false → IsBadRename rows.now rename }
{
    if rename.old >= rows.len() {
        return false;
    }
    if rename.new >= rows.len() {
        return false;
    }
    is_one_of(&rows[rename.old], &rows[rename.new])
}
