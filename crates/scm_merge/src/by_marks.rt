//! What marks make of a merge.
ghost use Rattle.std.specs.Prelude.{◌≡◌, ℕ, List, IfOk, false, true};
ghost use Rattle.scm_merge.specs.Marked.{IsMergedByMarks, IsMergedFile};
ghost use Rattle.scm_merge.specs.Records.{texts_of};

use crate::open::open_conflicts;
use crate::result::merged_bytes;
use crate::texts::{Texts, file_of_texts, texts_of};
use scm_embed::{has_items, mark_file};
use scm_types::File;
use std::alloc::{AllocError, Global};

/// What marks make of a merge.
#[derive(Drop)]
pub struct Merged {
    /// The bytes of the merge: the lines that are taken, and those that are taken without asking.
    pub bytes: Vec<u8>,

    /// How many conflicts are open: nothing of them is taken.
    pub open: usize,
}

/// Sets the marks in `file`, if they are as many as its items, and returns what they make of it.
fn merged_of(alloc: Global, file: &mut File<'_>, marks: &[u8]) -> Result<Option<Merged>, AllocError>
    ensures { IfOk result (IsMergedFile marks.now file.old) }
{
    if !has_items(file, marks.len()) {
        return Ok(None);
    }
    mark_file(file, marks);
    let open = open_conflicts(file);
    let bytes = merged_bytes(alloc, file)?;
    Ok(Some(Merged { bytes, open }))
}

/// Returns what `marks` make of the merge of three texts.
fn merged_texts(alloc: Global, texts: &Texts, marks: &[u8]) -> Result<Option<Merged>, AllocError>
    ensures { (base ours theirs : List ℕ) → texts.now ≡ texts_of base ours theirs
        → IfOk result (IsMergedByMarks base ours theirs marks.now) }
{
    let mut file = file_of_texts(alloc, texts)?;
    let merged = merged_of(alloc, &mut file, marks)?;
    Ok(merged)
}

/// Returns what `marks` make of the merge of three files, or `None` if they are not as many as the
/// items of the conflicts. There is a mark for each record of a conflict of
/// [`merge_records`](crate::merge_records), in order: 1 if the item is checked. Our lines and their
/// lines are taken if they are checked, and the lines of the base if they are not.
///
/// # Errors
/// `AllocError`: an allocation failed.
pub fn merge_by_marks(
    alloc: Global,
    base: &[u8],
    ours: &[u8],
    theirs: &[u8],
    marks: &[u8],
) -> Result<Option<Merged>, AllocError>
    ensures { IfOk result (IsMergedByMarks base.now ours.now theirs.now marks.now) }
{
    let texts = texts_of(alloc, base, ours, theirs)?;
    merged_texts(alloc, &texts, marks)
}
