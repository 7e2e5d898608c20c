//! What marks make of a merge, with markers around each conflict that is open.
ghost use Rattle.std.specs.Prelude.{◌≡◌, ℕ, List, IfOk, false, true};
ghost use Rattle.scm_merge.specs.WithMarkers.{IsLabelled, IsMergedWithMarkers, IsWithMarkers};
ghost use Rattle.scm_merge.specs.Records.{texts_of};

use crate::labels::Labels;
use crate::markers::bytes_with_markers;
use crate::texts::{Texts, file_of_texts, texts_of};
use scm_embed::{has_items, mark_file};
use scm_types::File;
use std::alloc::{AllocError, Global};

/// The labels of the three versions, as bytes. An empty one, or one with a line end, is left out.
#[derive(Clone, Copy, Debug)]
pub struct LabelBytes<'a> {
    /// The label of our version.
    pub ours: &'a [u8],

    /// The label of the base.
    pub base: &'a [u8],

    /// The label of their version.
    pub theirs: &'a [u8],
}

/// Sets the marks in `file`, if they are as many as its items, and returns what they make of it, with markers.
fn marked_bytes(
    alloc: Global,
    file: &mut File<'_>,
    marks: &[u8],
    labels: Labels<'_>,
    least: usize,
) -> Result<Option<Vec<u8>>, AllocError>
    ensures { IfOk result (IsWithMarkers least labels.entry marks.now file.old) }
{
    if !has_items(file, marks.len()) {
        return Ok(None);
    }
    mark_file(file, marks);
    let bytes = bytes_with_markers(alloc, file, labels, least)?;
    Ok(Some(bytes))
}

/// Sets `marks` in a file, and returns what they make of it, with these labels.
fn labelled_bytes(
    alloc: Global,
    file: &mut File<'_>,
    marks: &[u8],
    labels: LabelBytes<'_>,
    least: usize,
) -> Result<Option<Vec<u8>>, AllocError>
    ensures { IfOk result (λ bytes. IsLabelled least labels.entry marks.now file.old bytes) }
{
    let texts = texts_of(alloc, labels.base, labels.ours, labels.theirs)?;
    let shown = Labels {
        ours: texts.ours.as_str(),
        base: texts.base.as_str(),
        theirs: texts.theirs.as_str(),
    };
    let bytes = marked_bytes(alloc, file, marks, shown, least)?;
    Ok(bytes)
}

/// Returns what `marks` make of the merge of three texts, with markers.
fn labelled_texts(
    alloc: Global,
    texts: &Texts,
    marks: &[u8],
    labels: LabelBytes<'_>,
    least: usize,
) -> Result<Option<Vec<u8>>, AllocError>
    ensures { (base ours theirs : List ℕ) → texts.now ≡ texts_of base ours theirs
        → IfOk result (IsMergedWithMarkers least labels.entry base ours theirs marks.now) }
{
    let mut file = file_of_texts(alloc, texts)?;
    let bytes = labelled_bytes(alloc, &mut file, marks, labels, least)?;
    Ok(bytes)
}

/// Returns what `marks` make of the merge of three files, as [`merge_by_marks`](crate::merge_by_marks)
/// takes them, with markers of at least `least` signs around each conflict that is open; or `None` if they
/// are not as many as the items of the conflicts. [`bytes_with_markers`] has the form of the
/// markers.
///
/// # Errors
/// `AllocError`: an allocation failed.
pub fn merge_with_markers(
    alloc: Global,
    base: &[u8],
    ours: &[u8],
    theirs: &[u8],
    marks: &[u8],
    labels: LabelBytes<'_>,
    least: usize,
) -> Result<Option<Vec<u8>>, AllocError>
    ensures { IfOk result
        (IsMergedWithMarkers least labels.entry base.now ours.now theirs.now marks.now) }
{
    let texts = texts_of(alloc, base, ours, theirs)?;
    labelled_texts(alloc, &texts, marks, labels, least)
}
