//! The file of a state that shows the merge of three files, whatever their bytes are.
ghost use Rattle.std.specs.Prelude.{◌≡◌, IfOk};
ghost use Rattle.scm_merge.specs.Records.{IsMergeOfTexts, texts_of};

use crate::merge::merged_file;
use scm_diff::text_of_bytes;
use scm_types::{File, FileMode, OwnedText, Text};
use std::alloc::{AllocError, Global};

/// The texts of three versions.
#[derive(Drop)]
pub(crate) struct Texts {
    /// That of the base.
    pub(crate) base: OwnedText,

    /// That of our version.
    pub(crate) ours: OwnedText,

    /// That of their version.
    pub(crate) theirs: OwnedText,
}

/// Returns the texts that stand for the bytes of three versions.
///
/// # Errors
/// `AllocError`: an allocation failed.
pub(crate) fn texts_of(
    alloc: Global,
    base: &[u8],
    ours: &[u8],
    theirs: &[u8],
) -> Result<Texts, AllocError>
    ensures { IfOk result (λ texts. texts ≡ texts_of base.now ours.now theirs.now) }
{
    let base_text = text_of_bytes(alloc, base)?;
    let our_text = text_of_bytes(alloc, ours)?;
    let their_text = text_of_bytes(alloc, theirs)?;
    Ok(Texts {
        base: base_text,
        ours: our_text,
        theirs: their_text,
    })
}

/// Returns the file that shows the merge of three texts, with nothing chosen. It has no path.
///
/// # Errors
/// `AllocError`: an allocation failed.
pub(crate) fn file_of_texts<'a>(alloc: Global, texts: &'a Texts) -> Result<File<'a>, AllocError>
    ensures { IfOk result (IsMergeOfTexts texts.now) }
{
    let file = merged_file(
        alloc,
        Text::from(""),
        FileMode::Absent,
        texts.base.as_str(),
        texts.ours.as_str(),
        texts.theirs.as_str(),
    )?;
    Ok(file)
}
