//! Sample files, as constants.
use crate::forms::binary;
use scm_samples::{Line, changed, context, file_of};
use scm_types::{File, FileMode, RecordError, Section};
use std::alloc::Global;

/// A section of a file.
#[derive(Clone, Copy)]
pub(crate) enum Part {
    /// Context of these lines.
    Context(&'static [&'static str]),
    /// Changes of these lines.
    Changes(&'static [Line]),
    /// A change of the mode, with its mark and the new mode.
    Mode(bool, FileMode),
    /// A checked binary change, with its old and its new description.
    Bytes(Option<&'static str>, Option<&'static str>),
}

/// Returns the section of `part`.
fn section_of(alloc: Global, part: Part) -> Result<Section<'static>, RecordError> {
    match part {
        Part::Context(lines) => context(alloc, lines),
        Part::Changes(lines) => changed(alloc, lines),
        Part::Mode(is_checked, mode) => Ok(Section::FileMode { is_checked, mode }),
        Part::Bytes(old, new) => Ok(binary(true, old, new)),
    }
}

/// Returns the sections of `parts`.
pub(crate) fn sections_of(
    alloc: Global,
    parts: &[Part],
) -> Result<Vec<Section<'static>>, RecordError> {
    let mut sections = Vec::new(alloc);
    for part in parts {
        sections.push(section_of(alloc, *part)?)?;
    }
    Ok(sections)
}

/// Returns the file `f` of `parts`, whose old mode is `file_mode`.
pub(crate) fn file_with_parts(
    alloc: Global,
    file_mode: FileMode,
    parts: &[Part],
) -> Result<File<'static>, RecordError> {
    Ok(file_of(file_mode, sections_of(alloc, parts)?))
}
