//! Sample files, as constants.
use crate::checks::made;
use scm_samples::{DEFAULT, Line, binary, changed, commits_of, context, deletion, file_of};
use scm_types::{File, Items, RecordError, RecordState, Section};
use std::alloc::Global;
use std::process::Abort;

/// A section of a file.
#[derive(Clone, Copy)]
pub(crate) enum Part {
    /// Context of these lines.
    Context(&'static [&'static str]),
    /// Changes of these lines.
    Changes(&'static [Line]),
    /// The deletion of the file.
    Deletion,
    /// A binary change, and whether it is checked.
    Bytes(bool),
}

/// Returns the section of `part`.
fn section_of(alloc: Global, part: Part) -> Result<Section<'static>, RecordError> {
    match part {
        Part::Context(lines) => context(alloc, lines),
        Part::Changes(lines) => changed(alloc, lines),
        Part::Deletion => Ok(deletion()),
        Part::Bytes(is_checked) => Ok(binary(is_checked)),
    }
}

/// Returns the sections of `parts`.
fn sections_of(rt: &impl Abort, alloc: Global, parts: &[Part]) -> Vec<Section<'static>> {
    let mut sections = Vec::new(alloc);
    for part in parts {
        made(rt, sections.push(made(rt, section_of(alloc, *part))));
    }
    sections
}

/// Returns the file `f` of `parts`.
pub(crate) fn file_of_parts(rt: &impl Abort, alloc: Global, parts: &[Part]) -> File<'static> {
    file_of(DEFAULT, sections_of(rt, alloc, parts))
}

/// Returns the file `f` of `parts`, or no file if there are none.
pub(crate) fn files_of(rt: &impl Abort, alloc: Global, parts: &[Part]) -> Items<File<'static>> {
    if parts.is_empty() {
        Items::new(alloc)
    } else {
        let file = file_of_parts(rt, alloc, parts);
        Items::from(made(rt, vec![in alloc; file]))
    }
}

/// Returns a state of such files, with a message.
pub(crate) fn state_of(rt: &impl Abort, alloc: Global, parts: &[Part]) -> RecordState<'static> {
    RecordState {
        is_read_only: false,
        commits: made(rt, commits_of(alloc, "message")),
        files: files_of(rt, alloc, parts),
    }
}
