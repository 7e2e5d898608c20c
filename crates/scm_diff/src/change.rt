//! The file of a state that shows how one version of a file becomes another.
ghost use Rattle.std.specs.Prelude.{◌≡◌, IfOk};
ghost use Rattle.scm_diff.specs.Change.{IsChange, is_same_mode, mode_of, mode_sections, text_in};

use crate::compare::hunks;
use crate::lines::lines_of;
use crate::sections::push_line_sections;
use scm_types::{File, FileMode, Items, Section, Text};
use std::alloc::{AllocError, Global};

/// A version of a file that exists.
#[derive(Clone, Copy, Debug)]
pub struct Version<'a> {
    /// The mode of the file, as the bits of Unix.
    pub mode: usize,

    /// The text of the file.
    pub text: &'a str,
}

/// Returns the mode of the version, `Absent` if there is none.
fn mode_of(version: Option<Version<'_>>) -> FileMode
    ensures { result ≡ mode_of version.entry }
{
    match version {
        Some(version) => FileMode::Unix(version.mode),
        None => FileMode::Absent,
    }
}

/// Returns the text of the version, empty if there is none.
fn text_in<'a>(version: Option<Version<'a>>) -> &'a str
    ensures { result.now ≡ text_in version.entry }
{
    match version {
        Some(version) => version.text,
        None => "",
    }
}

/// Returns whether the modes are equal.
fn is_same_mode(old: FileMode, new: FileMode) -> bool
    ensures { result ≡ is_same_mode old new }
{
    match (old, new) {
        (FileMode::Absent, FileMode::Absent) => true,
        (FileMode::Absent, FileMode::Unix(_)) => false,
        (FileMode::Unix(_), FileMode::Absent) => false,
        (FileMode::Unix(old), FileMode::Unix(new)) => old == new,
    }
}

/// Returns the section of the change of mode, if the mode changes.
fn sections_of_mode<'a>(
    alloc: Global,
    old: FileMode,
    new: FileMode,
) -> Result<Vec<Section<'a>>, AllocError>
    ensures { IfOk result (λ sections. sections.items ≡ mode_sections old new) }
{
    let mut sections = Vec::new(alloc);
    if !is_same_mode(old, new) {
        let section = Section::FileMode {
            is_checked: false,
            mode: new,
        };
        sections.push(section)?;
    }
    Ok(sections)
}

/// Returns the file that shows how `old` becomes `new`, with nothing checked. `None` is a file that
/// does not exist. Lines are borrowed from the texts.
///
/// If the modes differ, the first section is the change of mode. Then come the lines of both texts,
/// in order: context that is equal, and changed lines. A removed line stands right before the added
/// line that replaces it. `old_path` is `None`: the caller sets it for a renamed file.
///
/// A last line without a line end is a line as it is, and differs from the line with one. Read the
/// sides of the file by [`side_text`](crate::side_text), which adds the line end if another line
/// follows. For bytes that may not be UTF-8 see [`text_of_bytes`](crate::text_of_bytes).
///
/// - Nothing checked: the selected side is the old text, the other side the new one.
/// - Everything checked: the reverse.
/// - One pair checked: the selected side is the old text with that one line replaced in place.
/// - Any marks: the lines of a side are the context and the changed lines that the marks put there,
///   in order. None is joined with another, or lost.
///
/// # Errors
/// `AllocError`: an allocation failed.
pub fn changed_file<'a>(
    alloc: Global,
    path: Text<'a>,
    old: Option<Version<'a>>,
    new: Option<Version<'a>>,
) -> Result<File<'a>, AllocError>
    ensures { IfOk result (IsChange path.entry old.entry new.entry) }
{
    let old_mode = mode_of(old);
    let old_lines = lines_of(alloc, text_in(old))?;
    let new_lines = lines_of(alloc, text_in(new))?;
    let differences = hunks(alloc, old_lines.as_slice(), new_lines.as_slice())?;
    let mut sections = sections_of_mode(alloc, old_mode, mode_of(new))?;
    push_line_sections(
        alloc,
        &mut sections,
        old_lines.as_slice(),
        new_lines.as_slice(),
        differences.as_slice(),
    )?;
    Ok(File {
        old_path: None,
        path,
        file_mode: old_mode,
        sections: Items::from(sections),
    })
}
