//! Lists of the keys of a state, in the order of the screen. Indexes count from 0.
ghost use Rattle.std.specs.Prelude.{◌≡◌, ◌++◌, filter, IfErr, IfOk, OnOk};
ghost use Rattle.scm_errors.specs.declared.error.RecordError.TheVariants.{OutOfMemory};
ghost use Rattle.scm_selection.specs.KeyLists.{all_keys, file_key, first_key, is_section, line_key, line_keys, section_key, section_keys, sections_keys};

use scm_types::{
    File, FileKey, RecordError, Section, SectionChangedLine, SectionKey, SelectionKey,
};
use std::alloc::{AllocError, Global};

/// Returns the key of file `file`, counted from 0, in the view of the first commit.
pub fn file_key(file: usize) -> SelectionKey
    ensures { result ≡ file_key file }
{
    SelectionKey::File(FileKey {
        commit_idx: 0,
        file_idx: file,
    })
}

/// Returns the key of section `section` of file `file` in the view of the first commit. Both are
/// counted from 0.
pub fn section_key(file: usize, section: usize) -> SelectionKey
    ensures { result ≡ section_key file section }
{
    SelectionKey::Section(SectionKey {
        commit_idx: 0,
        file_idx: file,
        section_idx: section,
    })
}

/// Returns the key of line `line` of section `section` of file `file` in the view of the first
/// commit. All three are counted from 0.
pub fn line_key(file: usize, section: usize, line: usize) -> SelectionKey
    ensures { result ≡ line_key file section line }
{
    let file = FileKey {
        commit_idx: 0,
        file_idx: file,
    };
    SelectionKey::Line(file.section(section).line(line))
}

/// Returns the key of the first of `files`, or `SelectionKey::None` if `files` is empty.
pub fn first_key(files: &[File<'_>]) -> SelectionKey
    ensures { result ≡ first_key files.now }
{
    if files.is_empty() {
        SelectionKey::None
    } else {
        file_key(0)
    }
}

/// Adds the key of each line of a section to `keys`.
fn push_lines(
    keys: &mut Vec<SelectionKey>,
    file: usize,
    section: usize,
    lines: &[SectionChangedLine<'_>],
) -> Result<(), AllocError>
    ensures { OnOk result
        (keys.new.items ≡ keys.old.items ++ line_keys file section 0 lines.now) }
{
    for line in 0..lines.len() {
        keys.push(line_key(file, section, line))?;
    }
    Ok(())
}

/// Adds the keys of section `index` to `keys`: its own and those of its changed lines.
fn push_section(
    keys: &mut Vec<SelectionKey>,
    file: usize,
    index: usize,
    section: &Section<'_>,
) -> Result<(), AllocError>
    ensures { OnOk result
        (keys.new.items ≡ keys.old.items ++ section_keys file index section.now) }
{
    match section {
        Section::Unchanged { .. } => Ok(()),
        Section::Changed { lines } => {
            keys.push(section_key(file, index))?;
            push_lines(keys, file, index, lines.as_slice())
        }
        Section::FileMode { .. } | Section::Binary { .. } => {
            keys.push(section_key(file, index))?;
            Ok(())
        }
    }
}

/// Adds the keys of all sections of file `file` to `keys`.
fn push_sections(
    keys: &mut Vec<SelectionKey>,
    file: usize,
    sections: &[Section<'_>],
) -> Result<(), AllocError>
    ensures { OnOk result
        (keys.new.items ≡ keys.old.items ++ sections_keys file 0 sections.now) }
{
    for (index, section) in sections.iter().enumerate() {
        push_section(keys, file, index, section)?;
    }
    Ok(())
}

/// Returns the keys of `files` in order: each file before its sections that are not context, and
/// each section before its changed lines.
///
/// # Errors
/// `OutOfMemory`: an allocation failed.
pub fn all_keys(alloc: Global, files: &[File<'_>]) -> Result<Vec<SelectionKey>, RecordError>
    ensures ok { IfOk result (λ keys. keys.items ≡ all_keys files.now) }
    ensures err { IfErr result (λ e. e ≡ OutOfMemory) }
{
    let mut keys = Vec::new(alloc);
    for (index, file) in files.iter().enumerate() {
        keys.push(file_key(index))?;
        push_sections(&mut keys, index, file.sections.as_slice())?;
    }
    Ok(keys)
}

/// Adds the key of section `index` to `keys`, unless it is context.
fn push_section_key(
    keys: &mut Vec<SelectionKey>,
    file: usize,
    index: usize,
    section: &Section<'_>,
) -> Result<(), AllocError>
    ensures { OnOk result
        (keys.new.items
        ≡ keys.old.items ++ filter is_section (section_keys file index section.now)) }
{
    if !section.is_editable() {
        return Ok(());
    }
    keys.push(section_key(file, index))?;
    Ok(())
}

/// Adds the key of each section of file `file` that is not context to `keys`.
fn push_section_keys(
    keys: &mut Vec<SelectionKey>,
    file: usize,
    sections: &[Section<'_>],
) -> Result<(), AllocError>
    ensures { OnOk result
        (keys.new.items
        ≡ keys.old.items ++ filter is_section (sections_keys file 0 sections.now)) }
{
    for (index, section) in sections.iter().enumerate() {
        push_section_key(keys, file, index, section)?;
    }
    Ok(())
}

/// Returns the keys of all sections of `files` that are not context.
///
/// # Errors
/// `OutOfMemory`: an allocation failed.
pub fn section_keys(alloc: Global, files: &[File<'_>]) -> Result<Vec<SelectionKey>, RecordError>
    ensures ok { IfOk result (λ keys. keys.items ≡ filter is_section (all_keys files.now)) }
    ensures err { IfErr result (λ e. e ≡ OutOfMemory) }
{
    let mut keys = Vec::new(alloc);
    for (index, file) in files.iter().enumerate() {
        push_section_keys(&mut keys, index, file.sections.as_slice())?;
    }
    Ok(keys)
}
