//! Flags for the files and sections of the first commit: each says whether its key is in a set.
//! Indexes count from 0.
ghost use Rattle.std.specs.Prelude.{◌≡◌, true, map, slice_get, IfOk, IsTrue};
ghost use Rattle.scm_types.specs.Edits.{modify};
ghost use Rattle.scm_types.specs.Marks.{is_editable_section};
ghost use Rattle.scm_selection.specs.KeyFlags.{flags_of, has_flag, has_section_flag, is_file_flagged, is_flagged, is_section_flagged, is_set_in, with_flag, with_own_flag, with_section_flag};

use scm_types::{File, Items, Section, SelectionKey};
use std::alloc::{AllocError, Global};

/// The flags of a file and of its sections.
#[derive(Debug, Drop)]
pub(crate) struct FileFlags {
    /// The flag of the file itself.
    pub(crate) is_set: bool,
    /// The flag of each section.
    pub(crate) sections: Items<bool>,
}

/// Returns whether `flags` have one at `index`, and it is set.
fn is_set_at(flags: &[bool], index: usize) -> bool
    ensures { result ≡ is_set_in (slice_get flags.now index) }
{
    match flags.get(index) {
        None => false,
        Some(flag) => *flag,
    }
}

/// Returns whether there are flags of file `file`, and its own is set.
fn is_file_flagged(flags: &[FileFlags], file: usize) -> bool
    ensures { result ≡ is_file_flagged (slice_get flags.now file) }
{
    match flags.get(file) {
        None => false,
        Some(flags) => flags.is_set,
    }
}

/// Returns whether there are flags of file `file`, and that of section `section` is set.
fn is_section_flagged(flags: &[FileFlags], file: usize, section: usize) -> bool
    ensures { result ≡ is_section_flagged section (slice_get flags.now file) }
{
    match flags.get(file) {
        None => false,
        Some(flags) => is_set_at(flags.sections.as_slice(), section),
    }
}

/// Returns whether `key` has a flag, and it is set.
pub(crate) fn is_flagged(flags: &[FileFlags], key: SelectionKey) -> bool
    ensures { result ≡ is_flagged flags.now key }
{
    match key {
        SelectionKey::None => false,
        SelectionKey::File(key) => key.commit_idx == 0 && is_file_flagged(flags, key.file_idx),
        SelectionKey::Section(key) => {
            key.commit_idx == 0 && is_section_flagged(flags, key.file_idx, key.section_idx)
        }
        SelectionKey::Line(_) => false,
    }
}

/// Returns whether there are flags of file `file`, and among them that of section `section`.
fn has_section_flag(flags: &[FileFlags], file: usize, section: usize) -> bool
    ensures { result ≡ has_section_flag section (slice_get flags.now file) }
{
    match flags.get(file) {
        None => false,
        Some(flags) => section < flags.sections.len(),
    }
}

/// Returns whether `key` has a flag.
pub(crate) fn has_flag(flags: &[FileFlags], key: SelectionKey) -> bool
    ensures { result ≡ has_flag flags.now key }
{
    match key {
        SelectionKey::None => false,
        SelectionKey::File(key) => key.commit_idx == 0 && key.file_idx < flags.len(),
        SelectionKey::Section(key) => {
            key.commit_idx == 0 && has_section_flag(flags, key.file_idx, key.section_idx)
        }
        SelectionKey::Line(_) => false,
    }
}

/// Sets the flag at `index` to `is_set`, if there is one.
fn put_at(flags: &mut [bool], index: usize, is_set: bool)
    ensures { flags.new ≡ modify (λ _. is_set) flags.old index }
{
    if index < flags.len() {
        flags[index] = is_set;
    }
}

/// Sets the flag of file `file` to `is_set`, if there is one.
fn put_file_flag(flags: &mut [FileFlags], file: usize, is_set: bool)
    ensures { flags.new ≡ modify (with_own_flag is_set) flags.old file }
{
    if file < flags.len() {
        flags[file].is_set = is_set;
    }
}

/// Sets the flag of section `section` of file `file` to `is_set`, if there is one.
fn put_section_flag(flags: &mut [FileFlags], file: usize, section: usize, is_set: bool)
    ensures { flags.new ≡ modify (with_section_flag is_set section) flags.old file }
{
    if file < flags.len() {
        put_at(flags[file].sections.as_mut_slice(), section, is_set);
    }
}

/// Sets the flag of `key` to `is_set`, if it has one.
pub(crate) fn put_flag(flags: &mut [FileFlags], key: SelectionKey, is_set: bool)
    ensures { flags.new ≡ with_flag is_set flags.old key }
{
    match key {
        SelectionKey::None => {}
        SelectionKey::File(key) => {
            if key.commit_idx == 0 {
                put_file_flag(flags, key.file_idx, is_set);
            }
        }
        SelectionKey::Section(key) => {
            if key.commit_idx == 0 {
                put_section_flag(flags, key.file_idx, key.section_idx, is_set);
            }
        }
        SelectionKey::Line(_) => {}
    }
}

/// Returns a flag for each of `sections`, which is set unless the section is context.
fn flags_of_sections(alloc: Global, sections: &[Section<'_>]) -> Result<Items<bool>, AllocError>
    ensures { IfOk result (λ flags. flags ≡ map is_editable_section sections.now) }
{
    let mut flags = Vec::with_capacity(alloc, sections.len())?;
    for section in sections {
        flags.push(section.is_editable())?;
    }
    Ok(Items::from(flags))
}

/// Returns the flags of `file`: its own is `is_set`, and those of sections are set unless they are
/// context.
fn flags_of_file(alloc: Global, is_set: bool, file: &File<'_>) -> Result<FileFlags, AllocError>
    ensures { IfOk result (λ flags. flags ≡ flags_of is_set file.now) }
{
    let sections = flags_of_sections(alloc, file.sections.as_slice())?;
    Ok(FileFlags { is_set, sections })
}

/// Returns the flags of `files`: their own are `is_set`, and those of sections are set unless they
/// are context.
pub(crate) fn flags_of_files(
    alloc: Global,
    is_set: bool,
    files: &[File<'_>],
) -> Result<Items<FileFlags>, AllocError>
    ensures { IfOk result (λ flags. flags ≡ map (flags_of is_set) files.now) }
{
    let mut flags = Vec::with_capacity(alloc, files.len())?;
    for file in files {
        flags.push(flags_of_file(alloc, is_set, file)?)?;
    }
    Ok(Items::from(flags))
}

/// Returns whether `flags` has one for each of `sections`, which is set unless the section is context.
fn are_sections_set(flags: &[bool], sections: &[Section<'_>]) -> bool
    ensures { IsTrue result → flags.now ≡ map is_editable_section sections.now }
{
    if flags.len() != sections.len() {
        return false;
    }
    for index in 0..sections.len() {
        if flags[index] != sections[index].is_editable() {
            return false;
        }
    }
    true
}

/// Returns whether `flags` are those of `file` with its own set.
fn is_file_set(flags: &FileFlags, file: &File<'_>) -> bool
    ensures { IsTrue result → flags.now ≡ flags_of true file.now }
{
    flags.is_set && are_sections_set(flags.sections.as_slice(), file.sections.as_slice())
}

/// Returns whether `flags` are those of `files` with their own set.
pub(crate) fn are_files_set(flags: &[FileFlags], files: &[File<'_>]) -> bool
    ensures { IsTrue result → flags.now ≡ map (flags_of true) files.now }
{
    if flags.len() != files.len() {
        return false;
    }
    for index in 0..files.len() {
        if !is_file_set(&flags[index], &files[index]) {
            return false;
        }
    }
    true
}
