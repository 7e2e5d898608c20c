//! Ranges: all lines between two keys, in the order of the screen.
ghost use Rattle.std.specs.Prelude.{◌≡◌, ◌≤◌, ◌++◌, [], ◌∷◌, None, filter, IfErr, IfOk, OnOk, if◌then◌else◌};
ghost use Rattle.scm_errors.specs.declared.error.RecordError.TheVariants.{OutOfMemory};
ghost use Rattle.scm_selection.specs.KeyLists.{line_keys, section_keys, sections_keys};
ghost use Rattle.scm_front_items.specs.Ranges.{files_among, is_between, is_in_range, is_within, lines_between, mark_for, marking, other_file};

use crate::items::{file_index, is_above, is_equal};
use crate::targets::{Deed, Target, is_marked};
use scm_selection::key_lists::line_key;
use scm_types::{File, RecordError, Section, SectionChangedLine, SelectionKey};
use std::alloc::{AllocError, Global};

/// Returns whether `key` stands from `first` on, and not below `last`.
fn is_within(first: SelectionKey, last: SelectionKey, key: SelectionKey) -> bool
    ensures { result ≡ is_within first last key }
{
    let is_before = is_above(key, first);
    let is_after = is_above(last, key);
    !is_before & !is_after
}

/// Returns whether `key` stands between `a` and `b`, or is one of them, whichever of them stands above.
pub fn is_between(a: SelectionKey, b: SelectionKey, key: SelectionKey) -> bool
    ensures { result ≡ is_between a b key }
{
    let downwards = is_within(a, b, key);
    let upwards = is_within(b, a, key);
    downwards | upwards
}

/// Adds `key`, which is a line's, to `keys` if it is in the range from `a` to `b`.
fn push_if_between(
    keys: &mut Vec<SelectionKey>,
    a: SelectionKey,
    b: SelectionKey,
    key: SelectionKey,
) -> Result<(), AllocError>
    ensures { OnOk result (keys.new.items
        ≡ keys.old.items ++ (if is_between a b key then key ∷ [] else [])) }
{
    if is_between(a, b, key) {
        keys.push(key)?;
    }
    Ok(())
}

/// Adds the lines of the range from `a` to `b` in section `section` of file `file` to `keys`.
fn push_lines(
    keys: &mut Vec<SelectionKey>,
    a: SelectionKey,
    b: SelectionKey,
    file: usize,
    section: usize,
    lines: &[SectionChangedLine<'_>],
) -> Result<(), AllocError>
    ensures { OnOk result (keys.new.items
        ≡ keys.old.items ++ filter (is_in_range a b) (line_keys file section 0 lines.now)) }
{
    for line in 0..lines.len() {
        push_if_between(keys, a, b, line_key(file, section, line))?;
    }
    Ok(())
}

/// Adds the lines of the range from `a` to `b` in section `index` of file `file` to `keys`.
fn push_section(
    keys: &mut Vec<SelectionKey>,
    a: SelectionKey,
    b: SelectionKey,
    file: usize,
    index: usize,
    section: &Section<'_>,
) -> Result<(), AllocError>
    ensures { OnOk result (keys.new.items
        ≡ keys.old.items ++ filter (is_in_range a b) (section_keys file index section.now)) }
{
    match section {
        Section::Changed { lines } => push_lines(keys, a, b, file, index, lines.as_slice()),
        Section::Unchanged { .. } | Section::FileMode { .. } | Section::Binary { .. } => Ok(()),
    }
}

/// Adds the lines of the range from `a` to `b` in file `file` to `keys`.
fn push_sections(
    keys: &mut Vec<SelectionKey>,
    a: SelectionKey,
    b: SelectionKey,
    file: usize,
    sections: &[Section<'_>],
) -> Result<(), AllocError>
    ensures { OnOk result (keys.new.items
        ≡ keys.old.items ++ filter (is_in_range a b) (sections_keys file 0 sections.now)) }
{
    for (index, section) in sections.iter().enumerate() {
        push_section(keys, a, b, file, index, section)?;
    }
    Ok(())
}

/// Returns the lines of the range from `a` to `b`, in the order of the screen: all changed lines
/// between them, and `a` and `b` themselves if they are lines, whichever of them stands above. Folded
/// lines count.
///
/// # Errors
///
/// - `OutOfMemory`: an allocation failed.
pub fn lines_between(
    alloc: Global,
    files: &[File<'_>],
    a: SelectionKey,
    b: SelectionKey,
) -> Result<Vec<SelectionKey>, RecordError>
    ensures ok { IfOk result (λ keys. keys.items ≡ lines_between a b files.now) }
    ensures err { IfErr result (λ e. e ≡ OutOfMemory) }
{
    let mut keys = Vec::new(alloc);
    for (index, file) in files.iter().enumerate() {
        push_sections(&mut keys, a, b, index, file.sections.as_slice())?;
    }
    Ok(keys)
}

/// Returns 1 if `file` is not `last`, and 0 if it is.
fn other_file(file: Option<usize>, last: Option<usize>) -> usize
    ensures value { result ≡ other_file file last }
    ensures most { result ≤ 1 }
{
    if is_equal(file, last) { 0 } else { 1 }
}

/// Returns how many files the lines `keys` of a range are in.
pub fn files_among(keys: &[SelectionKey]) -> usize
    ensures { result ≡ files_among None keys.now }
{
    let mut last = None;
    let mut count: usize = 0;
    for index in 0..keys.len() {
        let file = file_index(keys[index]);
        count += other_file(file, last);
        last = file;
    }
    count
}

/// Returns the mark that lines get which are marked together: the other one than that of the first.
pub fn mark_for(files: &[File<'_>], keys: &[SelectionKey]) -> bool
    ensures { result ≡ mark_for files.now keys.now }
{
    match keys.first() {
        None => true,
        Some(key) => !is_marked(
            files,
            Target {
                key: *key,
                is_checked: true,
            },
        ),
    }
}

/// Adds deeds to `deeds` that set the marks of `keys` to `mark`.
///
/// # Errors
///
/// - `OutOfMemory`: an allocation failed; some deeds may have been added.
pub fn push_marking(
    deeds: &mut Vec<Deed>,
    mark: bool,
    keys: &[SelectionKey],
) -> Result<(), RecordError>
    ensures ok { OnOk result (deeds.new.items ≡ deeds.old.items ++ marking mark keys.now) }
    ensures err { IfErr result (λ e. e ≡ OutOfMemory) }
{
    for index in 0..keys.len() {
        let target = Target {
            key: keys[index],
            is_checked: mark,
        };
        deeds.push(Deed::Mark(target))?;
    }
    Ok(())
}
