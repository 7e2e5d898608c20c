//! The marks and the texts of the items of a file.
ghost use Rattle.std.specs.Prelude.{◌≡◌, ◌++◌, IfOk, OnOk, map, option_map};
ghost use Rattle.std.specs.List.{flat_map};
ghost use Rattle.scm_types.specs.declared.line.SectionChangedLine.{SectionChangedLine};
ghost use Rattle.scm_c_values.specs.States.{byte_of_mark, bytes_of_section, line_at, line_in_file, text_of_line};

use crate::owners::Key;
use scm_types::{File, RecordState, Section, SectionChangedLine};
use std::alloc::{AllocError, Global};

/// Returns the byte of a mark: 1 if it is checked, or else 0.
fn mark_byte(is_checked: bool) -> u8
    ensures { result ≡ byte_of_mark is_checked }
{
    if is_checked { 1 } else { 0 }
}

/// Adds the bytes of the marks of `lines`.
fn push_lines(marks: &mut Vec<u8>, lines: &[SectionChangedLine<'static>]) -> Result<(), AllocError>
    ensures { OnOk result (marks.new.items ≡ marks.old.items
        ++ map (λ (l : SectionChangedLine). byte_of_mark l.is_checked) lines.now) }
{
    for line in lines {
        marks.push(mark_byte(line.is_checked))?;
    }
    Ok(())
}

/// Adds the bytes of the marks of `section`.
fn push_section(marks: &mut Vec<u8>, section: &Section<'static>) -> Result<(), AllocError>
    ensures { OnOk result
        (marks.new.items ≡ marks.old.items ++ bytes_of_section section.now) }
{
    match section {
        Section::Unchanged { .. } => Ok(()),
        Section::Changed { lines } => push_lines(marks, lines.as_slice()),
        Section::FileMode { is_checked, .. } | Section::Binary { is_checked, .. } => {
            marks.push(mark_byte(*is_checked))?;
            Ok(())
        }
    }
}

/// Returns the bytes of the marks of `file`, in order.
///
/// # Errors
/// `AllocError`: an allocation failed.
pub fn marks_of(alloc: Global, file: &File<'static>) -> Result<Vec<u8>, AllocError>
    ensures { IfOk result
        (λ marks. marks.items ≡ flat_map bytes_of_section file.now.sections) }
{
    let mut marks = Vec::new(alloc);
    for section in file.sections.as_slice() {
        push_section(&mut marks, section)?;
    }
    Ok(marks)
}

/// Returns the text of line `line` of `section`, if it has such a line.
fn text_of_line<'s>(section: &'s Section<'static>, line: usize) -> Option<&'s str>
    ensures { option_map (λ text. text.now) result ≡ text_of_line line section.now }
{
    match section {
        Section::Unchanged { lines } => match lines.as_slice().get(line) {
            Some(text) => Some(text.as_str()),
            None => None,
        },
        Section::Changed { lines } => match lines.as_slice().get(line) {
            Some(changed) => Some(changed.line.as_str()),
            None => None,
        },
        Section::FileMode { .. } | Section::Binary { .. } => None,
    }
}

/// Returns the text of the line of `file` that `key` names, if there is one.
fn line_in_file<'s>(file: &'s File<'static>, key: &Key) -> Option<&'s str>
    ensures { option_map (λ text. text.now) result ≡ line_in_file key.now file.now }
{
    match file.sections.as_slice().get(key.section) {
        Some(section) => text_of_line(section, key.line),
        None => None,
    }
}

/// Returns the text of the line that `key` names, if there is one.
pub fn line_at<'s>(state: &'s RecordState<'static>, key: &Key) -> Option<&'s str>
    ensures { option_map (λ text. text.now) result ≡ line_at key.now state.now }
{
    match state.files.as_slice().get(key.file) {
        Some(file) => line_in_file(file, key),
        None => None,
    }
}
