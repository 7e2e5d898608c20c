//! Toggles of files, sections and lines, in place. Other marks of the same file may follow.
//! Indexes of files, sections and lines count from 0.
ghost use Rattle.std.specs.Prelude.{◌≡◌, MatchOption, false, map, not, option_and_then, slice_get, true};
ghost use Rattle.std.specs.List.{list_all};
ghost use Rattle.scm_types.specs.Marks.{file_with_marks, line_with_mark, section_with_marks};
ghost use Rattle.scm_selection.specs.Coherence.{KeepsCoherent};
ghost use Rattle.scm_types.specs.Edits.{modify};
ghost use Rattle.scm_selection.specs.Toggle.{after_lines, after_mode, after_section, is_all_checked, is_checked_by, is_checked_file, line_mark, mark_after, with_all_inverted, with_all_set, with_changed_set, with_file_inverted, with_file_toggled, with_key_toggled, with_line_alone_inverted, with_line_inverted, with_line_toggled, with_section_toggled};

use scm_types::repair::{check_modes, uncheck_deletions};
use scm_types::{File, FileMode, LineKey, Section, SectionChangedLine, SelectionKey, Tristate};

/// Returns the mark after a toggle: checked if nothing was checked, else unchecked.
fn mark_after(tristate: Tristate) -> bool
    ensures { result ≡ mark_after tristate }
{
    match tristate {
        Tristate::False => true,
        Tristate::Partial | Tristate::True => false,
    }
}

/// Sets every changed line of `section` to `checked`.
fn set_changed(section: &mut Section<'_>, checked: bool)
    ensures { section.new ≡ with_changed_set checked section.old }
{
    match section {
        Section::Changed { .. } => section.set_checked(checked),
        Section::Unchanged { .. } | Section::FileMode { .. } | Section::Binary { .. } => {}
    }
}

/// Checks every changed line of `sections`.
fn check_all_changed(sections: &mut [Section<'_>])
    ensures { sections.new ≡ map (with_changed_set true) sections.old }
{
    for section in sections.iter_mut() {
        set_changed(section, true);
    }
}

/// Unchecks everything in `sections`.
fn uncheck_all(sections: &mut [Section<'_>])
    ensures { sections.new ≡ map (section_with_marks (λ _. false)) sections.old }
{
    for section in sections.iter_mut() {
        section.set_checked(false);
    }
}

/// Sets the marks that follow after changed lines were set to `checked` in a file of mode `mode`.
fn follow_lines(mode: FileMode, checked: bool, sections: &mut [Section<'_>])
    ensures { sections.new ≡ after_lines mode checked sections.old }
{
    if !checked {
        uncheck_deletions(sections);
    } else if mode.is_absent() {
        check_modes(sections);
    }
}

/// Sets the marks that follow after a change from `mode` to `new_mode` was set to `checked`.
fn follow_mode(mode: FileMode, new_mode: FileMode, checked: bool, sections: &mut [Section<'_>])
    ensures { sections.new ≡ after_mode mode new_mode checked sections.old }
{
    if checked {
        if new_mode.is_absent() {
            check_all_changed(sections);
        }
    } else if mode.is_absent() {
        uncheck_all(sections);
    }
}

/// Sets section `index` to `checked`, if there is one. No other marks follow.
fn set_section_at(sections: &mut [Section<'_>], index: usize, checked: bool)
    ensures { sections.new ≡ modify (section_with_marks (λ _. checked)) sections.old index }
{
    if index < sections.len() {
        sections[index].set_checked(checked);
    }
}

/// Sets section `index` of a file of mode `mode` to `checked`, and the marks that follow.
/// If there is no such section, it is a no-op.
fn set_section(mode: FileMode, sections: &mut [Section<'_>], index: usize, checked: bool)
    ensures { MatchOption (slice_get sections.old index) (sections.new ≡ sections.old)
        (λ section. sections.new ≡ after_section mode checked section
        (modify (section_with_marks (λ _. checked)) sections.old index)) }
{
    if index >= sections.len() {
        return;
    }
    match &sections[index] {
        Section::Unchanged { .. } | Section::Binary { .. } => {
            set_section_at(sections, index, checked);
        }
        Section::Changed { .. } => {
            set_section_at(sections, index, checked);
            follow_lines(mode, checked, sections);
        }
        Section::FileMode { mode: new_mode, .. } => {
            let new_mode = *new_mode;
            set_section_at(sections, index, checked);
            follow_mode(mode, new_mode, checked, sections);
        }
    }
}

/// Returns the mark of line `line` of `section`, if it has such a changed line.
fn line_mark(section: &Section<'_>, line: usize) -> Option<bool>
    ensures { result ≡ line_mark line section.now }
{
    match section {
        Section::Changed { lines } => {
            lines.as_slice().get(line).map(|changed| changed.is_checked)
        }
        Section::Unchanged { .. } | Section::FileMode { .. } | Section::Binary { .. } => None,
    }
}

/// Returns the mark of line `line` of section `section`, if there is such a changed line.
fn line_mark_at(sections: &[Section<'_>], section: usize, line: usize) -> Option<bool>
    ensures { result ≡ option_and_then (line_mark line) (slice_get sections.now section) }
{
    sections
        .get(section)
        .and_then(|section| line_mark(section, line))
}

/// Inverts line `line`, if there is one.
fn invert_in(lines: &mut [SectionChangedLine<'_>], line: usize)
    ensures { lines.new ≡ modify (line_with_mark not) lines.old line }
{
    if line < lines.len() {
        let changed = &mut lines[line];
        changed.is_checked = !changed.is_checked;
    }
}

/// Inverts line `line` of `section`, if it has such a changed line.
fn invert_line(section: &mut Section<'_>, line: usize)
    ensures { section.new ≡ with_line_inverted line section.old }
{
    match section {
        Section::Changed { lines } => invert_in(lines.as_mut_slice(), line),
        Section::Unchanged { .. } | Section::FileMode { .. } | Section::Binary { .. } => {}
    }
}

/// Inverts line `line` of section `section`, if there is such a changed line.
fn invert_line_at(sections: &mut [Section<'_>], section: usize, line: usize)
    ensures { sections.new ≡ modify (with_line_inverted line) sections.old section }
{
    if section < sections.len() {
        invert_line(&mut sections[section], line);
    }
}

/// Inverts a line of a file of mode `mode`, and sets the marks that follow. `checked` is the new mark.
fn set_line(
    mode: FileMode,
    sections: &mut [Section<'_>],
    section: usize,
    line: usize,
    checked: bool,
)
    ensures { sections.new
        ≡ after_lines mode checked (modify (with_line_inverted line) sections.old section) }
{
    invert_line_at(sections, section, line);
    follow_lines(mode, checked, sections);
}

/// Toggles the whole file.
fn toggle_file(file: &mut File<'_>)
    ensures { file.new ≡ with_file_toggled file.old }
{
    let checked = mark_after(file.tristate());
    file.set_checked(checked);
}

/// Toggles section `index` of `file`, if there is one.
fn toggle_section(file: &mut File<'_>, index: usize)
    ensures { file.new ≡ with_section_toggled index file.old }
{
    if let Some(section) = file.sections.get(index) {
        let checked = mark_after(section.tristate());
        set_section(file.file_mode, file.sections.as_mut_slice(), index, checked);
    }
}

/// Toggles line `line` of section `section` of `file`, if there is such a changed line.
fn toggle_line(file: &mut File<'_>, section: usize, line: usize)
    ensures { file.new ≡ with_line_toggled section line file.old }
{
    if let Some(was_checked) = line_mark_at(file.sections.as_slice(), section, line) {
        set_line(
            file.file_mode,
            file.sections.as_mut_slice(),
            section,
            line,
            !was_checked,
        );
    }
}

/// Toggles what `key` names in `files`, if it is there, and sets the marks that follow in the same
/// file.
pub fn toggle_key(files: &mut [File<'_>], key: SelectionKey)
    ensures { files.new ≡ with_key_toggled key files.old }
{
    match key {
        SelectionKey::None => {}
        SelectionKey::File(key) => {
            if key.file_idx < files.len() {
                toggle_file(&mut files[key.file_idx]);
            }
        }
        SelectionKey::Section(key) => {
            if key.file_idx < files.len() {
                toggle_section(&mut files[key.file_idx], key.section_idx);
            }
        }
        SelectionKey::Line(key) => {
            if key.file_idx < files.len() {
                toggle_line(&mut files[key.file_idx], key.section_idx, key.line_idx);
            }
        }
    }
}

/// Inverts line `line` of section `section` of `file`, if there is such a changed line.
fn invert_line_in(file: &mut File<'_>, section: usize, line: usize)
    ensures { file.new ≡ with_line_alone_inverted section line file.old }
{
    invert_line_at(file.sections.as_mut_slice(), section, line);
}

/// Inverts the changed line that `key` names in `files`, if it is there. Unlike [`toggle_key`], it
/// leaves all other marks as they are, and reads no other section.
pub fn invert_line_alone(files: &mut [File<'_>], key: LineKey)
    ensures { files.new ≡ modify (with_line_alone_inverted key.section_idx key.line_idx)
        files.old key.file_idx }
{
    if key.file_idx < files.len() {
        invert_line_in(&mut files[key.file_idx], key.section_idx, key.line_idx);
    }
}

/// Inverts every mark of `file`, and repairs it.
fn invert(file: &mut File<'_>)
    ensures { file.new ≡ with_file_inverted file.old }
{
    file.toggle_all();
    file.repair();
}

/// Inverts every mark of `files`, and repairs each file.
pub fn invert_all(files: &mut [File<'_>])
    ensures { files.new ≡ with_all_inverted files.old }
{
    for file in files.iter_mut() {
        invert(file);
    }
}

/// Returns whether `file` is wholly checked.
fn is_checked(file: &File<'_>) -> bool
    ensures { result ≡ is_checked_file file.now }
{
    match file.tristate() {
        Tristate::False | Tristate::Partial => false,
        Tristate::True => true,
    }
}

/// Returns whether each of `files` is wholly checked.
fn is_each_checked(files: &[File<'_>]) -> bool
    ensures { result ≡ list_all is_checked_file files.now }
{
    files.iter().all(|file| is_checked(file))
}

/// Returns whether there are files and each is wholly checked.
fn is_all_checked(files: &[File<'_>]) -> bool
    ensures { result ≡ is_all_checked files.now }
{
    if files.is_empty() {
        false
    } else {
        is_each_checked(files)
    }
}

/// Sets every mark of `files` to `checked`.
fn mark_all(files: &mut [File<'_>], checked: bool)
    ensures { files.new ≡ map (file_with_marks (λ _. checked)) files.old }
{
    for file in files.iter_mut() {
        file.set_checked(checked);
    }
}

/// Unchecks everything in `files` if there are files and all are wholly checked, else checks
/// everything.
pub fn set_all(files: &mut [File<'_>])
    ensures { files.new ≡ with_all_set files.old }
{
    let checked = !is_all_checked(files);
    mark_all(files, checked);
}

/// Proves that [`toggle_key`], [`set_all`] and [`invert_all`] keep each coherent file coherent,
/// unless it is new and also deleted. The call is a no-op.
pub fn toggles_keep_coherence(_files: &[File<'_>], _key: SelectionKey)
    ensures key { KeepsCoherent _files.now (with_key_toggled _key _files.now) }
    ensures all { KeepsCoherent _files.now (with_all_set _files.now) }
    ensures inverted { KeepsCoherent _files.now (with_all_inverted _files.now) }
{}
